// Runs, exchanges played against the modelled target, and jobs, with the flash that holds one. These are
// definitions, in specs/, and laws of them, in proofs/; there is no code here.
#![tactic(auto)]
