// A job played against the modelled radio module: what it leaves in the flash, message by message. These are
// definitions, in specs/, and laws of them, in proofs/; there is no code here.
#![tactic(auto)]
