// Whole lists of a radio job's calls, whatever the replies, and against the modelled module: claims, in
// specs/, and their proofs; there is no code here.
#![tactic(auto)]
