// What a session's numbers mean: the point of the order that they name, the laws that a reply moves them as
// the order says, and that a session in range stays in range. These are definitions, in specs/, and laws of
// them, in proofs/; there is no code here.
#![tactic(auto)]
