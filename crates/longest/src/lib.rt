#![tactic(auto)]
// A plan of the most bytes that Check accepts, and the longest header: definitions and proofs, and no code.
