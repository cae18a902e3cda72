#![tactic(auto)]
// The engine's state before each tick stands for the cluster of the step rules: definitions and proofs, and no code.
