#![tactic(auto)]
// What a run of the step rules sends, and what arrives in it, counted: definitions in specs/, the laws in proofs/. There is no code.
