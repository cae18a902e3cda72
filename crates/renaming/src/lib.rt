#![tactic(auto)]
// Plans with every pair renamed run alike: definitions in specs/, the laws in proofs/. There is no code.
