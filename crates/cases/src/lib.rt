#![tactic(auto)]
// The starred cases of document 01, cases of document 02, and plans that show that what is promised is not empty: definitions and proofs, and no code.
