#![tactic(auto)]
// A plan carried from one form to the other, as definitions: there is no code.
