#![tactic(auto)]
// The lists of a plan, and the plan packed from them, as definitions: there is no code.
