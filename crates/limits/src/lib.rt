#![tactic(auto)]
// The limits that the tables of a plan, the workspace and the library's operations share.

// How many pairs may be known.
pub const PLACES: usize = 65;

// A number that no known pair has.
pub const NO_PAIR: u8 = 255;

// How many pairs a server keeps (document 02, 'Eight': five).
pub const DEPTH: usize = 5;

// How many servers there may be.
pub const SERVERS: usize = 16;

// How many readers there may be.
pub const READERS: usize = 4;
