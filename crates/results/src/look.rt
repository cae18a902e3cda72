// What Look returns: a server's condition and its pairs.
use limits::DEPTH;

// A server's condition (document 01: held, curing or sound).
#[derive(Clone, Copy, Debug, PartialEq, Eq)]
pub enum Condition {
    Faulty,
    Cured,
    Correct,
}

// A pair that Look shows (document 01: a pair).
#[derive(Clone, Copy, Debug, PartialEq, Eq)]
pub struct Pair {
    pub number: u8,
    pub value: u32,
}

// The server's pairs stand in the first places, highest number first; the places behind them are empty.
#[derive(Clone, Copy)]
pub struct Looked {
    pub condition: Condition,
    pub places: [Option<Pair>; DEPTH],
}
