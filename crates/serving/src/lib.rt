#![tactic(auto)]
// A server as the engine keeps it, and its stages. Pairs are known by number: pair 0 is the initial one, pair j the j-th write.
pub mod servers;
pub mod stages;

use calendar::Stamped;
use limits::DEPTH;
use tables::Rules;

// A server is faulty, cured since a tick, or correct (document 01: held, curing or sound).
#[derive(Clone, Copy)]
pub enum Status {
    Faulty,
    Cured(u8),
    Correct,
}

// A server (document 01: a box). `pending` has bit x for reader x. Its votes stand in the tallies.
#[derive(Clone, Copy)]
pub struct Server {
    pub status: Status,
    pub kept: [Stamped; DEPTH],
    pub pending: u8,
}

// What reaches server `server` in a tick: the votes in a row of the calendar; the number of a WRITE, or NO_PAIR; the readers whose READ arrives. `live`
// lacks the readers whose read began in the last tick; there are m known pairs.
#[derive(Clone, Copy)]
pub struct Turn {
    pub server: usize,
    pub row: usize,
    pub wrote: u8,
    pub asks: u8,
    pub live: u8,
    pub m: usize,
    pub rules: Rules,
}
