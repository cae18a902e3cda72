#![tactic(auto)]
// The WRITEs and READs under way, in the lent workspace behind the calendar: which servers the request of a party reaches in a tick. A party's operations
// do not overlap, so only its last one can have a request under way. specs/Requests says where it stands.
ghost use Rattle.std.specs.Prelude.{◌≡◌, ◌+◌, ◌*◌, ◌≤◌, ◌<◌, length};
ghost use Rattle.tables.specs.Sending.{Sendable};
ghost use Rattle.requests.specs.Requests.{party_slots, request_word, requests_end, reached_of, asked_first, Asked, Taken, Unasked, SameOutside};

use calendar::words;
use tables::sending::Sending;

pub mod asking;

// How many parties send requests, with room: the writer is 0, reader x is x.
const PARTIES: usize = 8;

// How many bytes the requests of all slots take.
const BYTES: usize = 2 * calendar::SLOTS * PARTIES;

// The word at which they begin, behind the calendar.
const WORDS: usize = calendar::BYTES / 2;

// The byte behind them.
pub const END: usize = calendar::BYTES + BYTES;

fn word(t: usize, p: usize) -> usize
    requires { p < party_slots }
    ensures { (result ≡ request_word t p) × (2 * result + 1 < requests_end) }
{
    WORDS + (PARTIES * (t % calendar::SLOTS) + p)
}

// No request is under way.
#[tactic(auto, using(crate::proofs::Requesting::unasked))]
pub fn start(work: &mut [u8])
    requires { requests_end ≤ length work.old }
    ensures { SameOutside work.old work.new × Unasked work.new }
{
    words::zero(work, calendar::BYTES, END);
}

// The request of party p is under way to all servers.
pub fn post(work: &mut [u8], sending: Sending, p: usize)
    requires { Sendable sending × (p < party_slots) × (requests_end ≤ length work.old) }
    ensures { Asked work.old work.new (asked_first sending p sending.n) }
{
    for b in 0..sending.n {
        words::add(work, word(sending.arrival(b), p), b);
    }
}

// The servers that the request of party p reaches in tick t.
pub fn reached(work: &[u8], t: usize, p: usize) -> u16
    requires { (p < party_slots) × (requests_end ≤ length work.now) }
    ensures { result ≡ reached_of work.now t p }
{
    words::get(work, word(t, p))
}

// The requests of tick t have arrived.
pub fn clear(work: &mut [u8], t: usize)
    requires { requests_end ≤ length work.old }
    ensures { Taken work.old work.new t }
{
    let from = 2 * word(t, 0);
    words::zero(work, from, from + 2 * PARTIES);
}
