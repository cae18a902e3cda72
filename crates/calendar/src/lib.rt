#![tactic(auto)]
// What is under way, in the lent workspace: who sends which pair to whom, by the tick of arrival. specs/Layout says where it stands.
ghost use Rattle.std.specs.Prelude.{◌≡◌, ◌+◌, ◌*◌, ◌≤◌, ◌<◌, min, max, eqb, length};
ghost use Rattle.limits.specs.Limits.{most_servers, places};
ghost use Rattle.calendar.specs.Layout.{receivers, rows, calendar_size, row_of, cell_word, low_of, high_of, senders_of};
ghost use Rattle.calendar.specs.View.{Posted, Cleared, Empty, SamePast};
ghost use Rattle.calendar.specs.Posts.{in_row, among, to_others, SpanOf, widened};
ghost use Rattle.tables.specs.Sending.{Sendable};

use limits::{DEPTH, NO_PAIR, PLACES, READERS, SERVERS};
use tables::sending::Sending;

pub mod words;

// The parties that receive votes or replies.
const RECEIVERS: usize = SERVERS + READERS;

// The ticks that have rows of their own at a time.
pub const SLOTS: usize = 16;

const ROWS: usize = SLOTS * RECEIVERS;

// Reader y, from 1 on, receives as party READERS_AT + y.
pub const READERS_AT: usize = SERVERS - 1;

// The word at which the cells begin, behind the rows' spans.
const CELLS: usize = ROWS;

// How many bytes the calendar takes.
pub const BYTES: usize = 2 * (CELLS + ROWS * PLACES);

// A stamped value (document 01: a pair); or, with NO_PAIR and 0, an empty place of a store. A known pair's place among the known pairs is its number.
#[derive(Clone, Copy)]
pub struct Stamped {
    pub number: u8,
    pub value: u32,
}

// The row of receiver r for tick t.
pub fn row(t: usize, r: usize) -> usize
    requires { r < receivers }
    ensures { (result ≡ row_of t r) × (result < rows) }
{
    RECEIVERS * (t % SLOTS) + r
}

fn cell(row: usize, j: usize) -> usize
    requires { (row < rows) × (j < places) }
    ensures { (result ≡ cell_word row j) × (2 * result + 1 < calendar_size) }
{
    CELLS + (PLACES * row + j)
}

// Nothing is under way.
#[tactic(auto, using(crate::proofs::Clearing::started))]
pub fn start(work: &mut [u8])
    requires { calendar_size ≤ length work.old }
    ensures { SamePast work.old work.new × Empty work.new }
{
    words::zero(work, 0, BYTES);
}

// The servers whose messages with pair j arrive in the row.
pub fn senders(work: &[u8], row: usize, j: usize) -> u16
    requires { (row < rows) × (j < places) × (calendar_size ≤ length work.now) }
    ensures { result ≡ senders_of work.now row j }
{
    words::get(work, cell(row, j))
}

// No pair below it arrives in the row. The byte there is NO_PAIR less it, so that both bytes of a span only grow, from 0.
pub fn low(work: &[u8], row: usize) -> usize
    requires { (row < rows) × (calendar_size ≤ length work.now) }
    ensures { (result ≡ low_of work.now row) × (result < 256) }
{
    usize::from(NO_PAIR - work[2 * row])
}

// No pair from it on arrives in the row.
pub fn high(work: &[u8], row: usize) -> usize
    requires { (row < rows) × (calendar_size ≤ length work.now) }
    ensures { (result ≡ high_of work.now row) × (result < 256) }
{
    usize::from(work[2 * row + 1])
}

// The pairs from low to before high may arrive in the row, too: by maxima alone, as a test that goes now this way, now that costs more than two stores.
fn widen(work: &mut [u8], row: usize, low: u8, high: u8)
    requires { (row < rows) × (calendar_size ≤ length work.old) }
    ensures { work.new ≡ widened work.old row low high }
{
    let at = 2 * row;
    work[at] = work[at].max(NO_PAIR - low);
    work[at + 1] = work[at + 1].max(high);
}

// Server i's message with pair j is under way, if the pair is a known one.
pub fn post(work: &mut [u8], row: usize, j: u8, i: usize)
    requires { (row < rows) × (i < most_servers) × (calendar_size ≤ length work.old) }
    ensures { Posted work.old work.new (in_row row i (λ y. eqb y j)) }
{
    if PLACES <= usize::from(j) {
        return;
    }
    widen(work, row, j, j + 1);
    words::add(work, cell(row, usize::from(j)), i);
}

// The pairs from low to before high.
#[derive(Clone, Copy)]
struct Span {
    low: u8,
    high: u8,
}

// The span of the known pairs that a server keeps.
fn span_of(kept: [Stamped; DEPTH]) -> Span
    ensures { SpanOf (among kept) result.low result.high }
{
    let mut low = NO_PAIR;
    let mut high: u8 = 0;
    for p in kept {
        if p.number == NO_PAIR {
            return Span { low, high };
        }
        if usize::from(p.number) < PLACES {
            low = low.min(p.number);
            high = high.max(p.number + 1);
        }
    }
    Span { low, high }
}

// Server i's messages with the known pairs that it keeps are under way. Their span is given: who sends them to many rows finds it once.
fn post_all(work: &mut [u8], row: usize, kept: [Stamped; DEPTH], span: Span, i: usize)
    requires { (row < rows) × (i < most_servers) × (calendar_size ≤ length work.old) × SpanOf (among kept) span.low span.high }
    ensures { Posted work.old work.new (in_row row i (among kept)) }
{
    widen(work, row, span.low, span.high);
    for pair in kept {
        if pair.number == NO_PAIR {
            return;
        }
        let j = usize::from(pair.number);
        if j < PLACES {
            words::add(work, cell(row, j), i);
        }
    }
}

// Server i's messages with the pairs that it keeps are under way.
pub fn post_kept(work: &mut [u8], row: usize, kept: [Stamped; DEPTH], i: usize)
    requires { (row < rows) × (i < most_servers) × (calendar_size ≤ length work.old) }
    ensures { Posted work.old work.new (in_row row i (among kept)) }
{
    post_all(work, row, kept, span_of(kept), i);
}

// A server's vote for pair j is under way to all others.
pub fn post_vote(work: &mut [u8], sending: Sending, j: u8)
    requires { Sendable sending × (sending.sender < most_servers) × (calendar_size ≤ length work.old) }
    ensures { Posted work.old work.new (to_others sending (λ y. eqb y j)) }
{
    let i = sending.sender;
    for b in 0..sending.n {
        if b != i {
            post(work, row(sending.arrival(b), b), j, i);
        }
    }
}

// A server's votes for the pairs that it keeps are under way to all others.
pub fn post_votes(work: &mut [u8], sending: Sending, kept: [Stamped; DEPTH])
    requires { Sendable sending × (sending.sender < most_servers) × (calendar_size ≤ length work.old) }
    ensures { Posted work.old work.new (to_others sending (among kept)) }
{
    let i = sending.sender;
    let span = span_of(kept);
    for b in 0..sending.n {
        if b != i {
            post_all(work, row(sending.arrival(b), b), kept, span, i);
        }
    }
}

// All in the row has arrived.
pub fn clear(work: &mut [u8], row: usize)
    requires { (row < rows) × (high_of work.old row ≤ places) × (calendar_size ≤ length work.old) }
    ensures { Cleared work.old work.new row }
{
    for j in low(work, row)..high(work, row) {
        words::put(work, cell(row, j), 0);
    }
    words::put(work, row, 0);
}
