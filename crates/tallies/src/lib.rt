#![tactic(auto)]
// The tallies: for each known pair who voted for it in the present period and who in the last k periods, server by server, and who named it, reader by
// reader. One table of sets, lent: a row for each of them with a cell for each pair (specs/Tallies).
ghost use Rattle.std.specs.Prelude.{◌≡◌, ◌+◌, ◌*◌, ◌≤◌, ◌<◌, length, get_or, set};
ghost use Rattle.std.specs.Int.Bits.{bit_or};
ghost use Rattle.limits.specs.Limits.{most_servers, most_readers, places};
ghost use Rattle.calendar.specs.Layout.{rows, calendar_size, sender};
ghost use Rattle.calendar.specs.View.{Spanned, Zeroed};
ghost use Rattle.tallies.specs.Tallies.{recent_at, table_size, of_server, of_reader, Joined, Emptied, Aged};

use limits::{PLACES, READERS, SERVERS};

// From the present period's cell of a server and a pair to that of its last k periods.
pub const RECENT: usize = SERVERS * PLACES;

// The cell at which the readers' rows begin.
const NAMED: usize = 2 * RECENT;

// The cells of all rows: the present period's of each server, then the last k periods' of each server, then the readers'.
pub const CELLS: usize = NAMED + READERS * PLACES;

// Where the row of server b begins, for the present period.
pub fn of_server(b: usize) -> usize
    requires { b ≤ most_servers }
    ensures { (result ≡ of_server b) × (result ≤ recent_at) }
{
    PLACES * b
}

// Where the row of reader x begins, from 0 on.
pub fn of_reader(x: usize) -> usize
    requires { x < most_readers }
    ensures { (result ≡ of_reader x) × (result + places ≤ table_size) }
{
    NAMED + PLACES * x
}

// These servers join the set of a cell.
pub fn join(sets: &mut [u16], at: usize, got: u16)
    requires { at < length sets.old }
    ensures { sets.new ≡ set sets.old at (bit_or (get_or sets.old at 0) got) }
{
    sets[at] |= got;
}

// What arrives in a row of the calendar joins the row that begins at `at`.
pub fn join_row(sets: &mut [u16; CELLS], at: usize, work: &[u8], row: usize)
    requires { (at + places ≤ table_size) × (row < rows) × (calendar_size ≤ length work.now) × Spanned work.now }
    ensures { Joined sets.old sets.new at (sender work.now row) }
{
    for j in calendar::low(work, row)..calendar::high(work, row) {
        join(sets, at + j, calendar::senders(work, row, j));
    }
}

// Nobody in the cells from one to before another.
fn zero(sets: &mut [u16; CELLS], from: usize, to: usize)
    requires { (from ≤ to) × (to ≤ table_size) }
    ensures { Zeroed sets.old sets.new from to }
{
    sets[from..to].fill(0);
}

// Nobody in the row that begins at `at`.
#[tactic(auto, using(crate::proofs::TallyLaws::emptied))]
pub fn empty(sets: &mut [u16; CELLS], at: usize)
    requires { at + places ≤ table_size }
    ensures { Emptied sets.old sets.new at }
{
    zero(sets, at, at + PLACES);
}

// A new voting period in the cells below `end`: what counts of the last k periods, the new one included, is the last one's if k is 2, and else nothing.
pub fn next_period(sets: &mut [u16; CELLS], end: usize, two: bool)
    requires { end ≤ recent_at }
    ensures { Aged sets.old sets.new end two }
{
    if two {
        // Not `copy_within`: for that whoever links the archive would need `memmove`.
        for c in 0..end {
            sets[RECENT + c] = sets[c];
        }
    } else {
        zero(sets, RECENT, RECENT + end);
    }
    zero(sets, 0, end);
}
