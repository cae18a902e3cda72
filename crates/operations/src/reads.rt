// The reads among the operations: how many there are, and in which ticks a reader has one open.
ghost use Rattle.std.specs.Prelude.{◌≡◌, true, ◌≤◌, ◌<◌, length};
ghost use Rattle.plan.specs.Parts.{operations_of, reads_from};
ghost use Rattle.plan.specs.Check.{operations_stand};
ghost use Rattle.plan.specs.Shape.{shape, Sized};
ghost use Rattle.operations.specs.Reads.{Marked, Opened};

use crate::operation_of;
use plan::header::Shape;
use plan::operations::Operation;

// The places of a reader in the table of open reads, one for each tick, and those of all.
pub const TICKS: usize = Shape::MOST_TICKS as usize;

pub const PLACES: usize = Operation::PARTIES * TICKS;

// How many reads the plan has.
pub fn count(plan: &[u8], h: Shape) -> usize
    requires { Sized h.width plan.now (shape h) }
    ensures { result ≡ length (reads_from (operations_of h.width plan.now (shape h))) }
{
    let mut reads = 0;
    let first = h.operations_at();
    for i in 0..usize::from(h.operations) {
        if operation_of(plan, h, first, i).party != 0 {
            reads += 1;
        }
    }
    reads
}

// Reader x has a read open in the ticks from `from` up to and without `to`: places 128 x + tick.
fn mark(table: &mut [bool; PLACES], x: usize, from: usize, to: usize)
    requires { (length table.old ≡ 1024) × (x < 8) × (from ≤ to) × (to ≤ 128) }
    ensures { (length table.new ≡ 1024) × Marked table.new table.old x from to }
{
    let row = TICKS * x;
    table[row + from..row + to].fill(true);
}

// Has reader x a read open in tick t: place 128 x + t.
pub fn opened(plan: &[u8], h: Shape) -> [bool; PLACES]
    requires { Sized h.width plan.now (shape h) × (operations_stand h.width plan.now (shape h) ≡ true) }
    ensures { (length result ≡ 1024) × Opened h.width plan.now (shape h) h.operations result }
{
    let mut table = [false; PLACES];
    let first = h.operations_at();
    for i in 0..usize::from(h.operations) {
        let o = operation_of(plan, h, first, i);
        if o.party != 0 {
            mark(
                &mut table,
                usize::from(o.party),
                usize::from(o.at),
                usize::from(o.end(h)),
            );
        }
    }
    table
}
