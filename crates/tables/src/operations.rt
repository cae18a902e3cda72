// The operations of a plan: its writes by number, and its reads in order.
ghost use Rattle.std.specs.Prelude.{◌+◌, ◌*◌, ◌^◌, ◌≤◌, ◌<◌, length};
ghost use Rattle.register.specs.Lists.{tab};
ghost use Rattle.plan.specs.Form.{most_width};
ghost use Rattle.plan.specs.Header.{operation_bits};
ghost use Rattle.plan.specs.Parts.{writes_from, reads_from};
ghost use Rattle.plan.specs.Steps.{IsOperation};
ghost use Rattle.tables.specs.Operations.{op_at, Room, Written, ReadIn};

use super::Known;
use limits::PLACES;
use plan::operations::Operation;

// How many reads a table holds: as many as the operations that one byte can count.
pub const TABLE_READS: usize = 255;

// The known pairs, and the tick in which write j begins, from 1 on.
#[derive(Clone, Copy)]
pub struct Writes {
    pub known: Known,
    pub begun: [u8; PLACES],
}

// The tick in which each read begins, and its reader.
#[derive(Clone, Copy)]
pub struct Reads {
    pub begun: [u8; TABLE_READS],
    pub reader: [u8; TABLE_READS],
    pub m: usize,
}

// Operation i of those that stand from bit `at` on.
#[inline(always)]
fn operation_of(plan: &[u8], at: usize, width: u8, i: usize) -> Operation
    requires { (at + operation_bits width * i + operation_bits width ≤ 8 * length plan.now) × (at < 4096) × (i ≤ 255) × (width ≤ most_width) }
    ensures { IsOperation width plan.now (at + operation_bits width * i) result }
{
    Operation::read(plan, at + Operation::bits(width) * i, width)
}

// The writes among the operations that stand from bit `at` on.
pub fn writes_of(plan: &[u8], at: usize, width: u8, count: usize, initial: u32) -> Writes
    requires { Room width plan.now at count × (initial < 2 ^ width) }
    ensures { Written width (writes_from width 1 (tab count (op_at width plan.now at))) initial result.known.values result.begun result.known.m }
{
    let mut values = [0; PLACES];
    let mut begun = [0; PLACES];
    values[0] = initial;
    let mut m = 1;
    for i in 0..count {
        let o = operation_of(plan, at, width, i);
        if o.party == 0 {
            values[m] = o.value;
            begun[m] = o.at;
            m += 1;
        }
    }
    Writes {
        known: Known { values, m },
        begun,
    }
}

// The reads among the operations that stand from bit `at` on.
pub fn reads_of(plan: &[u8], at: usize, width: u8, count: usize) -> Reads
    requires { Room width plan.now at count }
    ensures { ReadIn (reads_from (tab count (op_at width plan.now at))) result.begun result.reader result.m }
{
    let mut begun = [0; TABLE_READS];
    let mut reader = [0; TABLE_READS];
    let mut m = 0;
    for i in 0..count {
        let o = operation_of(plan, at, width, i);
        if o.party != 0 {
            begun[m] = o.at;
            reader[m] = o.party;
            m += 1;
        }
    }
    Reads { begun, reader, m }
}
