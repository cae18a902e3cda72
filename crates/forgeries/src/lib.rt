#![tactic(auto)]
// Refusal 7: the forgeries. Their part is the plan from the byte that holds their first bit, with a bit offset under eight.
ghost use Rattle.std.specs.Prelude.{◌≡◌, true, ◌<◌, length};
ghost use Rattle.plan.specs.Header.{header_of};
ghost use Rattle.plan.specs.Check.{operations_stand, forgeries_stand};
ghost use Rattle.plan.specs.Shape.{shape, Sized};
ghost use Rattle.plan.specs.Steps.{forgery};
ghost use Rattle.operations.specs.Reads.{Opened};
ghost use Rattle.forgeries.specs.Steps.{is_sent, is_received, forged_alone, ForgedPart};

use operations::reads::{PLACES, TICKS, opened};
use placements::is_faulty;
use plan::forgeries::Forged;
use plan::header::Shape;
use plan::operations::Operation;

// Is the sender faulty after that tick's movement.
fn is_sent(plan: &[u8], h: Shape, at: u8, from: u8) -> bool
    requires { Sized h.width plan.now (shape h) × (shape h ≡ header_of h.width plan.now) × (from < 16) }
    ensures { result ≡ is_sent h.width plan.now (shape h) at from }
{
    at < h.ticks && from < h.n && is_faulty(plan, h, usize::from(at / h.period), usize::from(from))
}

// Is the receiver another server, or a reader whose read is open. The table says which reads are.
fn is_received(n: u8, table: &[bool; PLACES], at: u8, from: u8, to: u8) -> bool
    requires { (length table.now ≡ 1024) × (at < 128) }
    ensures { result ≡ is_received n table.now at from to }
{
    if to < n {
        return to != from;
    }
    let reader = usize::from(to - n);
    reader < Operation::PARTIES && table[TICKS * reader + usize::from(at)]
}

// What a forgery must meet whatever the others are.
fn stands_alone(plan: &[u8], h: Shape, table: &[bool; PLACES], g: Forged) -> bool
    requires { Sized h.width plan.now (shape h) × (shape h ≡ header_of h.width plan.now)
        × (length table.now ≡ 1024) × Opened h.width plan.now (shape h) h.operations table.now
        × (g.at < 128) × (g.from < 16) }
    ensures { result ≡ forged_alone h.width plan.now (shape h) (forgery h.width g) }
{
    is_sent(plan, h, g.at, g.from) && is_received(h.n, table, g.at, g.from, g.to)
}

fn all_in(part: &[u8], offset: usize, plan: &[u8], h: Shape, table: &[bool; PLACES]) -> bool
    requires { Sized h.width plan.now (shape h) × (shape h ≡ header_of h.width plan.now)
        × (length table.now ≡ 1024) × Opened h.width plan.now (shape h) h.operations table.now
        × ForgedPart h.width plan.now (shape h) part.now offset }
    ensures { result ≡ forgeries_stand h.width plan.now (shape h) }
{
    let bits = h.forgery_bits();
    let mut next = 0;
    for i in 0..usize::from(h.forgeries) {
        let all = bits::field(part, offset + bits * i, bits);
        if !stands_alone(plan, h, table, Forged::of(all, h.width)) || all < next {
            return false;
        }
        next = all + 1;
    }
    true
}

pub fn all_stand(plan: &[u8], h: Shape) -> bool
    requires { Sized h.width plan.now (shape h) × (shape h ≡ header_of h.width plan.now) × (operations_stand h.width plan.now (shape h) ≡ true) }
    ensures { result ≡ forgeries_stand h.width plan.now (shape h) }
{
    let table = opened(plan, h);
    let first = h.forgeries_at();
    all_in(&plan[first / 8..], first % 8, plan, h, &table)
}
