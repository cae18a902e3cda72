// The receipts of WRITEs by servers that are not faulty when these arrive.
ghost use Rattle.std.specs.Prelude.{◌≡◌, not, ℕ, ◌-◌, ◌≤◌, ◌<◌, length, get_or};
ghost use Rattle.register.specs.Lists.{one_if, count};
ghost use Rattle.plan.specs.{Form.most_width, Header.header_of, Packed.plan_of, Playable.Playable, Shape.shape, Shape.Sized};
ghost use Rattle.limits.specs.Limits.{most_servers};
ghost use Rattle.limits.specs.Bits.{bit};
ghost use Rattle.tables.specs.Sending.{arrival_of, Sendable};
ghost use Rattle.regular.specs.Tables.{Tables};
ghost use Rattle.forecast.specs.Steps.{most_ticks, InForce, all_receipts, most_receipts};

use fitting::times;
use limits::SERVERS;
use plan::header::Shape;
use tables::operations::Writes;
use tables::sending::Sending;
use tables::{delays, links_of};

const TICKS: usize = Shape::MOST_TICKS as usize;

// The placement that is in force after each tick.
fn in_force(plan: &[u8], h: Shape) -> [u16; TICKS]
    requires { Sized h.width plan.now (shape h) }
    ensures { InForce h.width plan.now (shape h) h.ticks result }
{
    let mut r = [0u16; TICKS];
    for t in 0..h.ticks {
        let at = h.placement_at(usize::from(t / h.period));
        r[usize::from(t)] = bits::field(plan, at, Shape::PLACEMENT_BITS) as u16;
    }
    r
}

// 1 if the placement does not make server b faulty, else 0: server 0 is its top bit.
fn free(placement: u16, b: usize) -> u32
    requires { b < most_servers }
    ensures { (result ≡ one_if (not (bit (most_servers - 1 - b) placement))) × (result ≤ 1) }
{
    1 - ((placement >> (SERVERS - 1 - b)) % 2) as u32
}

// How many servers are not faulty when they are reached: a movement comes after the deliveries of its tick, so the tick before tells.
fn receipts(sending: Sending, placements: &[u16; TICKS]) -> u32
    requires { Sendable sending
        × ((b : ℕ) → b < sending.n → (1 ≤ arrival_of sending b) × (arrival_of sending b < most_ticks)) }
    ensures { (result ≡ count (λ b. not (bit (most_servers - 1 - b) (get_or placements.now (arrival_of sending b - 1) 0))) sending.n) × (result ≤ most_servers) }
{
    let mut r: u32 = 0;
    for b in 0..sending.n {
        let before = sending.arrival(b) - 1;
        r += free(placements[before], b);
    }
    r
}

// Those of all writes, from the table of the ticks in which they begin.
fn of_writes(plan: &[u8], h: Shape, writes: Writes) -> u32
    requires { Playable h.width plan.now × (h.width ≤ most_width) × (shape h ≡ header_of h.width plan.now)
        × Tables h.width (plan_of h.width plan.now) writes.known.values writes.begun writes.known.m }
    ensures { (result ≡ all_receipts (plan_of h.width plan.now)) × (result ≤ most_receipts) }
{
    let links = links_of(h);
    let placements = in_force(plan, h);
    let mut r: u32 = 0;
    for j in 1..writes.known.m {
        let t = writes.begun[j];
        let bit = delays::row_bit(links, t, links.n);
        let sending = Sending::of(plan, bit, links.n, usize::from(t), 0);
        r += receipts(sending, &placements);
    }
    r
}

// Those of all writes of a plan.
pub fn all(plan: &[u8], h: Shape) -> u32
    requires { Playable h.width plan.now × (h.width ≤ most_width) × (shape h ≡ header_of h.width plan.now) }
    ensures { (result ≡ all_receipts (plan_of h.width plan.now)) × (result ≤ most_receipts) }
{
    let times = times::of_plan(plan, h.width);
    of_writes(plan, h, times.writes)
}
