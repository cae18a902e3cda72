// The ticks in which the forged messages arrive.
ghost use Rattle.std.specs.Prelude.{◌≡◌, ◌≤◌, length, get_or};
ghost use Rattle.traffic.specs.Traffic.{largest, forgeries_in};
ghost use Rattle.plan.specs.{Form.most_width, Header.header_of, Packed.plan_of, Playable.Playable, Shape.shape};
ghost use Rattle.tables.specs.Forged.{Legible};
ghost use Rattle.forecast.specs.Steps.{most_ticks, arrival_at, Arrived};

use plan::header::Shape;
use tables::forged::{ForgedPart, delay_of};
use tables::{Links, links_of};

// One more than the last tick in which what is sent in a plan can arrive.
const ARRIVALS: usize = Shape::MOST_TICKS as usize + Shape::MOST_DELTA as usize;

// How many of the forged messages arrive in each tick.
fn counted(part: &ForgedPart, plan: &[u8], links: Links) -> [u16; ARRIVALS]
    requires { Legible part.now.width part.now.bytes.now part.now.offset part.now.count plan.now links links.n }
    ensures { Arrived (arrival_at part.now.width part.now.bytes.now part.now.offset plan.now links) part.now.count result }
{
    let mut r = [0u16; ARRIVALS];
    for e in 0..part.count {
        let g = part.message(e);
        let t = usize::from(g.at) + delay_of(plan, links, g);
        r[t] += 1;
    }
    r
}

// The most of the first `ticks` numbers.
fn highest(table: &[u16; ARRIVALS], ticks: usize) -> u16
    requires { ticks ≤ most_ticks }
    ensures { result ≡ largest (λ t. get_or table.now t 0) ticks }
{
    let mut r: u16 = 0;
    for x in &table[..ticks] {
        r = r.max(*x);
    }
    r
}

// The most forged messages that arrive in one tick of the plan.
pub fn most(plan: &[u8], h: Shape) -> u32
    requires { Playable h.width plan.now × (h.width ≤ most_width) × (shape h ≡ header_of h.width plan.now) }
    ensures { result ≡ largest (forgeries_in (plan_of h.width plan.now)) h.ticks }
{
    let table = counted(&ForgedPart::of(plan, h), plan, links_of(h));
    highest(&table, h.ticks as usize) as u32
}
