// What a tick is fed: the requests that arrive, and the movement.
ghost use Rattle.std.specs.Prelude.{◌≡◌, ◌+◌, ◌*◌, ◌/◌, ◌≤◌, ◌<◌, length};
ghost use Rattle.plan.specs.Header.{placement_bits, placement_at};
ghost use Rattle.limits.specs.Bits.{bit};
ghost use Rattle.requests.specs.Requests.{requests_end};
ghost use Rattle.script.specs.Script.{Decoded};
ghost use Rattle.script.specs.Inputs.{live_at, Reached, Arrive, Moves, FedBy};

use super::Script;
use cluster::{Arrivals, Feed, REQUESTERS};
use limits::READERS;
use plan::header::Shape;

// The servers that each party's request reaches in tick t.
fn reached(work: &[u8], t: usize) -> [u16; REQUESTERS]
    requires { requests_end ≤ length work.now }
    ensures { Reached work.now t result }
{
    let mut reached = [0; REQUESTERS];
    for p in 0..REQUESTERS {
        reached[p] = requests::reached(work, t, p);
    }
    reached
}

// The readers whose last read did not begin in the tick before t: `ends` has the ticks in which these reads end, 2δ after their begins.
fn live(ends: [u8; READERS], t: u8, delta: u8) -> u8
    ensures { (λ x. bit x result) ≡ live_at ends t delta }
{
    let fresh = usize::from(t) + 2 * usize::from(delta);
    let mut readers = 0;
    for x in 1..REQUESTERS {
        if usize::from(ends[x - 1]) + 1 != fresh {
            readers |= 1 << x;
        }
    }
    readers
}

// The requests that arrive in tick t; `number` is that of the last write begun.
pub fn arrivals(work: &[u8], number: u8, ends: [u8; READERS], t: u8, delta: u8) -> Arrivals
    requires { requests_end ≤ length work.now }
    ensures { Arrive work.now number ends t delta result }
{
    Arrivals {
        requests: reached(work, usize::from(t)),
        number,
        live: live(ends, t, delta),
    }
}

// The placement that tick t brings, if it is a movement.
pub fn movement(plan: &[u8], h: Shape, t: u8) -> Option<u16>
    requires { (0 < h.period) × (placement_at h.width (t / h.period) + placement_bits ≤ 8 * length plan.now) }
    ensures { Moves h.width plan.now h.period t result }
{
    if t % h.period != 0 {
        return None;
    }
    let at = h.placement_at(usize::from(t / h.period));
    Some(bits::field(plan, at, Shape::PLACEMENT_BITS) as u16)
}

// What tick t is fed; `written` is the number of the last write begun, `ends` has the ticks in which the readers' reads end.
pub fn feed_of(
    plan: &[u8],
    work: &[u8],
    script: Script,
    written: u8,
    ends: [u8; READERS],
    t: u8,
) -> Feed
    requires { Decoded plan.now script × (t < script.shape.ticks) × (requests_end ≤ length work.now) }
    ensures { FedBy plan.now work.now script written ends t result }
{
    Feed {
        t,
        rules: script.rules,
        m: script.writes.known.m,
        links: script.links,
        arrivals: arrivals(work, written, ends, t, script.rules.delta),
        movement: movement(plan, script.shape, t),
    }
}
