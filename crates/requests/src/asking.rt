// The requests of the operations that begin in a tick are under way: 'a write begun at w sends WRITE to all boxes', a read READ.
ghost use Rattle.std.specs.Prelude.{◌+◌, ◌≤◌, ◌<◌, length};
ghost use Rattle.limits.specs.Limits.{places};
ghost use Rattle.tables.specs.Links.{Linked};
ghost use Rattle.requests.specs.Requests.{requests_end, Asked};
ghost use Rattle.requests.specs.Asking.{asked_by, Readers, asked_between, WroteOn};

use super::{clear, post};
use limits::PLACES;
use tables::operations::TABLE_READS;
use tables::sending::Sending;
use tables::{Links, delays};

// The request of party p, the writer as 0 and reader x as x, goes to all servers in tick t.
fn ask(work: &mut [u8], plan: &[u8], links: Links, t: u8, p: usize)
    requires { Linked plan.now links links.n (t + 1) × (links.n + p < links.parties) × (requests_end ≤ length work.old) }
    ensures { Asked work.old work.new (asked_by plan.now links links.n t p) }
{
    let bit = delays::row_bit(links, t, links.n + p);
    let sending = Sending::of(plan, bit, links.n, usize::from(t), p);
    post(work, sending, p);
}

// The READs of the reads from .. to - 1, which begin in tick t; `by` has their readers.
pub fn ask_all(
    work: &mut [u8],
    plan: &[u8],
    links: Links,
    t: u8,
    by: &[u8; TABLE_READS],
    from: usize,
    to: usize,
)
    requires { Linked plan.now links links.n (t + 1) × Readers by.now from to links.n links.parties × (requests_end ≤ length work.old) }
    ensures { Asked work.old work.new (asked_between plan.now links links.n t by.now from to) }
{
    for i in from..to {
        ask(work, plan, links, t, usize::from(by[i]));
    }
}

// The requests of tick t have arrived. The write after the last one begun sends its WRITE, if it begins in tick t. The number of the last one begun then.
pub fn write_on(
    work: &mut [u8],
    plan: &[u8],
    links: Links,
    t: u8,
    begun: &[u8; PLACES],
    m: usize,
    number: u8,
) -> u8
    requires { Linked plan.now links links.n (t + 1) × (m ≤ places) × (requests_end ≤ length work.old) }
    ensures { WroteOn plan.now links links.n t begun.now m number result work.old work.new }
{
    clear(work, usize::from(t));
    let next = usize::from(number) + 1;
    if m <= next || begun[next] != t {
        return number;
    }
    ask(work, plan, links, t, 0);
    number + 1
}
