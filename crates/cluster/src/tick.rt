// Stages 1 to 4 of a tick of the whole cluster, each a loop over the readers or the servers; what a server sends is posted at once.
ghost use Rattle.std.specs.Prelude.{◌≡◌, not, ◌||◌, ◌≤◌, ◌<◌};
ghost use lib.{Bits.bit_and, Dec.eqb, ListN.length};
ghost use Rattle.limits.specs.Bits.{bit};
ghost use Rattle.limits.specs.Limits.{most_servers, places};
ghost use Rattle.calendar.specs.Layout.{calendar_size};
ghost use Rattle.calendar.specs.View.{Spanned, Posted};
ghost use Rattle.serving.specs.Stored.{server};
ghost use Rattle.serving.specs.{Settled.Settled, Methods.Reachable};
ghost use Rattle.sending.specs.Sends.{Ready};
ghost use Rattle.cluster.specs.Inputs.{Tickable, is_asked, wrote_at, asks_at};
ghost use Rattle.cluster.specs.Tick.{Heard, TurnOf, Reached, sender_at, feed_of, Calm, Delivered, Cured, cure_replies, Moved, echoes, Started};

use super::{Arrivals, Cluster, Feed, REQUESTERS};
use limits::{PLACES, READERS, SERVERS};
use sending::Sender;
use serving::{Server, Status, Turn, servers};
use tallies::CELLS;

// Is b in the set.
fn has(set: u16, b: usize) -> bool
    requires { b < most_servers }
    ensures { result ≡ bit b set }
{
    (set >> b) % 2 == 1
}

// The servers that some request reaches.
fn together(arrivals: Arrivals) -> u16
    ensures { (λ b. bit b result) ≡ is_asked arrivals.requests }
{
    let mut all = 0;
    for p in 0..REQUESTERS {
        all |= arrivals.requests[p];
    }
    all
}

// The number of the WRITE that reaches server b, or NO_PAIR.
fn wrote_at(requests: [u16; REQUESTERS], number: u8, b: usize) -> u8
    requires { b < most_servers }
    ensures { result ≡ wrote_at requests number b }
{
    if has(requests[0], b) {
        return number;
    }
    limits::NO_PAIR
}

// The readers whose READ reaches server b.
fn asks_at(requests: [u16; REQUESTERS], b: usize) -> u8
    requires { b < most_servers }
    ensures { (λ x. bit x result) ≡ asks_at requests b }
{
    let mut readers = 0;
    for x in 1..REQUESTERS {
        if has(requests[x], b) {
            readers |= 1 << x;
        }
    }
    readers
}

// 1. Deliveries to the readers: each notes the replies that arrive in tick t, which are then no longer under way.
pub fn hear_all(work: &mut [u8], sets: &mut [u16; CELLS], t: usize)
    requires { (calendar_size ≤ length work.old) × Spanned work.old }
    ensures { Heard work.old work.new sets.old sets.new t }
{
    for x in 0..READERS {
        let row = calendar::row(t, SERVERS + x);
        if calendar::high(work, row) != 0 {
            tallies::join_row(sets, tallies::of_reader(x), work, row);
            calendar::clear(work, row);
        }
    }
}

// What reaches server b; `due` has the servers that some request reaches, most often none.
fn turn_of(feed: Feed, due: u16, b: usize) -> Turn
    requires { (b < most_servers) × (bit b due ≡ is_asked feed.arrivals.requests b) }
    ensures { TurnOf feed b result }
{
    let arrivals = feed.arrivals;
    let (wrote, asks) = if has(due, b) {
        (
            wrote_at(arrivals.requests, arrivals.number, b),
            asks_at(arrivals.requests, b),
        )
    } else {
        (limits::NO_PAIR, 0)
    };
    Turn {
        server: b,
        row: calendar::row(usize::from(feed.t), b),
        wrote,
        asks,
        live: arrivals.live,
        m: feed.m,
        rules: feed.rules,
    }
}

// Does anything reach a server, or a read drop out of its list. `high` is its row's, `asked` whether some request reaches it.
fn is_reached(high: usize, asked: bool, pending: u8, live: u8) -> bool
    ensures { result ≡ (not (eqb high 0) || (asked || not (eqb (bit_and pending live) pending))) }
{
    high != 0 || asked || pending & live != pending
}

// What arrives at server b: a faulty one loses it.
fn deliver(
    s: Server,
    work: &mut [u8],
    plan: &[u8],
    sets: &mut [u16; CELLS],
    values: &[u32; PLACES],
    turn: Turn,
    from: Sender,
    ends: [u8; READERS],
) -> Server
    requires { Reachable work.old sets.old values.now turn × Ready plan.now from
        × Settled turn.m turn.rules.echo turn.rules.reply (server turn.m sets.old turn.server s) }
    ensures { Reached plan.now ends values.now turn from s result sets.old sets.new work.old work.new }
{
    if servers::is_faulty(s.status) {
        return s;
    }
    let done = s.deliver(sets, work, values, turn);
    sending::vote(work, plan, from, turn.wrote);
    if done.readers != 0 {
        sending::reply(work, plan, from, done.readers, done.server.kept, ends);
    }
    done.server
}

// Server b of those that are fed.
fn sender(feed: Feed, b: usize) -> Sender
    ensures { result ≡ sender_at feed.links feed.t b }
{
    Sender {
        links: feed.links,
        t: feed.t,
        i: b,
    }
}

// 1. Deliveries to the servers. Most often nothing reaches a server.
pub fn deliver_all(
    before: [Server; SERVERS],
    work: &mut [u8],
    plan: &[u8],
    sets: &mut [u16; CELLS],
    values: &[u32; PLACES],
    feed: Feed,
    ends: [u8; READERS],
) -> [Server; SERVERS]
    requires { Tickable plan.now work.old feed.t feed.rules feed.m feed.links
        × Calm (feed_of plan.now work.old feed) sets.old before }
    ensures { Delivered (feed_of plan.now work.old feed) ends values.now before result sets.old sets.new work.new feed.rules.n }
{
    let t = usize::from(feed.t);
    let due = together(feed.arrivals);
    let mut after = before;
    for b in 0..feed.rules.n {
        let row = calendar::row(t, b);
        let high = calendar::high(work, row);
        if is_reached(high, has(due, b), after[b].pending, feed.arrivals.live) {
            after[b] = deliver(
                after[b],
                work,
                plan,
                sets,
                values,
                turn_of(feed, due, b),
                sender(feed, b),
                ends,
            );
        }
        if high != 0 {
            calendar::clear(work, row);
        }
    }
    after
}

// 2. Cures end: the servers that become correct send their pairs to all readers on their list.
pub fn cure_all(
    before: [Server; SERVERS],
    work: &mut [u8],
    plan: &[u8],
    feed: Feed,
    ends: [u8; READERS],
) -> [Server; SERVERS]
    requires { Tickable plan.now work.old feed.t feed.rules feed.m feed.links }
    ensures { Cured feed.rules feed.m feed.t before result
        × Posted work.old work.new (cure_replies plan.now feed.links feed.rules feed.t ends before) }
{
    let Feed { t, rules, .. } = feed;
    let mut after = before;
    for b in 0..rules.n {
        let s = after[b];
        if servers::is_cured_at(s.status, t, rules.delta) {
            after[b] = s.cure_end(t, rules.delta);
            sending::reply(work, plan, sender(feed, b), s.pending, s.kept, ends);
        }
    }
    after
}

// 3. Movement, if the tick is one: who is faulty now, or was before, is wiped; all others start a new voting period.
pub fn move_all(before: [Server; SERVERS], sets: &mut [u16; CELLS], feed: Feed) -> [Server; SERVERS]
    requires { (feed.rules.n ≤ most_servers) × (feed.m ≤ places) }
    ensures { Moved feed.rules feed.m feed.t feed.movement before result sets.old sets.new }
{
    let Some(faulty) = feed.movement else {
        return before;
    };
    let rules = feed.rules;
    tallies::next_period(sets, tallies::of_server(rules.n), rules.two);
    let mut after = before;
    for b in 0..rules.n {
        let is_faulty = has(faulty, SERVERS - 1 - b);
        after[b] = after[b].moved(sets, b, is_faulty, feed.t);
    }
    after
}

// 4. Echo, if the tick is a movement: each correct server votes for its pairs.
pub fn echo_all(servers: [Server; SERVERS], work: &mut [u8], plan: &[u8], feed: Feed)
    requires { Tickable plan.now work.old feed.t feed.rules feed.m feed.links }
    ensures { Posted work.old work.new (echoes plan.now feed.links feed.rules feed.t feed.movement servers) }
{
    if feed.movement.is_none() {
        return;
    }
    for b in 0..feed.rules.n {
        let s = servers[b];
        if servers::is_correct(s.status) {
            sending::echo(work, plan, sender(feed, b), s.kept);
        }
    }
}

// 'At the start it is sound, with only pair 0.'
pub fn start(initial: u32) -> Cluster
    ensures { Started initial result }
{
    let first = calendar::Stamped {
        number: 0,
        value: initial,
    };
    let s = Server {
        status: Status::Correct,
        kept: stores::insert(stores::none(), first),
        pending: 0,
    };
    Cluster {
        servers: [s; SERVERS],
        ends: [0; READERS],
    }
}
