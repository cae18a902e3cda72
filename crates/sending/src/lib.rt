#![tactic(auto)]
// What a server sends in a tick is posted: its votes to every other server, its pairs to some readers.
ghost use Rattle.std.specs.Prelude.{◌&&◌, ◌≤◌, eqb, length};
ghost use Rattle.register.specs.Lists.{member};
ghost use Rattle.limits.specs.Bits.{bit};
ghost use Rattle.calendar.specs.Layout.{calendar_size};
ghost use Rattle.calendar.specs.View.{Posted};
ghost use Rattle.tables.specs.Sending.{Sent};
ghost use Rattle.tables.specs.Links.{link_bit};
ghost use Rattle.stores.specs.Stores.{keys};
ghost use Rattle.sending.specs.Sends.{Ready, sends_vote, sends_reply};

use calendar::{READERS_AT, Stamped};
use limits::{DEPTH, PLACES, READERS};
use tables::sending::Sending;
use tables::{Links, delays};

// Server i sends in tick t.
#[derive(Clone, Copy)]
pub struct Sender {
    pub links: Links,
    pub t: u8,
    pub i: usize,
}

// One more than the last reader's number: they count from 1.
pub const PAST_READERS: usize = 1 + READERS;

// Where and when what it sends reaches the servers.
fn to_servers(plan: &[u8], from: Sender) -> Sending
    requires { Ready plan.now from }
    ensures { Sent plan.now (link_bit from.links from.t from.i 0) from.links.n from.t from.i result }
{
    let bit = delays::row_bit(from.links, from.t, from.i);
    Sending::of(plan, bit, from.links.n, usize::from(from.t), from.i)
}

// A vote for the pair of a WRITE (NO_PAIR: none).
pub fn vote(work: &mut [u8], plan: &[u8], from: Sender, wrote: u8)
    requires { (calendar_size ≤ length work.old) × Ready plan.now from }
    ensures { Posted work.old work.new (λ x j k. eqb k from.i && sends_vote plan.now from (λ y. eqb y wrote) x j) }
{
    if usize::from(wrote) < PLACES {
        calendar::post_vote(work, to_servers(plan, from), wrote);
    }
}

// Votes for the pairs that it keeps.
pub fn echo(work: &mut [u8], plan: &[u8], from: Sender, kept: [Stamped; DEPTH])
    requires { (calendar_size ≤ length work.old) × Ready plan.now from }
    ensures { Posted work.old work.new (λ x j k. eqb k from.i && sends_vote plan.now from (λ y. member y (keys kept)) x j) }
{
    calendar::post_votes(work, to_servers(plan, from), kept);
}

// Its pairs to some readers, if they arrive by the reads' ends.
pub fn reply(
    work: &mut [u8],
    plan: &[u8],
    from: Sender,
    readers: u8,
    kept: [Stamped; DEPTH],
    ends: [u8; READERS],
)
    requires { (calendar_size ≤ length work.old) × Ready plan.now from }
    ensures { Posted work.old work.new (λ x j k. eqb k from.i && sends_reply plan.now from ends (λ y. bit y readers) (λ y. member y (keys kept)) x j) }
{
    let links = from.links;
    for y in 1..PAST_READERS {
        if (readers >> y) % 2 == 1 && links.n + y < links.parties {
            let late = delays::delay(plan, links, from.t, from.i, links.n + y);
            let at = usize::from(from.t) + late;
            if at <= usize::from(ends[y - 1]) {
                calendar::post_kept(work, calendar::row(at, READERS_AT + y), kept, from.i);
            }
        }
    }
}
