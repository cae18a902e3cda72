#![tactic(auto)]
// The forged messages of a plan, decoded in the workspace, and stage 5 of a tick: 'faulty servers send what the plan lists'.
ghost use Rattle.std.specs.Prelude.{◌≡◌, ◌+◌, ◌≤◌, ◌<◌, length, get_or};
ghost use Rattle.limits.specs.Limits.{most_servers};
ghost use Rattle.calendar.specs.View.{Posted};
ghost use Rattle.forging.specs.Entries.{entry_at, entries_end};
ghost use Rattle.tables.specs.Forged.{most_entries};
ghost use Rattle.forging.specs.Forging.{forged_entry, SentIn, forges};

use calendar::READERS_AT;
use entries::{ForgedEntry, STARTS};
use limits::READERS;

pub mod entries;

// Entry e is under way: a vote, or a reply if it arrives by the end of its reader's read.
fn post_entry(work: &mut [u8], ends: [u8; READERS], n: usize, e: usize)
    requires { (n ≤ most_servers) × (e < most_entries) × (entries_end ≤ length work.old) × (entry_at work.old e 3 < most_servers) }
    ensures { Posted work.old work.new (forged_entry ends n work.old e) }
{
    let entry = ForgedEntry::of(work, e);
    let arrival = usize::from(entry.arrival);
    let receiver = usize::from(entry.receiver);
    let sender = usize::from(entry.sender);
    if receiver < n {
        calendar::post(work, calendar::row(arrival, receiver), entry.number, sender);
        return;
    }
    if receiver <= n {
        return;
    }
    let y = receiver - n;
    if READERS < y || usize::from(ends[y - 1]) < arrival {
        return;
    }
    calendar::post(
        work,
        calendar::row(arrival, READERS_AT + y),
        entry.number,
        sender,
    );
}

// The entries that are sent in tick t are; `starts` has how many are sent before each tick, `ends` the ticks in which the readers' reads end.
pub fn forge(work: &mut [u8], ends: [u8; READERS], n: usize, starts: &[u16; STARTS], t: usize)
    requires { (n ≤ most_servers) × (t < 128) × (entries_end ≤ length work.old) × SentIn work.old starts.now t }
    ensures { Posted work.old work.new (forges ends n work.old (get_or starts.now t 0) (get_or starts.now (t + 1) 0)) }
{
    for e in usize::from(starts[t])..usize::from(starts[t + 1]) {
        post_entry(work, ends, n, e);
    }
}
