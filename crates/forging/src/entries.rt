// The forged messages of a plan, decoded once into the lent workspace, and where those of each tick start.
ghost use Rattle.std.specs.Prelude.{◌≡◌, ◌+◌, ◌≤◌, ◌<◌, length};
ghost use Rattle.forging.specs.Entries.{number_in, entry_at, entry_bytes, Fillable, Filled, known_number, Start, Starts, entries_end};
ghost use Rattle.tables.specs.Forged.{forged_at, forged_delay, most_entries};
ghost use Rattle.limits.specs.Limits.{places};

use limits::{NO_PAIR, PLACES};
use tables::Links;
use tables::forged::{ForgedPart, delay_of};

// The byte at which the forged entries begin, behind the requests.
pub const ENTRIES: usize = requests::END;

// How many bytes an entry has.
pub const ENTRY: usize = 8;

// How many ticks the starts are told for: one more than a plan may have.
pub const STARTS: usize = 129;

// The number, if it is that of a known pair with this value; else NO_PAIR.
#[tactic(auto, unfolding(crate::specs::Entries::number_in))]
fn known_number(values: &[u32; PLACES], m: usize, value: u32, number: u8) -> u8
    requires { m ≤ places }
    ensures { result ≡ number_in values.now m value number }
{
    let i = usize::from(number);
    if i < m && values[i] == value {
        return number;
    }
    NO_PAIR
}

// A forged message in the workspace: the ticks in which it is sent and arrives, whom it goes to and who sends it, the number of its pair or NO_PAIR.
#[derive(Clone, Copy)]
pub struct ForgedEntry {
    pub sent: u8,
    pub arrival: u8,
    pub receiver: u8,
    pub sender: u8,
    pub number: u8,
}

impl ForgedEntry {
    // Entry e.
    pub fn of(work: &[u8], e: usize) -> ForgedEntry
        requires { (e < most_entries) × (entries_end ≤ length work.now) }
        ensures sent { result.sent ≡ entry_at work.now e 0 }
        ensures arrival { result.arrival ≡ entry_at work.now e 1 }
        ensures receiver { result.receiver ≡ entry_at work.now e 2 }
        ensures sender { result.sender ≡ entry_at work.now e 3 }
        ensures number { result.number ≡ entry_at work.now e 4 }
    {
        let at = ENTRIES + ENTRY * e;
        ForgedEntry {
            sent: work[at],
            arrival: work[at + 1],
            receiver: work[at + 2],
            sender: work[at + 3],
            number: work[at + 4],
        }
    }

    // It stands from byte `at` of the workspace on.
    #[tactic(auto, unfolding(crate::specs::Entries::entry_bytes))]
    fn put(self, work: &mut [u8], at: usize)
        requires { (at + 5 ≤ length work.old) × (at < 65536) }
        ensures { work.new ≡ entry_bytes work.old at self.sent self.arrival self.receiver self.sender self.number }
    {
        work[at] = self.sent;
        work[at + 1] = self.arrival;
        work[at + 2] = self.receiver;
        work[at + 3] = self.sender;
        work[at + 4] = self.number;
    }
}

// All forged entries, those of the forged part of the plan.
pub fn fill(
    work: &mut [u8],
    part: &ForgedPart,
    plan: &[u8],
    links: Links,
    values: &[u32; PLACES],
    m: usize,
)
    requires { Fillable part.now.width work.old part.now.bytes.now part.now.offset part.now.count plan.now links links.n m }
    ensures { Filled work.old work.new part.now.count (forged_at part.now.width part.now.bytes.now part.now.offset)
        (λ e. forged_delay plan.now links (forged_at part.now.width part.now.bytes.now part.now.offset e))
        (λ e. known_number part.now.width values.now m (forged_at part.now.width part.now.bytes.now part.now.offset e)) }
{
    for e in 0..part.count {
        let g = part.message(e);
        let entry = ForgedEntry {
            sent: g.at,
            arrival: g.at + delay_of(plan, links, g) as u8,
            receiver: g.to,
            sender: g.from,
            number: known_number(values, m, g.value, g.number),
        };
        entry.put(work, ENTRIES + ENTRY * e);
    }
}

// The first entry from e on that was sent in tick u or later.
fn next_start(work: &[u8], e: usize, count: usize, u: u8) -> usize
    requires { (e ≤ count) × (count ≤ most_entries) × (entries_end ≤ length work.now) }
    ensures { (e ≤ result) × Start work.now e count u result }
{
    for i in e..count {
        if u <= ForgedEntry::of(work, i).sent {
            return i;
        }
    }
    count
}

// For each tick, how many entries were sent before it.
pub fn starts(work: &[u8], count: usize) -> [u16; STARTS]
    requires { (count ≤ most_entries) × (entries_end ≤ length work.now) }
    ensures { Starts work.now count result }
{
    let mut r = [0u16; STARTS];
    let mut e = 0;
    for u in 0..STARTS {
        e = next_start(work, e, count, u as u8);
        r[u] = e as u16;
    }
    r
}
