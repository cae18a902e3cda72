#![tactic(auto)]
// 'Reads end, then reads begin': the table has the reads in the order of their begins, and so of their ends.
ghost use Rattle.std.specs.Prelude.{◌≡◌, ◌||◌, ◌++◌, ◌+◌, ◌*◌, ◌-◌, ◌≤◌, ◌<◌, length, drop};
ghost use Rattle.limits.specs.Limits.{most_readers, places};
ghost use Rattle.tallies.specs.Tallies.{of_reader, holds};
ghost use Rattle.tables.specs.Links.{Linked};
ghost use Rattle.tables.specs.Known.{pair_at, Narrow};
ghost use Rattle.answers.specs.Answers.{answer_size, answer_bytes};
ghost use Rattle.reading.specs.Choosing.{highest_of, answer_by};
ghost use Rattle.plan.specs.Form.{most_width};
ghost use Rattle.requests.specs.Requests.{requests_end};
ghost use Rattle.script.specs.Script.{width_in};
ghost use Rattle.reading.specs.Reading.{Until, There, chosen_bytes, placed, begun_by, SetUp, is_before, Begun, WentOn};

use limits::READERS;
use requests::asking::ask_all;
use script::Script;
use tables::Known;
use tables::operations::TABLE_READS;
use tallies::CELLS;

pub mod choose;

// The ticks in which the readers' last reads end, and how many reads have begun and been answered.
#[derive(Clone, Copy)]
pub struct Reading {
    pub ends: [u8; READERS],
    pub begun: usize,
    pub answered: usize,
}

// The pair that a reader chooses, and how many servers named it.
#[derive(Clone, Copy)]
pub struct Choice {
    pub number: u8,
    pub count: u32,
}

// The first read from read k on that begins in tick u or later.
pub fn first_from(begun: &[u8; TABLE_READS], m: usize, k: usize, u: usize) -> usize
    requires { (k ≤ m) × (m ≤ 255) }
    ensures { Until begun.now m k u result }
{
    for i in k..m {
        if u <= usize::from(begun[i]) {
            return i;
        }
    }
    m
}

// Writes the answer of a read at the start of its part of the answer buffer: its reader chooses of what it has noted.
fn answer(
    out: &mut [u8],
    width: u8,
    sets: &[u16; CELLS],
    known: Known,
    reply: u32,
    begun: u8,
    reader: u8,
)
    requires { (answer_size width ≤ length out.old) × (width ≤ most_width) × (known.m ≤ places) × Narrow width known × (1 ≤ reader) × (reader ≤ most_readers) }
    ensures { out.new ≡ answer_bytes width (record { begun = begun; reader = reader })
        (answer_by (pair_at width known) (highest_of (λ j k. holds sets.now (of_reader (reader - 1) + j) k) reply known.m)) ++ drop (answer_size width) out.old }
{
    let at = tallies::of_reader(usize::from(reader) - 1);
    match choose::chosen(sets, at, known.m, reply) {
        None => answers::write(out, width, begun, reader, 0, 0, 0),
        Some(choice) => answers::write(
            out,
            width,
            begun,
            reader,
            known.values[usize::from(choice.number)],
            choice.number,
            choice.count,
        ),
    }
}

// Writes the answers of the reads from .. to - 1, each at its own bytes.
pub fn end_all(answers: &mut [u8], sets: &[u16; CELLS], script: Script, from: usize, to: usize)
    requires { There script.reads.reader from to × (script.writes.known.m ≤ places) × (width_in script ≤ most_width) × Narrow (width_in script) script.writes.known
        × (answer_size (width_in script) * to ≤ length answers.old) }
    ensures { answers.new ≡ placed (width_in script) (chosen_bytes (width_in script) sets.now script.reads script.writes.known script.rules.reply) from (to - from) answers.old }
{
    let width = script.shape.width;
    let size = answers::size(width);
    for i in from..to {
        answer(
            &mut answers[size * i..],
            width,
            sets,
            script.writes.known,
            script.rules.reply,
            script.reads.begun[i],
            script.reads.reader[i],
        );
    }
}

// The readers of the reads from .. to - 1 have noted nothing yet, and their reads end in tick `end`.
pub fn begin_all(
    before: [u8; READERS],
    sets: &mut [u16; CELLS],
    by: &[u8; TABLE_READS],
    from: usize,
    to: usize,
    end: u8,
) -> [u8; READERS]
    requires { There by.now from to }
    ensures { (result ≡ begun_by by.now end from (to - from) before) × SetUp by.now from (to - from) sets.old sets.new }
{
    let mut ends = before;
    for i in from..to {
        let x = usize::from(by[i]) - 1;
        tallies::empty(sets, tallies::of_reader(x));
        ends[x] = end;
    }
    ends
}

// The reads that begin before it end by tick t.
fn ended_by(t: u8, delta: u8) -> usize
    ensures { result ≡ t + 1 - 2 * delta }
{
    (usize::from(t) + 1).saturating_sub(2 * usize::from(delta))
}

// Does read k, of m, begin before tick u.
fn is_before(begun: &[u8; TABLE_READS], m: usize, k: usize, u: usize) -> bool
    requires { m ≤ 255 }
    ensures { result ≡ is_before begun.now m k u }
{
    k < m && usize::from(begun[k]) < u
}

// Does the next read begin in tick t, or the next one that is open end in it. In most ticks: no.
pub fn is_due(
    begun: &[u8; TABLE_READS],
    m: usize,
    next: usize,
    first: usize,
    t: u8,
    delta: u8,
) -> bool
    requires { m ≤ 255 }
    ensures { result ≡ is_before begun.now m next (t + 1) || is_before begun.now m first (t + 1 - 2 * delta) }
{
    is_before(begun, m, next, usize::from(t) + 1) || is_before(begun, m, first, ended_by(t, delta))
}

// 'Reads end, then reads begin' in tick t.
pub fn go_on(
    r: Reading,
    answers: &mut [u8],
    work: &mut [u8],
    plan: &[u8],
    sets: &mut [u16; CELLS],
    script: Script,
    t: u8,
) -> Reading
    requires { Begun script r × Linked plan.now script.links script.links.n (t + 1) × (script.rules.delta ≤ 15) × (answer_size (width_in script) * script.reads.m ≤ length answers.old)
        × (requests_end ≤ length work.old) }
    ensures { WentOn plan.now script t r result answers.old answers.new work.old work.new sets.old sets.new }
{
    let reads = &script.reads;
    let delta = script.rules.delta;
    let ended = first_from(&reads.begun, reads.m, r.answered, ended_by(t, delta));
    end_all(answers, sets, script, r.answered, ended);
    let from = r.begun;
    let began = first_from(&reads.begun, reads.m, from, usize::from(t) + 1);
    let ends = begin_all(r.ends, sets, &reads.reader, from, began, t + 2 * delta);
    ask_all(work, plan, script.links, t, &reads.reader, from, began);
    Reading {
        ends,
        begun: began,
        answered: ended,
    }
}
