#![tactic(auto)]
// A tick of a plan that can be played: its five stages, on a state that is lent.
ghost use Rattle.std.specs.Prelude.{◌≡◌, suc, ◌+◌, ◌*◌, ◌≤◌, ◌<◌, length};
ghost use Rattle.requests.specs.Requests.{requests_end};
ghost use Rattle.tables.specs.Links.{Linked};
ghost use Rattle.answers.specs.Answers.{answer_size};
ghost use Rattle.script.specs.Script.{Decoded, width_in};
ghost use Rattle.requests.specs.Asking.{WroteOn};
ghost use Rattle.reading.specs.Reading.{Begun, WentOn};
ghost use Rattle.ticking.specs.Ticked.{Ready, PlayedTo, Went};

use cluster::{Cluster, tick};
use reading::Reading;
use requests::asking;
use script::Script;
use script::inputs::feed_of;
use tallies::CELLS;

// The cluster between two ticks: how many writes and reads have begun, how many reads have been answered, and the tick that is next.
#[derive(Clone, Copy)]
pub struct Playing {
    pub cluster: Cluster,
    pub written: u8,
    pub begun: usize,
    pub answered: usize,
    pub tick: u8,
}

// The write that begins in tick t, if there is one. The number of the last one begun then.
pub fn write_on(work: &mut [u8], plan: &[u8], script: Script, written: u8, t: u8) -> u8
    requires { Decoded plan.now script × (t < script.shape.ticks) × (requests_end ≤ length work.old) }
    ensures { WroteOn plan.now script.links script.links.n t script.writes.begun script.writes.known.m written result work.old work.new }
{
    asking::write_on(
        work,
        plan,
        script.links,
        t,
        &script.writes.begun,
        script.writes.known.m,
        written,
    )
}

// The reads that end in tick t and those that begin in it; in most ticks none does.
pub fn read_on(
    r: Reading,
    answers: &mut [u8],
    work: &mut [u8],
    plan: &[u8],
    sets: &mut [u16; CELLS],
    script: Script,
    t: u8,
) -> Reading
    requires { Begun script r × Linked plan.now script.links script.links.n (t + 1) × (script.rules.delta ≤ 15) × (answer_size (width_in script) * script.reads.m ≤ length answers.old)
        × (requests_end ≤ length work.old) }
    ensures { WentOn plan.now script t r result answers.old answers.new work.old work.new sets.old sets.new }
{
    if !reading::is_due(
        &script.reads.begun,
        script.reads.m,
        r.begun,
        r.answered,
        t,
        script.rules.delta,
    ) {
        return r;
    }
    reading::go_on(r, answers, work, plan, sets, script, t)
}

// 'One tick carries the whole hall from one state to the next': the next tick of a state that is lent, stage by stage.
pub fn tick(
    p: &mut Playing,
    plan: &[u8],
    answers: &mut [u8],
    work: &mut [u8],
    sets: &mut [u16; CELLS],
    script: Script,
)
    requires { Ready plan.now work.old script × PlayedTo plan.now work.old sets.old script p.old × (p.old.tick < script.shape.ticks) × (answer_size (width_in script) * script.reads.m ≤ length answers.old) }
    ensures { Went plan.now work.old work.new sets.old sets.new answers.old answers.new script p.old p.new × (p.new.tick ≡ suc p.old.tick) }
{
    let t = p.tick;
    let ends = p.cluster.ends;
    let feed = feed_of(plan, work, script, p.written, ends, t);
    // 1. Deliveries.
    tick::hear_all(work, sets, usize::from(t));
    let values = &script.writes.known.values;
    let delivered = tick::deliver_all(p.cluster.servers, work, plan, sets, values, feed, ends);
    // 2. Cures end.
    let cured = tick::cure_all(delivered, work, plan, feed, ends);
    // 3. Movement.
    let servers = tick::move_all(cured, sets, feed);
    // 4. Echo, then operations end and begin.
    tick::echo_all(servers, work, plan, feed);
    let written = write_on(work, plan, script, p.written, t);
    let r = Reading {
        ends,
        begun: p.begun,
        answered: p.answered,
    };
    let done = read_on(r, answers, work, plan, sets, script, t);
    // 5. Forgeries.
    let ends = done.ends;
    forging::forge(work, ends, script.rules.n, &script.starts, usize::from(t));
    *p = Playing {
        cluster: Cluster { servers, ends },
        written,
        begun: done.begun,
        answered: done.answered,
        tick: t + 1,
    };
}
