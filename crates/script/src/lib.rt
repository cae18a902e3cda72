#![tactic(auto)]
// A plan that can be played, decoded once for playing, and what each tick of the engine is fed.
ghost use Rattle.std.specs.Prelude.{◌≡◌, ◌≤◌, length};
ghost use Rattle.plan.specs.Form.{most_width};
ghost use Rattle.plan.specs.Header.{header_of};
ghost use Rattle.plan.specs.Playable.{Playable};
ghost use Rattle.plan.specs.Shape.{shape};
ghost use Rattle.limits.specs.Limits.{places};
ghost use Rattle.forging.specs.Entries.{entries_end};
ghost use Rattle.tables.specs.Rules.{LinksOf};
ghost use Rattle.script.specs.Script.{Entered, Scripted, width_in};

use forging::entries;
use forging::entries::STARTS;
use plan::header::Shape;
use tables::forged::ForgedPart;
use tables::operations::{Reads, Writes};
use tables::{Links, Rules, links_of, operations, rules_of};

pub mod inputs;

// The parts of a plan that playing it needs. The forged entries stand in the workspace; `starts` says how many were sent before each tick.
#[derive(Clone, Copy)]
pub struct Script {
    pub shape: Shape,
    pub rules: Rules,
    pub links: Links,
    pub writes: Writes,
    pub reads: Reads,
    pub starts: [u16; STARTS],
}

// The forged entries, into the workspace, and where those of each tick start.
fn enter(plan: &[u8], work: &mut [u8], header: Shape, links: Links, writes: Writes) -> [u16; STARTS]
    requires { Playable header.width plan.now × (header.width ≤ most_width) × (shape header ≡ header_of header.width plan.now)
        × LinksOf header.width (shape header) links × (entries_end ≤ length work.old) × (writes.known.m ≤ places) }
    ensures { Entered header.width plan.now work.old work.new writes.known.values writes.known.m result }
{
    let part = ForgedPart::of(plan, header);
    entries::fill(
        work,
        &part,
        plan,
        links,
        &writes.known.values,
        writes.known.m,
    );
    entries::starts(work, part.count)
}

// Decodes a plan that can be played.
pub fn read(plan: &[u8], width: u8, work: &mut [u8]) -> Script
    requires { Playable width plan.now × (width ≤ most_width) × (entries_end ≤ length work.old) }
    ensures { Scripted plan.now work.old work.new result × (width_in result ≡ width) }
{
    let header = Shape::read(plan, width);
    let rules = rules_of(header);
    let links = links_of(header);
    let at = header.operations_at();
    let count = usize::from(header.operations);
    let writes = operations::writes_of(plan, at, width, count, header.initial);
    let reads = operations::reads_of(plan, at, width, count);
    let starts = enter(plan, work, header, links, writes);
    Script {
        shape: header,
        rules,
        links,
        writes,
        reads,
        starts,
    }
}
