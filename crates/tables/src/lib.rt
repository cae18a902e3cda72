#![tactic(auto)]
// The tables of a plan, decoded: what a header gives, the delays of the links, the writes and the reads, and one forged message.
ghost use Rattle.std.specs.Prelude.{◌≤◌};
ghost use Rattle.limits.specs.Limits.{places};
ghost use Rattle.plan.specs.Form.{most_width};
ghost use Rattle.plan.specs.Shape.{Ranged, shape};
ghost use Rattle.tables.specs.Rules.{RulesOf, LinksOf};

use limits::PLACES;
use plan::header::Shape;

pub mod delays;
pub mod forged;
pub mod operations;
pub mod sending;

// The number of servers, δ, is k 2, the echo and the reply quorum.
#[derive(Clone, Copy)]
pub struct Rules {
    pub n: usize,
    pub delta: u8,
    pub two: bool,
    pub echo: u32,
    pub reply: u32,
}

// Where the delays stand in the plan's bits, for so many parties, n of them servers.
#[derive(Clone, Copy)]
pub struct Links {
    pub at: usize,
    pub n: usize,
    pub parties: usize,
}

// The values of the pairs 0 .. m - 1: as many as have a place.
#[derive(Clone, Copy)]
pub struct Known {
    pub values: [u32; PLACES],
    pub m: usize,
    pub ghost few: { m ≤ places },
}

// The rules of the plan with this header.
pub fn rules_of(header: Shape) -> Rules
    ensures { RulesOf (shape header) result }
{
    Rules {
        n: usize::from(header.n),
        delta: header.delta,
        two: header.k() == 2,
        echo: header.echo_quorum(),
        reply: header.reply_quorum(),
    }
}

// Where the delays stand.
pub fn links_of(header: Shape) -> Links
    requires { Ranged (shape header) × (header.width ≤ most_width) }
    ensures { LinksOf header.width (shape header) result }
{
    Links {
        at: header.delays_at(),
        n: usize::from(header.n),
        parties: header.parties(),
    }
}
