// The delays of the links, in the plan.
ghost use Rattle.std.specs.Prelude.{◌≡◌, ◌+◌, ◌^◌, ◌≤◌, ◌<◌};
ghost use Rattle.tables.specs.Links.{link_bit, link_delay, Reach};

use super::Links;
use plan::header::Shape;

// The bit where the delays of tick u from party i begin.
#[tactic(auto, unfolding(crate::specs::Links::link_bit))]
pub fn row_bit(links: Links, u: u8, i: usize) -> usize
    requires { (links.at < 2 ^ 32) × (links.parties ≤ 24) × (u < 128) × (i < links.parties) }
    ensures { result ≡ link_bit links u i 0 }
{
    links.at + Shape::DELAY_BITS * ((usize::from(u) * links.parties + i) * links.parties)
}

// The delay of tick u from party i to party b.
pub fn delay(plan: &[u8], links: Links, u: u8, i: usize, b: usize) -> usize
    requires { Reach plan.now links links.n u i b }
    ensures { (result ≡ link_delay plan.now links u i b) × (result < 16) }
{
    usize::from(bits::nibble(plan, row_bit(links, u, i) + Shape::DELAY_BITS * b))
}
