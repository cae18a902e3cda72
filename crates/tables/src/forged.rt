// The forged part of a plan, and each of its messages.
ghost use Rattle.std.specs.Prelude.{◌≡◌, ◌+◌, ◌-◌, ◌*◌, ◌/◌, ◌%◌, ◌^◌, ◌≤◌, ◌<◌, length, take, drop};
ghost use Rattle.plan.specs.Form.{most_width};
ghost use Rattle.plan.specs.Header.{forgery_bits, header_of, operation_at};
ghost use Rattle.plan.specs.Playable.{Playable};
ghost use Rattle.plan.specs.Shape.{shape};
ghost use Rattle.plan.specs.Parts.{forgery_in};
ghost use Rattle.plan.specs.Steps.{forgery};
ghost use Rattle.tables.specs.Forged.{forged_at, most_entries};
ghost use Rattle.tables.specs.Links.{link_delay, Reach};

use super::{Links, delays};
use plan::forgeries::Forged;
use plan::header::Shape;

// So many forged messages, from bit `offset` of the bytes on, with values of so many bits.
#[derive(Clone, Copy)]
pub struct ForgedPart<'a> {
    pub bytes: &'a [u8],
    pub offset: usize,
    pub width: u8,
    pub count: usize,
}

impl<'a> ForgedPart<'a> {
    // That of a plan that can be played, from the byte that holds its first bit.
    pub fn of(plan: &'a [u8], h: Shape) -> ForgedPart<'a>
        requires { Playable h.width plan.now × (h.width ≤ most_width) × (shape h ≡ header_of h.width plan.now) }
        ensures { let at = operation_at h.width (shape h) h.operations in
            (result.bytes.now ≡ take (length plan.now - at / 8) (drop (at / 8) plan.now)) × (result.offset ≡ at % 8)
            × (result.width ≡ h.width) × (result.count ≡ h.forgeries) }
    {
        let at = h.forgeries_at();
        ForgedPart {
            bytes: &plan[at / 8..],
            offset: at % 8,
            width: h.width,
            count: usize::from(h.forgeries),
        }
    }

    // Message e.
    pub fn message(&self, e: usize) -> Forged
        requires { (self.now.width ≤ most_width) × (self.now.offset < 8) × (self.now.count ≤ most_entries) × (e < self.now.count)
            × (self.now.offset + forgery_bits self.now.width * self.now.count ≤ 8 * length self.now.bytes.now) }
        ensures { (forgery self.now.width result ≡ forged_at self.now.width self.now.bytes.now self.now.offset e)
            × (result.at < 128) × (result.value < 2 ^ self.now.width) }
    {
        let at = self.offset + Forged::bits(self.width) * e;
        message_at(self.bytes, at, self.width)
    }
}

// The forged message that stands from bit `at` on.
pub fn message_at(part: &[u8], at: usize, width: u8) -> Forged
    requires { (at + forgery_bits width ≤ 8 * length part.now) × (at < 2 ^ 50) × (width ≤ most_width) }
    ensures { (forgery width result ≡ forgery_in width part.now at) × (result.at < 128) × (result.value < 2 ^ width) }
{
    Forged::of(bits::field(part, at, Forged::bits(width)), width)
}

// How long it takes.
pub fn delay_of(plan: &[u8], links: Links, g: Forged) -> usize
    requires { Reach plan.now links links.n g.at g.from g.to }
    ensures { (result ≡ link_delay plan.now links g.at g.from g.to) × (result < 16) }
{
    delays::delay(plan, links, g.at, usize::from(g.from), usize::from(g.to))
}
