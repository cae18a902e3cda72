// An operation of a plan, as its bits say it.
ghost use Rattle.std.specs.Prelude.{◌≡◌, ◌+◌, ◌*◌, ◌^◌, ◌≤◌, ◌<◌, length};
ghost use Rattle.plan.specs.Form.{most_width};
ghost use Rattle.plan.specs.Widths.{operation_widths};
ghost use Rattle.plan.specs.Header.{operation_bits};
ghost use Rattle.plan.specs.Check.{end_of};
ghost use Rattle.plan.specs.Shape.{shape};
ghost use Rattle.plan.specs.Steps.{operation, IsOperation};

use crate::header::Shape;

// A write of party 0, or a read of a reader.
#[derive(Clone, Copy, Debug, PartialEq, Eq)]
pub struct Operation {
    pub at: u8,
    pub party: u8,
    pub value: u32,
}

impl Operation {
    const TICK_BITS: usize = 7;

    const PARTY_BITS: usize = 3;

    pub const FIELDS: usize = 3;

    // The parties that a number of so many bits can name.
    pub const PARTIES: usize = 1 << Self::PARTY_BITS;

    // The bits before its value.
    pub const VALUE_AT: usize = Self::TICK_BITS + Self::PARTY_BITS;

    // The widths of its fields in packed order.
    pub fn widths(width: u8) -> [u8; Self::FIELDS]
        ensures { result ≡ operation_widths width }
    {
        [Self::TICK_BITS as u8, Self::PARTY_BITS as u8, width]
    }

    // All its bits.
    pub fn bits(width: u8) -> usize
        ensures { result ≡ operation_bits width }
    {
        Self::VALUE_AT + usize::from(width)
    }

    // The operation from bit `at` on, out of one number.
    pub fn read(plan: &[u8], at: usize, width: u8) -> Operation
        requires { (at + operation_bits width ≤ 8 * length plan.now) × (at < 2 ^ 60) × (width ≤ most_width) }
        ensures { IsOperation width plan.now at result }
    {
        let value = usize::from(width);
        let all = bits::field(plan, at, Self::bits(width));
        let key = all >> value;
        Operation {
            at: bits::part(key, Self::PARTY_BITS, Self::TICK_BITS) as u8,
            party: bits::part(key, 0, Self::PARTY_BITS) as u8,
            value: bits::part(all, 0, value) as u32,
        }
    }

    // The tick in which it ends.
    pub fn end(self, h: Shape) -> u8
        requires { (self.at < 128) × (h.delta ≤ 15) }
        ensures { (result ≡ end_of (shape h) (operation self)) × (self.at ≤ result) × (result < 158) }
    {
        if self.party == 0 {
            self.at + h.delta
        } else {
            self.at + 2 * h.delta
        }
    }
}
