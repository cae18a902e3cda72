// A forgery of a plan, as its bits say it.
ghost use Rattle.std.specs.Prelude.{◌≡◌, ◌^◌, ◌≤◌, ◌<◌};
ghost use Rattle.plan.specs.Form.{most_width};
ghost use Rattle.plan.specs.Widths.{forgery_widths};
ghost use Rattle.plan.specs.Header.{forgery_bits};
ghost use Rattle.plan.specs.Steps.{IsForged};

// A forged message: a tick, its sender, its receiver, and the stamped value that it names.
#[derive(Clone, Copy, Debug, PartialEq, Eq)]
pub struct Forged {
    pub at: u8,
    pub from: u8,
    pub to: u8,
    pub value: u32,
    pub number: u8,
}

impl Forged {
    const TICK_BITS: usize = 7;

    const SENDER_BITS: usize = 4;

    const RECEIVER_BITS: usize = 5;

    const NUMBER_BITS: usize = 8;

    pub const FIELDS: usize = 5;

    // The bits before its value.
    pub const VALUE_AT: usize = Self::TICK_BITS + Self::SENDER_BITS + Self::RECEIVER_BITS;

    // The widths of its fields in packed order.
    pub fn widths(width: u8) -> [u8; Self::FIELDS]
        ensures { result ≡ forgery_widths width }
    {
        [
            Self::TICK_BITS as u8,
            Self::SENDER_BITS as u8,
            Self::RECEIVER_BITS as u8,
            width,
            Self::NUMBER_BITS as u8,
        ]
    }

    // All its bits.
    pub fn bits(width: u8) -> usize
        ensures { result ≡ forgery_bits width }
    {
        Self::VALUE_AT + usize::from(width) + Self::NUMBER_BITS
    }

    // Out of the number that has all its bits.
    pub fn of(all: u64, width: u8) -> Forged
        requires { (all < 2 ^ forgery_bits width) × (width ≤ most_width) }
        ensures { IsForged width all result }
    {
        let value = usize::from(width);
        // All but the number, and of that all but the value.
        let rest = all >> Self::NUMBER_BITS;
        let link = rest >> value;
        Forged {
            at: bits::part(
                link,
                Self::SENDER_BITS + Self::RECEIVER_BITS,
                Self::TICK_BITS,
            ) as u8,
            from: bits::part(link, Self::RECEIVER_BITS, Self::SENDER_BITS) as u8,
            to: bits::part(link, 0, Self::RECEIVER_BITS) as u8,
            value: bits::part(rest, 0, value) as u32,
            number: bits::part(all, 0, Self::NUMBER_BITS) as u8,
        }
    }
}
