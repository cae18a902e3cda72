// The header of a plan by value, the sizes that follow from it, and the limits of all sizes.
ghost use Rattle.std.specs.Prelude.{◌≡◌, true, ◌+◌, ◌*◌, ◌≤◌, length};
ghost use Rattle.bits.specs.Fill.{bytes_for};
ghost use Rattle.bits.specs.Layout.{fits};
ghost use Rattle.plan.specs.Form.{most_width};
ghost use Rattle.plan.specs.Widths.{header_widths};
ghost use Rattle.plan.specs.Header.{header_from, header_of, header_bits, operation_bits, forgery_bits, k_in, moves, parties, delay_count, placement_at, operation_at, forgery_at, bit_length};
ghost use Rattle.plan.specs.Limits.{most_bytes, most_operations_at, most_forgeries_at, most_delays_at, most_delays, most_bits, implied_bytes, most_reads};
ghost use Rattle.plan.specs.Check.{header_in_range, enough_servers};
ghost use Rattle.plan.specs.Shape.{shape, Ranged};

use crate::forgeries::Forged;
use crate::form;
use crate::operations::Operation;

// The shape of a cluster and of its plan (document 01: of the hall).
#[derive(Clone, Copy, Debug, PartialEq, Eq)]
pub struct Shape {
    // The bits of a value, by the plan's form.
    pub width: u8,
    pub n: u8,
    pub f: u8,
    pub delta: u8,
    pub period: u8,
    pub readers: u8,
    pub ticks: u8,
    pub initial: u32,
    pub operations: u8,
    pub forgeries: u16,
    pub zero: u8,
}

impl Shape {
    // The fields of a header, and the bits of each but its value.
    pub const HEADER_FIELDS: usize = 10;

    const SERVERS_BITS: usize = 5;

    const FAULTY_BITS: usize = 2;

    const DELTA_BITS: usize = 4;

    const PERIOD_BITS: usize = 6;

    const READERS_BITS: usize = 3;

    const TICKS_BITS: usize = 8;

    const OPERATIONS_BITS: usize = 8;

    const FORGERIES_BITS: usize = 11;

    const ZERO_BITS: usize = 1;

    // The bits behind each field that stands before the value, up to it.
    const READERS_AT: usize = Self::TICKS_BITS;

    const PERIOD_AT: usize = Self::READERS_AT + Self::READERS_BITS;

    const DELTA_AT: usize = Self::PERIOD_AT + Self::PERIOD_BITS;

    const FAULTY_AT: usize = Self::DELTA_AT + Self::DELTA_BITS;

    const SERVERS_AT: usize = Self::FAULTY_AT + Self::FAULTY_BITS;

    // All bits before the value, and all behind it.
    const FRONT_BITS: usize = Self::SERVERS_AT + Self::SERVERS_BITS;

    const BACK_BITS: usize = Self::OPERATIONS_BITS + Self::FORGERIES_BITS + Self::ZERO_BITS;

    pub const PLACEMENT_BITS: usize = 16;

    pub const PLACEMENT_WIDTHS: [u8; 1] = [Self::PLACEMENT_BITS as u8];

    pub const DELAY_BITS: usize = 4;

    // The longest plan that Check accepts, in form one and in form two.
    const MOST_BYTES_ONE: usize = 34362;

    const MOST_BYTES_TWO: usize = 35619;

    // The most bytes that a header in range implies, in either form: what is longer need not be read to its end.
    pub const IMPLIED_BYTES: usize = 35717;

    // The reads of an accepted plan: at most 42 of each reader.
    pub const MOST_READS: usize = 168;

    pub const WORKSPACE_BYTES: usize = 60000;

    pub const MOST_SERVERS: u8 = 16;

    pub const MOST_DELTA: u8 = 15;

    pub const MOST_PERIOD: u8 = 63;

    pub const MOST_READERS: u8 = 4;

    pub const MOST_TICKS: u8 = 128;

    pub const MOST_FORGERIES: u16 = 1024;

    // The limits that no other function of the crate uses, proved to be the definitions'.
    pub fn most_bytes(form: usize) -> usize
        ensures { result ≡ most_bytes form }
    {
        match form {
            form::ONE => Self::MOST_BYTES_ONE,
            form::TWO => Self::MOST_BYTES_TWO,
            _ => 0,
        }
    }

    pub fn implied_bytes() -> usize
        ensures { result ≡ implied_bytes }
    {
        Self::IMPLIED_BYTES
    }

    pub fn most_reads() -> usize
        ensures { result ≡ most_reads }
    {
        Self::MOST_READS
    }

    // The widths of a header's fields in packed order.
    pub fn header_widths(width: u8) -> [u8; Self::HEADER_FIELDS]
        ensures { result ≡ header_widths width }
    {
        [
            Self::SERVERS_BITS as u8,
            Self::FAULTY_BITS as u8,
            Self::DELTA_BITS as u8,
            Self::PERIOD_BITS as u8,
            Self::READERS_BITS as u8,
            Self::TICKS_BITS as u8,
            width,
            Self::OPERATIONS_BITS as u8,
            Self::FORGERIES_BITS as u8,
            Self::ZERO_BITS as u8,
        ]
    }

    pub fn header_bits(width: u8) -> usize
        ensures { result ≡ header_bits width }
    {
        Self::FRONT_BITS + usize::from(width) + Self::BACK_BITS
    }

    pub fn header_bytes(width: u8) -> usize
        ensures { result ≡ bytes_for (header_bits width) }
    {
        bits::bytes_for(Self::header_bits(width))
    }

    // The header with these fields, in packed order.
    pub fn of(x: &[u32], width: u8) -> Shape
        requires { fits (header_widths width) x.now ≡ true }
        ensures { (shape result ≡ header_from x.now) × (result.width ≡ width) }
    {
        Shape {
            width,
            n: x[0] as u8,
            f: x[1] as u8,
            delta: x[2] as u8,
            period: x[3] as u8,
            readers: x[4] as u8,
            ticks: x[5] as u8,
            initial: x[6],
            operations: x[7] as u8,
            forgeries: x[8] as u16,
            zero: x[9] as u8,
        }
    }

    // The header of a plan: the fields before the value are parts of one number, and those behind it.
    pub fn read(plan: &[u8], width: u8) -> Shape
        requires { (bytes_for (header_bits width) ≤ length plan.now) × (width ≤ most_width) }
        ensures { (shape result ≡ header_of width plan.now) × (result.width ≡ width) }
    {
        let value = usize::from(width);
        let front = bits::field(plan, 0, Self::FRONT_BITS);
        let back = bits::field(plan, Self::FRONT_BITS + value, Self::BACK_BITS);
        Shape {
            width,
            n: bits::part(front, Self::SERVERS_AT, Self::SERVERS_BITS) as u8,
            f: bits::part(front, Self::FAULTY_AT, Self::FAULTY_BITS) as u8,
            delta: bits::part(front, Self::DELTA_AT, Self::DELTA_BITS) as u8,
            period: bits::part(front, Self::PERIOD_AT, Self::PERIOD_BITS) as u8,
            readers: bits::part(front, Self::READERS_AT, Self::READERS_BITS) as u8,
            ticks: bits::part(front, 0, Self::TICKS_BITS) as u8,
            initial: bits::field(plan, Self::FRONT_BITS, value) as u32,
            operations: bits::part(
                back,
                Self::FORGERIES_BITS + Self::ZERO_BITS,
                Self::OPERATIONS_BITS,
            ) as u8,
            forgeries: bits::part(back, Self::ZERO_BITS, Self::FORGERIES_BITS) as u16,
            zero: bits::part(back, 0, Self::ZERO_BITS) as u8,
        }
    }

    pub fn is_in_range(self) -> bool
        ensures { result ≡ header_in_range (shape self) }
    {
        (1..=Self::MOST_SERVERS).contains(&self.n)
            && (1..=Self::MOST_DELTA).contains(&self.delta)
            && (self.delta..=Self::MOST_PERIOD).contains(&self.period)
            && (1..=Self::MOST_READERS).contains(&self.readers)
            && (1..=Self::MOST_TICKS).contains(&self.ticks)
            && self.forgeries <= Self::MOST_FORGERIES
            && self.zero == 0
    }

    // In how many periods a vote counts.
    #[tactic(auto, unfolding(register::specs::Plan::k_of))]
    pub fn k(self) -> u8
        ensures { (result ≡ k_in (shape self)) × (result ≤ 2) }
    {
        if 2 * u16::from(self.delta) <= u16::from(self.period) {
            1
        } else {
            2
        }
    }

    // How many different servers must vote for a pair in one period.
    pub fn echo_quorum(self) -> u32
        ensures { result ≡ 2 * self.f + 1 }
    {
        2 * u32::from(self.f) + 1
    }

    // The same over k periods, and how many must name a read's answer.
    pub fn reply_quorum(self) -> u32
        ensures { result ≡ (k_in (shape self) + 1) * self.f + 1 }
    {
        (u32::from(self.k()) + 1) * u32::from(self.f) + 1
    }

    #[tactic(auto, unfolding(crate::specs::Check::enough_servers))]
    pub fn has_enough_servers(self) -> bool
        ensures { result ≡ enough_servers (shape self) }
    {
        (u32::from(self.k()) + 3) * u32::from(self.f) + 1 <= u32::from(self.n)
    }

    // How many movements there are, and so how many placements.
    pub fn moves(self) -> usize
        requires { Ranged (shape self) }
        ensures { (result ≡ moves (shape self)) × (result ≤ 128) }
    {
        usize::from(self.ticks).div_ceil(usize::from(self.period))
    }

    pub fn parties(self) -> usize
        ensures { result ≡ parties (shape self) }
    {
        usize::from(self.n) + 1 + usize::from(self.readers)
    }

    // The bits of an operation, and of a forgery.
    pub fn operation_bits(self) -> usize
        ensures { result ≡ operation_bits self.width }
    {
        Operation::bits(self.width)
    }

    pub fn forgery_bits(self) -> usize
        ensures { result ≡ forgery_bits self.width }
    {
        Forged::bits(self.width)
    }

    // The first bit of placement i.
    pub fn placement_at(self, i: usize) -> usize
        requires { i ≤ 255 }
        ensures { result ≡ placement_at self.width i }
    {
        Self::header_bits(self.width) + Self::PLACEMENT_BITS * i
    }

    // The first bit of the operations.
    pub fn operations_at(self) -> usize
        requires { Ranged (shape self) × (self.width ≤ most_width) }
        ensures { (result ≡ placement_at self.width (moves (shape self))) × (result ≤ most_operations_at) }
    {
        self.placement_at(self.moves())
    }

    // The first bit of the forgeries.
    #[tactic(auto, using(crate::proofs::Sizes::operations_few))]
    pub fn forgeries_at(self) -> usize
        requires { Ranged (shape self) × (self.width ≤ most_width) }
        ensures { (result ≡ operation_at self.width (shape self) self.operations) × (result ≤ most_forgeries_at) }
    {
        self.operations_at() + self.operation_bits() * usize::from(self.operations)
    }

    // The first bit of the delays.
    #[tactic(auto, using(crate::proofs::Sizes::forgeries_few))]
    pub fn delays_at(self) -> usize
        requires { Ranged (shape self) × (self.width ≤ most_width) }
        ensures { (result ≡ forgery_at self.width (shape self) self.forgeries) × (result ≤ most_delays_at) }
    {
        self.forgeries_at() + self.forgery_bits() * usize::from(self.forgeries)
    }

    // How many delays there are.
    pub fn delay_count(self) -> usize
        requires { Ranged (shape self) }
        ensures { (result ≡ delay_count (shape self)) × (result ≤ most_delays) }
    {
        let parties = self.parties();
        usize::from(self.ticks) * (parties * parties)
    }

    // The first of the final zero bits.
    pub fn bits(self) -> usize
        requires { Ranged (shape self) × (self.width ≤ most_width) }
        ensures { (result ≡ bit_length self.width (shape self)) × (result ≤ most_bits) }
    {
        self.delays_at() + Self::DELAY_BITS * self.delay_count()
    }

    // The bytes of a plan with this header: the final bits fill the last one.
    pub fn bytes(self) -> usize
        requires { Ranged (shape self) × (self.width ≤ most_width) }
        ensures { result ≡ bytes_for (bit_length self.width (shape self)) }
    {
        bits::bytes_for(self.bits())
    }
}
