// What one party sends in a tick: its delays to the servers, read from the plan as one number.
ghost use Rattle.std.specs.Prelude.{◌≡◌, ◌*◌, ◌^◌, ◌≤◌, ◌<◌};
ghost use Rattle.bits.specs.Field.{field_of};
ghost use Rattle.plan.specs.Header.{delay_bits, DelaysIn};
ghost use Rattle.limits.specs.Limits.{most_servers};
ghost use Rattle.tables.specs.Sending.{Sendable, Sent, arrival_of};

use plan::header::Shape;

// What one party sends in a tick to the n servers: the delays as nibbles, the last server's lowest.
#[derive(Clone, Copy)]
pub struct Sending {
    pub tick: usize,
    pub sender: usize,
    pub n: usize,
    pub delays: u64,
}

// The most nibbles that one field holds, and the bits of the first of two.
const ONE_FIELD: usize = 14;

const FIRST_BITS: usize = 32;

// The numbers that a nibble holds.
const NIBBLES: u64 = 1 << Shape::DELAY_BITS;

// The n nibbles from bit `at` on as one number.
fn nibbles(plan: &[u8], at: usize, n: usize) -> u64
    requires { (n ≤ most_servers) × DelaysIn plan.now at n × (at < 2 ^ 59) }
    ensures { result ≡ field_of plan.now at (delay_bits * n) }
{
    let all = Shape::DELAY_BITS * n;
    if n <= ONE_FIELD {
        return bits::field(plan, at, all);
    }
    let rest = all - FIRST_BITS;
    (bits::field(plan, at, FIRST_BITS) << rest) + bits::field(plan, at + FIRST_BITS, rest)
}

impl Sending {
    // What a party sends in a tick: its delays to the n servers stand in the plan from bit `at` on.
    pub fn of(plan: &[u8], at: usize, n: usize, tick: usize, sender: usize) -> Sending
        requires { (n ≤ most_servers) × DelaysIn plan.now at n × (at < 2 ^ 59) }
        ensures { Sent plan.now at n tick sender result }
    {
        Sending {
            tick,
            sender,
            n,
            delays: nibbles(plan, at, n),
        }
    }

    // The tick in which it reaches server b.
    #[tactic(auto, unfolding(crate::specs::Sending::arrival_of))]
    pub fn arrival(self, b: usize) -> usize
        requires { Sendable self × (b < self.n) }
        ensures { (result ≡ arrival_of self b) × (result < 65552) }
    {
        let late = (self.delays >> (Shape::DELAY_BITS * (self.n - 1 - b))) % NIBBLES;
        self.tick + late as usize
    }
}
