#![tactic(auto)]
// The operations of a plan: refusal 6, one by one and as a row; and the reads among them.
ghost use Rattle.std.specs.Prelude.{◌≡◌, ◌+◌, ◌*◌, ◌≤◌, ◌<◌};
ghost use Rattle.plan.specs.Header.{operation_at};
ghost use Rattle.plan.specs.Check.{operations_stand};
ghost use Rattle.plan.specs.Shape.{shape, Sized};
ghost use Rattle.plan.specs.Steps.{operation, IsOperation};
ghost use Rattle.operations.specs.Steps.{stands_alone};

use plan::header::Shape;
use plan::operations::Operation;

pub mod reads;

// Operation i of the plan, whose operations begin at bit `first`: a loop works that out once.
#[inline(always)]
fn operation_of(plan: &[u8], h: Shape, first: usize, i: usize) -> Operation
    requires { Sized h.width plan.now (shape h) × (first ≡ operation_at h.width (shape h) 0) × (i < h.operations) }
    ensures { IsOperation h.width plan.now (operation_at h.width (shape h) i) result }
{
    Operation::read(plan, first + h.operation_bits() * i, h.width)
}

// What an operation must meet whatever the others are.
fn stands_alone(o: Operation, h: Shape) -> bool
    requires { (o.at < 128) × (h.delta ≤ 15) }
    ensures { result ≡ stands_alone (shape h) (operation o) }
{
    o.party <= h.readers && (o.party == 0 || o.value == 0) && o.end(h) < h.ticks
}

// Its place in the order of ticks, then parties.
fn key(o: Operation) -> u16
    ensures { result ≡ o.at * 8 + o.party }
{
    8 * u16::from(o.at) + u16::from(o.party)
}

// The tables say from which key and, by party, from which tick on the next operation may begin.
pub fn all_stand(plan: &[u8], h: Shape) -> bool
    requires { Sized h.width plan.now (shape h) }
    ensures { result ≡ operations_stand h.width plan.now (shape h) }
{
    let mut next = 0;
    let mut free = [0; Operation::PARTIES];
    let first = h.operations_at();
    for i in 0..usize::from(h.operations) {
        let o = operation_of(plan, h, first, i);
        let key = key(o);
        let party = usize::from(o.party);
        if !stands_alone(o, h) || key < next || o.at < free[party] {
            return false;
        }
        next = key + 1;
        free[party] = o.end(h) + 1;
    }
    true
}
