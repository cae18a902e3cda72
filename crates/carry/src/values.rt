// Whether the values of a plan fit into fewer bits: the start value, those of the operations and those of the forgeries.
ghost use Rattle.std.specs.Prelude.{◌≡◌, ℕ, ◌+◌, ◌*◌, ◌^◌, ◌≤◌, ◌<◌, ltb, length};
ghost use Rattle.bits.specs.Field.{field_of};
ghost use Rattle.register.specs.Lists.{all_up_to};
ghost use Rattle.plan.specs.Form.{most_width};
ghost use Rattle.plan.specs.Header.{header_of};
ghost use Rattle.plan.specs.Shape.{shape, Sized};
ghost use Rattle.carrying.specs.Carrying.{values_fit};

use plan::forgeries::Forged;
use plan::header::Shape;
use plan::operations::Operation;

// So many fields of so many bits, the first at bit `at` and each `step` bits behind the one before.
#[derive(Clone, Copy)]
struct Fields {
    at: usize,
    step: usize,
    count: usize,
    width: usize,
}

// Are these fields of the plan all below the limit.
fn values_fit(plan: &[u8], fields: Fields, limit: u64) -> bool
    requires { (fields.width ≤ most_width) × ((i : ℕ) → i < fields.count
        → (fields.at + fields.step * i + fields.width ≤ 8 * length plan.now) × (fields.at + fields.step * i < 2 ^ 60)) }
    ensures { result ≡ all_up_to fields.count (λ i. ltb (field_of plan.now (fields.at + fields.step * i) fields.width) limit) }
{
    for i in 0..fields.count {
        let value = bits::field(plan, fields.at + fields.step * i, fields.width);
        if limit <= value {
            return false;
        }
    }
    true
}

// The same of fields of the forged part, whose places count from the part's first bit, `first`. The plan is lent from the byte that holds that bit, with an
// offset under eight.
fn forged_fit(plan: &[u8], first: usize, fields: Fields, limit: u64) -> bool
    requires { (fields.width ≤ most_width) × (first ≤ 8 * length plan.now) × (fields.at < 2 ^ 60) × ((i : ℕ) → i < fields.count
        → (first + fields.at + fields.step * i + fields.width ≤ 8 * length plan.now) × (first + fields.at + fields.step * i < 2 ^ 60)) }
    ensures { result ≡ all_up_to fields.count (λ i. ltb (field_of plan.now (first + fields.at + fields.step * i) fields.width) limit) }
{
    let byte = first / 8;
    let part = Fields {
        at: first % 8 + fields.at,
        ..fields
    };
    values_fit(&plan[byte..], part, limit)
}

// Have all of them at most so many bits.
#[tactic(auto, using(carrying::proofs::Values::wider_fits))]
pub fn all_fit(plan: &[u8], h: Shape, width: u8) -> bool
    requires { Sized h.width plan.now (shape h) × (shape h ≡ header_of h.width plan.now) × (width ≤ most_width) }
    ensures { result ≡ values_fit h.width width plan.now }
{
    // A value of the narrower form fits the wider one.
    if h.width <= width {
        return true;
    }
    let limit = 1u64 << width;
    let had = usize::from(h.width);
    let written = Fields {
        at: h.operations_at() + Operation::VALUE_AT,
        step: h.operation_bits(),
        count: usize::from(h.operations),
        width: had,
    };
    let forged = Fields {
        at: Forged::VALUE_AT,
        step: h.forgery_bits(),
        count: usize::from(h.forgeries),
        width: had,
    };
    u64::from(h.initial) < limit
        && values_fit(plan, written, limit)
        && forged_fit(plan, h.forgeries_at(), forged, limit)
}
