#![tactic(auto)]
// Carry: a plan from one form to the other, into a lent buffer, every field keeping its number.
mod values;

ghost use Rattle.std.specs.Prelude.{◌≡◌, true, ◌++◌, ◌+◌, ◌*◌, ◌^◌, ◌≤◌, ◌<◌, T, length, drop};
ghost use Rattle.bits.specs.Layout.{total, records, numbers_at, packed_bits};
ghost use Rattle.bits.specs.Writing.{Wrote};
ghost use Rattle.records.specs.Records.{no_wider};
ghost use Rattle.moving.specs.Places.{Behind};
ghost use Rattle.plan.specs.{Form.form_one, Form.form_two, Form.is_form, Form.width_of, Form.most_width, Header.header_of, Playable.Playable, Buffer.into_buffer, Shape.shape, Shape.Sized, Numbered.numbered};
ghost use Rattle.carrying.specs.Carrying.{carried_plan, values_fit, carry_tests, carry_of};

use moving::Places;
use plan::forgeries::Forged;
use plan::header::Shape;
use plan::operations::Operation;
use plan::{Refusal, form};

// The header of a plan in the other form.
fn with_width(h: Shape, width: u8) -> Shape
    ensures { (shape result ≡ shape h) × (result.width ≡ width) }
{
    Shape { width, ..h }
}

// Records of the forged part, as `moving::records` has them. The plan is lent from the byte that holds the bit where the operations end, with an offset
// under eight.
fn forged(
    out: &mut [u8],
    wanted: &[u8],
    plan: &[u8],
    had: &[u8],
    at: Places,
    count: usize,
) -> Places
    requires { T (no_wider 32 had.now) × T (no_wider 32 wanted.now) × (length had.now ≡ length wanted.now)
        × (at.from + total had.now * count ≤ 8 * length plan.now) × (at.to + total wanted.now * count ≤ 8 * length out.old)
        × (at.from + total had.now * count < 2 ^ 60) × (at.to + total wanted.now * count < 2 ^ 60) }
    ensures { Wrote out.old out.new at.to
        (packed_bits (records count wanted.now) (numbers_at (records count had.now) plan.now at.from))
        × Behind at (total had.now * count) (total wanted.now * count) result }
{
    let byte = at.from / 8;
    let inside = Places {
        from: at.from % 8,
        to: at.to,
    };
    let next = moving::records(out, wanted, &plan[byte..], had, inside, count);
    let start = 8 * byte;
    let from = start + next.from;
    Places { from, to: next.to }
}

// Writes the plan with values of so many bits: part behind part, then the zero bits that fill the last byte. Where no value stands, bits stay as they are.
fn write(out: &mut [u8], plan: &[u8], h: Shape, width: u8)
    requires { Sized h.width plan.now (shape h) × (shape h ≡ header_of h.width plan.now) × (width ≤ most_width)
        × (values_fit h.width width plan.now ≡ true) × (length (carried_plan h.width width plan.now) ≤ length out.old) }
    ensures { out.new ≡ carried_plan h.width width plan.now ++ drop (length (carried_plan h.width width plan.now)) out.old }
{
    let had = Shape::header_widths(h.width);
    let wanted = Shape::header_widths(width);
    let at = moving::record(out, &wanted, plan, &had, Places { from: 0, to: 0 });
    let at = moving::copy(out, plan, at, Shape::PLACEMENT_BITS * h.moves());
    let had = Operation::widths(h.width);
    let wanted = Operation::widths(width);
    let at = moving::records(out, &wanted, plan, &had, at, usize::from(h.operations));
    let had = Forged::widths(h.width);
    let wanted = Forged::widths(width);
    let at = forged(out, &wanted, plan, &had, at, usize::from(h.forgeries));
    let at = moving::copy(out, plan, at, Shape::DELAY_BITS * h.delay_count());
    bits::put(out, at.to, bits::fill(at.to), 0);
}

// A plan that passed Check, from values of some width to values of another.
fn carry_at(plan: &[u8], had: u8, wanted: u8, out: &mut [u8]) -> Result<usize, Refusal>
    requires { Playable had plan.now × (had ≤ most_width) × (wanted ≤ most_width) }
    ensures { record { outcome = numbered result; out = out.new } ≡ into_buffer (carried_plan had wanted plan.now) out.old
        (carry_tests had wanted plan.now (length out.old)) }
{
    let h = Shape::read(plan, had);
    if !values::all_fit(plan, h, wanted) {
        return Err(Refusal::ValueTooWide);
    }
    let size = with_width(h, wanted).bytes();
    if out.len() < size {
        return Err(Refusal::CarriedShort);
    }
    write(out, plan, h, wanted);
    Ok(size)
}

fn carry_between(from: usize, to: usize, plan: &[u8], out: &mut [u8]) -> Result<usize, Refusal>
    requires { is_form from ≡ true }
    ensures { record { outcome = numbered result; out = out.new } ≡ carry_of (width_of from) (width_of to) plan.now out.old }
{
    checks::check(from, plan)?;
    carry_at(plan, form::width(from), form::width(to), out)
}

// From form one to form two.
pub fn carry(plan: &[u8], out: &mut [u8]) -> Result<usize, Refusal>
    ensures { record { outcome = numbered result; out = out.new } ≡ carry_of (width_of form_one) (width_of form_two) plan.now out.old }
{
    carry_between(form::ONE, form::TWO, plan, out)
}

// And back.
pub fn carry_back(plan: &[u8], out: &mut [u8]) -> Result<usize, Refusal>
    ensures { record { outcome = numbered result; out = out.new } ≡ carry_of (width_of form_two) (width_of form_one) plan.now out.old }
{
    carry_between(form::TWO, form::ONE, plan, out)
}
