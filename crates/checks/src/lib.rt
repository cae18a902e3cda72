#![tactic(auto)]
// Check: eight tests of a plan, and the first that fails is the refusal. Its parts are the tests of the header (refusals 1 and 2), the bound (3) and the
// rest (4 to 8).
ghost use Rattle.std.specs.Prelude.{◌≡◌, ◌≤◌};
ghost use Rattle.plan.specs.{Form.most_width, Header.header_of, Check.check_of, Check.check_in, CheckParts.check_rest, Shape.shape, Shape.Ranged, Numbered.numbered};
ghost use Rattle.checks.specs.Headed.{IsHeaded};

use operations::reads;
use plan::header::Shape;
use plan::{Refusal, form};

// The tests of the header, and the header that passes them.
fn header(plan: &[u8], width: u8) -> Result<Shape, Refusal>
    requires { width ≤ most_width }
    ensures { IsHeaded width plan.now result }
{
    if plan.len() < Shape::header_bytes(width) {
        return Err(Refusal::TooShort);
    }
    let h = Shape::read(plan, width);
    if !h.is_in_range() {
        return Err(Refusal::HeaderRange);
    }
    Ok(h)
}

// The rest, behind the tests of the header.
fn rest(plan: &[u8], h: Shape) -> Result<usize, Refusal>
    requires { Ranged (shape h) × (h.width ≤ most_width) × (shape h ≡ header_of h.width plan.now) }
    ensures { numbered result ≡ check_rest h.width plan.now (shape h) }
{
    if plan.len() != h.bytes() {
        return Err(Refusal::Length);
    }
    if !placements::all_stand(plan, h) {
        return Err(Refusal::Placement);
    }
    if !operations::all_stand(plan, h) {
        return Err(Refusal::Operation);
    }
    if !forgeries::all_stand(plan, h) {
        return Err(Refusal::Forgery);
    }
    if !(delays::all_stand(plan, h) && delays::are_final_bits_zero(plan, h)) {
        return Err(Refusal::Delay);
    }
    Ok(reads::count(plan, h))
}

// At values of so many bits.
fn check_at(plan: &[u8], width: u8) -> Result<usize, Refusal>
    requires { width ≤ most_width }
    ensures { numbered result ≡ check_of width plan.now }
{
    let h = header(plan, width)?;
    if !h.has_enough_servers() {
        return Err(Refusal::TooFewServers);
    }
    rest(plan, h)
}

// In the form that the caller names.
pub fn check(form: usize, plan: &[u8]) -> Result<usize, Refusal>
    ensures { numbered result ≡ check_in form plan.now }
{
    if !form::is_known(form) {
        return Err(Refusal::TooShort);
    }
    check_at(plan, form::width(form))
}
