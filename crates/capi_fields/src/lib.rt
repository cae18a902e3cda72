#![tactic(auto)]
// The fields of an answer and of a plan's header by number, for a caller that has the bytes alone.
ghost use Rattle.std.specs.Prelude.{◌≡◌};
ghost use Rattle.capi_fields.specs.Fields.{answer_field, header_field};

use plan::form;
use plan::header::Shape;

// The zero bit of a header: the fields before it have a number.
const HEADER_ZERO: usize = 9;

// Of answer i: 0 begin, 1 reader, 2 value, 3 number, 4 count. 0 where there is no such form, answer or field.
pub fn of_answer(form: usize, answers: &[u8], i: usize, field: usize) -> usize
    ensures { result ≡ answer_field form answers.now i field }
{
    if !form::is_known(form) {
        return 0;
    }
    let width = form::width(form);
    let size = answers::size(width);
    if answers.len() / size <= i {
        return 0;
    }
    if answers::ZERO <= field {
        return 0;
    }
    answers::field(&answers[size * i..], width, 0, field) as usize
}

// Of a plan's header: 0 n, 1 f, 2 delta, 3 period, 4 readers, 5 ticks, 6 initial value, 7 operations, 8 forgeries. 0 where there is no such form,
// header or field.
pub fn of_header(form: usize, plan: &[u8], field: usize) -> usize
    ensures { result ≡ header_field form plan.now field }
{
    if !form::is_known(form) {
        return 0;
    }
    let width = form::width(form);
    if plan.len() < Shape::header_bytes(width) {
        return 0;
    }
    if HEADER_ZERO <= field {
        return 0;
    }
    let widths = Shape::header_widths(width);
    records::field(plan, 0, &widths, field) as usize
}
