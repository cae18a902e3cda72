#![tactic(auto)]
// The tests of answers against the reads of their plan, and the writes that they are measured by. The plan's reads are decoded once; one loop tests that each
// answer is to its read.
pub mod times;

ghost use Rattle.std.specs.Prelude.{◌≡◌, ◌*◌, ◌+◌, ◌≤◌, ◌<◌, length, get_or};
ghost use Rattle.register.specs.Lists.{all_up_to};
ghost use Rattle.answers.specs.Answers.{answer_size};
ghost use Rattle.plan.specs.Form.{most_width};
ghost use Rattle.plan.specs.Check.{result as returned, check_of};
ghost use Rattle.plan.specs.Numbered.{numbered};
ghost use Rattle.fitting.specs.Answered.{answered_after, answered_in};
ghost use Rattle.fitting.specs.Fitting.{fits_read};

use plan::header::Shape;
use plan::{Refusal, form};
use tables::operations::{TABLE_READS, reads_of};

// Are begin, reader and zero bit of answer i those of its read?
fn is_fitting(answers: &[u8], width: u8, i: usize, begun: u8, reader: u8) -> bool
    requires { (answer_size width * i + answer_size width ≤ length answers.now) × (i < 256) × (width ≤ most_width) }
    ensures { result ≡ fits_read width answers.now i begun reader }
{
    let answer = answers::read(answers, width, i);
    answer.begin == begun && answer.reader == reader && answer.zero == 0
}

// The same of all answers. Both tables are fields of one struct, so they share a lifetime.
fn all_fit<'a>(
    answers: &[u8],
    width: u8,
    begun: &'a [u8; TABLE_READS],
    reader: &'a [u8; TABLE_READS],
    count: usize,
) -> bool
    requires { (count ≤ 255) × (width ≤ most_width) × (answer_size width * count ≤ length answers.now) }
    ensures { result ≡ all_up_to count (λ i. fits_read width answers.now i (get_or begun.now i 0) (get_or reader.now i 0)) }
{
    for i in 0..count {
        if !is_fitting(answers, width, i, begun[i], reader[i]) {
            return false;
        }
    }
    true
}

// The answers to an accepted plan with so many reads.
fn answered_at(plan: &[u8], width: u8, answers: &[u8], count: usize) -> Result<usize, Refusal>
    requires { (check_of width plan.now ≡ returned count) × (width ≤ most_width) }
    ensures { numbered result ≡ answered_after width plan.now answers.now (returned count) }
{
    if answers.len() != answers::size(width) * count {
        return Err(Refusal::WrongLength);
    }
    let shape = Shape::read(plan, width);
    let reads = reads_of(
        plan,
        shape.operations_at(),
        width,
        usize::from(shape.operations),
    );
    if !all_fit(answers, width, &reads.begun, &reads.reader, count) {
        return Err(Refusal::WrongRead);
    }
    Ok(count)
}

// Tests answers against the reads of a plan: Check's refusals, 12, 13, else the number of reads.
pub fn answered(form: usize, plan: &[u8], answers: &[u8]) -> Result<usize, Refusal>
    ensures { numbered result ≡ answered_in form plan.now answers.now }
{
    let count = checks::check(form, plan)?;
    answered_at(plan, form::width(form), answers, count)
}
