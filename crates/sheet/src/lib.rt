#![tactic(auto)]
// The sheet for the booth: the answers to a plan's reads, printed on a lent page.
ghost use mathlib.Core.{Path.◌≡◌, List.List};
ghost use Rattle.std.specs.Prelude.{ℕ, ◌+◌, ◌*◌, ◌^◌, ◌≤◌, ◌<◌, length};
ghost use Rattle.decimal.specs.Stored.{Stored};
ghost use Rattle.plan.specs.{Form.most_width, Packed.plan_of, Check.result as returned, Buffer.into_buffer, Numbered.numbered};
ghost use Rattle.answers.specs.Answers.{answer_size};
ghost use Rattle.regular.specs.Tables.{Tables};
ghost use Rattle.fitting.specs.Answered.{Answered};
ghost use Rattle.page.specs.Page.{read_line, read_lines, page_of};
ghost use Rattle.sheet.specs.Sheet.{sheet_after, sheet_in};

use fitting::times;
use page::{COLUMNS, Row, put_line};
use plan::{Refusal, form};
use regular::Times;

// The lines that are no read's: heading, rule and closing line.
const OTHER_LINES: usize = 3;

// The line of read i.
#[tactic(auto, using(crate::proofs::Rows::reader_low, crate::proofs::Rows::count_low))]
fn line_of(answers: &[u8], width: u8, i: usize, times: &Times) -> [u8; COLUMNS]
    requires { (answer_size width * i + answer_size width ≤ length answers.now) × (i < 256) × (width ≤ most_width) }
    ensures { (s values : List ℕ) (count : ℕ) → Answered width s answers.now count → i < count
        → Tables width (plan_of width s) values times.now.writes.begun times.now.writes.known.m
        → (plan_of width s).delta ≡ times.now.delta → result ≡ read_line width s answers.now i }
{
    let answer = answers::read(answers, width, i);
    page::read_line(Row {
        begin: answer.begin,
        reader: answer.reader,
        end: u16::from(answer.begin) + 2 * u16::from(times.delta),
        value: answer.value,
        number: answer.number,
        count: answer.count,
        marked: times.has_concurrent(answer.begin),
    })
}

// The lines of all reads, from place `start` of the page on, and the place behind them.
#[tactic(auto, using(plan::proofs::Accept::playable, fitting::proofs::Decoded::few_answers, bits::proofs::Records::record_inside, page::proofs::Lines::lines_length))]
fn put_reads(
    page: &mut [u8],
    start: usize,
    plan: &[u8],
    width: u8,
    answers: &[u8],
    count: usize,
) -> usize
    requires { (start < 2 ^ 16) × (width ≤ most_width) × Answered width plan.now answers.now count }
    ensures { Stored page.old start (read_lines width plan.now answers.now count) page.new result }
{
    let times = times::of_plan(plan, width);
    let mut next = start;
    for i in 0..count {
        let line = line_of(answers, width, i, &times);
        next = put_line(page, next, &line);
    }
    next
}

// The whole page, and its length.
#[tactic(auto, using(page::proofs::Rows::heading_length, page::proofs::Rows::rule_length, crate::proofs::Pages::line_next))]
fn write(page: &mut [u8], plan: &[u8], width: u8, answers: &[u8], count: usize) -> usize
    requires { (width ≤ most_width) × Answered width plan.now answers.now count }
    ensures { Stored page.old 0 (page_of width plan.now answers.now) page.new result }
{
    let heading = page::heading();
    let rule = page::rule(width);
    let empty = [32u8; 80];
    let mut next = put_line(page, 0, &heading);
    next = put_line(page, next, &rule);
    next = put_reads(page, next, plan, width, answers, count);
    put_line(page, next, &empty)
}

// Answers to the reads of an accepted plan.
#[tactic(auto, using(fitting::proofs::Decoded::few_answers, crate::proofs::Pages::too_short))]
fn sheet_at(
    plan: &[u8],
    width: u8,
    answers: &[u8],
    count: usize,
    page: &mut [u8],
) -> Result<usize, Refusal>
    requires { (width ≤ most_width) × Answered width plan.now answers.now count }
    ensures { record { outcome = numbered result; out = page.new } ≡ into_buffer (page_of width plan.now answers.now) page.old
        (sheet_after (page_of width plan.now answers.now) (length page.old) (returned count)) }
{
    if page.len() < page::LINE_BYTES * (count + OTHER_LINES) {
        return Err(Refusal::PageShort);
    }
    Ok(write(page, plan, width, answers, count))
}

// Prints the answers to a plan: Check's refusals, 12, 13, 15, else the number of bytes written.
pub fn sheet(form: usize, plan: &[u8], answers: &[u8], page: &mut [u8]) -> Result<usize, Refusal>
    ensures { record { outcome = numbered result; out = page.new } ≡ sheet_in form plan.now answers.now page.old }
{
    let count = fitting::answered(form, plan, answers)?;
    sheet_at(plan, form::width(form), answers, count, page)
}
