#![tactic(auto)]
// The lines of the text that the program prints for a plan, written into a lent buffer.
ghost use Rattle.std.specs.Prelude.{◌≡◌, ◌++◌, ◌+◌, ◌*◌, ◌^◌, ◌≤◌, ◌<◌, length};
ghost use Rattle.decimal.specs.Decimal.{most_digits};
ghost use Rattle.decimal.specs.Stored.{Stored};
ghost use Rattle.decimal.specs.Aligned.{line_feed};
ghost use Rattle.plan.specs.Packed.{plan_of};
ghost use Rattle.plan.specs.Check.{result as returned, check_of};
ghost use Rattle.answers.specs.Answers.{answers_of};
ghost use Rattle.lines.specs.Text.{program_width, number_then, lines_for};
ghost use Rattle.lines.specs.Lines.{answer_in, line_for};

use capi_fields::of_answer;
use plan::form;
use plan::header::Shape;

// The form of the plans that the program reads.
pub const FORM: usize = form::ONE;

// A number and the byte behind it.
fn put_number(out: &mut [u8], at: usize, n: u64, after: u8) -> usize
    requires { at < 2 ^ 60 }
    ensures fact { Stored out.old at (number_then after n) out.new result }
    ensures r_bound { result ≤ at + (most_digits + 1) }
{
    let end = decimal::put(out, at, n);
    decimal::put_byte(out, end, after)
}

// The first line: a word and a number.
pub fn put_first(out: &mut [u8], word: &[u8], n: u64) -> usize
    requires { length word.now < 2 ^ 8 }
    ensures fact { Stored out.old 0 (word.now ++ number_then line_feed n) out.new result }
    ensures r_in_bounds { result ≤ length word.now + (most_digits + 1) }
{
    let at = decimal::put_all(out, 0, word);
    put_number(out, at, n, b'\n')
}

// The fields of an answer.
#[derive(Clone, Copy)]
struct Answer {
    begin: u64,
    reader: u64,
    value: u64,
    number: u64,
    count: u64,
}

impl Answer {
    // Answer i of the answer bytes.
    fn read(answers: &[u8], i: usize) -> Answer
        ensures { (result ≡ answer_in answers.now i) × (result.begin < 128) }
    {
        Answer {
            begin: of_answer(FORM, answers, i, answers::BEGIN) as u64,
            reader: of_answer(FORM, answers, i, answers::READER) as u64,
            value: of_answer(FORM, answers, i, answers::VALUE) as u64,
            number: of_answer(FORM, answers, i, answers::NUMBER) as u64,
            count: of_answer(FORM, answers, i, answers::COUNT) as u64,
        }
    }
}

// The line of an answer to a read that lasts `span` ticks: begin, reader, end, value, number, count.
fn put_line(out: &mut [u8], at: usize, a: Answer, span: u64) -> usize
    requires { (at < 2 ^ 32) × (a.begin < 128) × (span < 256) }
    ensures fact { Stored out.old at (line_for span a) out.new result }
    ensures r_bound { result ≤ at + 6 * (most_digits + 1) }
{
    let mut next = put_number(out, at, a.begin, b' ');
    next = put_number(out, next, a.reader, b' ');
    next = put_number(out, next, a.begin + span, b' ');
    next = put_number(out, next, a.value, b' ');
    next = put_number(out, next, a.number, b' ');
    put_number(out, next, a.count, b'\n')
}

// A line for each answer to an accepted plan.
pub fn put_lines(out: &mut [u8], start: usize, plan: &[u8], answers: &[u8], count: usize) -> usize
    requires { (start < 2 ^ 16) × (check_of program_width plan.now ≡ returned count) × (answers.now ≡ answers_of program_width plan.now) }
    ensures { Stored out.old start (lines_for program_width (plan_of program_width plan.now) (plan_of program_width plan.now).reads) out.new result }
{
    let shape = Shape::read(plan, form::width(FORM));
    let span = 2 * u64::from(shape.delta);
    let mut at = start;
    for i in 0..count {
        at = put_line(out, at, Answer::read(answers, i), span);
    }
    at
}
