#![tactic(auto)]
// What the operations return, as one number each: a result below REFUSED, or REFUSED and the refusal's number.
ghost use Rattle.std.specs.Prelude.{◌≡◌, ◌≤◌};
ghost use Rattle.plan.specs.Numbered.{refusal_number, numbered};
ghost use Rattle.results.specs.Numbered.{judged, condition_in};
ghost use Rattle.codes.specs.Codes.{refusal_code, code_of, verdict_code, condition_code};

use plan::Refusal;
use results::look::Condition;

pub mod pairs;

// What a refusal's number is added to, 2 ^ 24.
pub const REFUSED: usize = 16777216;

// The published number of a refusal.
pub fn number(why: Refusal) -> usize
    ensures { (result ≡ refusal_number why) × (result ≤ 23) }
{
    match why {
        Refusal::TooShort => 1,
        Refusal::HeaderRange => 2,
        Refusal::TooFewServers => 3,
        Refusal::Length => 4,
        Refusal::Placement => 5,
        Refusal::Operation => 6,
        Refusal::Forgery => 7,
        Refusal::Delay => 8,
        Refusal::AnswersShort => 9,
        Refusal::WorkspaceShort => 10,
        Refusal::OutOfRange => 11,
        Refusal::WrongLength => 12,
        Refusal::WrongRead => 13,
        Refusal::BufferShort => 14,
        Refusal::PageShort => 15,
        Refusal::StopRange => 16,
        Refusal::StateLength => 17,
        Refusal::StateRange => 18,
        Refusal::ValueTooWide => 19,
        Refusal::CarriedShort => 20,
        Refusal::Rights => 21,
        Refusal::NoRight => 22,
        Refusal::TextShort => 23,
    }
}

// Of a refusal.
pub fn refusal(why: Refusal) -> usize
    ensures { result ≡ refusal_code (refusal_number why) }
{
    REFUSED + number(why)
}

// The number itself: of reads, or of bytes.
pub fn of_outcome(o: Result<usize, Refusal>) -> usize
    ensures { result ≡ code_of (numbered o) }
{
    match o {
        Ok(m) => m,
        Err(why) => refusal(why),
    }
}

// 1 for yes, 0 for no.
pub fn of_judge(j: Result<bool, Refusal>) -> usize
    ensures { result ≡ verdict_code (judged j) }
{
    match j {
        Ok(yes) => usize::from(yes),
        Err(why) => refusal(why),
    }
}

// What Look shows of a server, its pairs left out: 0 faulty, 1 cured, 2 correct.
pub fn of_condition(condition: Condition) -> usize
    ensures { (result ≡ condition_code (condition_in condition)) × (result ≤ 2) }
{
    match condition {
        Condition::Faulty => 0,
        Condition::Cured => 1,
        Condition::Correct => 2,
    }
}
