#![tactic(auto)]
// Judge: answers against a plan. The plan's writes are decoded once; one loop tests each answer's pair.
ghost use Rattle.std.specs.Prelude.{◌≡◌, ℕ, ◌*◌, ◌≤◌, ◌<◌, length};
ghost use Rattle.register.specs.{Lists.all_up_to, Plan.Plan, Regular.allowed};
ghost use Rattle.answers.specs.Answers.{answer_size, begin_in, pair_in};
ghost use Rattle.plan.specs.Form.{most_width};
ghost use Rattle.results.specs.{Judge.read_of, Judge.answer_allowed, Judge.judge_in, Numbered.judged};
ghost use Rattle.regular.specs.Tables.{Tables};
ghost use Rattle.fitting.specs.Answered.{Answered};

use fitting::times;
use plan::{Refusal, form};
use regular::Times;

// Do all answers hold allowed pairs?
fn all_allowed(answers: &[u8], width: u8, times: &Times, count: usize) -> bool
    requires { (count ≤ 255) × (width ≤ most_width) × (answer_size width * count ≤ length answers.now) }
    ensures { ((P : Plan) → Tables width P times.now.writes.known.values times.now.writes.begun times.now.writes.known.m → P.delta ≡ times.now.delta
        → ((i : ℕ) → i < count → (read_of P i).begun ≡ begin_in width answers.now i)
        → result ≡ all_up_to count (λ i. allowed P (read_of P i) (pair_in width answers.now i))) }
{
    for i in 0..count {
        let answer = answers::read(answers, width, i);
        if !times.is_allowed(answer.begin, answer.value, answer.number) {
            return false;
        }
    }
    true
}

// Are they all, in answers that are to the reads of an accepted plan?
fn judge_answers(plan: &[u8], width: u8, answers: &[u8], count: usize) -> bool
    requires { Answered width plan.now answers.now count × (width ≤ most_width) }
    ensures { result ≡ all_up_to count (answer_allowed width plan.now answers.now) }
{
    let times = times::of_plan(plan, width);
    all_allowed(answers, width, &times, count)
}

// Judges answers against a plan: Check's refusals, 12, 13, then yes or no.
pub fn judge(form: usize, plan: &[u8], answers: &[u8]) -> Result<bool, Refusal>
    ensures { judged result ≡ judge_in form plan.now answers.now }
{
    let count = fitting::answered(form, plan, answers)?;
    Ok(judge_answers(plan, form::width(form), answers, count))
}
