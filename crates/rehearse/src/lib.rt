#![tactic(auto)]
// A rehearsal in one call: Play, then Judge over the answers that it wrote.
ghost use Rattle.std.specs.Prelude.{◌≡◌};
ghost use Rattle.results.specs.Rehearse.{rehearse_in};
ghost use Rattle.results.specs.Numbered.{rehearsed, NotNo};

use plan::{Refusal, form};

// The number of reads where Judge says yes, None where it says no. It never does: point 3.
pub fn rehearse(
    form: usize,
    plan: &[u8],
    answers: &mut [u8],
    work: &mut [u8],
) -> Result<Option<usize>, Refusal>
    ensures work_after { record { outcome = rehearsed result; answers = answers.new; workspace = work.new } ≡ rehearse_in form plan.now answers.old work.old }
    ensures not_no { NotNo result }
{
    let reads = play::play(form, plan, answers, work)?;
    let end = answers::size(form::width(form)) * reads;
    let verdict = judge::judge(form, plan, &answers[..end])?;
    Ok(verdict.then_some(reads))
}
