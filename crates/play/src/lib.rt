#![tactic(auto)]
// Play: a plan's answers into a lent buffer, with a lent workspace.
ghost use Rattle.std.specs.Prelude.{◌≡◌};
ghost use Rattle.plan.specs.{Form.width_of, Numbered.numbered};
ghost use Rattle.results.specs.Play.{play_in};
ghost use Rattle.results.specs.Promised.{Promised};

use plan::header::Shape;
use plan::{Refusal, form};

pub fn play(form: usize, plan: &[u8], answers: &mut [u8], work: &mut [u8]) -> Result<usize, Refusal>
    ensures work_after { record { outcome = numbered result; answers = answers.new; workspace = work.new } ≡ play_in form plan.now answers.old work.old }
    ensures promised { Promised (width_of form) plan.now (numbered result) answers.new }
{
    let reads = checks::check(form, plan)?;
    let width = form::width(form);
    if answers.len() < answers::size(width) * reads {
        return Err(Refusal::AnswersShort);
    }
    if work.len() < Shape::WORKSPACE_BYTES {
        return Err(Refusal::WorkspaceShort);
    }
    player::play(plan, width, answers, work);
    Ok(reads)
}
