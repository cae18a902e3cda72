// The writes of a plan by number, and δ.
ghost use Rattle.std.specs.Prelude.{◌≤◌};
ghost use Rattle.plan.specs.Form.{most_width};
ghost use Rattle.plan.specs.Playable.{Playable};
ghost use Rattle.fitting.specs.Times.{Timed};

use plan::header::Shape;
use regular::Times;
use tables::operations::writes_of;

// Those of a plan that can be played.
pub fn of_plan(plan: &[u8], width: u8) -> Times
    requires { Playable width plan.now × (width ≤ most_width) }
    ensures { Timed width plan.now result }
{
    let shape = Shape::read(plan, width);
    let at = shape.operations_at();
    let operations = usize::from(shape.operations);
    let writes = writes_of(plan, at, width, operations, shape.initial);
    Times {
        writes,
        delta: shape.delta,
    }
}
