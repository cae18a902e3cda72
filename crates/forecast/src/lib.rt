#![tactic(auto)]
// Forecast: what playing a plan will take, found from the plan alone.
mod arrivals;
mod receipts;

ghost use Rattle.std.specs.Prelude.{◌≡◌, ◌≤◌};
ghost use Rattle.plan.specs.Form.{most_width};
ghost use Rattle.plan.specs.Check.{result as returned, check_of};
ghost use Rattle.forecast.specs.Forecast.{counts_of, forecast_in};
ghost use Rattle.forecast.specs.Numbered.{counts, foreseen};

use plan::header::Shape;
use plan::{Refusal, form};

// What a play of a plan counts.
#[derive(Clone, Copy)]
pub struct Counts {
    // The bytes of its answers.
    pub answer_bytes: u32,
    pub moves: u32,
    // The WRITEs, and the READs, that are sent.
    pub write_messages: u32,
    pub read_messages: u32,
    // The votes that are sent on receipt of a WRITE.
    pub votes: u32,
    // The most forged messages that arrive in one tick.
    pub most_forgeries: u32,
}

// Those of an accepted plan with so many reads.
fn counts_of(plan: &[u8], width: u8, reads: usize) -> Counts
    requires { (check_of width plan.now ≡ returned reads) × (width ≤ most_width) }
    ensures { counts result ≡ counts_of width plan.now }
{
    let h = Shape::read(plan, width);
    let n = h.n as u32;
    let writes = h.operations as usize - reads;
    Counts {
        answer_bytes: (answers::size(width) * reads) as u32,
        moves: h.moves() as u32,
        write_messages: n * writes as u32,
        read_messages: n * reads as u32,
        votes: (n - 1) * receipts::all(plan, h),
        most_forgeries: arrivals::most(plan, h),
    }
}

// Says what playing a plan will take: Check's refusals, else six numbers.
pub fn forecast(form: usize, plan: &[u8]) -> Result<Counts, Refusal>
    ensures { foreseen result ≡ forecast_in form plan.now }
{
    let reads = checks::check(form, plan)?;
    Ok(counts_of(plan, form::width(form), reads))
}
