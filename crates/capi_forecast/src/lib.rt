#![tactic(auto)]
// What Forecast returns, as a number, and its six numbers in a list that the caller lends.
ghost use Rattle.std.specs.Prelude.{◌≡◌, length};
ghost use Rattle.forecast.specs.Numbered.{counts};
ghost use Rattle.capi_forecast.specs.Figures.{figures_of, figures_over, forecast_coded};

use forecast::Counts;

// How many numbers there are.
pub const FIGURES: usize = 6;

fn figures_of(x: Counts) -> [u32; FIGURES]
    ensures { result ≡ figures_of (counts x) }
{
    [
        x.answer_bytes,
        x.moves,
        x.write_messages,
        x.read_messages,
        x.votes,
        x.most_forgeries,
    ]
}

// As many of them as fit, at the start of the list.
fn put(numbers: &mut [u32], figures: &[u32; FIGURES])
    ensures { numbers.new ≡ figures_over figures.now numbers.old }
{
    let count = numbers.len().min(FIGURES);
    numbers[..count].copy_from_slice(&figures[..count]);
}

// How many numbers there are, or the refusal. As many as fit stand at the start of `numbers`; a refusal writes none.
pub fn forecast(form: usize, plan: &[u8], numbers: &mut [u32]) -> usize
    ensures { record { code = result; numbers = numbers.new } ≡ forecast_coded form plan.now numbers.old }
{
    match forecast::forecast(form, plan) {
        Err(why) => codes::refusal(why),
        Ok(x) => {
            put(numbers, &figures_of(x));
            FIGURES
        }
    }
}
