// What Look shows of a server: its condition, and the pairs of its store.
ghost use Rattle.std.specs.Prelude.{◌≡◌};
ghost use Rattle.serving.specs.Stored.{status_of};
ghost use Rattle.results.specs.Look.{places_of};
ghost use Rattle.look.specs.Shown.{seen_of, stored_in};

use calendar::Stamped;
use limits::{DEPTH, NO_PAIR};
use results::look::{Condition, Pair};
use serving::Status;

pub fn condition(status: Status) -> Condition
    ensures { result ≡ seen_of (status_of status) }
{
    match status {
        Status::Faulty => Condition::Faulty,
        Status::Cured(_) => Condition::Cured,
        Status::Correct => Condition::Correct,
    }
}

// The pairs of a store, which stand before its first empty place, and nothing behind them.
pub fn shown_places(kept: [Stamped; DEPTH]) -> [Option<Pair>; DEPTH]
    ensures { result ≡ places_of (stored_in kept) }
{
    let mut shown = [None; DEPTH];
    for i in 0..DEPTH {
        let p = kept[i];
        if p.number == NO_PAIR {
            return shown;
        }
        shown[i] = Some(Pair {
            number: p.number,
            value: p.value,
        });
    }
    shown
}
