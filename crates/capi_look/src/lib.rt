#![tactic(auto)]
// What Look returns, as a number and the bytes of its pairs.
ghost use Rattle.std.specs.Prelude.{◌≡◌};
ghost use Rattle.results.specs.Numbered.{looked, places_in};
ghost use Rattle.codes.specs.Codes.{shown_code, ThreeBytes, shown_pairs, pairs_over, look_coded};

use codes::of_condition;
use codes::pairs::put_pairs;
use limits::DEPTH;
use plan::Refusal;
use results::look::{Looked, Pair};

// What each pair that Look shows adds to the condition.
pub const PER_PAIR: usize = 4;

// The places beside what Look returned: no pair beside a refusal.
fn places(l: Result<Looked, Refusal>) -> [Option<Pair>; DEPTH]
    ensures { result ≡ places_in l }
{
    match l {
        Ok(server) => server.places,
        Err(_) => [None; DEPTH],
    }
}

// What Look returned: the condition and PER_PAIR for each pair. As many whole pairs as fit stand at the start of `pairs`; a refusal writes none.
fn of_look(l: Result<Looked, Refusal>, pairs: &mut [u8]) -> usize
    requires { ThreeBytes (places_in l) }
    ensures { (result ≡ shown_code (looked l)) × (pairs.new ≡ pairs_over (shown_pairs (looked l)) pairs.old) }
{
    let shown = put_pairs(pairs, places(l));
    match l {
        Err(why) => codes::refusal(why),
        Ok(server) => of_condition(server.condition) + PER_PAIR * shown,
    }
}

// Look at a server after a tick, as a number and the bytes of its pairs.
pub fn look(
    form: usize,
    plan: &[u8],
    work: &mut [u8],
    server: usize,
    tick: usize,
    pairs: &mut [u8],
) -> usize
    ensures { record { code = result; workspace = work.new; pairs = pairs.new } ≡ look_coded form plan.now work.old server tick pairs.old }
{
    of_look(look::look(form, plan, work, server, tick), pairs)
}
