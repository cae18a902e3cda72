// The bytes of the pairs that Look shows, in a lent buffer.
ghost use Rattle.std.specs.Prelude.{◌≡◌, cond, [], ◌∷◌, ◌+◌, ◌*◌, ◌/◌, ◌%◌, ◌^◌, ◌<◌, ◌≤◌, ltb, length};
ghost use Rattle.std.proofs.lemmas.List.Edits.{sets as stored_at};
ghost use Rattle.plan.specs.Form.{most_width};
ghost use Rattle.plan.specs.Packed.{store_depth};
ghost use Rattle.results.specs.Numbered.{shown_in};
ghost use Rattle.codes.specs.Codes.{pair_size, ThreeBytes, pair_bytes, pairs_over};

use limits::DEPTH;
use results::look::Pair;

// The bytes of a pair that Look shows.
pub const PAIR_BYTES: usize = 4;

// Pair i at its own bytes, if there is room for all of them: three of the value, the highest first, and the number.
fn put_pair(out: &mut [u8], i: usize, p: Pair)
    requires { (i < store_depth) × (p.value < 2 ^ most_width) }
    ensures { (length out.new ≡ length out.old) × (out.new ≡ cond (ltb (length out.old) (pair_size * i + pair_size))
        out.old (stored_at out.old (pair_size * i) (pair_bytes (record { value = p.value; number = p.number } ∷ [])))) }
{
    let at = PAIR_BYTES * i;
    if out.len() < at + PAIR_BYTES {
        return;
    }
    let [_, high, middle, low] = p.value.to_be_bytes();
    out[at] = high;
    out[at + 1] = middle;
    out[at + 2] = low;
    out[at + 3] = p.number;
}

// As many of the pairs before the first empty place as fit `out`, at its start; how many they are, those left out too.
pub fn put_pairs(out: &mut [u8], places: [Option<Pair>; DEPTH]) -> usize
    requires { ThreeBytes places }
    ensures { (result ≤ store_depth) × (result ≡ length (shown_in places)) × (out.new ≡ pairs_over (shown_in places) out.old) }
{
    for i in 0..DEPTH {
        match places[i] {
            Some(p) => put_pair(out, i, p),
            None => return i,
        }
    }
    DEPTH
}
