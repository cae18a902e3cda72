#![tactic(auto)]
// A server's store: DEPTH places, the empty ones at the end, the pairs in falling order.
ghost use Rattle.std.specs.Prelude.{◌≡◌, List, [], ℕ, ◌<◌, take};
ghost use Rattle.register.specs.Lists.{same_list};
ghost use Rattle.register.specs.Server.{insert};
ghost use Rattle.plan.specs.Packed.{store_depth};
ghost use Rattle.limits.specs.Limits.{no_pair};
ghost use Rattle.stores.specs.Stores.{keys, place_of, put_at, Faithful, Valued};

use calendar::Stamped;
use limits::{DEPTH, NO_PAIR};
use std::mem::swap;

// A place as a number, by which places are compared: 0 if it is empty, else one more than its pair's.
fn place(p: Stamped) -> u8
    ensures { result ≡ place_of p }
{
    p.number.wrapping_add(1)
}

// The store with p at a place: what stood there and after it moves on by one, and the last of it is dropped.
fn put_at(kept: [Stamped; DEPTH], p: Stamped, at: usize) -> [Stamped; DEPTH]
    requires { at < store_depth }
    ensures { result ≡ take store_depth (put_at at p kept) }
{
    let mut more = kept;
    let mut carried = p;
    for q in at..DEPTH {
        swap(&mut more[q], &mut carried);
    }
    more
}

// 'A box keeps at most five pairs', 'those of highest number': the store with p put in its place.
pub fn insert(kept: [Stamped; DEPTH], p: Stamped) -> [Stamped; DEPTH]
    requires { p.number < no_pair }
    ensures { (keys result ≡ take store_depth (insert p.number (keys kept))) × ((values : List ℕ) → Valued values kept → Faithful values p → Valued values result) }
{
    let mine = place(p);
    for i in 0..DEPTH {
        let here = place(kept[i]);
        if here == mine {
            return kept;
        }
        if here < mine {
            return put_at(kept, p, i);
        }
    }
    kept
}

// No pair.
pub fn none() -> [Stamped; DEPTH]
    ensures { (keys result ≡ []) × ((values : List ℕ) → Valued values result) }
{
    [Stamped {
        number: NO_PAIR,
        value: 0,
    }; DEPTH]
}

// Do two stores have the same pairs.
pub fn is_same(a: [Stamped; DEPTH], b: [Stamped; DEPTH]) -> bool
    ensures { result ≡ same_list (keys a) (keys b) }
{
    for i in 0..DEPTH {
        if a[i].number != b[i].number {
            return false;
        }
        if a[i].number == NO_PAIR {
            return true;
        }
    }
    true
}
