#![tactic(auto)]
// Refusal 8: the delays and the final bits.
ghost use Rattle.std.specs.Prelude.{◌≡◌, ◌&&◌, ◌+◌, ◌*◌, ◌/◌, ◌%◌, ◌^◌, ◌≤◌, ◌<◌, length};
ghost use Rattle.plan.specs.Header.{DelaysIn, parties};
ghost use Rattle.plan.specs.Parts.{is_link};
ghost use Rattle.plan.specs.Check.{delays_stand, final_bits_zero};
ghost use Rattle.plan.specs.Shape.{shape, Sized};
ghost use Rattle.delays.specs.Steps.{delay_allowed, tick_stands, link_mark, need_of, most_pairs, Needed, bit_stands, first_stand};

use plan::header::Shape;

const MOST_PARTIES: usize = Shape::MOST_SERVERS as usize + 1 + Shape::MOST_READERS as usize;

// The pairs of delays in a tick of so many.
const MOST_PAIRS: usize = MOST_PARTIES * MOST_PARTIES / 2;

// Is there a link from party i to party j of n servers, a writer and readers.
#[tactic(auto, unfolding(plan::specs::Parts::is_link))]
fn is_link(n: usize, i: usize, j: usize) -> bool
    ensures { result ≡ is_link n i j }
{
    if i < n { i != j && j != n } else { j < n }
}

// May that link have this delay.
fn is_allowed(h: Shape, i: usize, j: usize, delay: u8) -> bool
    ensures { result ≡ delay_allowed (shape h) i j delay }
{
    if is_link(usize::from(h.n), i, j) {
        (1..=h.delta).contains(&delay)
    } else {
        delay == 0
    }
}

// 1 where delay q of a tick is of a link.
#[tactic(auto, unfolding(crate::specs::Steps::link_mark))]
fn link_mark(n: usize, parties: usize, q: usize) -> u8
    requires { 1 ≤ parties }
    ensures { (result ≡ link_mark n parties q) × (result ≤ 1) }
{
    u8::from(is_link(n, q / parties, q % parties))
}

// The same of delays 2k and 2k + 1, as the two nibbles of a byte.
#[tactic(auto, unfolding(crate::specs::Steps::need_of))]
fn need_of(n: usize, parties: usize, k: usize) -> u8
    requires { (1 ≤ parties) × (k < 2 ^ 60) }
    ensures { result ≡ need_of n parties k }
{
    16 * link_mark(n, parties, 2 * k) + link_mark(n, parties, 2 * k + 1)
}

// These bytes for a tick.
fn needs(n: usize, parties: usize, bytes: usize) -> [u8; MOST_PAIRS]
    requires { (1 ≤ parties) × (bytes ≤ most_pairs) }
    ensures { (length result ≡ most_pairs) × Needed n parties bytes result }
{
    let mut needs = [0; MOST_PAIRS];
    for k in 0..bytes {
        needs[k] = need_of(n, parties, k);
    }
    needs
}

// Eight bits of two bytes. By `from_be_bytes` the loop over a tick's pairs takes twice as long.
fn shifted(high: u8, low: u8, down: u16) -> u8
    requires { down ≤ 8 }
    ensures { result ≡ (high * 256 + low) / 2 ^ down % 256 }
{
    (((u16::from(high) * 256 + u16::from(low)) >> down) % 256) as u8
}

// The two delays in byte x.
fn byte_stands(need: u8, delta: u8, x: u8) -> bool
    requires { (need / 16 ≤ 1) × (need % 16 ≤ 1) }
    ensures { result ≡ bit_stands (need % 16) delta (x % 16) && bit_stands (need / 16) delta (x / 16) }
{
    let high = x / 16;
    let low = x % 16;
    ((high + 15) / 16 * 16 + (low + 15) / 16 == need) & (low <= delta) & (high <= delta)
}

// The first 2 * bytes delays of the tick that begins at bit `at`, two at a time and with no early exit.
fn pairs_stand(plan: &[u8], need: &[u8], h: Shape, at: usize, bytes: usize) -> bool
    requires { (at / 8 + bytes < length plan.now) × (at < 2 ^ 59) × (bytes ≤ most_pairs) × (bytes ≤ length need.now)
        × Needed h.n (parties (shape h)) bytes need.now }
    ensures { result ≡ first_stand plan.now (shape h) at (2 * bytes) }
{
    let from = at / 8;
    let down = (8 - at % 8) as u16;
    let mut stands = true;
    for k in 0..bytes {
        let x = shifted(plan[from + k], plan[from + k + 1], down);
        stands &= byte_stands(need[k], h.delta, x);
    }
    stands
}

// The delays from `from` to all - 1 of a tick, one at a time; `before` says whether those before them stand.
fn rest_stand(plan: &[u8], h: Shape, at: usize, from: usize, all: usize, before: bool) -> bool
    requires { DelaysIn plan.now at all × (at < 2 ^ 59) × (all ≤ 441) × (from ≤ all)
        × (before ≡ first_stand plan.now (shape h) at from) }
    ensures { result ≡ first_stand plan.now (shape h) at all }
{
    let parties = h.parties();
    let mut stands = before;
    for q in from..all {
        let delay = bits::nibble(plan, at + Shape::DELAY_BITS * q);
        stands &= is_allowed(h, q / parties, q % parties, delay);
    }
    stands
}

// The delays of a tick: in pairs as far as a byte follows them, then the rest.
fn tick_stands(plan: &[u8], need: &[u8], h: Shape, at: usize) -> bool
    requires { DelaysIn plan.now at (parties (shape h) * parties (shape h)) × (at < 2 ^ 59)
        × (parties (shape h) * parties (shape h) ≤ 441) × (most_pairs ≤ length need.now)
        × Needed h.n (parties (shape h)) (parties (shape h) * parties (shape h) / 2) need.now }
    ensures { result ≡ tick_stands plan.now (shape h) at }
{
    let parties = h.parties();
    let all = parties * parties;
    let pairs = (all / 2).min(plan.len() - 1 - at / 8);
    let stands = pairs_stand(plan, need, h, at, pairs);
    rest_stand(plan, h, at, 2 * pairs, all, stands)
}

pub fn all_stand(plan: &[u8], h: Shape) -> bool
    requires { Sized h.width plan.now (shape h) }
    ensures { result ≡ delays_stand h.width plan.now (shape h) }
{
    let parties = h.parties();
    let all = parties * parties;
    let first = h.delays_at();
    let need = needs(usize::from(h.n), parties, all / 2);
    for t in 0..usize::from(h.ticks) {
        if !tick_stands(plan, &need, h, first + Shape::DELAY_BITS * (t * all)) {
            return false;
        }
    }
    true
}

// The bits behind the delays, up to the byte's end.
pub fn are_final_bits_zero(plan: &[u8], h: Shape) -> bool
    requires { Sized h.width plan.now (shape h) }
    ensures { result ≡ final_bits_zero h.width plan.now (shape h) }
{
    let end = h.bits();
    bits::field(plan, end, bits::fill(end)) == 0
}
