#![tactic(auto)]
// Refusal 5: the placements.
ghost use Rattle.std.specs.Prelude.{◌≡◌, ◌<◌};
ghost use Rattle.plan.specs.Header.{moves};
ghost use Rattle.plan.specs.Parts.{in_placement};
ghost use Rattle.plan.specs.Check.{placement_stands, placements_stand};
ghost use Rattle.plan.specs.Shape.{shape, Sized};

use plan::header::Shape;

// At most f ones among the first n bits, zeros behind them.
fn stands(plan: &[u8], h: Shape, i: usize) -> bool
    requires { Sized h.width plan.now (shape h) × (i < moves (shape h)) }
    ensures { result ≡ placement_stands h.width plan.now (shape h) i }
{
    let at = h.placement_at(i);
    let n = usize::from(h.n);
    bits::field(plan, at, n).count_ones() <= u32::from(h.f)
        && bits::field(plan, at + n, Shape::PLACEMENT_BITS - n) == 0
}

// Is server b faulty in placement i.
pub fn is_faulty(plan: &[u8], h: Shape, i: usize, b: usize) -> bool
    requires { Sized h.width plan.now (shape h) × (i < moves (shape h)) × (b < 16) }
    ensures { result ≡ in_placement h.width plan.now (shape h) i b }
{
    bits::bit(plan, h.placement_at(i) + b) == 1
}

pub fn all_stand(plan: &[u8], h: Shape) -> bool
    requires { Sized h.width plan.now (shape h) }
    ensures { result ≡ placements_stand h.width plan.now (shape h) }
{
    for i in 0..h.moves() {
        if !stands(plan, h, i) {
            return false;
        }
    }
    true
}
