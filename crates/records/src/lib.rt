#![tactic(auto)]
// Records of a packed format: a field by its number.
ghost use Rattle.std.specs.Prelude.{◌≡◌, ◌^◌, ◌<◌, get_or};
ghost use Rattle.bits.specs.Layout.{numbers_at};
ghost use Rattle.records.specs.Records.{Stands};

// Field i of the record from bit `at` on; 0 where it has no such field.
pub fn field(s: &[u8], at: usize, widths: &[u8], i: usize) -> u32
    requires { Stands s.now at widths.now }
    ensures { (result ≡ get_or (numbers_at widths.now s.now at) i 0) × (result < 2 ^ get_or widths.now i 0) }
{
    if widths.len() <= i {
        return 0;
    }
    let mut from = at;
    for width in &widths[..i] {
        from += usize::from(*width);
    }
    bits::field(s, from, usize::from(widths[i])) as u32
}
