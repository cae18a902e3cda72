// The forms of a plan: they differ in the bits of a value alone.
ghost use Rattle.std.specs.Prelude.{◌≡◌, ◌≤◌};
ghost use Rattle.plan.specs.Form.{is_form, width_of, most_width};

// The numbers by which a caller names the forms, and the bits of a value in each.
pub const ONE: usize = 1;

pub const TWO: usize = 2;

const BITS_ONE: u8 = 16;

const BITS_TWO: u8 = 24;

// Is there such a form.
pub fn is_known(form: usize) -> bool
    ensures { result ≡ is_form form }
{
    form == ONE || form == TWO
}

// The bits of a value in a form.
pub fn width(form: usize) -> u8
    ensures { (result ≡ width_of form) × (result ≤ most_width) }
{
    if form == TWO { BITS_TWO } else { BITS_ONE }
}
