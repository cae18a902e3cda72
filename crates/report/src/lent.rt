// Bytes lent to an operation, and whether it left them as they were.

ghost use Rattle.std.specs.Prelude.{◌≡◌};
ghost use Rattle.report.specs.Lent.{are_kept};

// What each lent byte holds before the call.
pub const FILLER: u8 = 165;

// Room for more bytes than a plan has.
pub const PLAN: usize = 40000;

// The first so many bytes, or all of them.
pub fn first(bytes: &[u8], length: usize) -> &[u8] {
    &bytes[..length.min(bytes.len())]
}

pub fn first_mut(bytes: &mut [u8], length: usize) -> &mut [u8] {
    let count = length.min(bytes.len());
    &mut bytes[..count]
}

pub fn is_kept(bytes: &[u8]) -> bool
    ensures { result ≡ are_kept bytes.now }
{
    bytes.iter().all(|byte| *byte == FILLER)
}
