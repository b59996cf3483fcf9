// A number of 64 bits back in the 32 bits that squared speeds are kept in.
#![tactic(auto)]

ghost use Rattle.std.specs.Prelude.{◌≡◌, min};

// x, or the greatest number of 32 bits.
pub fn narrow(x: u64) -> u32
    ensures { result ≡ min x 4294967295 }
{
    u32::try_from(x).unwrap_or(u32::MAX)
}
