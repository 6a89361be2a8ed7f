// Which M a mask may have, and the largest shift for each.
#![tactic(auto)]

ghost use Rattle.std.specs.Prelude.{◌≡◌, ◌≤◌};
ghost use Rattle.descriptor.specs.Descriptor.{mask_m, shift_limit};

// Whether M is 128, 64 or 32. Public for the crates above.
pub fn is_mask_m(m: u64) -> bool
    ensures { result ≡ mask_m m }
{
    (m == 128) | (m == 64) | (m == 32)
}

// The largest shift that is allowed for M. Public for the crates above.
pub fn shift_limit(m: u64) -> u64
    ensures { (result ≡ shift_limit m) × (result ≤ 32) }
{
    if m == 32 { 16 } else { 32 }
}
