// A set of numbers below 64 as the bits of a word.
#![tactic(auto)]

ghost use Rattle.std.specs.Prelude.{◌≡◌, cond};
ghost use Rattle.masks.specs.Mask.{bit_at, with_bit};

// Whether bit i is set; no bit is from 64 on.
pub fn has(w: u64, i: usize) -> bool
    ensures { result ≡ bit_at w i }
{
    i < 64 && (w >> i) & 1 == 1
}

// The word with bit i set; the word as it is from 64 on.
pub fn with(w: u64, i: usize) -> u64
    ensures { result ≡ with_bit w i }
{
    if i < 64 { w | (1 << i) } else { w }
}

pub fn with_if(w: u64, i: usize, on: bool) -> u64
    ensures { result ≡ cond on (with_bit w i) w }
{
    if on { with(w, i) } else { w }
}
