// The square root of binary64 and binary32, correctly rounded, drawn a binary digit at a time in whole numbers.
#![tactic(auto)]

mod bits;
mod digits;
mod format;

ghost use Rattle.std.specs.Prelude.{◌≡◌, T, from_bits, to_bits, Float};
ghost use Rattle.std.specs.Float.{binary64};
ghost use Rattle.std.specs.Float.Ieee.{fits};
ghost use Rattle.root.specs.Root.{IsRoot, root_bits, root_of};

use bits::root_bits;
pub use format::Binary;

// The root, drawn on the pattern of v. Apart from `root`: the equation is proved here, and there that no other float is the root.
fn drawn<F: Binary>(v: F) -> F
    ensures value { F.datum result ≡ from_bits F.format (root_bits F.format (to_bits F.format (F.datum v))) }
    ensures fits { T (fits F.format (F.datum v)) }
{
    F::from_pattern(root_bits::<F>(v.to_pattern()))
}

// The root of v: a zero for that zero, infinity for infinity, and NaN for NaN and for what is below zero.
pub fn root<F: Binary>(v: F) -> F
    ensures value { F.datum result ≡ root_of F.format (F.datum v) }
    ensures defined { IsRoot F.format (F.datum v) (F.datum result) }
    ensures only { (w : Float) → T (fits F.format w) → IsRoot F.format (F.datum v) w → w ≡ F.datum result }
{
    drawn(v)
}

// The number 2, by its pattern.
fn two() -> f64
    ensures value { result ≡ from_bits binary64 0x4000000000000000 }
{
    f64::from_pattern(0x4000_0000_0000_0000)
}

// The pattern of the root of 2.
pub fn root_of_two() -> u64
    ensures pattern { result ≡ 0x3FF6A09E667F3BCD }
    ensures value { root_of binary64 (from_bits binary64 0x4000000000000000) ≡ from_bits binary64 result }
{
    root(two()).to_pattern()
}
