// The two binary formats: the numbers of each, and the way between a float and its bit pattern.
ghost use Rattle.std.specs.Prelude.{◌≡◌, ℕ, ◌-◌, ◌*◌, ◌%◌, ◌<◌, T, from_bits, to_bits, refl, Float};
ghost use Rattle.std.specs.Float.{Format, binary32, binary64};
ghost use Rattle.std.specs.Float.Ieee.{prec, emax, hid, ones, top, fits};

use std::num::{
    f32_from_bits_with_nan, f32_to_bits_with_nan, f64_from_bits_with_nan, f64_to_bits_with_nan,
};

// A type whose values are the floats of a binary format.
pub trait Binary: Copy {
    // How many digits a significand has.
    const DIGITS: u64;

    // The weight of its leading digit, of which the exponent's field counts the multiples.
    const HIDDEN: u64;

    // The pattern of infinity.
    const INFINITY: u64;

    // The pattern of -0, the weight of the sign.
    const SIGN: u64;

    // What is added to a number's place to make twice the place of its root.
    const RISE: u64;

    ghost DIGITS: { ℕ };

    ghost HIDDEN: { ℕ };

    ghost INFINITY: { ℕ };

    ghost SIGN: { ℕ };

    ghost RISE: { ℕ };

    ghost format: { Format };

    ghost datum: { Self → Float };

    // The bit pattern, and of every NaN the quiet one.
    fn to_pattern(self) -> u64
        ensures pattern { result ≡ to_bits format (datum self) }
        ensures bound { result < 2 * top format }
        ensures fits { T (fits format (datum self)) };

    // The float of the pattern at the word's lower end.
    fn from_pattern(b: u64) -> Self
        ensures value { datum result ≡ from_bits format (b % (2 * top format)) };

    ghost digits_is: { DIGITS ≡ prec format };

    ghost hidden_is: { HIDDEN ≡ hid format };

    ghost infinity_is: { INFINITY ≡ ones format * hid format };

    ghost sign_is: { SIGN ≡ top format };

    ghost rise_is: { RISE ≡ emax format - prec format - 1 };
}

// An impl for each format: these numbers and four calls are what the two differ in.
impl Binary for f32 {
    const DIGITS: u64 = 24;

    const HIDDEN: u64 = 0x80_0000;

    const INFINITY: u64 = 0x7F80_0000;

    const SIGN: u64 = 0x8000_0000;

    const RISE: u64 = 102;

    ghost DIGITS = { 24 };

    ghost HIDDEN = { 0x80_0000 };

    ghost INFINITY = { 0x7F80_0000 };

    ghost SIGN = { 0x8000_0000 };

    ghost RISE = { 102 };

    ghost format = { binary32 };

    ghost datum = { λ v. v };

    fn to_pattern(self) -> u64 {
        u64::from(f32_to_bits_with_nan(self))
    }

    fn from_pattern(b: u64) -> f32 {
        f32_from_bits_with_nan((b % 0x1_0000_0000) as u32)
    }

    ghost digits_is = { refl };

    ghost hidden_is = { refl };

    ghost infinity_is = { refl };

    ghost sign_is = { refl };

    ghost rise_is = { refl };
}

impl Binary for f64 {
    const DIGITS: u64 = 53;

    const HIDDEN: u64 = 0x10_0000_0000_0000;

    const INFINITY: u64 = 0x7FF0_0000_0000_0000;

    const SIGN: u64 = 0x8000_0000_0000_0000;

    const RISE: u64 = 969;

    ghost DIGITS = { 53 };

    ghost HIDDEN = { 0x10_0000_0000_0000 };

    ghost INFINITY = { 0x7FF0_0000_0000_0000 };

    ghost SIGN = { 0x8000_0000_0000_0000 };

    ghost RISE = { 969 };

    ghost format = { binary64 };

    ghost datum = { λ v. v };

    fn to_pattern(self) -> u64 {
        f64_to_bits_with_nan(self)
    }

    fn from_pattern(b: u64) -> f64 {
        f64_from_bits_with_nan(b)
    }

    ghost digits_is = { refl };

    ghost hidden_is = { refl };

    ghost infinity_is = { refl };

    ghost sign_is = { refl };

    ghost rise_is = { refl };
}
