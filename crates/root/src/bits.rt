// From the bit pattern of a number to that of its root.
ghost use Rattle.std.specs.Prelude.{◌≡◌, ◌+◌, ◌-◌, ◌*◌, ◌/◌, ◌%◌, ◌^◌, ◌<◌, ◌≤◌};
ghost use Rattle.std.specs.Float.Ieee.{prec, hid, ones, top, size};
ghost use Rattle.root.specs.Root.{significand, scale, root_at, root_bits};

use crate::digits::nearest_root;
use crate::format::Binary;

// How many binary digits a number has.
#[tactic(auto, using(crate::proofs::Windows::leading_size))]
fn size_of(m: u64) -> u64
    ensures { result ≡ size m }
{
    64 - u64::from(m.leading_zeros())
}

// The digits of m, the first at the place behind `digits` others, or before it where the place is even.
#[tactic(auto, using(crate::proofs::Windows::upper_is))]
fn upper_of(m: u64, digits: u64, place: u64) -> u64
    requires few { m < 2 ^ digits }
    requires small { digits < 63 }
    ensures { result ≡ m * 2 ^ (digits - size m + place % 2) }
{
    m << (digits - size_of(m) + place % 2)
}

// The pattern of the root of m × 2^(i - low).
fn root_at<F: Binary>(m: u64, i: u64) -> u64
    requires some { 0 < m }
    requires few { m < 2 ^ prec F.format }
    requires fine { i + 2 ≤ ones F.format }
    ensures pattern { result ≡ root_at F.format m i }
    ensures finite { result < ones F.format * hid F.format }
{
    let place = i + size_of(m) + F::RISE;
    let digits = F::DIGITS;
    place / 2 * F::HIDDEN + nearest_root(upper_of(m, digits, place), digits)
}

// The pattern of the root of the number above zero that has the pattern b. Below the least normal number there is no leading digit,
// and the exponent's field counts as 1.
fn root_above_zero<F: Binary>(b: u64) -> u64
    requires { (0 < b) × (b < ones F.format * hid F.format) }
    ensures pattern { result ≡ root_at F.format (significand F.format b) (scale F.format b) }
    ensures finite { result < ones F.format * hid F.format }
{
    if b < F::HIDDEN {
        root_at::<F>(b, 0)
    } else {
        root_at::<F>(b % F::HIDDEN + F::HIDDEN, b / F::HIDDEN - 1)
    }
}

// The pattern of the root of the number that has the pattern b: a zero and infinity are their own root, and what is left has none.
pub(crate) fn root_bits<F: Binary>(b: u64) -> u64
    ensures pattern { result ≡ root_bits F.format b }
    ensures wide { b < 2 * top F.format → result < 2 * top F.format }
{
    if b % F::SIGN == 0 {
        b
    } else if b < F::INFINITY {
        root_above_zero::<F>(b)
    } else if b == F::INFINITY {
        b
    } else {
        F::INFINITY + F::HIDDEN / 2
    }
}
