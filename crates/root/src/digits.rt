// The whole part of a root, a binary digit for each two of the number.
ghost use Rattle.std.specs.Prelude.{◌≡◌, suc, ◌+◌, ◌*◌, ◌/◌, ◌%◌, ◌^◌, ◌<◌, ◌≤◌, if◌then◌else◌, nat_lt};
ghost use Rattle.root.specs.Root.{whole_root};
ghost use Rattle.root.specs.Whole.{Floor};

// The next digit of a root, of the weight `bit`: twice the root with it, and what it takes off the doubled tail. `tail` is what the root
// so far leaves of the number, divided by the weight: (root + bit)² is bit times the trial more than root².
// A choice between values and no branch, as no digit can be foretold; and the tail is doubled beside the comparison, not after it.
fn digit(twice: u64, tail: u64, bit: u64) -> (u64, u64)
    requires { twice + 2 * bit ≤ 2 ^ 60 }
    ensures { result ≡ (if nat_lt tail (twice + bit) then (twice, 0)
        else (twice + 2 * bit, 2 * (twice + bit))) }
{
    let trial = twice + bit;
    if tail < trial {
        (twice, 0)
    } else {
        (trial + bit, 2 * trial)
    }
}

// The root of a number, whose digits drawn so far are a half of `twice`, at their places; the others come from the tail, as in `digit`.
// No loop: a rule of the project, each digit is a call of the same step with one digit fewer (docs/DECISIONS.md).
fn draw(twice: u64, tail: u64, bit: u64, left: u64) -> u64
    requires even { twice % 2 ≡ 0 }
    requires weight { bit ≡ 2 ^ left / 2 }
    requires rest { tail < 2 * (twice + 2 ^ left) }
    requires small { twice + 2 * 2 ^ left ≤ 2 ^ 60 }
    ensures { Floor (twice / 2 * (twice / 2) + tail * 2 ^ left / 2) result }
{
    if left == 0 {
        return twice / 2;
    }
    let (next, cut) = digit(twice, tail, bit);
    draw(next, 2 * tail - cut, bit / 2, left - 1)
}

// The half of a number, rounded up: apart from `nearest_root`, so that it is proved by itself, without the digits.
fn half_up(s: u64) -> u64
    requires { s < 2 ^ 60 }
    ensures { result ≡ (s + 1) / 2 }
{
    (s + 1) / 2
}

// The root of a number of 2 digits + 2 binary digits, of which the lower half are zeros, to half a digit and rounded up.
pub(crate) fn nearest_root(upper: u64, digits: u64) -> u64
    requires few { digits < 58 }
    requires half { upper < 2 ^ suc digits }
    ensures { result ≡ (whole_root (suc digits) (upper * 2 ^ suc digits) + 1) / 2 }
{
    half_up(draw(0, 2 * upper, 1 << digits, digits + 1))
}
