// The kinds that are compared: how a number is drawn, made smaller, and fed to the hash.
use crate::random::{Hash, Random};
use scalar::{Complex, RealScalar, Scalar};
use std::num::{
    f32_from_bits_with_nan, f32_to_bits_with_nan, f64_from_bits_with_nan, f64_to_bits_with_nan,
    nearest_u64_to_f32, nearest_u64_to_f64,
};

// A number whose bits are hashed.
pub(crate) trait Feed: Copy {
    fn feed(self, hash: Hash) -> Hash;
}

pub(crate) trait RealSample: RealScalar + Feed {
    const FOUR: Self;

    const TOLERANCE: Self;

    // A number from -1 up to 1, of all its binary digits.
    fn unit(random: &mut Random) -> Self;

    // 2^-k, for a k below 127
    fn power(k: u32) -> Self;
}

// A kind over a real kind that can be drawn.
pub(crate) trait Sample: Scalar<Real: RealSample> + Feed {
    // A number of the diagonal.
    fn draw_real(random: &mut Random) -> Self {
        Self::from_real(Self::Real::unit(random))
    }

    // Any other number, which a real kind draws as one of the diagonal.
    fn draw(random: &mut Random) -> Self {
        Self::draw_real(random)
    }
}

// Written for each format: bit patterns of two widths, and so other bytes to hash and other exponents.
impl Feed for f64 {
    fn feed(self, hash: Hash) -> Hash {
        hash.bytes(&f64_to_bits_with_nan(self).to_le_bytes())
    }
}

impl Feed for f32 {
    fn feed(self, hash: Hash) -> Hash {
        hash.bytes(&f32_to_bits_with_nan(self).to_le_bytes())
    }
}

impl<R: RealSample> Feed for Complex<R> {
    fn feed(self, hash: Hash) -> Hash {
        self.im.feed(self.re.feed(hash))
    }
}

impl RealSample for f64 {
    const FOUR: f64 = 4.0;

    const TOLERANCE: f64 = f64::EPSILON;

    // 53 bits over 2^52
    fn unit(random: &mut Random) -> f64 {
        nearest_u64_to_f64(random.next() >> 11) / 4503599627370496.0 - 1.0
    }

    fn power(k: u32) -> f64 {
        f64_from_bits_with_nan((1023 - u64::from(k % 1023)) << 52)
    }
}

impl RealSample for f32 {
    const FOUR: f32 = 4.0;

    const TOLERANCE: f32 = f32::EPSILON;

    // 24 bits over 2^23
    fn unit(random: &mut Random) -> f32 {
        nearest_u64_to_f32(random.next() >> 40) / 8388608.0 - 1.0
    }

    fn power(k: u32) -> f32 {
        f32_from_bits_with_nan((127 - k % 127) << 23)
    }
}

impl Sample for f64 {}

impl Sample for f32 {}

impl<R: RealSample> Sample for Complex<R> {
    fn draw(random: &mut Random) -> Complex<R> {
        let re = R::unit(random);
        let im = R::unit(random);
        Complex { re, im }
    }
}
