// Number kinds: the traits, binary64, binary32, and complex numbers over any real kind.
#![tactic(auto)]

mod binary32;
mod binary64;
mod complex;
mod kinds;
mod point;

pub use kinds::{Arithmetic, RealScalar, Scalar};
pub use point::Complex;
