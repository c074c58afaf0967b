// The eigendecomposition of one table: reduce, assemble and settle in one call, with buffers of its own.
#![tactic(auto)]

mod buffers;
mod failure;
mod form;
mod solve;
mod solved;
mod steps;

pub use failure::Failure;
pub use solve::{symmetric_eigen, symmetric_eigenvalues};
pub use solved::Solved;
