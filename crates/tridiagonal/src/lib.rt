// The tridiagonal form of a symmetric or Hermitian table, and its matrix Q.
#![tactic(auto)]
// Clauses name the three records of a kind's operations: one member of `Scalar` for them would be taken apart by a law in each proof.

mod blas;
mod checks;
mod householder;
mod matrix_q;
mod reduction;
mod reflection;
mod square;
mod sums;
mod symmetric_tridiagonal;
mod table;

pub use matrix_q::assemble;
pub use reduction::Reduction;
pub use symmetric_tridiagonal::reduce;
