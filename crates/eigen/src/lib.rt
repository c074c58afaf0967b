// The eigenvalues of a symmetric tridiagonal matrix, and the rows that are turned along.
#![tactic(auto)]

mod block;
mod calls;
mod chase;
mod delimit;
mod eigenvalues;
mod ends;
mod faults;
mod form;
mod givens;
mod passes;
mod settling;
mod symmetric_eigen;

pub use calls::settle;
pub use ends::Unsettled;
