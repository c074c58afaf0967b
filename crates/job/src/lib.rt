// One table of a sheet while it is typed.
#![tactic(auto)]

mod calls;
mod checks;
mod job;
mod place;
mod rejected;
mod typing;

pub use job::Job;
pub use rejected::{Rejected, Unopened};
