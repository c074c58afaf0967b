// The decomposition for callers that are not Rattle: a static library with C functions, each of which is total. Where a length is
// not the one that the side asks for, it refuses.
#![tactic(auto)]

mod crossing;
mod outcome;
mod points;
mod reduces;
mod reducing;
mod solves;
mod solving;
mod told;
