// Sheets: the commands that type tables of numbers, and what a sheet closes or refuses.
#![tactic(auto)]

mod apply;
mod bytes;
mod command;
mod desk;
mod kind;
mod operands;
mod read;
mod reading;
mod sheet_fault;

pub use command::{Command, Next, next_command};
pub use desk::{Applied, Asked, Closed, Desk, Stopped, Table};
pub use kind::Kind;
pub use operands::Operands;
pub use read::next_table;
pub use reading::Reading;
pub use sheet_fault::{Refusal, SheetFault};
