// What a sheet lists: its tables, each solved in its turn, line by line, and the text of that.
#![tactic(auto)]

mod line;
mod list;
mod listing;
mod print;
mod shown;
mod solve;
mod step;
mod text;

pub use line::Line;
pub use list::list_sheet;
pub use listing::Listing;
