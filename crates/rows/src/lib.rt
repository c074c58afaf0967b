// Row keepers.
#![tactic(auto)]

mod all_rows;
mod both;
mod cases;
mod columns;
mod direction;
mod keeper;
mod no_rows;
mod turn;

pub use all_rows::AllRows;
pub use both::Both;
pub use cases::quarter_turn;
pub use direction::Direction;
pub use keeper::Keeper;
pub use no_rows::NoRows;
pub use turn::Turn;
