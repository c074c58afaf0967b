// What a whole sheet lists.
use crate::line::Line;
use sheet::Refusal;

// The lines of the solved tables in their order, and the refusal that ends the sheet, if any.
#[derive(Drop)]
pub struct Listing {
    pub lines: Vec<Line>,
    pub refusal: Option<Refusal>,
}
