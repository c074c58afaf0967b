// One table of a listing, in a file of its own: the definitions of listings name it.
use crate::line::Line;

// The lines of a table, and the place after the command that closed it.
#[derive(Drop)]
pub(crate) struct Step {
    pub(crate) lines: Vec<Line>,
    pub(crate) after: usize,
}
