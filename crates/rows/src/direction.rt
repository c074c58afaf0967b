// Which way a turn goes, in a file of its own: the definitions of turns name it.
#[derive(Clone, Copy, PartialEq, Eq, Debug)]
pub enum Direction {
    Forward,
    Back,
}
