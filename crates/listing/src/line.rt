// One line of a listing, in a file of its own: the definitions of listings name it.
use sheet::Kind;

// Numbers stand by their bits.
#[derive(Clone, Copy, PartialEq, Eq, Debug)]
pub enum Line {
    // a solved table: its kind, its side, its largest size, and the passes that it took
    Heading {
        kind: Kind,
        side: usize,
        largest: u64,
        passes: u32,
    },
    Value {
        index: usize,
        bits: u64,
    },
    // an entry of the matrix of eigenvectors: of a real table, and of an outline table by its two parts
    Entry {
        row: usize,
        column: usize,
        bits: u64,
    },
    OutlineEntry {
        row: usize,
        column: usize,
        across: u64,
        along: u64,
    },
}
