// The text of one line.
ghost use Rattle.std.specs.Prelude.{Some};
ghost use Rattle.listing.specs.Text.{line_text, refusal_text};

use crate::line::Line;
use std::fmt;

// What a listing tells of a refusal.
#[derive(Clone, Copy, PartialEq, Eq, Debug)]
pub(crate) struct Refused {
    pub(crate) number: u8,
    pub(crate) place: usize,
}

impl fmt::Display for Line {
    ghost output = { λ l. Some (line_text l) };

    #[tactic(auto, using(crate::proofs::Hexadecimal::sixteen))]
    fn fmt<W: fmt::Write>(&self, f: &mut fmt::Formatter<W>) -> fmt::Result {
        match *self {
            Line::Heading {
                kind,
                side,
                largest,
                passes,
            } => {
                let kind = u8::from(kind);
                write!(
                    f,
                    "kind {kind} side {side} largest {largest:016X} passes {passes}"
                )
            }
            Line::Value { index, bits } => write!(f, "value {index} {bits:016X}"),
            Line::Entry { row, column, bits } => write!(f, "row {row} column {column} {bits:016X}"),
            Line::OutlineEntry {
                row,
                column,
                across,
                along,
            } => write!(f, "row {row} column {column} {across:016X} {along:016X}"),
        }
    }
}

impl fmt::Display for Refused {
    ghost output = { λ r. Some (refusal_text r.number r.place) };

    fn fmt<W: fmt::Write>(&self, f: &mut fmt::Formatter<W>) -> fmt::Result {
        let Refused { number, place } = *self;
        write!(f, "refused {number} at {place}")
    }
}
