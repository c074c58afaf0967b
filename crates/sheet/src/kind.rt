// The kinds of table.
ghost use Rattle.std.specs.Prelude.{◌≡◌};
ghost use Rattle.sheet.specs.Kinds.{IsKind, kind_number};

use crate::sheet_fault::SheetFault;

#[derive(Clone, Copy, PartialEq, Eq, Debug)]
pub enum Kind {
    Real,
    Outline,
}

impl TryFrom<u8> for Kind {
    type Error = SheetFault;

    ghost try_from_gives = { IsKind };

    fn try_from(byte: u8) -> Result<Kind, SheetFault> {
        match byte {
            0 => Ok(Kind::Real),
            1 => Ok(Kind::Outline),
            _ => Err(SheetFault::Operand),
        }
    }
}

// The number that a sheet and a listing tell it by.
impl From<Kind> for u8 {
    ghost from_gives = { λ kind n. n ≡ kind_number kind };

    fn from(kind: Kind) -> u8 {
        match kind {
            Kind::Real => 0,
            Kind::Outline => 1,
        }
    }
}
