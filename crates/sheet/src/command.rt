// Commands: each borrows its operand bytes from the sheet and carries the place of its byte.
ghost use Rattle.std.specs.Prelude.{◌≡◌, drop};
ghost use Rattle.sheet.specs.Commands.{at, code_answer, code_in, decode, operand_bytes, operands_in, stepped};

use crate::bytes::tail;
use crate::operands::Operands;
use crate::sheet_fault::{Refusal, SheetFault};

// Which command a byte begins.
#[derive(Clone, Copy, PartialEq, Eq, Debug)]
pub enum Code {
    Open,
    Entry,
    OutlineEntry,
    Tolerance,
    Limit,
    Values,
    Vectors,
}

// Each case borrows its operands, a form that docs/DECISIONS.md lists: so no `Code` with operands beside it.
#[derive(Clone, Copy)]
pub enum Command<'a> {
    Open(Operands<'a>),
    Entry(Operands<'a>),
    OutlineEntry(Operands<'a>),
    Tolerance(Operands<'a>),
    Limit(Operands<'a>),
    Values(Operands<'a>),
    Vectors(Operands<'a>),
}

// A command of a sheet, and the place after it.
#[derive(Clone, Copy)]
pub struct Next<'a> {
    pub command: Command<'a>,
    pub after: usize,
}

impl TryFrom<u8> for Code {
    type Error = SheetFault;

    ghost try_from_gives = { λ byte code. code ≡ code_answer byte };

    fn try_from(byte: u8) -> Result<Code, SheetFault> {
        match byte {
            0x01 => Ok(Code::Open),
            0x02 => Ok(Code::Entry),
            0x03 => Ok(Code::OutlineEntry),
            0x04 => Ok(Code::Tolerance),
            0x05 => Ok(Code::Limit),
            0x06 => Ok(Code::Values),
            0x07 => Ok(Code::Vectors),
            _ => Err(SheetFault::Command),
        }
    }
}

impl Code {
    fn operand_bytes(self) -> usize
        ensures value { result ≡ operand_bytes self }
    {
        match self {
            Code::Open => 3,
            Code::Entry => 12,
            Code::OutlineEntry => 20,
            Code::Tolerance => 8,
            Code::Limit => 4,
            Code::Values => 0,
            Code::Vectors => 0,
        }
    }

    fn command(self, operands: Operands<'_>) -> Command<'_>
        ensures code { code_in result ≡ self }
        ensures operands { operands_in result ≡ operands.entry }
    {
        match self {
            Code::Open => Command::Open(operands),
            Code::Entry => Command::Entry(operands),
            Code::OutlineEntry => Command::OutlineEntry(operands),
            Code::Tolerance => Command::Tolerance(operands),
            Code::Limit => Command::Limit(operands),
            Code::Values => Command::Values(operands),
            Code::Vectors => Command::Vectors(operands),
        }
    }
}

// The command whose byte stands at `place`, if the sheet has not ended there. Sheet and place stand apart, here and in
// `next_table`: the one stays and the other moves.
pub fn next_command(sheet: &[u8], place: usize) -> Result<Option<Next<'_>>, Refusal>
    ensures decoded { stepped result ≡ at place (decode (drop place sheet.now)) }
{
    let Some((byte, rest)) = tail(sheet, place).split_first() else {
        return Ok(None);
    };
    let code = Code::try_from(*byte).map_err(|fault| fault.at(place))?;
    let Some(bytes) = rest.get(..code.operand_bytes()) else {
        return Err(SheetFault::Cut.at(place));
    };
    let command = code.command(Operands { place, bytes });
    let after = place + 1 + bytes.len();
    Ok(Some(Next { command, after }))
}
