// Reading a sheet, table by table.
ghost use Rattle.std.specs.Prelude.{◌≡◌, drop};
ghost use Rattle.sheet.specs.Desk.{idle};
ghost use Rattle.sheet.specs.Laws.{Final, Gathers, Joins, Kept, OneByOne, gathered_reading};
ghost use Rattle.sheet.specs.Readings.{had_room, reading_of};
ghost use Rattle.sheet.specs.Sheets.{table_from};

use crate::command::next_command;
use crate::desk::{Applied, Desk};
use crate::reading::Reading;
use crate::sheet_fault::Refusal;
use std::alloc::Global;

// The next table that the sheet closes from `place` on. A table still open at the sheet's end is none.
#[tactic(auto, using(crate::proofs::Whole::next_table_laws))]
pub fn next_table(heap: Global, sheet: &[u8], place: usize) -> Result<Option<Reading>, Refusal>
    ensures reading { reading_of result ≡ table_from (had_room (reading_of result)) 0 place idle (drop place sheet.now) }
    // the largest size gathered for the table is that of the whole table
    ensures gathered { gathered_reading (reading_of result) }
    // What follows is of the definitions, not of this answer: `reading` ties it to `table_from`, and `one_by_one` that to whole runs.
    // a whole sheet closes its tables one by one
    ensures one_by_one { OneByOne sheet.now place }
    // the largest size gathered for each table that a whole sheet closes is that of the whole table
    ensures gathers { Gathers sheet.now }
    // what follows a refused command does not matter
    ensures unread { Final sheet.now }
    // nor what follows a closed table
    ensures kept { Kept sheet.now }
    // a sheet behind one that closes all its tables is read after it
    ensures joins { Joins sheet.now }
{
    let mut desk = Desk { table: None };
    // a place, and no iterator of commands: `next_command` reads at any place, and a refusal tells it
    let mut at = place;
    'commands: while let Some(next) = next_command(sheet, at)? {
        // one match for all that a command comes to: `map_err` and `?` would leave a second one
        match desk.apply(heap, next.command) {
            Ok(Applied::Goes(still)) => {
                desk = still;
                at = next.after;
            }
            Ok(Applied::Closes(table)) => return Ok(Some(Reading::new(table, at, next.after))),
            Err(stopped) => return Err(stopped.fault.at(at)),
        }
    }
    Ok(None)
}
