// Listing a whole sheet.
ghost use Rattle.std.specs.Prelude.{◌≡◌, ◌<◌, IfOk, IsOkAnd, IsOkUnless, OnErr, length};
ghost use Rattle.sheet.specs.Desk.{table_of};
ghost use Rattle.sheet.specs.Laws.{Final, Gathers, Joins};
ghost use Rattle.sheet.specs.declared.sheet_fault.SheetFault.TheVariants.{Memory};
ghost use Rattle.listing.specs.Laws.{AddsRows, AnyLimit, ListsBehind, Reduces, TablesBehind, TablesUnlisted, Unlisted};
ghost use Rattle.listing.specs.Listings.{lines as listed_lines, listed, listing_of, longest, made_of_table, too_long};
ghost use Rattle.listing.specs.Steps.{Makes, OpensAt, Steps};

use crate::listing::Listing;
use crate::solve::table_lines;
use crate::step::Step;
use fault::Fault;
use sheet::{Reading, Refusal, SheetFault, next_table};
use std::alloc::Global;

// How many bytes a sheet can have.
const LONGEST: usize = 32_768;

// The lines of a table that was read, or its refusal at the place of the command that closed it.
fn solved(heap: Global, reading: Reading) -> Result<Step, Refusal>
    ensures made { Makes (made_of_table (table_of reading.table)) reading.place reading.after result }
{
    let lines = table_lines(heap, &reading.table).map_err(|fault| fault.at(reading.place))?;
    Ok(Step {
        lines,
        after: reading.after,
    })
}

// The next table that the sheet closes from `place` on.
fn next_lines(heap: Global, sheet: &[u8], place: usize) -> Result<Option<Step>, Refusal>
    ensures step { Steps sheet.now place result }
{
    let Some(reading) = next_table(heap, sheet, place)? else {
        return Ok(None);
    };
    Ok(Some(solved(heap, reading)?))
}

// The listing of a sheet that is short enough: each closed table is solved before the next is read.
fn list_tables(heap: Global, sheet: &[u8]) -> Result<Listing, SheetFault>
    ensures listing { IfOk result (λ l. listing_of l ≡ listed_lines sheet.now) }
    ensures memory { IsOkUnless result Memory }
    ensures opens { OnErr result (OpensAt sheet.now 0) }
{
    let mut lines = Vec::new(heap);
    // No iterator: it would be this loop, with heap, sheet and place as its fields; `next_table` reads on from any place.
    let mut place = 0;
    'tables: loop {
        match next_lines(heap, sheet, place) {
            Ok(Some(step)) => {
                lines.extend_from_slice(&step.lines)?;
                place = step.after;
            }
            Ok(None) => return Ok(Listing {
                lines,
                refusal: None,
            }),
            Err(
                Refusal {
                    fault: SheetFault::Memory,
                    ..
                },
            ) => return Err(SheetFault::Memory),
            Err(refusal) => return Ok(Listing {
                lines,
                refusal: Some(refusal),
            }),
        }
    }
}

// The listing of a sheet. It fails for want of memory alone. What is promised after that is of the definitions that `listing` ties the
// answer to: laws of `listed`, of `run` and of `lines`, which `listed` is made of.
#[tactic(auto, using(crate::proofs::Whole::list_sheet_laws))]
pub fn list_sheet(heap: Global, sheet: &[u8]) -> Result<Listing, SheetFault>
    ensures listing { IfOk result (λ l. listing_of l ≡ listed sheet.now) }
    ensures memory { IsOkUnless result Memory }
    // it does so only where the sheet opens a table of a lawful kind and side; the first command of such a sheet opens one
    ensures opens { OnErr result (OpensAt sheet.now 0) }
    // a sheet that is too long is refused whether there is memory or not
    ensures too_long { longest < length sheet.now → IsOkAnd result (λ l. listing_of l ≡ too_long) }
    // the largest size gathered for each closed table is that of the whole table, and that by which its reduction divides
    ensures gathers { Gathers sheet.now }
    ensures reduces { Reduces sheet.now }
    // asked for vectors, a table lists what it does asked for values, and then a line for each entry of its vectors
    ensures adds_rows { AddsRows sheet.now }
    // a table that is solved in so many passes lists the same at each larger limit that a table can have, and at each from 1 to them is
    // refused 7
    ensures any_limit { AnyLimit sheet.now }
    // what follows a refused command is not read, nor listed, be it refused by the reader or as its table is solved
    ensures unread { Final sheet.now }
    ensures unlisted { Unlisted sheet.now }
    ensures tables_unlisted { TablesUnlisted sheet.now }
    // a sheet behind one that closes all its tables is read after it, and listed after it, unless one of those is refused
    ensures joins { Joins sheet.now }
    ensures lists_behind { ListsBehind sheet.now }
    ensures tables_behind { TablesBehind sheet.now }
{
    if sheet.len() > LONGEST {
        return Ok(Listing {
            lines: Vec::new(heap),
            refusal: Some(SheetFault::from(Fault::Length).at(0)),
        });
    }
    list_tables(heap, sheet)
}
