// Lists each sheet of a table: a line of hexadecimal digits is one sheet, and a line of the output its listing.
#![tactic(auto)]

ghost use Rattle.std.specs.Prelude.{◌<◌};

use anyhow::anyhow;
use listing::list_sheet;
use std::alloc::{AllocError, Global};

// What a hexadecimal digit stands for (`char::to_digit` takes small letters too); 0 for anything else, which the table has not.
fn digit(b: u8) -> u8
    ensures small { result < 16 }
{
    match b {
        b'0'..=b'9' => b - b'0',
        b'A'..=b'F' => b - b'A' + 10,
        _ => 0,
    }
}

fn bytes_of(heap: Global, text: &[u8]) -> Result<Vec<u8>, AllocError> {
    let (pairs, _) = text.as_chunks::<2>();
    pairs
        .iter()
        .map(|[high, low]| digit(*high) * 16 + digit(*low))
        .collect(heap)
}

// The listing of a sheet, in one line: each newline is a bar.
fn list(heap: Global, sheet: &[u8]) -> anyhow::Result<String> {
    // The words as in directions: each program has its own.
    let listing = list_sheet(heap, sheet).map_err(|_| anyhow!("no memory for the sheet's tables"))?;
    let line = listing
        .text(heap)?
        .chars()
        .map(|c| if c == '\n' { '|' } else { c })
        .collect(heap)?;
    Ok(line)
}

// A sheet of this many bytes, each of which closes a table.
fn long_sheet(heap: Global, length: usize) -> anyhow::Result<String> {
    let sheet = vec![in heap; 6u8; length]?;
    list(heap, &sheet)
}

fn main(rt: HostRuntime) -> anyhow::Result<()> {
    let heap = rt.alloc();
    for line in rt.lines(heap) {
        let line = line?;
        let sheet = bytes_of(heap, line.as_bytes())?;
        rt.println(list(heap, &sheet)?)?;
    }
    rt.println(long_sheet(heap, 32_768)?)?;
    rt.println(long_sheet(heap, 32_769)?)?;
    Ok(())
}
