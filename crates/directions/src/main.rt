// Reads a sheet from standard input and prints its listing.
#![tactic(auto)]

ghost use Rattle.std.specs.Prelude.{◌≡◌, ◌+◌};
ghost use Rattle.listing.specs.Listings.{longest};

use anyhow::anyhow;
use listing::list_sheet;
use std::io::Read;

// How many bytes are read: one more than a sheet can have tells that it is too long. Nothing else in this program could show a limit
// that is one too small, so it is proved.
fn enough() -> u64
    ensures value { result ≡ longest + 1 }
{
    32_769
}

fn read_sheet(rt: &HostRuntime) -> anyhow::Result<Vec<u8>> {
    let mut sheet = Vec::new(rt.alloc());
    let mut input = rt.stdin().take(enough());
    input.read_to_end(&mut sheet)?;
    Ok(sheet)
}

fn main(rt: HostRuntime) -> anyhow::Result<()> {
    let sheet = read_sheet(&rt)?;
    // The words as in sheet_check: each program has its own.
    let listing = list_sheet(rt.alloc(), &sheet).map_err(|_| anyhow!(
        "no memory for the sheet's tables"
    ))?;
    rt.print(listing)?;
    Ok(())
}
