// The text of a listing: its lines and one for the refusal, each with its newline.
ghost use Rattle.std.specs.Prelude.{◌≡◌, IfOk, Some, string_bytes};
ghost use Rattle.std.specs.Fmt.{DisplaysOnOk};
ghost use Rattle.std.specs.List.{flat_map};
ghost use Rattle.listing.specs.Lines.{last_line, listing_text, printed};
ghost use Rattle.listing.specs.Listings.{listing_of, stop_of};

use crate::line::Line;
use crate::listing::Listing;
use crate::text::Refused;
use sheet::Refusal;
use std::alloc::{AllocError, Global};
use std::fmt;

fn write_lines<W: fmt::Write>(lines: &[Line], f: &mut fmt::Formatter<W>) -> fmt::Result
    ensures { DisplaysOnOk W.write_str_gives f.old result (Some (flat_map printed lines.now)) f.new }
{
    for line in lines {
        writeln!(f, "{line}")?;
    }
    Ok(())
}

// Want of memory has no number, and no line.
fn write_refusal<W: fmt::Write>(refusal: Option<Refusal>, f: &mut fmt::Formatter<W>) -> fmt::Result
    ensures { DisplaysOnOk W.write_str_gives f.old result (Some (last_line (stop_of refusal))) f.new }
{
    let Some(Refusal { fault, place }) = refusal else {
        return Ok(());
    };
    let Some(number) = fault.number() else {
        return Ok(());
    };
    let refused = Refused { number, place };
    writeln!(f, "{refused}")
}

impl fmt::Display for Listing {
    ghost output = { λ l. Some (listing_text (listing_of l)) };

    fn fmt<W: fmt::Write>(&self, f: &mut fmt::Formatter<W>) -> fmt::Result {
        write_lines(self.lines.as_slice(), f)?;
        write_refusal(self.refusal, f)
    }
}

impl Listing {
    // What the program prints.
    pub fn text(&self, heap: Global) -> Result<String, AllocError>
        ensures text { IfOk result (λ s. string_bytes s ≡ listing_text (listing_of self.now)) }
    {
        self.to_string(heap)
    }
}
