// The text of a sheet, from its opening to its end.
ghost use Rattle.std.specs.Prelude.{ℕ, List, IfOk, string_bytes};
ghost use Rattle.paving.specs.Sheet.{task};
ghost use Rattle.contractor.specs.Means.{means};
ghost use Rattle.listing.specs.Lines.{Shown};
ghost use Rattle.listing.specs.Listings.{Listing};
ghost use Rattle.listing.specs.Progress.{Finished};

use crate::lines::write_sum;
use crate::rounds::pave;
use contractor::contractor::Contractor;
use domain::domain::Domain;
use sheet::grain::Grain;
use sheet::sheet::Sheet;
use std::alloc::{AllocError, Global};
use std::fmt;

// Paves the start until nothing waits. The text has a line for each record, in label order, and then the sum line. The
// sheet comes back as it then stands: the size of a sheet over any contractor is known only where the signature has one.
// An error says that no memory was left for the text.
pub fn list<P: Domain + fmt::Display, C: Contractor<Piece = P> + Drop>(
    alloc: Global,
    contractor: C,
    start: P,
    grain: Grain,
) -> Result<(String, Sheet<C>), AllocError>
    ensures value { (shown : P → List ℕ) → Shown P.Display.output shown → IfOk result (λ p. Listing (task P.Domain.maps (means C.Contractor contractor) start grain.size) (C.Contractor.set contractor) shown (string_bytes p.0)) }
    ensures after { IfOk result (λ p. Finished P.Domain.maps (means C.Contractor) contractor start grain p.1) }
{
    let mut text = String::new(alloc);
    let mut sheet = Sheet::open(contractor, start, grain);
    pave(&mut sheet, &mut text)?;
    let tally = sheet.tally();
    write_sum(&mut text, tally.taken, tally.steps)?;
    Ok((text, sheet))
}
