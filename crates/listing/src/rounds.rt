// Rounds at a sheet: run it until its roll is full or nothing waits, and write what is on the roll.
ghost use Rattle.std.specs.Prelude.{◌≡◌, Some, string_bytes, Decides, OnOk};
ghost use Rattle.contractor.specs.Means.{means};
ghost use Rattle.domain.specs.declared.refusal.Refusal.TheVariants.{NothingWaiting};
ghost use Rattle.listing.specs.Progress.{Begun, Clear, Emptied, Paved};

use crate::lines::write_record;
use contractor::contractor::Contractor;
use domain::domain::Domain;
use domain::refusal::Refusal;
use paving::answers::Ran;
use sheet::sheet::Sheet;
use std::alloc::AllocError;
use std::fmt;

// Takes all records from the roll, and writes a line for each.
fn take_all<P: Domain + fmt::Display, C: Contractor<Piece = P>>(
    sheet: &mut Sheet<C>,
    text: &mut String,
) -> Result<(), AllocError>
    requires { Begun P.Domain.maps (means C.Contractor) P.Display.output sheet.old (string_bytes text.old) }
    ensures { OnOk result (Emptied P.Domain.maps (means C.Contractor) P.Display.output sheet.old sheet.new (string_bytes text.new)) }
{
    while let Ok(record) = sheet.take() {
        write_record(text, &record)?;
    }
    Ok(())
}

// Whether a run stopped because nothing waits.
fn is_paved(ran: &Ran) -> bool
    ensures { Decides result (ran.now.refusal ≡ Some NothingWaiting) }
{
    ran.refusal == Some(Refusal::NothingWaiting)
}

// Runs the sheet until nothing waits, and writes a line for each record.
pub(crate) fn pave<P: Domain + fmt::Display, C: Contractor<Piece = P>>(
    sheet: &mut Sheet<C>,
    text: &mut String,
) -> Result<(), AllocError>
    requires { Clear P.Domain.maps (means C.Contractor) P.Display.output sheet.old (string_bytes text.old) }
    ensures { OnOk result (Paved P.Domain.maps (means C.Contractor) P.Display.output sheet.old sheet.new (string_bytes text.new)) }
{
    loop {
        let ran = sheet.run(u32::MAX);
        take_all(sheet, text)?;
        if is_paved(&ran) {
            return Ok(());
        }
    }
}
