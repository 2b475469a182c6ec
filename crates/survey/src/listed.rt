// The listing of what a file asks for, for either kind of reading.
ghost use Rattle.std.specs.Prelude.{◌≡◌, ℕ, List, length, IfOk, string_bytes};
ghost use Rattle.contractor.specs.Means.{means};
ghost use Rattle.listing.specs.Lines.{Shown};
ghost use Rattle.readings.specs.Requests.{meant};
ghost use Rattle.survey.specs.Texts.{Paving};

use crate::draft::sealed;
use crate::layered::layered;
use contractor::contractor::Contractor;
use domain::domain::Domain;
use layers::fixed::Fixed;
use layers::relaxed::Relaxed;
use listing::list::list;
use panels::reading_list::ReadingList;
use readings::request::Request;
use sheet::sheet::Sheet;
use std::alloc::{AllocError, Global};
use std::fmt;

// The text, and the sheet as it then stands. The memory has a place for each reading.
pub(crate) fn listed<'a, P: Domain + fmt::Display, R: Contractor<Piece = P> + Copy>(
    alloc: Global,
    memory: &'a mut [R],
    request: &Request<P, R>,
) -> Result<(String, Sheet<Fixed<Relaxed<ReadingList<'a, R>>>>), AllocError>
    requires { length memory.old ≡ 16 }
    ensures { (shown : P → List ℕ) → Shown P.Display.output shown → IfOk result (λ p. Paving P.Domain.maps (means R.Contractor) shown (meant request.now) (string_bytes p.0)) }
{
    let readings = sealed(memory, request.readings.all());
    let contractor = layered(readings, request.liars);
    list(alloc, contractor, request.start, request.grain)
}
