// What is printed for a readings file.
ghost use Rattle.std.specs.Prelude.{◌≡◌, IfOk, string_bytes};
ghost use Rattle.domain.specs.Refusals.{code};
ghost use Rattle.survey.specs.Grounds.{Grounded};
ghost use Rattle.survey.specs.Orders.{Ordered};
ghost use Rattle.survey.specs.Texts.{Prints, fault_line};

use crate::kinds::asked_text;
use readings::fault::Fault;
use readings::read::read;
use std::alloc::{AllocError, Global};

// `fault=NUMBER,LINE`
fn fault_text(alloc: Global, fault: Fault) -> Result<String, AllocError>
    ensures { IfOk result (λ t. string_bytes t ≡ fault_line (code fault.refusal) fault.line) }
{
    format!(in alloc; "{fault}\n")
}

// The listing of the start that the file's readings pave, or the line of its first fault. A listing is true of the
// ground, and the same for the same reading lines in another order. An error says that no memory was left for the text.
pub fn pave(alloc: Global, file: &[u8]) -> Result<String, AllocError>
    ensures value { IfOk result (λ t. Prints file.now (string_bytes t)) }
    ensures ground { IfOk result (λ t. Grounded file.now (string_bytes t)) }
    ensures order { IfOk result (λ t. Ordered file.now (string_bytes t)) }
{
    match read(file) {
        Ok(asked) => asked_text(alloc, &asked),
        Err(fault) => fault_text(alloc, fault),
    }
}
