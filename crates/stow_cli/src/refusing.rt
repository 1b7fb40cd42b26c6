//! The texts of refusals.
ghost use Rattle.std.specs.Prelude.{◌≡◌, IfOk};
ghost use Rattle.stow_report.specs.Refusals.{refusal_text};
ghost use Rattle.stow_report.specs.Inputs.{limit_line};
ghost use Rattle.stow_report.specs.Verdicts.{cert_line, file_line};

use baplie::BaplieFault;
use certificate::CertFault;
use std::alloc::Global;
use stow_data::{Bytes, Limit, NoMemory};
use stow_report::{cert_line, file_line, limit_line, refusal};

/// The text of a limit that is passed, and of the number that passes it.
pub fn limit_text(alloc: Global, limit: Limit, value: u64) -> Result<Bytes, NoMemory>
    ensures { IfOk result (λ text. text ≡ refusal_text (limit_line limit value)) }
{
    refusal(alloc, &limit_line(alloc, limit, value)?)
}

/// The text of a fault of a certificate.
pub fn cert_text(alloc: Global, fault: CertFault) -> Result<Bytes, NoMemory>
    ensures { IfOk result (λ text. text ≡ refusal_text (cert_line fault)) }
{
    refusal(alloc, &cert_line(alloc, fault)?)
}

/// The text of a fault of a bay plan.
pub fn file_text(alloc: Global, fault: BaplieFault) -> Result<Bytes, NoMemory>
    ensures { IfOk result (λ text. text ≡ refusal_text (file_line fault)) }
{
    refusal(alloc, &file_line(alloc, fault)?)
}
