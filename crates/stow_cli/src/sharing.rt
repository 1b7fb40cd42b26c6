//! What the departure files of a voyage are answered for a call.
ghost use Rattle.std.specs.Prelude.{◌≡◌, ◌≤◌, ◌<◌, ◌+◌, ◌^◌, [], All, IfOk, length};
ghost use Rattle.stow_report.specs.CraneLists.{crane_text};
ghost use Rattle.voyage_files.specs.Booked.{IsBooked};
ghost use Rattle.stow_cli.specs.SharedOut.{SharedAs};

use plan_files::FileSet;
use std::alloc::Global;
use stow_data::{Bytes, CallNo, NoMemory};
use stow_io::{FileList, Finding, Work};
use stow_report::{CraneReport, crane_list, refusal};
use voyage_files::{Answer, BookedVoyage, JudgeNo, departures_in, line_of};
use work_lists::work_list;

/// No file, and what is printed of a work list as report.
fn printed(alloc: Global, list: &CraneReport) -> Result<Work, NoMemory>
    ensures files { IfOk result (λ work. work.files ≡ []) }
    ensures report { IfOk result (λ work. work.report ≡ crane_text list.now) }
    ensures finding { IfOk result (λ work. work.finding ≡ Finding.Fine) }
{
    Ok(Work {
        files: FileList::new(alloc),
        report: crane_list(alloc, list)?,
        finding: Finding::Fine,
    })
}

/// What the texts of the departure files of a voyage, of which the first is that of call 1, are answered: the work list
/// of the call for so many cranes, or the line of the first part that doesn't hold.
pub fn answer_files(
    alloc: Global,
    v: &BookedVoyage,
    texts: &[Bytes],
    call: CallNo,
    cranes: u32,
) -> Result<Answer, NoMemory>
    requires booked { IsBooked v.now }
    requires each_call { length texts.now + 1 ≡ length v.now.cargo.rotation }
    requires short { All (λ text. length text ≤ 2 ^ 29) texts.now }
    requires from { 1 ≤ call }
    requires to { call < length v.now.cargo.rotation }
    requires some_crane { 1 ≤ cranes }
    ensures { IfOk result (SharedAs v.now call cranes texts.now) }
{
    match departures_in(alloc, &v.ship, &v.cargo, texts) {
        Ok(set) => {
            let list = work_list(alloc, &v.ship, &v.cargo, &set, call, cranes)?;
            Ok(Answer::Work(printed(alloc, &list)?))
        }
        Err(JudgeNo::NoMemory) => Err(NoMemory),
        Err(no) => Ok(Answer::No(refusal(alloc, &line_of(alloc, no)?)?)),
    }
}
