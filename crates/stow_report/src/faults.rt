//! Refusals of bay plans.
ghost use Rattle.std.specs.Prelude.{◌≡◌, IfOk};
ghost use Rattle.baplie.specs.Faults.{number};
ghost use Rattle.stow_report.specs.Faults.{interchange_line, message_line};

use crate::lines::{Group, Line, numbered};
use baplie::Cause;
use edifact_segments::SegFault;
use std::alloc::Global;
use stow_data::NoMemory;

/// The line of a fault of an interchange (ISO 9735).
pub fn interchange_line(alloc: Global, fault: SegFault) -> Result<Line, NoMemory>
    ensures { IfOk result (λ line. line ≡ interchange_line fault) }
{
    match fault {
        SegFault::NoHeader => numbered(alloc, false, Group::Edifact, 1, &[]),
        SegFault::BadUna => numbered(alloc, false, Group::Edifact, 2, &[]),
        SegFault::Unterminated { at } => numbered(
            alloc,
            false,
            Group::Edifact,
            3,
            &[i128::from(at)],
        ),
        SegFault::ControlByte { at } => numbered(
            alloc,
            false,
            Group::Edifact,
            4,
            &[i128::from(at)],
        ),
        SegFault::BadTag { segment } => numbered(
            alloc,
            false,
            Group::Edifact,
            5,
            &[i128::from(segment)],
        ),
        SegFault::NoTrailer { segments } => {
            numbered(alloc, false, Group::Edifact, 6, &[i128::from(segments)])
        }
        SegFault::Trailing { at } => numbered(alloc, false, Group::Edifact, 7, &[i128::from(at)]),
        SegFault::NoMemory => numbered(alloc, false, Group::Edifact, 8, &[]),
    }
}

/// The line of a fault of a bay plan message (SMDG BAPLIE 2.2): the cause's number, the segment's, and
/// what the cause tells.
pub fn message_line(alloc: Global, segment: u32, cause: Cause) -> Result<Line, NoMemory>
    ensures { IfOk result (λ line. line ≡ message_line segment cause) }
{
    let at = i128::from(segment);
    let number = cause_number(cause);
    match cause {
        Cause::CountWrong { said, found } => numbered(
            alloc,
            false,
            Group::Baplie,
            number,
            &[at, i128::from(said), i128::from(found)],
        ),
        _ => numbered(alloc, false, Group::Baplie, number, &[at]),
    }
}

/// The number of a cause.
fn cause_number(cause: Cause) -> u32
    ensures { result ≡ number cause }
{
    match cause {
        Cause::NotBaplie => 1,
        Cause::ManyMessages => 2,
        Cause::NoUnt => 3,
        Cause::BadCell => 4,
        Cause::AgencyLeftOut => 5,
        Cause::TwoContainers => 6,
        Cause::BreakbulkLeftOut => 7,
        Cause::NoId => 8,
        Cause::NameTooLong => 9,
        Cause::LengthLeftOut => 10,
        Cause::UnitLeftOut => 11,
        Cause::BadWeight => 12,
        Cause::NoWeightOrPort => 13,
        Cause::BadCount => 14,
        Cause::CountWrong { .. } => 15,
        Cause::ReferenceWrong => 16,
    }
}
