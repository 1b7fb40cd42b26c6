//! Refusals of certificates, of their trees, and of bay plan files.
ghost use Rattle.std.specs.Prelude.{◌≡◌, IfOk};
ghost use Rattle.stow_report.specs.Verdicts.{cert_line, of_bound, bound_line, file_line};

use crate::faults::{interchange_line, message_line};
use crate::lines::{Group, Line, numbered};
use baplie::BaplieFault;
use certificate::{BoundNo, CertFault};
use edifact_segments::SegFault;
use std::alloc::Global;
use stow_data::NoMemory;

/// The line of a text that is no certificate.
pub fn cert_line(alloc: Global, fault: CertFault) -> Result<Line, NoMemory>
    ensures { IfOk result (λ line. line ≡ cert_line fault) }
{
    match fault {
        CertFault::NotCert => numbered(alloc, true, Group::Cert, 1, &[]),
        CertFault::BadHead { line } => numbered(alloc, true, Group::Cert, 2, &[i128::from(line)]),
        CertFault::BadLine { line } => numbered(alloc, true, Group::Cert, 3, &[i128::from(line)]),
        CertFault::NoEnd => numbered(alloc, true, Group::Cert, 4, &[]),
        CertFault::NoMemory => numbered(alloc, true, Group::Cert, 5, &[]),
    }
}

/// A line of a tree's refusal.
fn of_bound(alloc: Global, number: u32, numbers: &[i128]) -> Result<Line, NoMemory>
    ensures { IfOk result (λ line. line ≡ of_bound number numbers.now) }
{
    numbered(alloc, true, Group::Bound, number, numbers)
}

/// The line of a tree that doesn't prove its bound.
pub fn bound_line(alloc: Global, no: BoundNo) -> Result<Line, NoMemory>
    ensures { IfOk result (λ line. line ≡ bound_line no) }
{
    match no {
        BoundNo::Multiplier { node } => of_bound(alloc, 1, &[i128::from(node)]),
        BoundNo::StepRow { node } => of_bound(alloc, 2, &[i128::from(node)]),
        BoundNo::BranchFixed { node } => of_bound(alloc, 3, &[i128::from(node)]),
        BoundNo::LeafShort {
            node,
            value,
            needed,
        } => of_bound(alloc, 4, &[i128::from(node), value, needed]),
        BoundNo::TreeEnds => of_bound(alloc, 5, &[]),
        BoundNo::TreeTooLong => of_bound(alloc, 6, &[]),
        BoundNo::NoMemory => of_bound(alloc, 7, &[]),
    }
}

/// The line of a text that is no bay plan.
pub fn file_line(alloc: Global, fault: BaplieFault) -> Result<Line, NoMemory>
    ensures { IfOk result (λ line. line ≡ file_line fault) }
{
    match fault {
        BaplieFault::Seg(fault) => interchange_line(alloc, fault),
        BaplieFault::At { segment, cause } => message_line(alloc, segment, cause),
        BaplieFault::NoMemory => interchange_line(alloc, SegFault::NoMemory),
    }
}
