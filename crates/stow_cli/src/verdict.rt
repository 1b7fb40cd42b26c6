//! What the texts of a certificate and of departure files are answered.
ghost use Rattle.std.specs.Prelude.{◌≡◌, ◌<◌, ◌≤◌, ◌^◌, [], All, IfOk, length};
ghost use Rattle.model_bridge.specs.Laws.{IsProblem};
ghost use Rattle.stow_report.specs.Numbers.{yes_text};
ghost use Rattle.stow_cli.specs.Checks.{IsCertText, JudgedAs, files_beside};
ghost use Rattle.stow_cli.specs.Voyages.{voyage_of};

use crate::refusing::cert_text as refused_cert;
use certificate::{CertFault, Head, Tree, read_cert};
use std::alloc::Global;
use stow_data::{Bytes, NoMemory};
use stow_io::{FileList, Finding, Work};
use stow_report::{confirmed, refusal};
use voyage_files::{Answer, BookedVoyage, JudgeNo, judge, line_of};
use zero_one_model::Model;

/// What the text of a certificate is.
#[derive(Drop)]
pub enum CertText {
    /// A certificate.
    Certificate(Head, Tree),
    /// None: the line that says why.
    Refused(Bytes),
}

/// The certificate of a text, or the line that says why it is none.
pub fn cert_text(alloc: Global, bytes: &[u8]) -> Result<CertText, NoMemory>
    requires { length bytes.now ≤ 2 ^ 29 }
    ensures { IfOk result (IsCertText bytes.now) }
{
    match read_cert(alloc, bytes) {
        Ok((head, tree)) => Ok(CertText::Certificate(head, tree)),
        Err(CertFault::NoMemory) => Err(NoMemory),
        Err(fault) => Ok(CertText::Refused(refused_cert(alloc, fault)?)),
    }
}

/// The report of a certificate of which all holds.
fn confirmation(alloc: Global, head: &Head) -> Result<Work, NoMemory>
    ensures files { IfOk result (λ work. work.files ≡ []) }
    ensures report { IfOk result (λ work. work.report ≡ yes_text head.now) }
    ensures finding { IfOk result (λ work. work.finding ≡ Finding.Fine) }
{
    Ok(Work {
        files: FileList::new(alloc),
        report: confirmed(alloc, head)?,
        finding: Finding::Fine,
    })
}

/// What a certificate of a voyage and the texts of the departure files are answered.
pub fn judged(
    alloc: Global,
    v: &BookedVoyage,
    model: &Model,
    head: &Head,
    tree: &Tree,
    texts: &[Bytes],
) -> Result<Answer, NoMemory>
    requires problem { IsProblem model.now }
    requires voyage { model.now ≡ voyage_of v.now }
    requires each { length texts.now ≡ files_beside v.now head.now }
    requires short { All (λ text. length text ≤ 2 ^ 29) texts.now }
    requires few { length tree.now < 2 ^ 32 }
    ensures { IfOk result (JudgedAs (voyage_of v.now) head.now tree.now texts.now) }
{
    v.cargo.obeys_rules();
    match judge(alloc, &v.ship, &v.cargo, model, head, tree, texts) {
        Ok(()) => Ok(Answer::Work(confirmation(alloc, head)?)),
        Err(JudgeNo::NoMemory) => Err(NoMemory),
        Err(no) => Ok(Answer::No(refusal(alloc, &line_of(alloc, no)?)?)),
    }
}
