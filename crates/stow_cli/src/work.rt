//! What is written and printed for a voyage.
ghost use Rattle.std.specs.Prelude.{◌≡◌, ◌<◌, ◌++◌, ◌∷◌, [], IfOk, length};
ghost use Rattle.stowage_rules.specs.Plan.{IsWellFormed};
ghost use Rattle.arrival_plan.specs.Settled.{groups_of};
ghost use Rattle.voyage_files.specs.Booked.{IsBooked};
ghost use Rattle.stow_cli.specs.Work.{ArePlans, ArePlansOrNone, file_name, file_of, files_of, departure_files, cert_name, cert_file, finding_of, work_of, AreTextsOf};

use crate::refusing::limit_text;
use baplie::CellGroup;
use certificate::{Outcome, write_cert};
use plan_files::departure_text;
use plan_search::Planned;
use std::alloc::Global;
use stow_data::{Limit, NoMemory, Plan, PlanList, Word};
use stow_io::{FileList, Finding, NamedFile, Work};
use stow_report::report;
use voyage_files::{Answer, BookedVoyage};

/// The greatest number of bytes of a certificate.
const MOST_BYTES: u64 = 536_870_912;

/// The name of the departure file of a call, of which there are fewer than a hundred.
pub fn file_name(alloc: Global, base: &str, call: u32) -> Result<Word, NoMemory>
    ensures { IfOk result (λ name. name ≡ file_name base.now call) }
{
    let tens = call / 10;
    let ones = call % 10;
    let name = format!(in alloc; "{base}-{tens}{ones}.edi")?;
    Ok(Word::of(alloc, name.as_str())?)
}

/// The cell groups of the bay plan with which the ship comes in.
fn arrived_groups(v: &BookedVoyage) -> &[CellGroup]
    ensures { result.now ≡ groups_of v.now.message }
{
    match &v.message {
        Some(message) => message.groups.as_slice(),
        None => &[],
    }
}

/// The departure file of a call, under its name.
fn file_of(
    alloc: Global,
    base: &str,
    v: &BookedVoyage,
    plan: &Plan,
    call: u32,
) -> Result<NamedFile, NoMemory>
    requires booked { IsBooked v.now }
    requires departs { call < length v.now.cargo.rotation }
    requires formed { IsWellFormed v.now.ship v.now.cargo plan.now }
    ensures { IfOk result (λ file. file ≡ file_of base.now v.now call plan.now) }
{
    Ok(NamedFile {
        name: file_name(alloc, base, call)?,
        bytes: departure_text(
            alloc,
            &v.ship,
            &v.cargo,
            &v.bookings,
            arrived_groups(v),
            plan,
            call,
        )?,
    })
}

/// The departure files of the plans, of which the first is that of call 1.
fn files_of(
    alloc: Global,
    base: &str,
    v: &BookedVoyage,
    plans: &[Plan],
) -> Result<FileList, NoMemory>
    requires booked { IsBooked v.now }
    requires plans { ArePlans v.now plans.now }
    ensures { IfOk result (λ files. files ≡ files_of base.now v.now 1 plans.now) }
{
    v.cargo.obeys_rules();
    let mut files = FileList::new(alloc);
    let mut call: u32 = 1;
    for plan in plans {
        files.push(file_of(alloc, base, v, plan, call)?)?;
        call += 1;
    }
    Ok(files)
}

/// The departure files of the plans, if there are some.
fn departure_files(
    alloc: Global,
    base: &str,
    v: &BookedVoyage,
    plans: &Option<PlanList>,
) -> Result<FileList, NoMemory>
    requires booked { IsBooked v.now }
    requires plans { ArePlansOrNone v.now plans.now }
    ensures { IfOk result (λ files. files ≡ departure_files base.now v.now plans.now) }
{
    match plans {
        Some(plans) => files_of(alloc, base, v, plans.as_slice()),
        None => Ok(FileList::new(alloc)),
    }
}

/// The name of the certificate.
pub fn cert_name(alloc: Global, base: &str) -> Result<Word, NoMemory>
    ensures { IfOk result (λ name. name ≡ cert_name base.now) }
{
    let name = format!(in alloc; "{base}.cert")?;
    Ok(Word::of(alloc, name.as_str())?)
}

/// The certificate, under its name.
fn cert_file(alloc: Global, base: &str, planned: &Planned) -> Result<NamedFile, NoMemory>
    ensures { IfOk result (λ file. file ≡ cert_file base.now planned.now.head planned.now.tree) }
{
    Ok(NamedFile {
        name: cert_name(alloc, base)?,
        bytes: write_cert(alloc, &planned.head, &planned.tree)?,
    })
}

/// What a plan's outcome is for the status.
fn finding_of(outcome: Outcome) -> Finding
    ensures { result ≡ finding_of outcome }
{
    match outcome {
        Outcome::Optimal => Finding::Fine,
        Outcome::Gap => Finding::Gap,
        Outcome::NoPlan => Finding::NoPlan,
        Outcome::Undecided => Finding::Undecided,
    }
}

/// The departure files with the certificate behind them, and the report.
fn work_of(
    alloc: Global,
    base: &str,
    v: &BookedVoyage,
    planned: &Planned,
    cert: NamedFile,
) -> Result<Work, NoMemory>
    requires booked { IsBooked v.now }
    requires plans { ArePlansOrNone v.now planned.now.plans }
    requires cert { cert ≡ cert_file base.now planned.now.head planned.now.tree }
    ensures { IfOk result (λ work. work ≡ work_of base.now v.now planned.now) }
{
    let mut files = departure_files(alloc, base, v, &planned.plans)?;
    files.push(cert)?;
    Ok(Work {
        files,
        report: report(alloc, &planned.head)?,
        finding: finding_of(planned.head.outcome),
    })
}

/// The texts of a certificate and of its plans, or the line of the certificate's limit where its text is longer.
pub fn texts_of(
    alloc: Global,
    base: &str,
    v: &BookedVoyage,
    planned: &Planned,
) -> Result<Answer, NoMemory>
    requires booked { IsBooked v.now }
    requires plans { ArePlansOrNone v.now planned.now.plans }
    ensures { IfOk result (AreTextsOf base.now v.now planned.now) }
{
    let cert = cert_file(alloc, base, planned)?;
    let length = cert.bytes.len() as u64;
    if length > MOST_BYTES {
        let line = limit_text(alloc, Limit::Certificate, length)?;
        return Ok(Answer::Large(line));
    }
    Ok(Answer::Work(work_of(alloc, base, v, planned, cert)?))
}
