//! `stow check`: the certificate and the departure files of a voyage.
ghost use Rattle.std.specs.Prelude.{◌≡◌, ◌<◌, ◌≤◌, ◌^◌, IfOk, IfErr, length};
ghost use Rattle.stow_io.specs.Causes.{Rose};
ghost use Rattle.zero_one_model.specs.Building.{IsWithin};
ghost use Rattle.model_bridge.specs.Laws.{IsProblem};
ghost use Rattle.stow_cli.specs.Answers.{Judges, CheckOf, IsCheckRead};
ghost use Rattle.stow_cli.specs.Checks.{IsFileName, IsWrittenRead, ReadsCert, ReadsFiles, files_beside};
ghost use Rattle.voyage_files.specs.Booked.{IsBooked};
ghost use Rattle.voyage_files.specs.Named.{names_of, IsStop, IsQuiet};
ghost use Rattle.stow_cli.specs.Voyages.{voyage_of};

use crate::departures::{read_departures, read_own};
use crate::refusing::limit_text;
use crate::verdict::{CertText, cert_text, judged};
use crate::work::cert_name;
use bound_checker::records_are_few;
use certificate::{Head, Tree};
use std::alloc::Global;
use stow_data::NoMemory;
use stow_io::Folder;
use voyage_files::{Answer, BookedVoyage, Found, Inputs, ReadStop, read_inputs};
use zero_one_model::{Model, ModelNo};

/// What the certificate and the departure files beside it are answered.
pub fn check<'a, F: Folder>(
    alloc: Global,
    inputs: Inputs<'a>,
    folder: &mut F,
) -> Result<Answer, ReadStop<'a>>
    ensures stays { F.files folder.new ≡ F.files folder.old }
    ensures gives { IfOk result (Judges (names_of inputs.entry) (F.files folder.old) (CheckOf (names_of inputs.entry).base (F.files folder.old))) }
    ensures later { F.faults folder.old ≤ F.faults folder.new }
    ensures quiet { IsQuiet result (F.faults folder.old) (F.faults folder.new) }
    ensures failed { IfErr result (IsStop (Rose (F.faults folder.old) (F.faults folder.new)) (IsCheckRead (names_of inputs.entry) (F.files folder.old))) }
{
    let voyage = match read_inputs(alloc, inputs, folder)? {
        Found::Voyage(voyage) => voyage,
        Found::Refused(answer) => return Ok(answer),
    };
    let answer = check_voyage(alloc, inputs.base, &voyage, folder);
    drop(voyage);
    answer
}

/// What a voyage is answered: the limits of the model come first.
fn check_voyage<'a, F: Folder>(
    alloc: Global,
    base: &'a str,
    v: &BookedVoyage,
    folder: &mut F,
) -> Result<Answer, ReadStop<'a>>
    requires { IsBooked v.now }
    ensures stays { F.files folder.new ≡ F.files folder.old }
    ensures gives { IfOk result (CheckOf base.now (F.files folder.old) v.now) }
    ensures later { F.faults folder.old ≤ F.faults folder.new }
    ensures quiet { IsQuiet result (F.faults folder.old) (F.faults folder.new) }
    ensures failed { IfErr result (IsStop (Rose (F.faults folder.old) (F.faults folder.new)) (λ name. IsWithin (voyage_of v.now) × IsWrittenRead base.now (F.files folder.old) v.now name)) }
{
    match Model::build(alloc, &v.ship, &v.cargo) {
        Ok(model) => {
            let answer = check_cert(alloc, base, v, &model, folder);
            drop(model);
            answer
        }
        Err(ModelNo::TooLarge { limit, value }) => match limit_text(alloc, limit, value) {
            Ok(line) => Ok(Answer::Large(line)),
            Err(NoMemory) => Err(ReadStop::NoMemory),
        },
        Err(ModelNo::NoMemory) => Err(ReadStop::NoMemory),
    }
}

/// Reads the certificate, and answers it and the departure files.
fn check_cert<'a, F: Folder>(
    alloc: Global,
    base: &str,
    v: &BookedVoyage,
    model: &Model,
    folder: &mut F,
) -> Result<Answer, ReadStop<'a>>
    requires problem { IsProblem model.now }
    requires voyage { model.now ≡ voyage_of v.now }
    ensures stays { F.files folder.new ≡ F.files folder.old }
    ensures gives { IfOk result (ReadsCert base.now (F.files folder.old) v.now) }
    ensures later { F.faults folder.old ≤ F.faults folder.new }
    ensures quiet { IsQuiet result (F.faults folder.old) (F.faults folder.new) }
    ensures failed { IfErr result (IsStop (Rose (F.faults folder.old) (F.faults folder.new)) (IsWrittenRead base.now (F.files folder.old) v.now)) }
{
    let Ok(name) = cert_name(alloc, base) else {
        return Err(ReadStop::NoMemory);
    };
    let bytes = read_own(folder, name)?;
    records_are_few();
    let text = cert_text(alloc, bytes.as_slice());
    // The records are at hand, and the text isn't needed beside them.
    drop(bytes);
    match text {
        Ok(CertText::Certificate(head, tree)) => {
            check_files(alloc, base, v, model, &head, &tree, folder)
        }
        Ok(CertText::Refused(line)) => Ok(Answer::No(line)),
        Err(NoMemory) => Err(ReadStop::NoMemory),
    }
}

/// Reads the departure files that the certificate speaks of, and answers what it says of them and of the voyage.
fn check_files<'a, F: Folder>(
    alloc: Global,
    base: &str,
    v: &BookedVoyage,
    model: &Model,
    head: &Head,
    tree: &Tree,
    folder: &mut F,
) -> Result<Answer, ReadStop<'a>>
    requires problem { IsProblem model.now }
    requires voyage { model.now ≡ voyage_of v.now }
    requires few { length tree.now < 2 ^ 32 }
    ensures stays { F.files folder.new ≡ F.files folder.old }
    ensures gives { IfOk result (ReadsFiles base.now (F.files folder.old) v.now head.now tree.now) }
    ensures later { F.faults folder.old ≤ F.faults folder.new }
    ensures quiet { IsQuiet result (F.faults folder.old) (F.faults folder.new) }
    ensures failed { IfErr result (IsStop (Rose (F.faults folder.old) (F.faults folder.new)) (IsFileName base.now (files_beside v.now head.now))) }
{
    let texts = read_departures(alloc, base, files_beside(v, head), folder)?;
    match judged(alloc, v, model, head, tree, texts.as_slice()) {
        Ok(answer) => Ok(answer),
        Err(NoMemory) => Err(ReadStop::NoMemory),
    }
}

/// How many departure files a certificate speaks of: one for each call but the last where it says a cost.
fn files_beside(v: &BookedVoyage, head: &Head) -> u32
    ensures { result ≡ files_beside v.now head.now }
{
    match head.rehandles {
        Some(_) => v.cargo.calls() - 1,
        None => 0,
    }
}
