//! `stow make`: a made ship with its bookings, and the plans of their voyage.
ghost use Rattle.std.specs.Prelude.{◌≡◌, ◌≤◌, ◌∷◌, [], IfOk, None};
ghost use Rattle.stow_io.specs.Writing.{with_files};
ghost use Rattle.stow_cli.specs.Answers.{IsMade, IsPlanTo};
ghost use Rattle.stow_cli.specs.Made.{behind, bookings_name, made_files, no_files, profile_name};
ghost use Rattle.voyage_files.specs.Names.{names_from};

use crate::planning::plan;
use std::alloc::Global;
use std::sync::Wait;
use std::thread::Threads;
use stow_data::{NoMemory, Word};
use stow_gen::{make_bookings, make_profile};
use stow_io::{FileList, Folder, Gate, NamedFile, SureFolder, Work};
use voyage_files::{Answer, Inputs};

/// How many nodes a search for the plans of a made ship may have.
const BUDGET: u64 = 50;

/// How many workers search for them.
const WORKERS: u32 = 1;

/// The two files of a made ship, under their names.
#[derive(Drop)]
pub struct Made {
    pub profile: NamedFile,
    pub bookings: NamedFile,
}

/// What `plan` answers with one worker and a budget of 50 nodes over the made profile and the made bookings of a number
/// below 2^31. The two are written before the plan's own files. No file is read.
pub fn make<G: Gate + Sync, R: Threads + Wait + Sync>(
    rt: &R,
    alloc: Global,
    number: u32,
    base: &str,
    gate: &G,
) -> Result<Answer, NoMemory>
    requires { number ≤ 2147483647 }
    ensures { IfOk result (IsMade number base.now) }
{
    let made = made_of(alloc, number, base)?;
    let planned = plan_made(rt, alloc, base, &made, gate)?;
    behind(alloc, made, planned)
}

/// The profile and the bookings of the made ship of a number.
fn made_of(alloc: Global, number: u32, base: &str) -> Result<Made, NoMemory>
    requires { number ≤ 2147483647 }
    ensures { IfOk result (λ made. made.profile ∷ made.bookings ∷ [] ≡ made_files number base.now) }
{
    Ok(Made {
        profile: NamedFile {
            name: profile_name(alloc, base)?,
            bytes: make_profile(alloc, number)?,
        },
        bookings: NamedFile {
            name: bookings_name(alloc, base)?,
            bytes: make_bookings(alloc, number)?,
        },
    })
}

fn profile_name(alloc: Global, base: &str) -> Result<Word, NoMemory>
    ensures { IfOk result (λ name. name ≡ profile_name base.now) }
{
    let name = format!(in alloc; "{base}.profile.toml")?;
    Ok(Word::of(alloc, name.as_str())?)
}

fn bookings_name(alloc: Global, base: &str) -> Result<Word, NoMemory>
    ensures { IfOk result (λ name. name ≡ bookings_name base.now) }
{
    let name = format!(in alloc; "{base}.bookings.toml")?;
    Ok(Word::of(alloc, name.as_str())?)
}

/// A folder that holds the two files alone.
#[tactic(auto, unfolding(stow_io::specs::Writing::with_files))]
fn folder_of(alloc: Global, made: &Made) -> Result<SureFolder, NoMemory>
    ensures { IfOk result (λ folder. ⟦<SureFolder as Folder>⟧.files folder ≡ with_files (made.now.profile ∷ made.now.bookings ∷ []) no_files) }
{
    let mut folder = SureFolder::new(alloc);
    folder.lay(made.profile.name.as_str(), made.profile.bytes.as_slice())?;
    folder.lay(made.bookings.name.as_str(), made.bookings.bytes.as_slice())?;
    Ok(folder)
}

/// What `plan` answers over the two files.
fn plan_made<'a, G: Gate + Sync, R: Threads + Wait + Sync>(
    rt: &R,
    alloc: Global,
    base: &'a str,
    made: &'a Made,
    gate: &G,
) -> Result<Answer, NoMemory>
    ensures { IfOk result (IsPlanTo (names_from made.now.profile.name made.now.bookings.name base.now None) 50 (with_files (made.now.profile ∷ made.now.bookings ∷ []) no_files)) }
{
    let inputs = Inputs {
        profile: made.profile.name.as_str(),
        bookings: made.bookings.name.as_str(),
        base,
        arrival: None,
    };
    let mut folder = folder_of(alloc, made)?;
    match plan(rt, alloc, inputs, WORKERS, BUDGET, &mut folder, gate) {
        Ok(answer) => Ok(answer),
        // Reads of such a folder never fail, so it is memory that is wanting.
        Err(_) => Err(NoMemory),
    }
}

/// The same answer, with the two files before its own.
fn behind(alloc: Global, made: Made, planned: Answer) -> Result<Answer, NoMemory>
    ensures { IfOk result (λ answer. answer ≡ behind (made.profile ∷ made.bookings ∷ []) planned) }
{
    match planned {
        Answer::Work(work) => Ok(Answer::Work(Work {
            files: files_behind(alloc, made, work.files)?,
            report: work.report,
            finding: work.finding,
        })),
        other => Ok(other),
    }
}

/// The two files, and these behind them.
fn files_behind(alloc: Global, made: Made, own: FileList) -> Result<FileList, NoMemory>
    ensures { IfOk result (λ files. files ≡ made.profile ∷ made.bookings ∷ own) }
{
    let mut files = FileList::new(alloc);
    files.push(made.profile)?;
    files.push(made.bookings)?;
    for file in own.into_items() {
        files.push(file)?;
    }
    Ok(files)
}
