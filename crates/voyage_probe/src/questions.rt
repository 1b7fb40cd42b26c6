//! The questions of lines, and their answers.
ghost use Rattle.voyage_files.specs.Booked.{IsBooked};

use crate::berths::say_moves;
use crate::files::{say_cargo, say_check, say_file, say_own, say_shown, settle_often};
use crate::lifting::{say_lifts, say_voyage};
use crate::plans::{departures_of, plan_of, say_fault, say_faults, say_load};
use crate::said::say;
use crate::stop::Stop;
use std::alloc::Global;
use stow_data::{Bytes, CallNo, PlanList, Word, WordList};
use stow_io::{Folder, SureFolder};
use voyage_files::{Answer, BookedVoyage, Found, Inputs, ReadStop, read_inputs};

/// The voyage that is asked about.
#[derive(Drop)]
pub struct Asked {
    /// The names of the profile, of the bookings and of the bay plan with which the ship comes in.
    pub profile: Word,
    pub bookings: Word,
    pub arrival: Option<Word>,
    /// The plans of departures, a text for each call; none where the loader's are meant.
    pub departures: WordList,
    /// How often a call is repeated.
    pub times: u32,
}

/// What is asked of departures.
#[derive(Clone, Copy)]
enum OfDepartures {
    Rules,
    Lifts,
    Moves,
    Files,
}

/// The question of departures that a word is.
fn of_departures(word: &str) -> Option<OfDepartures> {
    if word == "rules" {
        return Some(OfDepartures::Rules);
    }
    if word == "lifts" {
        return Some(OfDepartures::Lifts);
    }
    if word == "moves" {
        return Some(OfDepartures::Moves);
    }
    if word == "files" {
        return Some(OfDepartures::Files);
    }
    None
}

/// Answers a question of departures.
fn answer_of(
    alloc: Global,
    v: &BookedVoyage,
    asked: &Asked,
    question: OfDepartures,
    out: &mut Bytes,
) -> Result<(), Stop>
    requires { IsBooked v.now }
{
    match departures_of(alloc, v, asked.departures.as_slice())? {
        Some(plans) => {
            let said = say_departures(alloc, v, &plans, asked.times, question, out);
            drop(plans);
            said
        }
        None => Ok(say(out, "no plan\n")?),
    }
}

/// Answers a question of these departures.
fn say_departures(
    alloc: Global,
    v: &BookedVoyage,
    plans: &PlanList,
    times: u32,
    question: OfDepartures,
    out: &mut Bytes,
) -> Result<(), Stop>
    requires { IsBooked v.now }
{
    match question {
        OfDepartures::Rules => Ok(say_faults(alloc, v, plans, times, out)?),
        OfDepartures::Lifts => Ok(say_lifts(alloc, v, plans, times, out)?),
        OfDepartures::Moves => Ok(say_voyage(alloc, v, plans, out)?),
        OfDepartures::Files => say_own(alloc, v, plans, out),
    }
}

/// The words of a text.
fn words_of(alloc: Global, text: &str) -> Result<WordList, Stop> {
    let mut words = WordList::new(alloc);
    for word in text.split_whitespace() {
        words.push(Word::of(alloc, word)?)?;
    }
    Ok(words)
}

/// The call of the first word of a text, and what follows.
fn call_of(text: &str) -> Option<(CallNo, &str)> {
    match text.split_once(' ') {
        Some((word, rest)) => Some((CallNo(word.parse::<u32>().ok()?), rest)),
        None => Some((CallNo(text.parse::<u32>().ok()?), "")),
    }
}

/// Answers which plan the file of this name shows at a call.
fn answer_shows(
    alloc: Global,
    v: &BookedVoyage,
    call: CallNo,
    files: &mut SureFolder,
    name: &str,
    out: &mut Bytes,
) -> Result<(), Stop> {
    let text = files.read(name)?;
    let said = say_shown(alloc, v, call, text.as_slice(), out);
    drop(text);
    said
}

/// Answers which rule the plan of a text breaks at a call.
fn answer_plan(
    alloc: Global,
    v: &BookedVoyage,
    call: CallNo,
    filled: &str,
    times: u32,
    out: &mut Bytes,
) -> Result<(), Stop> {
    let plan = plan_of(alloc, &v.ship, filled)?;
    let said = say_fault(alloc, v, call, &plan, times, out);
    drop(plan);
    Ok(said?)
}

/// Answers what the moves behind a stroke do at a call that begins with the plan before it.
fn answer_berth(
    alloc: Global,
    v: &BookedVoyage,
    call: CallNo,
    text: &str,
    out: &mut Bytes,
) -> Result<(), Stop> {
    let Some((filled, moves)) = text.split_once('/') else {
        return Err(Stop::Unclear);
    };
    let plan = plan_of(alloc, &v.ship, filled)?;
    say_moves(alloc, &v.ship, &v.cargo, call, plan, moves, out)
}

/// Answers what the departure file of a call is.
fn answer_file(
    alloc: Global,
    v: &BookedVoyage,
    asked: &Asked,
    call: CallNo,
    out: &mut Bytes,
) -> Result<(), Stop>
    requires { IsBooked v.now }
{
    match departures_of(alloc, v, asked.departures.as_slice())? {
        Some(plans) => {
            let said = say_file(alloc, v, &plans, call, out);
            drop(plans);
            said
        }
        None => Err(Stop::Unclear),
    }
}

/// Answers what is asked of one call: `file 1`, `shows 1 NAME`, `plan 1 4:0 5:2`, `berth 1 4:0 / off:0 lift:4`.
fn answer_call(
    alloc: Global,
    v: &BookedVoyage,
    asked: &Asked,
    files: &mut SureFolder,
    word: &str,
    rest: &str,
    out: &mut Bytes,
) -> Result<(), Stop>
    requires { IsBooked v.now }
{
    let Some((call, rest)) = call_of(rest) else {
        return Err(Stop::Unclear);
    };
    if call.0 == 0 || call.0 >= v.cargo.calls() {
        return Err(Stop::Unclear);
    }
    if word == "shows" {
        return answer_shows(alloc, v, call, files, rest, out);
    }
    if word == "plan" {
        return answer_plan(alloc, v, call, rest, asked.times, out);
    }
    if word == "berth" {
        return answer_berth(alloc, v, call, rest, out);
    }
    if word == "file" {
        return answer_file(alloc, v, asked, call, out);
    }
    Err(Stop::Unclear)
}

/// Answers what the cargo is, after it is settled again so many times where the ship comes in with a bay plan.
fn answer_cargo(
    alloc: Global,
    v: &BookedVoyage,
    asked: &Asked,
    files: &mut SureFolder,
    out: &mut Bytes,
) -> Result<(), Stop>
    requires { IsBooked v.now }
{
    if let Some(name) = &asked.arrival {
        let text = files.read(name.as_str())?;
        let settled = settle_often(alloc, v, text.as_slice(), asked.times, out);
        drop(text);
        settled?;
    }
    Ok(say_cargo(out, &v.cargo)?)
}

/// Answers whether the departure files of these names are those of the voyage.
fn answer_check(
    alloc: Global,
    v: &BookedVoyage,
    files: &mut SureFolder,
    names: &str,
    out: &mut Bytes,
) -> Result<(), Stop>
    requires { IsBooked v.now }
{
    let names = words_of(alloc, names)?;
    let said = say_check(alloc, v, files, names.as_slice(), out);
    drop(names);
    said
}

/// Answers what is asked of a voyage.
fn answer_voyage(
    alloc: Global,
    v: &BookedVoyage,
    asked: &Asked,
    files: &mut SureFolder,
    word: &str,
    rest: &str,
    out: &mut Bytes,
) -> Result<(), Stop>
    requires { IsBooked v.now }
{
    if let Some(question) = of_departures(word) {
        return answer_of(alloc, v, asked, question, out);
    }
    if word == "cargo" {
        return answer_cargo(alloc, v, asked, files, out);
    }
    if word == "check" {
        return answer_check(alloc, v, files, rest, out);
    }
    if word == "load" {
        return Ok(say_load(alloc, v, asked.times, out)?);
    }
    answer_call(alloc, v, asked, files, word, rest, out)
}

/// The line of a refusal of the inputs.
fn say_answer(answer: &Answer, out: &mut Bytes) -> Result<(), Stop> {
    match answer {
        Answer::No(line) | Answer::Input(line) | Answer::Large(line) => {
            Ok(out.extend(line.as_slice())?)
        }
        Answer::Work(_) | Answer::Call => Err(Stop::Unclear),
    }
}

/// The names of the inputs of a voyage.
fn inputs_of(asked: &Asked) -> Inputs<'_> {
    Inputs {
        profile: asked.profile.as_str(),
        bookings: asked.bookings.as_str(),
        base: "",
        arrival: match &asked.arrival {
            Some(name) => Some(name.as_str()),
            None => None,
        },
    }
}

/// Answers a line's question of the voyage, whose inputs are read, or tells the refusal of these.
pub fn answer(
    alloc: Global,
    asked: &Asked,
    files: &mut SureFolder,
    word: &str,
    rest: &str,
    out: &mut Bytes,
) -> Result<(), Stop> {
    match read_inputs(alloc, inputs_of(asked), files) {
        Ok(Found::Voyage(v)) => {
            let answered = answer_voyage(alloc, &v, asked, files, word, rest, out);
            drop(v);
            answered
        }
        Ok(Found::Refused(line)) => {
            let said = say_answer(&line, out);
            drop(line);
            said
        }
        Err(ReadStop::NoMemory) => Err(Stop::NoMemory),
        Err(_) => Err(Stop::Failed),
    }
}
