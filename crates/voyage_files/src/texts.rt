//! The departure files as bay plan messages, and their cost.
ghost use Rattle.std.specs.Prelude.{◌≡◌, ◌≤◌, ◌<◌, ◌^◌, ◌+◌, All, IsSome, MatchResult, length, map};
ghost use Rattle.stowage_rules.specs.Departure.{HasArrival};
ghost use Rattle.baplie.specs.Messages.{IsMessageOf};
ghost use Rattle.plan_files.specs.Shown.{shown_by};
ghost use Rattle.plan_files.specs.Checked.{IsSetOf};
ghost use Rattle.voyage_files.specs.Files.{AreLegal, AreMessages, AreSetOf, FilesTake, IsFilesNo, IsSetNo, IsTakenNo, IsTextNo, IsTextsNo};

use crate::refusals::JudgeNo;
use baplie::{BaplieFault, Message, MessageList, read_baplie};
use plan_files::{FileSet, PlanNo, file_set_of};
use std::alloc::Global;
use stow_data::{Bytes, CallNo, Cargo, Seq, Ship};

/// The texts of the departure files, of which the first is that of call 1.
pub type TextList = Seq<Bytes>;

/// The bay plan message of the departure file of a call.
fn message_of(alloc: Global, text: &[u8], call: CallNo) -> Result<Message, JudgeNo>
    requires { length text.now ≤ 2 ^ 29 }
    ensures { MatchResult result (λ m. IsMessageOf text.now m) (λ no. IsTextNo call text.now no) }
{
    match read_baplie(alloc, text) {
        Ok(message) => Ok(message),
        Err(BaplieFault::NoMemory) => Err(JudgeNo::NoMemory),
        Err(fault) => Err(JudgeNo::Text { call, fault }),
    }
}

/// The bay plan messages of the departure files, or the first file that is none.
fn messages_of(alloc: Global, texts: &[Bytes]) -> Result<MessageList, JudgeNo>
    requires calls { length texts.now < 12 }
    requires short { All (λ text. length text ≤ 2 ^ 29) texts.now }
    ensures { MatchResult result (λ ms. AreMessages texts.now ms) (λ no. IsTextsNo 1 texts.now no) }
{
    let mut messages = MessageList::new(alloc);
    for (index, text) in texts.iter().enumerate() {
        let call = CallNo(index as u32 + 1);
        messages.push(message_of(alloc, text.as_slice(), call)?)?;
    }
    Ok(messages)
}

/// The legal file set that messages are, or why they are none.
fn set_of(
    alloc: Global,
    ship: &Ship,
    cargo: &Cargo,
    messages: &MessageList,
) -> Result<FileSet, JudgeNo>
    requires arrival { HasArrival ship.now cargo.now }
    requires each_call { length messages.now + 1 ≡ length cargo.now.rotation }
    requires few { All (λ m. length m.groups ≤ 2 ^ 29) messages.now }
    ensures { MatchResult result (λ set. IsSetOf ship.now cargo.now (map shown_by messages.now) set) (λ no. IsSetNo ship.now cargo.now messages.now no) }
{
    match file_set_of(alloc, ship, cargo, messages) {
        Ok(set) => Ok(set),
        Err(PlanNo::NoMemory) => Err(JudgeNo::NoMemory),
        Err(no) => Err(JudgeNo::Plan(no)),
    }
}

/// The legal file set that the texts of departure files are, of which the first is that of call 1. Else the first text
/// that is no bay plan message, or why the messages are no legal file set.
pub fn departures_in(
    alloc: Global,
    ship: &Ship,
    cargo: &Cargo,
    texts: &[Bytes],
) -> Result<FileSet, JudgeNo>
    requires arrival { HasArrival ship.now cargo.now }
    requires each_call { length texts.now + 1 ≡ length cargo.now.rotation }
    requires short { All (λ text. length text ≤ 2 ^ 29) texts.now }
    ensures { MatchResult result (λ set. AreSetOf ship.now cargo.now texts.now set) (λ no. IsTakenNo ship.now cargo.now texts.now no) }
{
    cargo.obeys_rules();
    let messages = messages_of(alloc, texts)?;
    set_of(alloc, ship, cargo, &messages)
}

/// The cost of the departure files, or why they are no legal file set.
fn cost_taken(alloc: Global, ship: &Ship, cargo: &Cargo, texts: &[Bytes]) -> Result<u64, JudgeNo>
    requires arrival { HasArrival ship.now cargo.now }
    requires each_call { length texts.now + 1 ≡ length cargo.now.rotation }
    requires short { All (λ text. length text ≤ 2 ^ 29) texts.now }
    ensures { MatchResult result (λ cost. AreLegal ship.now cargo.now texts.now cost) (λ no. IsTakenNo ship.now cargo.now texts.now no) }
{
    match departures_in(alloc, ship, cargo, texts) {
        Ok(set) => Ok(set.lifted.cost),
        Err(no) => Err(no),
    }
}

/// The same where a certificate says a cost; else the files aren't looked at.
pub fn cost_found(
    alloc: Global,
    ship: &Ship,
    cargo: &Cargo,
    said: Option<u64>,
    texts: &[Bytes],
) -> Result<Option<u64>, JudgeNo>
    requires arrival { HasArrival ship.now cargo.now }
    requires each_call { IsSome said → length texts.now + 1 ≡ length cargo.now.rotation }
    requires short { All (λ text. length text ≤ 2 ^ 29) texts.now }
    ensures { MatchResult result (λ found. FilesTake ship.now cargo.now texts.now said found) (λ no. IsFilesNo ship.now cargo.now texts.now said no) }
{
    match said {
        None => Ok(None),
        Some(_) => Ok(Some(cost_taken(alloc, ship, cargo, texts)?)),
    }
}
