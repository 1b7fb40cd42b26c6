//! Events, as lines name them.
use crate::stop::Stop;
use certificate::{Record, Tree};
use event_search::Event;
use std::alloc::Global;
use stow_data::{Word, WordList};

/// The words of a text.
pub fn words_of(alloc: Global, text: &str) -> Result<WordList, Stop> {
    let mut words = WordList::new(alloc);
    for word in text.split_whitespace() {
        words.push(Word::of(alloc, word)?)?;
    }
    Ok(words)
}

/// The number that a word is.
pub fn number_of(word: &Word) -> Result<u32, Stop> {
    match word.as_str().parse::<u32>() {
        Ok(number) => Ok(number),
        Err(_) => Err(Stop::Unclear),
    }
}

/// A copy of a record by its number.
fn record_at(alloc: Global, records: &Tree, number: u32) -> Result<Record, Stop> {
    let number = number as usize;
    if number >= records.len() {
        return Err(Stop::Unclear);
    }
    Ok(records.at(number).copy(alloc)?)
}

/// The event of a worker alone.
fn event_alone(word: &str, worker: u32) -> Option<Event> {
    match word {
        "push" => Some(Event::Push { worker }),
        "pop" => Some(Event::Pop { worker }),
        "load" => Some(Event::Load { worker }),
        "draw" => Some(Event::Draw { worker }),
        _ => None,
    }
}

/// The event of a worker with a record.
fn event_with(word: &str, worker: u32, entry: Record) -> Option<Event> {
    match word {
        "offer" => Some(Event::Offer { worker, entry }),
        "close" => Some(Event::Close { worker, entry }),
        "branch" => Some(Event::Branch { worker, entry }),
        _ => None,
    }
}

/// The event that words name: `pop 0`, `steal 1 0`, `close 0 2`, with the record of number 2.
pub fn event_of(alloc: Global, words: &[Word], records: &Tree) -> Result<Option<Event>, Stop> {
    match words {
        [word, worker] => Ok(event_alone(word.as_str(), number_of(worker)?)),
        [word, worker, other] => {
            let worker = number_of(worker)?;
            let other = number_of(other)?;
            if word.as_str() == "steal" {
                return Ok(Some(Event::Steal {
                    worker,
                    victim: other,
                }));
            }
            let entry = record_at(alloc, records, other)?;
            Ok(event_with(word.as_str(), worker, entry))
        }
        _ => Ok(None),
    }
}
