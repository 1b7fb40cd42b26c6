//! What `clap` reads in the words, as an order.
ghost use Rattle.std.specs.Prelude.{◌≡◌, ◌≢◌, ◌⊎◌, Some, IfOk, Err, map, option_map};
ghost use Rattle.clap.specs.Words.{kind_of, found_of, rows_of, first_of};
ghost use Rattle.stow_words.specs.Own.{own_order};
ghost use Rattle.stow_words.specs.Plain.{IsPlainForm};
ghost use Rattle.stow_words.specs.Orders.{Gives, positional, workers_in, budget_in, number_at, number_or, plan_order, check_order, show_order, make_order, cranes_order, order_of, ordered, AreFaulty, IsInRange};

use crate::commands::{Verb, stow_command, verb_of};
use crate::numbers::read_number;
use crate::order::{Order, WordsNo};
use clap::error::ErrorKind;
use clap::{ArgMatches, Error};
use std::alloc::Global;
use stow_data::{NoMemory, Word, WordList};

// The value that `clap` found of an argument.
fn text_of<'a>(found: &ArgMatches<'a>, id: &str) -> Option<&'a str>
    ensures { option_map (λ s. s.now) result ≡ first_of id.now (rows_of (found_of found.now)) }
{
    found.get_str(id)
}

// The value of a positional argument.
fn positional(alloc: Global, found: &ArgMatches<'_>, id: &str) -> Result<Word, NoMemory>
    ensures { IfOk result (λ w. w ≡ positional id.now (rows_of (found_of found.now))) }
{
    match text_of(found, id) {
        Some(text) => Word::of(alloc, text),
        None => Word::of(alloc, ""),
    }
}

// The value of an option, where it stands.
fn option(alloc: Global, found: &ArgMatches<'_>, id: &str) -> Result<Option<Word>, NoMemory>
    ensures { IfOk result (λ o. o ≡ first_of id.now (rows_of (found_of found.now))) }
{
    match text_of(found, id) {
        Some(text) => Ok(Some(Word::of(alloc, text)?)),
        None => Ok(None),
    }
}

// The number after an option, or the one that stands for none.
fn number_or(found: &ArgMatches<'_>, id: &str, default: u64, least: u64, most: u64) -> Option<u64>
    ensures { result ≡ number_or default least most (first_of id.now (rows_of (found_of found.now))) }
{
    match text_of(found, id) {
        Some(text) => read_number(text, least, most),
        None => Some(default),
    }
}

fn plan_order(alloc: Global, found: &ArgMatches<'_>) -> Result<Order, WordsNo>
    ensures { Gives result (plan_order (rows_of (found_of found.now))) }
{
    let Some(workers) = number_or(found, "workers", 1, 1, 16) else {
        return Err(WordsNo::Workers);
    };
    let Some(budget) = number_or(found, "budget", 1000, 1, 100_000) else {
        return Err(WordsNo::Budget);
    };
    Ok(Order::Plan {
        profile: positional(alloc, found, "profile")?,
        bookings: positional(alloc, found, "bookings")?,
        name: positional(alloc, found, "name")?,
        arrival: option(alloc, found, "arrival")?,
        workers: workers as u32,
        budget,
    })
}

fn check_order(alloc: Global, found: &ArgMatches<'_>) -> Result<Order, WordsNo>
    ensures { Gives result (check_order (rows_of (found_of found.now))) }
{
    Ok(Order::Check {
        profile: positional(alloc, found, "profile")?,
        bookings: positional(alloc, found, "bookings")?,
        name: positional(alloc, found, "name")?,
        arrival: option(alloc, found, "arrival")?,
    })
}

fn show_order(alloc: Global, found: &ArgMatches<'_>) -> Result<Order, WordsNo>
    ensures { Gives result (show_order (rows_of (found_of found.now))) }
{
    Ok(Order::Show {
        file: positional(alloc, found, "file")?,
    })
}

fn make_order(alloc: Global, found: &ArgMatches<'_>) -> Result<Order, WordsNo>
    ensures { Gives result (make_order (rows_of (found_of found.now))) }
{
    let Some(number) = number_at(found, "number", 0, 2_147_483_647) else {
        return Err(WordsNo::Number);
    };
    Ok(Order::Make {
        number: number as u32,
        name: positional(alloc, found, "name")?,
    })
}

fn cranes_order(alloc: Global, found: &ArgMatches<'_>) -> Result<Order, WordsNo>
    ensures { Gives result (cranes_order (rows_of (found_of found.now))) }
{
    let Some(call) = number_at(found, "call", 1, 11) else {
        return Err(WordsNo::Call);
    };
    let Some(count) = number_at(found, "count", 1, 8) else {
        return Err(WordsNo::Count);
    };
    Ok(Order::Cranes {
        profile: positional(alloc, found, "profile")?,
        bookings: positional(alloc, found, "bookings")?,
        name: positional(alloc, found, "name")?,
        arrival: option(alloc, found, "arrival")?,
        call: call as u32,
        count: count as u32,
    })
}

// The number at a positional argument.
fn number_at(found: &ArgMatches<'_>, id: &str, least: u64, most: u64) -> Option<u64>
    ensures { result ≡ number_at id.now least most (rows_of (found_of found.now)) }
{
    match text_of(found, id) {
        Some(text) => read_number(text, least, most),
        None => read_number("", least, most),
    }
}

// The order of a subcommand.
fn order_of(alloc: Global, verb: Verb, found: &ArgMatches<'_>) -> Result<Order, WordsNo>
    ensures { Gives result (order_of (Some verb) (rows_of (found_of found.now))) }
{
    match verb {
        Verb::Plan => plan_order(alloc, found),
        Verb::Check => check_order(alloc, found),
        Verb::Show => show_order(alloc, found),
        Verb::Make => make_order(alloc, found),
        Verb::Cranes => cranes_order(alloc, found),
    }
}

// Want of memory, or words that `clap` doesn't take.
fn no_of(error: &Error) -> WordsNo
    ensures { (result ≡ WordsNo.NoMemory) ⊎ ((result ≡ WordsNo.NotTaken) × (kind_of error.now ≢ ErrorKind.OutOfMemory)) }
{
    match error.kind() {
        ErrorKind::OutOfMemory => WordsNo::NoMemory,
        _ => WordsNo::NotTaken,
    }
}

// The words as `clap` takes them.
fn texts_of<'a>(alloc: Global, words: &'a WordList) -> Result<Vec<&'a str>, NoMemory>
    ensures { IfOk result (λ v. map (λ s. s.now) v.items ≡ words.entry.now) }
{
    let mut texts = Vec::new(alloc);
    for word in words.as_slice() {
        texts.push(word.as_str())?;
    }
    Ok(texts)
}

// The order of the words as `clap` reads them.
fn parse_words(alloc: Global, words: &WordList) -> Result<Order, WordsNo>
    ensures order { Gives result (ordered words.now) }
    ensures not_taken { result ≡ Err WordsNo.NotTaken → AreFaulty words.now }
    ensures plain { IsPlainForm words.now → result ≢ Err WordsNo.NotTaken }
{
    let texts = texts_of(alloc, words)?;
    let Ok(command) = stow_command(alloc) else {
        return Err(WordsNo::NoMemory);
    };
    let matches = match command.try_get_matches_from(texts.as_slice()) {
        Ok(matches) => matches,
        Err(error) => return Err(no_of(&error)),
    };
    let Some((name, found)) = matches.subcommand() else {
        return Err(WordsNo::NotTaken);
    };
    match verb_of(name) {
        Some(verb) => order_of(alloc, verb, found),
        None => Err(WordsNo::NotTaken),
    }
}

/// What the words order, the first of them being the program's name. Words of the plain form order their own texts,
/// and the numbers that they spell.
pub fn read_words(alloc: Global, words: &WordList) -> Result<Order, WordsNo>
    ensures order { Gives result (ordered words.now) }
    ensures not_taken { result ≡ Err WordsNo.NotTaken → AreFaulty words.now }
    ensures plain { IsPlainForm words.now → result ≢ Err WordsNo.NotTaken }
    ensures own { (form : IsPlainForm words.now) → Gives result (own_order words.now form) }
    ensures ranges { IfOk result IsInRange }
{
    parse_words(alloc, words)
}
