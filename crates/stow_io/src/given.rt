//! The words of the command line.
ghost use Rattle.std.specs.Prelude.{◌≡◌, ◌≤◌, string_bytes, map, IfOk, OnOk};
ghost use Rattle.std.specs.Vec.Iter.{into_iter_items};
ghost use Rattle.stow_io.specs.Causes.{Rose};
ghost use Rattle.stow_io.specs.Ends.{SaysWhy};

use crate::ending::say;
use crate::outside::Sink;
use std::alloc::Global;
use std::env::{self, Args};
use std::io::ErrorKind;
use std::rt::Env;
use stow_data::{NoMemory, Word, WordList};

/// Why there are no words.
#[derive(Clone, Copy)]
pub enum NoWords {
    NoMemory,
    /// They can't be had, or aren't UTF-8.
    NotText,
}

/// All arguments as words, in their order.
fn words_from(alloc: Global, args: Args) -> Result<WordList, NoMemory>
    ensures { IfOk result (λ words. words ≡ map string_bytes (into_iter_items args)) }
{
    let mut words = WordList::new(alloc);
    for arg in args {
        words.push(Word::of(alloc, arg.as_str())?)?;
    }
    Ok(words)
}

fn words_of<R: Env + Alloc<A = Global>>(rt: &R, alloc: Global) -> Result<WordList, NoWords> {
    let args = match env::args(rt) {
        Ok(args) => args,
        Err(error) if error.kind() == ErrorKind::OutOfMemory => return Err(NoWords::NoMemory),
        Err(_) => return Err(NoWords::NotText),
    };
    match words_from(alloc, args) {
        Ok(words) => Ok(words),
        Err(NoMemory) => Err(NoWords::NoMemory),
    }
}

/// The words that the program was given, the first of them being its name. Where there are none, a line says why.
pub fn given_words<R: Env + Alloc<A = Global>, K: Sink>(
    rt: &R,
    alloc: Global,
    out: &mut K,
) -> Result<WordList, NoWords>
    ensures printed { SaysWhy result (K.written out.old) (K.written out.new) (Rose (K.faults out.old) (K.faults out.new)) }
    ensures later { K.faults out.old ≤ K.faults out.new }
    ensures quiet { OnOk result (K.faults out.new ≡ K.faults out.old) }
{
    let words = words_of(rt, alloc);
    match words {
        Ok(_) => (),
        Err(NoWords::NoMemory) => say(out, b"memory\n"),
        Err(NoWords::NotText) => say(out, b"refused words 1\n"),
    }
    words
}
