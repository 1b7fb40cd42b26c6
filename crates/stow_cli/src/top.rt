//! The top call.
ghost use Rattle.std.specs.Prelude.{◌≡◌, ◌⊎◌, ◌≤◌};
ghost use Rattle.stow_io.specs.Outside.{outside, HasRisen};
ghost use Rattle.stow_words.specs.Orders.{ordered, IsInRange};
ghost use Rattle.stow_cli.specs.Ends.{Follows, IsReported, IsRun};
ghost use Rattle.stow_cli.specs.Obeyed.{Obeys};
ghost use Rattle.stow_cli.specs.Taken.{HasClapFault, OrdersOwn};

use crate::answering::answer_to;
use crate::ending::{complete, line_of, refuse, say_no};
use crate::status::Status;
use std::alloc::Global;
use std::sync::Wait;
use std::thread::Threads;
use stow_data::WordList;
use stow_io::{Folder, Gate, Sink, say, say_name};
use stow_words::{Order, WordsNo, read_words};
use voyage_files::{Answer, ReadStop};

/// Does what the words ask for, over the folder's files, and prints into the sink.
pub fn stow<R: Threads + Wait + Sync, F: Folder, K: Sink, G: Gate + Sync>(
    rt: &R,
    alloc: Global,
    words: &WordList,
    folder: &mut F,
    out: &mut K,
    gate: &G,
) -> Status
    ensures { Obeys words.now result (outside F.Folder K.Sink folder.old out.old) (outside F.Folder K.Sink folder.new out.new) }
{
    obey(rt, alloc, words, folder, out, gate)
}

/// Reads the words, and does what they order.
fn obey<R: Threads + Wait + Sync, F: Folder, K: Sink, G: Gate + Sync>(
    rt: &R,
    alloc: Global,
    words: &WordList,
    folder: &mut F,
    out: &mut K,
    gate: &G,
) -> Status
    ensures run { IsRun (ordered words.now) result (outside F.Folder K.Sink folder.old out.old) (outside F.Folder K.Sink folder.new out.new) }
    ensures not_taken { HasClapFault words.now result }
    ensures own { OrdersOwn words.now result }
    ensures fault { result ≡ Status.Fault → HasRisen (outside F.Folder K.Sink folder.old out.old) (outside F.Folder K.Sink folder.new out.new) }
    ensures quiet { (result ≡ Status.Fault → ⊥) → F.faults folder.new ≡ F.faults folder.old }
    ensures folder_later { F.faults folder.old ≤ F.faults folder.new }
    ensures sink_later { K.faults out.old ≤ K.faults out.new }
    ensures sink_quiet { IsReported result → K.faults out.new ≡ K.faults out.old }
{
    match read_words(alloc, words) {
        Ok(order) => follow(rt, alloc, &order, folder, out, gate),
        Err(no) => refuse(no, out),
    }
}

/// Answers the order, writes its files and prints.
fn follow<R: Threads + Wait + Sync, F: Folder, K: Sink, G: Gate + Sync>(
    rt: &R,
    alloc: Global,
    order: &Order,
    folder: &mut F,
    out: &mut K,
    gate: &G,
) -> Status
    requires { IsInRange order.now }
    ensures follows { Follows order.now result (outside F.Folder K.Sink folder.old out.old) (outside F.Folder K.Sink folder.new out.new) }
    ensures fault { result ≡ Status.Fault → HasRisen (outside F.Folder K.Sink folder.old out.old) (outside F.Folder K.Sink folder.new out.new) }
    ensures quiet { (result ≡ Status.Fault → ⊥) → F.faults folder.new ≡ F.faults folder.old }
    ensures folder_later { F.faults folder.old ≤ F.faults folder.new }
    ensures sink_later { K.faults out.old ≤ K.faults out.new }
    ensures sink_quiet { IsReported result → K.faults out.new ≡ K.faults out.old }
{
    match answer_to(rt, alloc, order, folder, gate) {
        Ok(Answer::Work(work)) => complete(&work, folder, out),
        Ok(Answer::No(line)) => say_no(out, line.as_slice()),
        Ok(Answer::Input(line)) => {
            say(out, line.as_slice());
            Status::Input
        }
        Ok(Answer::Large(line)) => {
            say(out, line.as_slice());
            Status::Large
        }
        Ok(Answer::Call) => {
            say(out, line_of(WordsNo::Call));
            Status::Words
        }
        Err(ReadStop::Failed(name)) => {
            say_name(out, b"fault read ", name);
            Status::Fault
        }
        Err(ReadStop::FailedOwn(name)) => {
            say_name(out, b"fault read ", name.as_str());
            Status::Fault
        }
        Err(ReadStop::NoMemory) => {
            say(out, b"memory\n");
            Status::Memory
        }
    }
}
