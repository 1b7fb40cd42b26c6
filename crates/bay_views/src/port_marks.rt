//! The mark of two letters that stands for each port.
ghost use Rattle.std.specs.Prelude.{◌≡◌, ◌<◌, ◌++◌, ◌∷◌, [], IfOk};
ghost use Rattle.bay_views.specs.PortMarks.{letter, own_pairs, spare_pair, is_free, no_mark, spare_number, first_spare, own_mark, mark_of, marks_of, mark_at};
ghost use Rattle.bay_views.specs.Ports.{same_text};
ghost use Rattle.std.specs.List.{list_any};

use std::alloc::Global;
use stow_data::{NameList, NoMemory, Seq};

/// A mark of two characters.
pub type PortMark = [u8; 2];

/// The marks of the ports, in their order.
pub type PortMarkList = Seq<PortMark>;

fn letter(name: &[u8], i: usize) -> u8
    ensures { result ≡ letter name.now i }
{
    let tail = &name[name.len().saturating_sub(3)..];
    if i < tail.len() { tail[i] } else { b'-' }
}

fn own_pairs(name: &[u8]) -> [PortMark; 3]
    ensures { result ≡ own_pairs name.now }
{
    let first = letter(name, 0);
    let second = letter(name, 1);
    let third = letter(name, 2);
    [[first, second], [first, third], [second, third]]
}

fn spare_pair(n: u32) -> PortMark
    ensures { result ≡ spare_pair n }
{
    [b'A' + (n / 26 % 26) as u8, b'A' + (n % 26) as u8]
}

fn same_mark(a: PortMark, b: PortMark) -> bool
    ensures { result ≡ same_text a b }
{
    a.as_slice() == b.as_slice()
}

fn is_taken(taken: &[PortMark], mark: PortMark) -> bool
    ensures { result ≡ list_any (same_text mark) taken.now }
{
    taken.iter().any(|other| same_mark(mark, *other))
}

fn is_free(taken: &[PortMark], mark: PortMark) -> bool
    ensures { result ≡ is_free taken.now mark }
{
    !is_taken(taken, mark)
}

#[tactic(auto, unfolding(crate::specs::PortMarks::spare_number))]
fn spare_number(taken: &[PortMark]) -> Option<u32>
    ensures { result ≡ spare_number taken.now }
{
    (0..676).find(|n| is_free(taken, spare_pair(*n)))
}

/// The first of AA to ZZ that isn't taken.
#[tactic(auto, unfolding(crate::specs::PortMarks::first_spare))]
fn first_spare(taken: &[PortMark]) -> PortMark
    ensures { result ≡ first_spare taken.now }
{
    match spare_number(taken) {
        Some(n) => spare_pair(n),
        None => *b"--",
    }
}

#[tactic(auto, unfolding(crate::specs::PortMarks::own_mark))]
fn own_mark(taken: &[PortMark], name: &[u8]) -> Option<PortMark>
    ensures { result ≡ own_mark taken.now name.now }
{
    let own = own_pairs(name);
    own.iter().copied().find(|mark| is_free(taken, *mark))
}

/// The mark of a port behind others, of which these are the marks.
#[tactic(auto, unfolding(crate::specs::PortMarks::mark_of))]
fn mark_of(taken: &[PortMark], name: &[u8]) -> PortMark
    ensures { result ≡ mark_of taken.now name.now }
{
    match own_mark(taken, name) {
        Some(mark) => mark,
        None => first_spare(taken),
    }
}

/// A mark for each port.
pub(crate) fn marks_of(alloc: Global, ports: &NameList) -> Result<PortMarkList, NoMemory>
    ensures { IfOk result (λ marks. marks ≡ marks_of ports.now) }
{
    let mut marks = PortMarkList::new(alloc);
    for port in ports.as_slice() {
        let mark = mark_of(marks.as_slice(), port.bytes());
        marks.push(mark)?;
    }
    Ok(marks)
}

/// The mark of a port by its number.
pub(crate) fn mark_at(marks: &PortMarkList, port: usize) -> PortMark
    ensures { result ≡ mark_at marks.now port }
{
    if port < marks.len() {
        marks.as_slice()[port]
    } else {
        *b"--"
    }
}
