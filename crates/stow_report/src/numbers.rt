//! A certificate's numbers: why they are refused, and what is printed of a certificate that is confirmed.
ghost use Rattle.std.specs.Prelude.{◌≡◌, IfOk, OnOk, ◌++◌};
ghost use Rattle.stow_report.specs.Numbers.{numbers_line, of_numbers, cost_text, yes_text};

use crate::lines::{Group, Line, numbered};
use certificate::Head;
use itoa::Buffer;
use std::alloc::Global;
use stow_data::{Bytes, NoMemory};

/// Why the numbers of a certificate are refused: the first of these that holds.
#[derive(Clone, Copy)]
pub enum NumbersNo {
    /// The departure files have another cost than the certificate says in its line `rehandles`.
    Rehandles { said: u64, found: u64 },
    /// The tree has another number of records that aren't left open.
    Nodes { said: u64, found: u64 },
    /// The outcome doesn't fit the cost and the bound.
    Outcome,
}

/// A line of the refusal of a certificate's numbers.
fn of_numbers(alloc: Global, number: u32, numbers: &[i128]) -> Result<Line, NoMemory>
    ensures { IfOk result (λ line. line ≡ of_numbers number numbers.now) }
{
    numbered(alloc, true, Group::Numbers, number, numbers)
}

/// The line of a certificate whose numbers are refused: what it says, then what is found.
pub fn numbers_line(alloc: Global, no: NumbersNo) -> Result<Line, NoMemory>
    ensures { IfOk result (λ line. line ≡ numbers_line no) }
{
    match no {
        NumbersNo::Rehandles { said, found } => of_numbers(
            alloc,
            1,
            &[i128::from(said), i128::from(found)],
        ),
        NumbersNo::Nodes { said, found } => of_numbers(
            alloc,
            2,
            &[i128::from(said), i128::from(found)],
        ),
        NumbersNo::Outcome => of_numbers(alloc, 3, &[]),
    }
}

/// Appends a cost, or that there is none.
fn write_cost(out: &mut Bytes, cost: Option<u64>) -> Result<(), NoMemory>
    ensures { OnOk result (out.new ≡ out.old ++ cost_text cost) }
{
    match cost {
        Some(number) => out.extend(Buffer::new().format(number).as_bytes()),
        None => out.extend(b"none"),
    }
}

/// What a check prints where it refuses nothing: that it says yes, and the certificate's cost and bound.
pub fn confirmed(alloc: Global, head: &Head) -> Result<Bytes, NoMemory>
    ensures { IfOk result (λ text. text ≡ yes_text head.now) }
{
    let mut text = Bytes::of(alloc, b"check yes\ncost ")?;
    write_cost(&mut text, head.rehandles)?;
    text.extend(b"\nbound ")?;
    text.extend(Buffer::new().format(head.bound).as_bytes())?;
    text.push(b'\n')?;
    Ok(text)
}
