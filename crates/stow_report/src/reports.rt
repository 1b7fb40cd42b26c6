//! The report of a plan.
ghost use Rattle.std.specs.Prelude.{◌≡◌, ◌++◌, IfOk, OnOk};
ghost use Rattle.certificate.specs.Text.{outcome_text};
ghost use Rattle.stow_report.specs.Reports.{number_line, cost_line, outcome_line, report_text};

use certificate::{Head, Outcome};
use itoa::Buffer;
use std::alloc::Global;
use stow_data::{Bytes, NoMemory};

/// What is printed of a plan: its outcome, its cost, the bound and the number of nodes, as the head of its
/// certificate has them, a line for each.
pub fn report(alloc: Global, head: &Head) -> Result<Bytes, NoMemory>
    ensures { IfOk result (λ text. text ≡ report_text head.now) }
{
    let mut out = Bytes::new(alloc);
    write_outcome(&mut out, head.outcome)?;
    write_cost(&mut out, head.rehandles)?;
    write_number(&mut out, b"bound ", head.bound)?;
    write_number(&mut out, b"nodes ", head.nodes)?;
    Ok(out)
}

/// The word for an outcome.
fn outcome_word(outcome: Outcome) -> &'static [u8]
    ensures { result.now ≡ outcome_text outcome }
{
    match outcome {
        Outcome::Optimal => b"optimal",
        Outcome::Gap => b"gap",
        Outcome::NoPlan => b"no-plan",
        Outcome::Undecided => b"undecided",
    }
}

/// Appends the line of the outcome.
fn write_outcome(out: &mut Bytes, outcome: Outcome) -> Result<(), NoMemory>
    ensures { OnOk result (out.new ≡ out.old ++ outcome_line outcome) }
{
    out.extend(b"outcome ")?;
    out.extend(outcome_word(outcome))?;
    out.push(b'\n')
}

/// Appends the line of the cost, or of none.
fn write_cost(out: &mut Bytes, cost: Option<u64>) -> Result<(), NoMemory>
    ensures { OnOk result (out.new ≡ out.old ++ cost_line cost) }
{
    match cost {
        None => out.extend(b"cost none\n"),
        Some(number) => write_number(out, b"cost ", number),
    }
}

/// Appends a word and a number.
pub fn write_number(out: &mut Bytes, word: &[u8], number: u64) -> Result<(), NoMemory>
    ensures { OnOk result (out.new ≡ out.old ++ number_line word.now number) }
{
    out.extend(word)?;
    out.extend(Buffer::new().format(number).as_bytes())?;
    out.push(b'\n')
}
