//! The text of a certificate.
ghost use Rattle.std.specs.Prelude.{◌≡◌, ◌++◌, OnOk, IfOk, flat_map};
ghost use Rattle.std.specs.Fmt.{decimal};
ghost use Rattle.certificate.specs.declared.lines.Line.TheVariants as line;
ghost use Rattle.certificate.specs.Text.{whole, numbers, row_text, outcome_text, head_lines, record_lines, cert_text, text_of};

use crate::kept_rows::{KeptRaise, KeptRow};
use crate::tree::{End, Head, Outcome, Record, Tree};
use itoa::Buffer;
use std::alloc::Global;
use stow_data::{Bytes, NoMemory};
use zero_one_rows::{Raise, Row};

/// The text of a certificate: the head, the records in their order, and a line `end`.
pub fn write_cert(alloc: Global, head: &Head, tree: &Tree) -> Result<Bytes, NoMemory>
    ensures { IfOk result (λ text. text ≡ cert_text head.now tree.now) }
{
    let mut out = Bytes::new(alloc);
    write_head(&mut out, head)?;
    write_records(&mut out, tree)?;
    write_close(&mut out)?;
    Ok(out)
}

/// Appends the five lines of a head.
fn write_head(out: &mut Bytes, head: &Head) -> Result<(), NoMemory>
    ensures { OnOk result (out.new ≡ out.old ++ text_of (head_lines head.now)) }
{
    write_title(out)?;
    write_outcome(out, head.outcome)?;
    write_rehandles(out, head.rehandles)?;
    write_bound(out, head.bound)?;
    write_nodes(out, head.nodes)?;
    Ok(())
}

/// Appends the first line.
#[tactic(auto, unfolding(crate::specs::Text::line_text))]
fn write_title(out: &mut Bytes) -> Result<(), NoMemory>
    ensures { OnOk result (out.new ≡ out.old ++ whole line.Title) }
{
    out.extend(b"stow-cert 1\n")
}

/// Appends the last line.
#[tactic(auto, unfolding(crate::specs::Text::line_text))]
fn write_close(out: &mut Bytes) -> Result<(), NoMemory>
    ensures { OnOk result (out.new ≡ out.old ++ whole line.Close) }
{
    out.extend(b"end\n")
}

/// Appends the line of the outcome.
#[tactic(auto, unfolding(crate::specs::Text::line_text))]
fn write_outcome(out: &mut Bytes, outcome: Outcome) -> Result<(), NoMemory>
    ensures { OnOk result (out.new ≡ out.old ++ whole (line.Outcome outcome)) }
{
    out.extend(b"outcome ")?;
    out.extend(outcome_word(outcome))?;
    out.extend(b"\n")
}

/// Appends the line of the bound.
#[tactic(auto, unfolding(crate::specs::Text::line_text))]
fn write_bound(out: &mut Bytes, bound: u64) -> Result<(), NoMemory>
    ensures { OnOk result (out.new ≡ out.old ++ whole (line.Bound bound)) }
{
    out.extend(b"bound ")?;
    write_decimal(out, bound)?;
    out.extend(b"\n")
}

/// Appends the line of the nodes.
#[tactic(auto, unfolding(crate::specs::Text::line_text))]
fn write_nodes(out: &mut Bytes, nodes: u64) -> Result<(), NoMemory>
    ensures { OnOk result (out.new ≡ out.old ++ whole (line.Nodes nodes)) }
{
    out.extend(b"nodes ")?;
    write_decimal(out, nodes)?;
    out.extend(b"\n")
}

/// The word for an outcome.
fn outcome_word(outcome: Outcome) -> &'static [u8]
    ensures { result.now ≡ outcome_text outcome }
{
    match outcome {
        Outcome::Optimal => b"optimal",
        Outcome::Gap => b"gap",
        Outcome::NoPlan => b"no-plan",
        Outcome::Undecided => b"undecided",
    }
}

/// Appends the line of the rehandles.
#[tactic(auto, unfolding(crate::specs::Text::line_text))]
fn write_rehandles(out: &mut Bytes, rehandles: Option<u64>) -> Result<(), NoMemory>
    ensures { OnOk result (out.new ≡ out.old ++ whole (line.Rehandles rehandles)) }
{
    match rehandles {
        None => out.extend(b"rehandles none\n"),
        Some(count) => {
            out.extend(b"rehandles ")?;
            write_decimal(out, count)?;
            out.extend(b"\n")
        }
    }
}

/// Appends a number.
fn write_decimal(out: &mut Bytes, n: u64) -> Result<(), NoMemory>
    ensures { OnOk result (out.new ≡ out.old ++ decimal n) }
{
    out.extend(Buffer::new().format(n).as_bytes())
}

/// Appends the lines of the records.
fn write_records(out: &mut Bytes, records: &Tree) -> Result<(), NoMemory>
    ensures { OnOk result (out.new ≡ out.old ++ flat_map (λ r. text_of (record_lines r)) records.now) }
{
    for record in records.as_slice() {
        write_record(out, record)?;
    }
    Ok(())
}

/// Appends the lines of a record.
fn write_record(out: &mut Bytes, item: &Record) -> Result<(), NoMemory>
    ensures { OnOk result (out.new ≡ out.old ++ text_of (record_lines item.now)) }
{
    write_node(out, item.from_zero)?;
    write_steps(out, item.steps.as_slice())?;
    write_raises(out, item.raises.as_slice())?;
    write_end(out, item.end)?;
    Ok(())
}

/// Appends the line that begins a record.
#[tactic(auto, unfolding(crate::specs::Text::line_text))]
fn write_node(out: &mut Bytes, from_zero: bool) -> Result<(), NoMemory>
    ensures { OnOk result (out.new ≡ out.old ++ whole (line.Node from_zero)) }
{
    if from_zero {
        out.extend(b"n 1\n")
    } else {
        out.extend(b"n 0\n")
    }
}

/// Appends the line of a step.
#[tactic(auto, unfolding(crate::specs::Text::line_text))]
fn write_step(out: &mut Bytes, row: &Row) -> Result<(), NoMemory>
    ensures { OnOk result (out.new ≡ out.old ++ whole (line.Step row.now)) }
{
    out.extend(b"s ")?;
    write_row(out, row)?;
    out.extend(b"\n")
}

/// Appends the lines of steps.
fn write_steps(out: &mut Bytes, steps: &[KeptRow]) -> Result<(), NoMemory>
    ensures { OnOk result (out.new ≡ out.old ++ flat_map (λ row. whole (line.Step row)) steps.now) }
{
    for row in steps {
        write_step(out, &row.row())?;
    }
    Ok(())
}

/// Appends the line of a raise.
#[tactic(auto, unfolding(crate::specs::Text::line_text))]
fn write_raise(out: &mut Bytes, raise: &Raise) -> Result<(), NoMemory>
    ensures { OnOk result (out.new ≡ out.old ++ whole (line.Change raise.now)) }
{
    out.extend(b"r ")?;
    out.extend(Buffer::new().format(raise.amount).as_bytes())?;
    out.extend(b" ")?;
    write_row(out, &raise.row)?;
    out.extend(b"\n")
}

/// Appends the lines of raises.
fn write_raises(out: &mut Bytes, raises: &[KeptRaise]) -> Result<(), NoMemory>
    ensures { OnOk result (out.new ≡ out.old ++ flat_map (λ raise. whole (line.Change raise)) raises.now) }
{
    for raise in raises {
        write_raise(out, &raise.raise())?;
    }
    Ok(())
}

/// Appends the line that ends a record.
#[tactic(auto, unfolding(crate::specs::Text::line_text))]
fn write_end(out: &mut Bytes, end: End) -> Result<(), NoMemory>
    ensures { OnOk result (out.new ≡ out.old ++ whole (line.Ends end)) }
{
    match end {
        End::Leaf => out.extend(b"l\n"),
        End::Left => out.extend(b"o\n"),
        End::Branch(x) => {
            write_family(out, b"b", &[x.put.0, x.kind.0, x.lifted.0, x.place.0])?;
            out.extend(b"\n")
        }
    }
}

/// Appends a word and numbers, each number behind a space.
fn write_family(out: &mut Bytes, name: &[u8], items: &[u32]) -> Result<(), NoMemory>
    ensures { OnOk result (out.new ≡ out.old ++ (name.now ++ numbers items.now)) }
{
    out.extend(name)?;
    for item in items {
        out.extend(b" ")?;
        write_decimal(out, *item as u64)?;
    }
    Ok(())
}

/// Appends the text of a row, as certificates name it.
pub fn write_row(out: &mut Bytes, row: &Row) -> Result<(), NoMemory>
    ensures { OnOk result (out.new ≡ out.old ++ row_text row.now) }
{
    match row {
        Row::Flow { q, call, kind } => write_family(out, b"flow", &[*q, call.0, kind.0]),
        Row::Start { q, place } => write_family(out, b"start", &[*q, place.0]),
        Row::Cell { call, half } => write_family(out, b"cell", &[call.0, half.0]),
        Row::Support { call, half } => write_family(out, b"support", &[call.0, half.0]),
        Row::Twenty { call, half } => write_family(out, b"twenty", &[call.0, half.0]),
        Row::Block { call, half } => write_family(out, b"block", &[call.0, half.0]),
        Row::Hatch {
            w,
            call,
            half,
            lowest,
        } => write_family(out, b"hatch", &[*w, call.0, half.0, lowest.0]),
        Row::Weight { call, stack } => write_family(out, b"weight", &[call.0, stack.0]),
        Row::Apart {
            call,
            index,
            first,
            second,
        } => write_family(out, b"apart", &[call.0, *index, first.0, second.0]),
        Row::Cross {
            length,
            price,
            chain,
        } => {
            write_family(out, b"cross", &[*length, *price])?;
            write_family(out, b"", chain.items())
        }
    }
}
