//! Numbers, boxes and ends as words.
ghost use Rattle.std.specs.Prelude.{◌≡◌, length};
ghost use Rattle.zero_one_rows.specs.Variables.{variables};

use itoa::{Buffer, Integer};
use partial_plan::Tightened;
use stow_data::{Bytes, NoMemory, VarNo};
use zero_one_model::{Box01, Model};

/// Appends a space and a number.
pub fn write_number<I: Integer>(out: &mut Bytes, number: I) -> Result<(), NoMemory> {
    out.extend(b" ")?;
    out.extend(Buffer::new().format(number).as_bytes())
}

/// Appends a line of a word and a number.
pub fn write_count<I: Integer>(out: &mut Bytes, word: &[u8], number: I) -> Result<(), NoMemory> {
    out.extend(word)?;
    write_number(out, number)?;
    out.extend(b"\n")
}

/// Appends a line of the values of a box, `-` where a variable is free.
pub fn write_box(model: &Model, b: &Box01, out: &mut Bytes) -> Result<(), NoMemory>
    requires { length b.now ≡ length (variables model.now) }
{
    out.extend(b"box ")?;
    for v in 0..model.vars() {
        match b.at(VarNo(v)) {
            None => out.extend(b"-")?,
            Some(true) => out.extend(b"1")?,
            Some(false) => out.extend(b"0")?,
        }
    }
    out.extend(b"\n")
}

/// Appends a line of how tightening ends: `quiet`, or `violated` and the number of the row.
pub fn write_end(model: &Model, end: &Tightened, out: &mut Bytes) -> Result<(), NoMemory> {
    match end {
        Tightened::Quiet => out.extend(b"quiet\n"),
        Tightened::Violated(row) => {
            write_count(out, b"violated", model.row_number(row).unwrap_or(u64::MAX))
        }
        Tightened::NoMemory => Err(NoMemory),
    }
}
