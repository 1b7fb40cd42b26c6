//! Numbers, variables and rows as words.
use itoa::Buffer;
use stow_data::{Bytes, NoMemory};
use zero_one_rows::Var;

/// Appends a space and a number.
pub fn write_number(out: &mut Bytes, number: u64) -> Result<(), NoMemory> {
    out.extend(b" ")?;
    out.extend(Buffer::new().format(number).as_bytes())
}

/// Appends a space and a number with its sign.
pub fn write_signed(out: &mut Bytes, number: i64) -> Result<(), NoMemory> {
    out.extend(b" ")?;
    out.extend(Buffer::new().format(number).as_bytes())
}

/// Appends a word and numbers.
pub fn write_numbers(out: &mut Bytes, word: &[u8], numbers: &[u32]) -> Result<(), NoMemory> {
    out.extend(word)?;
    for number in numbers {
        write_number(out, u64::from(*number))?;
    }
    Ok(())
}

/// Appends a line of a word and a number.
pub fn write_count(out: &mut Bytes, word: &[u8], number: u64) -> Result<(), NoMemory> {
    out.extend(word)?;
    write_number(out, number)?;
    out.extend(b"\n")
}

/// Appends put, kind, lifted and place of a variable.
pub fn write_var(out: &mut Bytes, word: &[u8], x: Var) -> Result<(), NoMemory> {
    write_numbers(out, word, &[x.put.0, x.kind.0, x.lifted.0, x.place.0])
}
