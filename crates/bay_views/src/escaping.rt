//! Texts of a file inside a document.
ghost use Rattle.std.specs.Prelude.{◌≡◌, ◌++◌, ◌∷◌, [], OnOk};
ghost use Rattle.bay_views.specs.Escapes.{is_markup, entity, reference, is_printable, written, written_in, written_text, escaped, escaped_in, escaped_text};
ghost use Rattle.bay_views.specs.CharacterSets.{has_byte};

use crate::character_sets::{CharacterSet, has_byte};
use stow_data::{Bytes, NoMemory, digit};

/// Appends a text of the file, in ISO 8859-1: each character with a meaning of its own in a document
/// (`<`, `>`, `&`, `"`, `'`) as its entity, each byte from 160 on as the reference of its number, and
/// each other byte that no printable character stands for as the replacement character (XML 1.0).
pub fn escape(out: &mut Bytes, text: &[u8]) -> Result<(), NoMemory>
    ensures { OnOk result (out.new ≡ out.old ++ escaped text.now) }
{
    for byte in text {
        write_byte(out, *byte)?;
    }
    Ok(())
}

/// Appends a text of the file, in its character set: a byte that stands for none of its characters is written as
/// the replacement character.
pub(crate) fn escape_in(out: &mut Bytes, set: CharacterSet, text: &[u8]) -> Result<(), NoMemory>
    ensures { OnOk result (out.new ≡ out.old ++ escaped_in set text.now) }
{
    for byte in text {
        write_byte_in(out, set, *byte)?;
    }
    Ok(())
}

fn write_byte_in(out: &mut Bytes, set: CharacterSet, byte: u8) -> Result<(), NoMemory>
    ensures { OnOk result (out.new ≡ out.old ++ written_in set byte) }
{
    if has_byte(set, byte) {
        return write_byte(out, byte);
    }
    out.extend(b"&#65533;")
}

/// Appends a text in UTF-8, whose bytes from 128 on stay as they are.
pub fn escape_text(out: &mut Bytes, text: &str) -> Result<(), NoMemory>
    ensures { OnOk result (out.new ≡ out.old ++ escaped_text text.now) }
{
    for byte in text.as_bytes() {
        write_text_byte(out, *byte)?;
    }
    Ok(())
}

fn write_text_byte(out: &mut Bytes, byte: u8) -> Result<(), NoMemory>
    ensures { OnOk result (out.new ≡ out.old ++ written_text byte) }
{
    if byte >= 128 {
        return out.push(byte);
    }
    write_byte(out, byte)
}

fn write_byte(out: &mut Bytes, byte: u8) -> Result<(), NoMemory>
    ensures { OnOk result (out.new ≡ out.old ++ written byte) }
{
    if is_markup(byte) {
        return out.extend(entity(byte));
    }
    if (32..=126).contains(&byte) {
        return out.push(byte);
    }
    write_reference(out, byte)
}

/// Whether a character has a meaning of its own in a document.
fn is_markup(byte: u8) -> bool
    ensures { result ≡ is_markup byte }
{
    byte == b'"' || byte == b'&' || byte == b'\'' || byte == b'<' || byte == b'>'
}

/// The entity of such a character.
fn entity(byte: u8) -> &'static [u8]
    ensures { result.now ≡ entity byte }
{
    match byte {
        b'&' => b"&amp;",
        b'<' => b"&lt;",
        b'>' => b"&gt;",
        b'"' => b"&quot;",
        _ => b"&apos;",
    }
}

fn write_reference(out: &mut Bytes, byte: u8) -> Result<(), NoMemory>
    ensures { OnOk result (out.new ≡ out.old ++ reference byte) }
{
    if byte < 160 {
        return out.extend(b"&#65533;");
    }
    let number = u32::from(byte);
    let digits = [digit(number / 100), digit(number / 10), digit(number)];
    out.extend(b"&#")?;
    out.extend(&digits)?;
    out.extend(b";")
}
