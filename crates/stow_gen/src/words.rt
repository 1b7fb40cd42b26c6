//! Texts by pieces.
ghost use Rattle.std.specs.Prelude.{◌≡◌, ◌++◌, ◌<◌, OnOk};
ghost use Rattle.stow_gen.specs.Words.{only_if, raw, seven_digits, told};

use itoa::Buffer;
use stow_data::{Bytes, NoMemory, digit};

/// Appends words, as they are.
#[tactic(auto, unfolding(crate::specs::Words::raw))]
pub fn write_raw(out: &mut Bytes, text: &[u8]) -> Result<(), NoMemory>
    ensures { OnOk result (out.new ≡ out.old ++ raw text.now) }
{
    out.extend(text)
}

/// Appends words and a number.
pub fn write_told(out: &mut Bytes, text: &[u8], number: u32) -> Result<(), NoMemory>
    ensures { OnOk result (out.new ≡ out.old ++ told text.now number) }
{
    write_raw(out, text)?;
    out.extend(Buffer::new().format(number).as_bytes())
}

/// Appends words where they are to stand.
pub fn write_if(out: &mut Bytes, on: bool, text: &[u8]) -> Result<(), NoMemory>
    ensures { OnOk result (out.new ≡ out.old ++ only_if on text.now) }
{
    if on { write_raw(out, text) } else { Ok(()) }
}

/// Appends a number below 10,000,000 in seven digits.
pub fn write_seven_digits(out: &mut Bytes, n: u32) -> Result<(), NoMemory>
    ensures { OnOk result (out.new ≡ out.old ++ seven_digits n) }
{
    out.extend(&[
        digit(n / 1_000_000),
        digit(n / 100_000),
        digit(n / 10_000),
        digit(n / 1_000),
        digit(n / 100),
        digit(n / 10),
        digit(n),
    ])
}
