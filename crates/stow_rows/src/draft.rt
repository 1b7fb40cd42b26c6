//! Texts that are made of pieces, and whether a text is as it was expected.
use crate::line::{End, Piece};
use std::alloc::Global;
use stow_data::{Bytes, NoMemory};
use stow_io::SureFolder;

/// Stands at the end of an expected line of which only the beginning is given.
const MORE: u8 = 0;

/// A text that is being made.
#[derive(Drop)]
pub struct Draft {
    alloc: Global,
    bytes: Bytes,
}

impl Draft {
    pub fn new(alloc: Global) -> Draft {
        Draft {
            alloc,
            bytes: Bytes::new(alloc),
        }
    }

    /// The text so far.
    pub fn as_slice(&self) -> &[u8] {
        self.bytes.as_slice()
    }

    /// Adds a piece, and says whether the text that it names, or the line that it changes, is there.
    pub fn add(&mut self, texts: &SureFolder, piece: Piece<'_>) -> Result<bool, NoMemory> {
        match piece {
            Piece::Words(text, end) => {
                self.bytes.extend(text.as_bytes())?;
                self.bytes.extend(end_of(end))?;
                Ok(true)
            }
            Piece::Named(name) => match texts.file(name) {
                Some(text) => {
                    self.bytes.extend(text.as_slice())?;
                    Ok(true)
                }
                None => Ok(false),
            },
            Piece::Cut(most) => {
                self.bytes = Bytes::of(self.alloc, cut(self.bytes.as_slice(), most))?;
                Ok(true)
            }
            Piece::Change(number, text) => self.change(number, text),
        }
    }

    /// The same for one of several numbers, which stands in place of `{}`.
    pub fn add_at(
        &mut self,
        texts: &SureFolder,
        piece: Piece<'_>,
        number: u32,
    ) -> Result<bool, NoMemory> {
        match piece {
            Piece::Words(text, end) => {
                let text = with_number(self.alloc, text, number)?;
                self.add(texts, Piece::Words(text.as_str(), end))
            }
            other => self.add(texts, other),
        }
    }

    fn change(&mut self, number: u32, text: &str) -> Result<bool, NoMemory> {
        let mut changed = Bytes::new(self.alloc);
        let mut stands = false;
        for (index, line) in self.bytes.as_slice().split(|b| *b == b'\n').enumerate() {
            if index > 0 {
                changed.push(b'\n')?;
            }
            if index + 1 == number as usize {
                stands = true;
                changed.extend(text.as_bytes())?;
            } else {
                changed.extend(line)?;
            }
        }
        self.bytes = changed;
        Ok(stands)
    }
}

fn end_of(end: End) -> &'static [u8] {
    match end {
        End::LineFeed => b"\n",
        End::Both => b"\r\n",
        End::Nothing => b"",
        End::More => &[MORE, b'\n'],
    }
}

fn with_number(alloc: Global, text: &str, number: u32) -> Result<String, NoMemory> {
    let digits = format!(in alloc; "{number}")?;
    let mut made = String::new(alloc);
    for (index, part) in text.split("{}").enumerate() {
        if index > 0 {
            made.push_str(digits.as_str())?;
        }
        made.push_str(part)?;
    }
    Ok(made)
}

/// No more than so many of the bytes.
pub fn cut(bytes: &[u8], most: u32) -> &[u8] {
    let most = most as usize;
    if most < bytes.len() {
        &bytes[..most]
    } else {
        bytes
    }
}

/// Whether a text is the expected one, line by line.
pub fn agrees(expected: &[u8], found: &[u8]) -> bool {
    let lines = expected.split(|b| *b == b'\n').count();
    if lines != found.split(|b| *b == b'\n').count() {
        return false;
    }
    expected
        .split(|b| *b == b'\n')
        .zip(found.split(|b| *b == b'\n'))
        .all(|(line, other)| line_agrees(line, other))
}

fn line_agrees(line: &[u8], other: &[u8]) -> bool {
    match line.split_last() {
        Some((&MORE, front)) => other.starts_with(front),
        _ => line == other,
    }
}
