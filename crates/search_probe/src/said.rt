//! What is printed of answers.
use certificate::{End, Entry, Path};
use itoa::Buffer;
use search_core::Refused;
use stow_data::{Bytes, NoMemory};

/// Appends a text.
pub fn say(out: &mut Bytes, text: &str) -> Result<(), NoMemory> {
    out.extend(text.as_bytes())
}

/// Appends a blank and a number.
pub fn say_number(out: &mut Bytes, number: u64) -> Result<(), NoMemory> {
    out.push(b' ')?;
    out.extend(Buffer::new().format(number).as_bytes())
}

fn say_signed(out: &mut Bytes, number: i128) -> Result<(), NoMemory> {
    out.push(b' ')?;
    out.extend(Buffer::new().format(number).as_bytes())
}

/// The name of a cause.
fn name_of(cause: Refused) -> &'static str {
    match cause {
        Refused::NoWorker => "no worker",
        Refused::HandFull => "hand full",
        Refused::HandEmpty => "hand empty",
        Refused::DequeEmpty => "deque empty",
        Refused::HasTicket => "has ticket",
        Refused::NoTicket => "no ticket",
        Refused::NotSeen => "not seen",
        Refused::BadEntry => "bad entry",
        Refused::NotFull => "not full",
        Refused::Short { .. } => "short",
        Refused::NotFree => "not free",
        Refused::NoChild => "no child",
    }
}

/// Appends why an event is refused.
pub fn say_cause(out: &mut Bytes, cause: Refused) -> Result<(), NoMemory> {
    say(out, " refused: ")?;
    say(out, name_of(cause))?;
    if let Refused::Short { value, needed } = cause {
        say_signed(out, value)?;
        say_signed(out, needed)?;
    }
    Ok(())
}

/// Appends a path, a digit for each branch.
pub fn say_path(out: &mut Bytes, path: &Path) -> Result<(), NoMemory> {
    say(out, " path ")?;
    if path.as_slice().is_empty() {
        return say(out, "empty");
    }
    for value in path.as_slice() {
        say(out, if *value { "1" } else { "0" })?;
    }
    Ok(())
}

/// Appends a line of a record that ended a node, with the node's path.
pub fn say_entry(out: &mut Bytes, entry: &Entry) -> Result<(), NoMemory> {
    say(out, "entry")?;
    say_path(out, &entry.path)?;
    match entry.record_of.end {
        End::Leaf => say(out, " leaf\n"),
        End::Left => say(out, " left\n"),
        End::Branch(_) => say(out, " branch\n"),
    }
}
