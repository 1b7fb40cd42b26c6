//! The character set of an interchange.
ghost use Rattle.std.specs.Prelude.{◌≡◌, codes};
ghost use Rattle.baplie.specs.Segments.{component, same_text};
ghost use Rattle.bay_views.specs.CharacterSets.{has_byte, set_named, character_set_of};

use baplie::Message;

/// What the bytes of a text stand for (ISO 9735).
#[derive(Clone, Copy)]
pub enum CharacterSet {
    /// Levels A and B, and each that isn't C: ISO 646.
    Ascii,
    /// Level C: ISO 8859-1.
    Latin1,
}

/// Whether a byte stands for a character of the set.
pub(crate) fn has_byte(set: CharacterSet, byte: u8) -> bool
    ensures { result ≡ has_byte set byte }
{
    match set {
        CharacterSet::Ascii => byte < 128,
        CharacterSet::Latin1 => true,
    }
}

fn set_named(identifier: &[u8]) -> CharacterSet
    ensures { result ≡ set_named identifier.now }
{
    if identifier == b"UNOC".as_slice() {
        CharacterSet::Latin1
    } else {
        CharacterSet::Ascii
    }
}

/// The character set of a message, by the syntax identifier of its interchange.
pub(crate) fn character_set_of(message: &Message) -> CharacterSet
    ensures { result ≡ character_set_of message.now }
{
    set_named(message.service.elements.component(0, 0))
}
