//! The words of the command line, and the name of the picture.
ghost use Rattle.std.specs.Prelude.{◌≡◌, option_map, IfOk};
ghost use Rattle.picture_files.specs.Asked.{is_name, picture_name};
ghost use Rattle.crane_pictures.specs.Ends.{is_option, list_asked, name_behind};

use std::alloc::Global;
use stow_data::{NoMemory, Word, WordList};

/// Whether a word can name a crane list. No name of a picture can, so none is lost.
fn is_name(word: &str) -> bool
    ensures { result ≡ is_name word.now }
{
    let bytes = word.as_bytes();
    !bytes.starts_with(b"-") && !bytes.ends_with(b".svg") && !bytes.ends_with(b".html")
}

fn is_option(word: &str) -> bool
    ensures { result ≡ is_option word.now }
{
    word.as_bytes() == b"--cranes".as_slice()
}

/// The name, where it stands behind `--cranes` and can be that of a crane list.
fn name_behind<'a>(option: &str, name: &'a str) -> Option<&'a str>
    ensures { option_map (λ name. name.now) result ≡ name_behind option.now name.now }
{
    if is_option(option) && is_name(name) {
        Some(name)
    } else {
        None
    }
}

/// The name of the crane list that is to be drawn, where the words behind the program's name are `--cranes` and
/// a name.
pub fn list_asked(words: &WordList) -> Option<&str>
    ensures { option_map (λ name. name.now) result ≡ list_asked words.now }
{
    if words.len() != 3 {
        return None;
    }
    name_behind(words.at(1).as_str(), words.at(2).as_str())
}

/// The name of the picture of a file.
pub(crate) fn picture_name(alloc: Global, name: &str) -> Result<Word, NoMemory>
    ensures { IfOk result (λ w. w ≡ picture_name name.now) }
{
    let text = format!(in alloc; "{name}.svg")?;
    Ok(Word::of(alloc, text.as_str())?)
}
