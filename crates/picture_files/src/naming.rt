//! The words of the command line, and the names of the files that are written.
ghost use Rattle.std.specs.Prelude.{◌≡◌, ◌++◌, ◌||◌, ◌&&◌, not, nat_eq, nat_lt, codes, length, is_some, option_map, IfOk};
ghost use Rattle.std.specs.List.{list_all, starts_with, ends_with};
ghost use Rattle.picture_files.specs.Asked.{is_name, asked, picture_name};

use std::alloc::Global;
use stow_data::{NoMemory, Word, WordList};

/// Whether a word can name a bay plan. No name of a file that is written can, so none is lost.
fn is_name(word: &str) -> bool
    ensures { result ≡ is_name word.now }
{
    let bytes = word.as_bytes();
    !bytes.starts_with(b"-") && !bytes.ends_with(b".svg") && !bytes.ends_with(b".html")
}

fn are_names(words: &[Word]) -> bool
    ensures { result ≡ list_all is_name words.now }
{
    words.iter().all(|word| is_name(word.as_str()))
}

/// The names behind the program's name, where there are some and each can name a bay plan.
pub fn names_in(words: &WordList) -> Option<&[Word]>
    ensures { option_map (λ names. names.now) result ≡ asked words.now }
{
    let [_, names @ ..] = words.as_slice() else {
        return None;
    };
    if names.is_empty() || !are_names(names) {
        return None;
    }
    Some(names)
}

/// The name of the picture of a file.
pub fn picture_name(alloc: Global, name: &str) -> Result<Word, NoMemory>
    ensures { IfOk result (λ w. w ≡ picture_name name.now) }
{
    let text = format!(in alloc; "{name}.svg")?;
    Ok(Word::of(alloc, text.as_str())?)
}

/// What stands in front of the last slash of a name, or nothing where it has none.
fn folder_of(name: &str) -> Option<&str> {
    match name.rsplit_once('/') {
        Some((folder, _)) => Some(folder),
        None => None,
    }
}

/// What stands behind the last slash of a name, or all of it.
pub fn base_of(name: &str) -> &str {
    match name.rsplit_once('/') {
        Some((_, base)) => base,
        None => name,
    }
}

fn is_together(first: &str, other: &str) -> bool {
    match (folder_of(first), folder_of(other)) {
        (Some(a), Some(b)) => a == b,
        (None, None) => true,
        _ => false,
    }
}

/// Whether all names are of files in one folder.
pub fn are_together(names: &[Word]) -> bool {
    match names.first() {
        Some(first) => names
            .iter()
            .all(|name| is_together(first.as_str(), name.as_str())),
        None => true,
    }
}

/// The name of the page that steps through the pictures of these files, where there are several: it stands in
/// the folder of the first.
pub fn page_for(alloc: Global, names: &[Word]) -> Result<Option<Word>, NoMemory>
    ensures { IfOk result (λ page. is_some page ≡ nat_lt 1 (length names.now)) }
{
    match names {
        [first, _, ..] => Ok(Some(page_name(alloc, first.as_str())?)),
        _ => Ok(None),
    }
}

fn page_name(alloc: Global, first: &str) -> Result<Word, NoMemory> {
    let text = match folder_of(first) {
        Some(folder) => format!(in alloc; "{folder}/index.html")?,
        None => format!(in alloc; "index.html")?,
    };
    Ok(Word::of(alloc, text.as_str())?)
}
