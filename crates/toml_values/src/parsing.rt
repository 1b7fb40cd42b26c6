//! The document of a text.
ghost use Rattle.std.specs.Prelude.{◌≡◌, IfErr, IfOk, None, Some};
ghost use Rattle.toml.specs.View.{table_view};
ghost use Rattle.toml_values.specs.Values.{document_of};
ghost use Rattle.toml_values.specs.declared.parsing.NoDocument.TheVariants.{NotToml};

use std::alloc::Global;
use toml::Table;

/// Why there is no document.
#[derive(Clone, Copy)]
pub enum NoDocument {
    /// The bytes aren't UTF-8, or the text isn't TOML.
    NotToml,
    /// Memory ran out.
    NoMemory,
}

/// The top table of a TOML text.
pub fn document(alloc: Global, bytes: &[u8]) -> Result<Table, NoDocument>
    ensures read { IfOk result (λ t. document_of bytes.now ≡ Some (table_view t)) }
    ensures refused { IfErr result (λ e. e ≡ NotToml → document_of bytes.now ≡ None) }
{
    let Ok(text) = std::str::from_utf8(bytes) else {
        return Err(NoDocument::NotToml);
    };
    match toml::table_from_str(alloc, text) {
        Ok(top) => Ok(top),
        Err(error) if error.is_memory() => Err(NoDocument::NoMemory),
        Err(_) => Err(NoDocument::NotToml),
    }
}
