//! What holds of every picture.
ghost use Rattle.std.specs.Prelude.{◌≡◌, ℕ, List, false, count_by, length};
ghost use Rattle.std.specs.List.{list_any};
ghost use Rattle.baplie.specs.declared.parts.CellGroup.{CellGroup};
ghost use Rattle.stow_report.specs.Listings.{holds};
ghost use Rattle.bay_views.specs.declared.character_sets.CharacterSet.{CharacterSet};
ghost use Rattle.bay_views.specs.declared.sheets.Sheet.{Sheet};
ghost use Rattle.bay_views.specs.Escapes.{breaks_out, IsWritten, written, written_in, written_text, escaped, escaped_in, escaped_text};
ghost use Rattle.bay_views.specs.Cells.{is_filled, shapes};
ghost use Rattle.bay_views.specs.Layout.{CellsLieInTheirBays, BaysAreApart, CellsAreApart};
ghost use Rattle.bay_views.specs.PortMarks.{MarksDiffer};

/// No text breaks out of its place in a document: of what stands for it, no character begins or ends a tag or a
/// quoted value, and each byte is written as itself, which is then none of the five, or as one whole entity.
pub fn nothing_breaks_out()
    ensures harmless { (text : List ℕ) → list_any breaks_out (escaped text) ≡ false }
    ensures set_harmless { (set : CharacterSet) (text : List ℕ) → list_any breaks_out (escaped_in set text) ≡ false }
    ensures text_harmless { (text : List ℕ) → list_any breaks_out (escaped_text text) ≡ false }
    ensures each { (b : ℕ) → IsWritten b (written b) }
    ensures set_each { (set : CharacterSet) (b : ℕ) → IsWritten b (written_in set b) }
    ensures text_each { (b : ℕ) → IsWritten b (written_text b) }
{}

/// One shape is drawn for each cell group, and of these one with a container for each group that holds one.
pub fn drawn_once()
    ensures each { (s : Sheet) (ports : List (List ℕ)) (groups : List CellGroup) → length (shapes s ports groups) ≡ length groups }
    ensures filled { (s : Sheet) (ports : List (List ℕ)) (groups : List CellGroup) → count_by is_filled (shapes s ports groups) ≡ count_by holds groups }
{}

/// Each cell lies within the frame of its bay, which is one of those that are drawn; the frames of two bays don't
/// overlap, and neither do two cells that share no part of a place (ISO 9711).
pub fn cells_keep_apart()
    ensures within { CellsLieInTheirBays }
    ensures bays { BaysAreApart }
    ensures cells { CellsAreApart }
{}

/// Ports that differ have marks that differ, as long as there are no more ports than pairs of letters.
pub fn marks_differ()
    ensures { MarksDiffer }
{}
