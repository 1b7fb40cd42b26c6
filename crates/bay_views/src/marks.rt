//! The text of a cell.
ghost use Rattle.std.specs.Prelude.{◌≡◌, ◌<◌, ◌≤◌, ◌^◌, ◌+◌, ◌++◌, ◌∷◌, ◌%◌, [], nat_le, codes, length, OnOk};
ghost use Rattle.std.specs.Fmt.{decimal};
ghost use Rattle.stow_report.specs.Listings.{length_text};
ghost use Rattle.bay_views.specs.Escapes.{escaped_in};
ghost use Rattle.bay_views.specs.Marks.{raw, when, only_if, whole, short, tenths, tonnes, rect, swatch, label, classes, class_text, weight, told, title, letters, short_class, marks, weight_mark, inside, filled_text, vacant_text};

use crate::cells::Cell;
use crate::character_sets::CharacterSet;
use crate::escaping::escape_in;
use crate::port_marks::PortMark;
use baplie::Facts;
use itoa::Buffer;
use stow_data::{Bytes, Length, Name, NoMemory};

/// Appends markup or words of the document's own.
#[tactic(auto, unfolding(crate::specs::Marks::raw))]
pub(crate) fn write_raw(out: &mut Bytes, text: &[u8]) -> Result<(), NoMemory>
    ensures { OnOk result (out.new ≡ out.old ++ raw text.now) }
{
    out.extend(text)
}

/// Appends such a text and a number.
pub(crate) fn put(out: &mut Bytes, text: &[u8], number: u64) -> Result<(), NoMemory>
    ensures { OnOk result (out.new ≡ out.old ++ raw text.now ++ decimal number) }
{
    write_raw(out, text)?;
    write_number(out, number)
}

/// Appends a number.
pub(crate) fn write_number(out: &mut Bytes, number: u64) -> Result<(), NoMemory>
    ensures { OnOk result (out.new ≡ out.old ++ decimal number) }
{
    out.extend(Buffer::new().format(number).as_bytes())
}

/// Appends a name of the file.
pub(crate) fn write_name(out: &mut Bytes, set: CharacterSet, name: &Name) -> Result<(), NoMemory>
    ensures { OnOk result (out.new ≡ out.old ++ escaped_in set name.now) }
{
    escape_in(out, set, name.bytes())
}

/// Appends a text where it is to stand.
pub(crate) fn put_if(out: &mut Bytes, on: bool, text: &[u8]) -> Result<(), NoMemory>
    ensures { OnOk result (out.new ≡ out.old ++ only_if on text.now) }
{
    if on { write_raw(out, text) } else { Ok(()) }
}

/// Appends a text of more than so many bytes as the title of what it stands in.
#[tactic(auto, unfolding(crate::specs::Marks::whole))]
pub(crate) fn write_whole(
    out: &mut Bytes,
    set: CharacterSet,
    most: usize,
    text: &[u8],
) -> Result<(), NoMemory>
    ensures { OnOk result (out.new ≡ out.old ++ whole set most text.now) }
{
    if text.len() <= most {
        return Ok(());
    }
    write_raw(out, b"<title>")?;
    escape_in(out, set, text)?;
    write_raw(out, b"</title>")
}

/// Appends a text, cut where it has more than so many bytes.
#[tactic(auto, unfolding(crate::specs::Marks::short))]
pub(crate) fn write_short(
    out: &mut Bytes,
    set: CharacterSet,
    most: usize,
    text: &[u8],
) -> Result<(), NoMemory>
    ensures { OnOk result (out.new ≡ out.old ++ short set most text.now) }
{
    if text.len() <= most {
        return escape_in(out, set, text);
    }
    escape_in(out, set, &text[..most])?;
    write_raw(out, b"&#8230;")
}

/// Appends kilograms as tonnes with one decimal, rounded.
#[tactic(auto, unfolding(crate::specs::Marks::tonnes))]
pub(crate) fn write_tonnes(out: &mut Bytes, kg: u64) -> Result<(), NoMemory>
    ensures { OnOk result (out.new ≡ out.old ++ tonnes kg) }
{
    let tenths = kg / 100 + kg % 100 / 50;
    write_number(out, tenths / 10)?;
    write_raw(out, b".")?;
    out.push(b'0' + (tenths % 10) as u8)
}

pub(crate) fn write_rect(
    out: &mut Bytes,
    left: u64,
    top: u64,
    width: u64,
    height: u64,
) -> Result<(), NoMemory>
    ensures { OnOk result (out.new ≡ out.old ++ rect left top width height) }
{
    put(out, b"<rect x='", left)?;
    put(out, b"' y='", top)?;
    put(out, b"' width='", width)?;
    put(out, b"' height='", height)?;
    write_raw(out, b"' class='")
}

fn write_stripes(
    out: &mut Bytes,
    left: u64,
    top: u64,
    width: u64,
    height: u64,
    port: usize,
) -> Result<(), NoMemory>
    ensures { OnOk result (out.new ≡ out.old ++ when (nat_le 7 (port % 14)) (rect left top width height ++ raw (codes "z'/>"))) }
{
    if port % 14 < 7 {
        return Ok(());
    }
    write_rect(out, left, top, width, height)?;
    write_raw(out, b"z'/>")
}

/// Appends a rectangle in the colour of a port.
#[tactic(auto, unfolding(crate::specs::Marks::swatch))]
pub(crate) fn write_swatch(
    out: &mut Bytes,
    left: u64,
    top: u64,
    width: u64,
    height: u64,
    port: usize,
) -> Result<(), NoMemory>
    ensures { OnOk result (out.new ≡ out.old ++ swatch left top width height port) }
{
    write_rect(out, left, top, width, height)?;
    put(out, b"p", port as u64 % 7)?;
    write_raw(out, b"'/>")?;
    write_stripes(out, left, top, width, height, port)
}

/// Appends a text up to what it says.
pub(crate) fn write_label(
    out: &mut Bytes,
    left: u64,
    base: u64,
    class: &[u8],
) -> Result<(), NoMemory>
    ensures { OnOk result (out.new ≡ out.old ++ label left base class.now) }
{
    put(out, b"<text x='", left)?;
    put(out, b"' y='", base)?;
    write_raw(out, b"' class='")?;
    write_raw(out, class)?;
    write_raw(out, b"'>")
}

#[tactic(auto, unfolding(crate::specs::Marks::classes))]
fn write_classes(out: &mut Bytes, facts: &Facts) -> Result<(), NoMemory>
    ensures { OnOk result (out.new ≡ out.old ++ classes facts.now) }
{
    put_if(out, facts.empty, b"e ")?;
    put_if(out, facts.reefer, b"r ")?;
    put_if(out, facts.class.is_some(), b"d ")
}

fn write_class(out: &mut Bytes, set: CharacterSet, class: &Option<Name>) -> Result<(), NoMemory>
    ensures { OnOk result (out.new ≡ out.old ++ class_text set class.now) }
{
    match class {
        Some(class) => write_name(out, set, class),
        None => Ok(()),
    }
}

/// A length in feet, between spaces.
fn length_text(long: Length) -> &'static [u8]
    ensures { result.now ≡ length_text long }
{
    match long {
        Length::Twenty => b" 20 ",
        Length::Forty => b" 40 ",
    }
}

fn write_length(out: &mut Bytes, long: Length) -> Result<(), NoMemory>
    ensures { OnOk result (out.new ≡ out.old ++ length_text long) }
{
    out.extend(length_text(long))
}

fn write_weight(out: &mut Bytes, facts: &Facts) -> Result<(), NoMemory>
    ensures { OnOk result (out.new ≡ out.old ++ weight facts.now) }
{
    put(out, b" ", u64::from(facts.kg))?;
    write_raw(out, b" kg")
}

fn write_told(out: &mut Bytes, set: CharacterSet, facts: &Facts) -> Result<(), NoMemory>
    ensures { OnOk result (out.new ≡ out.old ++ told set facts.now) }
{
    put_if(out, facts.reefer, b", reefer")?;
    put_if(out, facts.empty, b", empty")?;
    put_if(out, facts.class.is_some(), b", class ")?;
    write_class(out, set, &facts.class)
}

fn write_cell_number(out: &mut Bytes, cell: &Cell) -> Result<(), NoMemory>
    ensures { OnOk result (out.new ≡ out.old ++ cell.now.number) }
{
    out.extend(&cell.number)
}

fn write_title(
    out: &mut Bytes,
    set: CharacterSet,
    cell: &Cell,
    facts: &Facts,
) -> Result<(), NoMemory>
    ensures { OnOk result (out.new ≡ out.old ++ title set cell.now facts.now) }
{
    write_cell_number(out, cell)?;
    write_raw(out, b" ")?;
    write_name(out, set, &facts.id)?;
    write_length(out, facts.long)?;
    write_name(out, set, &facts.dest)?;
    write_weight(out, facts)?;
    write_told(out, set, facts)
}

/// Appends the mark of a port.
#[tactic(auto, unfolding(crate::specs::Marks::letters))]
pub(crate) fn write_letters(
    out: &mut Bytes,
    set: CharacterSet,
    middle: u64,
    base: u64,
    mark: PortMark,
) -> Result<(), NoMemory>
    ensures { OnOk result (out.new ≡ out.old ++ letters set middle base mark) }
{
    write_label(out, middle, base, b"t")?;
    escape_in(out, set, mark.as_slice())?;
    write_raw(out, b"</text>")
}

fn write_short_class(
    out: &mut Bytes,
    set: CharacterSet,
    class: &Option<Name>,
) -> Result<(), NoMemory>
    ensures { OnOk result (out.new ≡ out.old ++ short_class set class.now) }
{
    match class {
        Some(class) => write_short(out, set, 4, class.bytes()),
        None => Ok(()),
    }
}

#[tactic(auto, unfolding(crate::specs::Marks::weight_mark))]
fn write_weight_mark(out: &mut Bytes, cell: &Cell, kg: u32) -> Result<(), NoMemory>
    requires left { cell.now.left < 2 ^ 33 }
    requires top { cell.now.top < 2 ^ 42 }
    requires width { cell.now.width ≤ 56 }
    requires some { 28 ≤ cell.now.width }
    ensures { OnOk result (out.new ≡ out.old ++ weight_mark cell.now kg) }
{
    write_label(out, cell.left + cell.width - 2, cell.top + 9, b"g")?;
    write_number(out, (u64::from(kg) + 500) / 1000)?;
    write_raw(out, b"</text>")
}

#[tactic(auto, unfolding(crate::specs::Marks::inside))]
fn write_inside(
    out: &mut Bytes,
    set: CharacterSet,
    cell: &Cell,
    port: usize,
    mark: PortMark,
    facts: &Facts,
) -> Result<(), NoMemory>
    requires left { cell.now.left < 2 ^ 33 }
    requires top { cell.now.top < 2 ^ 42 }
    requires width { cell.now.width ≤ 56 }
    requires some { 28 ≤ cell.now.width }
    ensures { OnOk result (out.new ≡ out.old ++ inside set cell.now port mark facts.now) }
{
    write_swatch(out, cell.left, cell.top, cell.width, 24, port)?;
    write_letters(out, set, cell.left + cell.width / 2, cell.top + 20, mark)?;
    write_marks(out, set, cell, facts)?;
    write_weight_mark(out, cell, facts.kg)
}

#[tactic(auto, unfolding(crate::specs::Marks::marks))]
fn write_marks(
    out: &mut Bytes,
    set: CharacterSet,
    cell: &Cell,
    facts: &Facts,
) -> Result<(), NoMemory>
    requires left { cell.now.left < 2 ^ 33 }
    requires top { cell.now.top < 2 ^ 42 }
    ensures { OnOk result (out.new ≡ out.old ++ marks set cell.now facts.now) }
{
    write_label(out, cell.left + 2, cell.top + 9, b"m")?;
    put_if(out, facts.reefer, b"R ")?;
    put_if(out, facts.empty, b"E ")?;
    write_short_class(out, set, &facts.class)?;
    write_raw(out, b"</text>")
}

/// Appends a container with the number and the mark of its port.
pub(crate) fn write_filled(
    out: &mut Bytes,
    set: CharacterSet,
    cell: &Cell,
    port: usize,
    mark: PortMark,
    facts: &Facts,
) -> Result<(), NoMemory>
    requires left { cell.now.left < 2 ^ 33 }
    requires top { cell.now.top < 2 ^ 42 }
    requires width { cell.now.width ≤ 56 }
    requires some { 28 ≤ cell.now.width }
    ensures { OnOk result (out.new ≡ out.old ++ filled_text set cell.now port mark facts.now) }
{
    write_raw(out, b"<g class='")?;
    write_classes(out, facts)?;
    write_raw(out, b"'><title>")?;
    write_title(out, set, cell, facts)?;
    write_raw(out, b"</title>")?;
    write_inside(out, set, cell, port, mark, facts)?;
    write_raw(out, b"</g>\n")
}

/// Appends an empty cell.
pub(crate) fn write_vacant(out: &mut Bytes, cell: &Cell) -> Result<(), NoMemory>
    ensures { OnOk result (out.new ≡ out.old ++ vacant_text cell.now) }
{
    write_rect(out, cell.left, cell.top, cell.width, 24)?;
    write_raw(out, b"v'><title>")?;
    out.extend(&cell.number)?;
    write_raw(out, b" empty</title></rect>\n")
}
