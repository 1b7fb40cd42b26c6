//! The text of a picture.
ghost use Rattle.std.specs.Prelude.{◌≡◌, ◌≤◌, ◌<◌, ◌^◌, ◌+◌, ◌*◌, ◌++◌, length, count_by, IfOk, OnOk};
ghost use Rattle.std.specs.Fmt.{decimal};
ghost use Rattle.baplie.specs.Texts.{cell_digits};
ghost use Rattle.bay_views.specs.Marks.{raw};
ghost use Rattle.crane_pictures.specs.Lists.{IsDrawable};
ghost use Rattle.crane_pictures.specs.Pictures.{letter, words, short, named, told, place, shape_spot, turn, shape_front, shape_title, shape_box, shape_label, shape_text, body, width, height, picture_mark, opening, view_box, texts, colours, named_list, totals, least_line, head, front, spot, entry_front, entry_box, entry_count, entry, legend, column_front, column_ground, column, columns, row, rows, grid, over, work_picture};
ghost use Rattle.crane_pictures.specs.Shapes.{has_purpose};

use crate::purposes::Purpose;
use crate::shapes::{Shape, count_of, shapes_of};
use baplie::cell_text;
use bay_views::{escape, escape_text};
use itoa::Buffer;
use std::alloc::Global;
use stow_data::{Bytes, NoMemory};
use stow_report::{CraneMove, CraneReport};

/// So many bytes of a container's number stand in its shape.
const MOST: usize = 13;

/// Appends markup or words of the document's own.
#[tactic(auto, unfolding(bay_views::specs::Marks::raw))]
fn write_raw(out: &mut Bytes, text: &[u8]) -> Result<(), NoMemory>
    ensures { OnOk result (out.new ≡ out.old ++ raw text.now) }
{
    out.extend(text)
}

fn write_number(out: &mut Bytes, number: u64) -> Result<(), NoMemory>
    ensures { OnOk result (out.new ≡ out.old ++ decimal number) }
{
    out.extend(Buffer::new().format(number).as_bytes())
}

/// Appends such a text and a number.
fn put(out: &mut Bytes, text: &[u8], number: u64) -> Result<(), NoMemory>
    ensures { OnOk result (out.new ≡ out.old ++ raw text.now ++ decimal number) }
{
    write_raw(out, text)?;
    write_number(out, number)
}

/// Appends a text of the file, cut where it is long.
#[tactic(auto, unfolding(crate::specs::Pictures::short))]
fn write_short(out: &mut Bytes, text: &[u8]) -> Result<(), NoMemory>
    ensures { OnOk result (out.new ≡ out.old ++ short text.now) }
{
    if text.len() <= MOST {
        return escape(out, text);
    }
    escape(out, &text[..MOST])?;
    write_raw(out, b"&#8230;")
}

/// The letter that marks a purpose, and names its colour.
fn letter(purpose: Purpose) -> &'static [u8]
    ensures { result.now ≡ letter purpose }
{
    match purpose {
        Purpose::Discharge => b"D",
        Purpose::Load => b"L",
        Purpose::MoveAside => b"A",
        Purpose::PutBack => b"B",
        Purpose::CoverOff => b"O",
        Purpose::CoverOn => b"C",
    }
}

fn words(purpose: Purpose) -> &'static [u8]
    ensures { result.now ≡ words purpose }
{
    match purpose {
        Purpose::Discharge => b"discharged",
        Purpose::Load => b"loaded",
        Purpose::MoveAside => b"lifted to reach others",
        Purpose::PutBack => b"put back",
        Purpose::CoverOff => b"cover taken off",
        Purpose::CoverOn => b"cover put on",
    }
}

fn write_cell(out: &mut Bytes, word: &[u8], cell: (u32, u32, u32)) -> Result<(), NoMemory>
    ensures { OnOk result (out.new ≡ out.old ++ raw word.now ++ cell_digits cell.0 cell.1 cell.2) }
{
    let (bay, row, tier) = cell;
    write_raw(out, word)?;
    out.extend(&cell_text(bay, row, tier))
}

fn write_named(out: &mut Bytes, step: &CraneMove) -> Result<(), NoMemory>
    ensures { OnOk result (out.new ≡ out.old ++ named step.now) }
{
    match step {
        CraneMove::Lift { id, .. } => write_short(out, id.bytes()),
        CraneMove::Put { id, .. } => write_short(out, id.bytes()),
        CraneMove::Off { cover } => put(out, b"cover ", u64::from(*cover)),
        CraneMove::On { cover } => put(out, b"cover ", u64::from(*cover)),
    }
}

fn write_told(out: &mut Bytes, step: &CraneMove) -> Result<(), NoMemory>
    ensures { OnOk result (out.new ≡ out.old ++ told step.now) }
{
    match step {
        CraneMove::Lift { id, .. } => escape(out, id.bytes()),
        CraneMove::Put { id, .. } => escape(out, id.bytes()),
        CraneMove::Off { cover } => write_number(out, u64::from(*cover)),
        CraneMove::On { cover } => write_number(out, u64::from(*cover)),
    }
}

fn write_place(out: &mut Bytes, step: &CraneMove) -> Result<(), NoMemory>
    ensures { OnOk result (out.new ≡ out.old ++ place step.now) }
{
    match step {
        CraneMove::Lift { cell, .. } => write_cell(out, b"from ", *cell),
        CraneMove::Put { cell, .. } => write_cell(out, b"to ", *cell),
        CraneMove::Off { .. } => write_raw(out, b"off"),
        CraneMove::On { .. } => write_raw(out, b"on"),
    }
}

/// Appends where the shape of a crane's move in a round stands.
#[tactic(auto, unfolding(crate::specs::Pictures::shape_spot))]
fn write_shape_spot(out: &mut Bytes, crane: u32, round: u32) -> Result<(), NoMemory>
    ensures { OnOk result (out.new ≡ out.old ++ shape_spot crane round) }
{
    put(out, b"<g transform='translate(", 156 * u64::from(crane))?;
    put(out, b" ", 38 * u64::from(round))
}

#[tactic(auto, unfolding(crate::specs::Pictures::shape_front))]
fn write_shape_front(out: &mut Bytes, shape: &Shape) -> Result<(), NoMemory>
    ensures { OnOk result (out.new ≡ out.old ++ shape_front shape.now) }
{
    write_shape_spot(out, shape.crane, shape.round)?;
    write_raw(out, b")' class='")?;
    write_raw(out, letter(shape.purpose))
}

#[tactic(auto, unfolding(crate::specs::Pictures::turn))]
fn write_turn(out: &mut Bytes, round: u64, crane: u64) -> Result<(), NoMemory>
    ensures { OnOk result (out.new ≡ out.old ++ turn round crane) }
{
    put(out, b"'><title>Round ", round)?;
    put(out, b", crane ", crane)?;
    write_raw(out, b": ")
}

#[tactic(auto, unfolding(crate::specs::Pictures::shape_title))]
fn write_shape_title(out: &mut Bytes, shape: &Shape) -> Result<(), NoMemory>
    ensures { OnOk result (out.new ≡ out.old ++ shape_title shape.now) }
{
    write_turn(out, u64::from(shape.round), u64::from(shape.crane))?;
    write_told(out, &shape.step)
}

#[tactic(auto, unfolding(crate::specs::Pictures::shape_box))]
fn write_shape_box(out: &mut Bytes, shape: &Shape) -> Result<(), NoMemory>
    ensures { OnOk result (out.new ≡ out.old ++ shape_box shape.now) }
{
    write_raw(out, b" ")?;
    write_raw(out, words(shape.purpose))?;
    write_raw(
        out,
        b"</title><rect width='148' height='34'/><text x='14' y='23' class='m'>",
    )?;
    write_raw(out, letter(shape.purpose))
}

#[tactic(auto, unfolding(crate::specs::Pictures::shape_label))]
fn write_shape_label(out: &mut Bytes, shape: &Shape) -> Result<(), NoMemory>
    ensures { OnOk result (out.new ≡ out.old ++ shape_label shape.now) }
{
    write_raw(out, b"</text><text x='30' y='15' class='i'>")?;
    write_named(out, &shape.step)?;
    write_raw(out, b"</text><text x='30' y='29'>")?;
    write_place(out, &shape.step)?;
    write_raw(out, b"</text></g>\n")
}

/// Appends the shape of a move.
fn write_shape(out: &mut Bytes, shape: &Shape) -> Result<(), NoMemory>
    ensures { OnOk result (out.new ≡ out.old ++ shape_text shape.now) }
{
    write_shape_front(out, shape)?;
    write_shape_title(out, shape)?;
    write_shape_box(out, shape)?;
    write_shape_label(out, shape)
}

fn write_body(out: &mut Bytes, shapes: &[Shape]) -> Result<(), NoMemory>
    ensures { OnOk result (out.new ≡ out.old ++ body shapes.now) }
{
    for shape in shapes {
        write_shape(out, shape)?;
    }
    Ok(())
}

/// The line that each of these pictures begins with.
pub(crate) fn picture_mark() -> &'static [u8]
    ensures { result.now ≡ picture_mark }
{
    b"<!-- Cranes. Written by stow-view, which writes it anew. -->\n"
}

#[tactic(auto, unfolding(crate::specs::Pictures::opening))]
fn write_opening(out: &mut Bytes, width: u64, height: u64) -> Result<(), NoMemory>
    ensures { OnOk result (out.new ≡ out.old ++ opening width height) }
{
    write_raw(out, picture_mark())?;
    put(
        out,
        b"<svg xmlns='http://www.w3.org/2000/svg' width='",
        width,
    )?;
    put(out, b"' height='", height)
}

#[tactic(auto, unfolding(crate::specs::Pictures::view_box))]
fn write_view_box(out: &mut Bytes, width: u64, height: u64) -> Result<(), NoMemory>
    ensures { OnOk result (out.new ≡ out.old ++ view_box width height) }
{
    put(out, b"' viewBox='0 0 ", width)?;
    put(out, b" ", height)?;
    write_raw(out, b"'>\n")
}

fn texts() -> &'static [u8]
    ensures { result.now ≡ texts }
{
    b"<style>text{font:11px sans-serif}.h{font-weight:bold;font-size:15px}.i{font-weight:bold}.q{font-weight:bold;text-anchor:middle}.n{text-anchor:end;fill:#444}.m{font-weight:bold;font-size:14px;text-anchor:middle}rect{stroke:#444;stroke-width:.7}.k{fill:#f4f4f4;stroke:none}\n"
}

/// Six colours that differ for colour-blind readers too (Okabe and Ito 2008).
fn colours() -> &'static [u8]
    ensures { result.now ≡ colours }
{
    b".D rect{fill:#e69f00}.L rect{fill:#56b4e9}.A rect{fill:#f0e442}.B rect{fill:#e0a3c6}.O rect{fill:#fff;stroke-dasharray:4 2}.C rect{fill:#ccc}</style>\n"
}

#[tactic(auto, unfolding(crate::specs::Pictures::front))]
fn write_front(out: &mut Bytes, list: &CraneReport) -> Result<(), NoMemory>
    requires { IsDrawable list.now }
    ensures { OnOk result (out.new ≡ out.old ++ front list.now) }
{
    let width = (156 * u64::from(list.cranes) + 84).max(640);
    let height = 38 * list.rounds.len() as u64 + 160;
    write_opening(out, width, height)?;
    write_view_box(out, width, height)?;
    write_raw(out, texts())?;
    write_raw(out, colours())
}

#[tactic(auto, unfolding(crate::specs::Pictures::named_list))]
fn write_name(out: &mut Bytes, name: &str) -> Result<(), NoMemory>
    ensures { OnOk result (out.new ≡ out.old ++ named_list name.now) }
{
    write_raw(out, b"<text x='14' y='24' class='h'>Work of the cranes: ")?;
    escape_text(out, name)?;
    write_raw(out, b"</text>\n")
}

#[tactic(auto, unfolding(crate::specs::Pictures::totals))]
fn write_totals(out: &mut Bytes, cranes: u64, moves: u64, rounds: u64) -> Result<(), NoMemory>
    ensures { OnOk result (out.new ≡ out.old ++ totals cranes moves rounds) }
{
    put(out, b"<text x='14' y='44'>Cranes: ", cranes)?;
    put(out, b". Moves: ", moves)?;
    put(out, b". Rounds: ", rounds)
}

#[tactic(auto, unfolding(crate::specs::Pictures::least_line))]
fn write_least(out: &mut Bytes, least: u32) -> Result<(), NoMemory>
    ensures { OnOk result (out.new ≡ out.old ++ least_line least) }
{
    put(
        out,
        b". No list of these moves has fewer rounds than ",
        u64::from(least),
    )?;
    write_raw(out, b".</text>\n")
}

#[tactic(auto, unfolding(crate::specs::Pictures::head))]
fn write_head(out: &mut Bytes, name: &str, list: &CraneReport) -> Result<(), NoMemory>
    ensures { OnOk result (out.new ≡ out.old ++ head name.now list.now) }
{
    write_name(out, name)?;
    let rounds = list.rounds.len() as u64;
    write_totals(out, u64::from(list.cranes), u64::from(list.moves), rounds)?;
    write_least(out, list.least)
}

/// Where the entry of a purpose stands in the legend.
fn spot(purpose: Purpose) -> &'static [u8]
    ensures { result.now ≡ spot purpose }
{
    match purpose {
        Purpose::Discharge => b"14 56",
        Purpose::Load => b"14 78",
        Purpose::MoveAside => b"200 56",
        Purpose::PutBack => b"200 78",
        Purpose::CoverOff => b"430 56",
        Purpose::CoverOn => b"430 78",
    }
}

#[tactic(auto, unfolding(crate::specs::Pictures::entry_front))]
fn write_entry_front(out: &mut Bytes, purpose: Purpose) -> Result<(), NoMemory>
    ensures { OnOk result (out.new ≡ out.old ++ entry_front purpose) }
{
    write_raw(out, b"<g transform='translate(")?;
    write_raw(out, spot(purpose))?;
    write_raw(out, b")' class='")?;
    write_raw(out, letter(purpose))
}

#[tactic(auto, unfolding(crate::specs::Pictures::entry_box))]
fn write_entry_box(out: &mut Bytes, purpose: Purpose) -> Result<(), NoMemory>
    ensures { OnOk result (out.new ≡ out.old ++ entry_box purpose) }
{
    write_raw(
        out,
        b"'><rect width='24' height='17'/><text x='12' y='14' class='m'>",
    )?;
    write_raw(out, letter(purpose))?;
    write_raw(out, b"</text><text x='32' y='13'>")?;
    write_raw(out, words(purpose))
}

#[tactic(auto, unfolding(crate::specs::Pictures::entry_count))]
fn write_entry_count(out: &mut Bytes, count: u64) -> Result<(), NoMemory>
    ensures { OnOk result (out.new ≡ out.old ++ entry_count count) }
{
    put(out, b": ", count)?;
    write_raw(out, b"</text></g>\n")
}

/// Appends a purpose with its colour, its letter and its number of shapes.
#[tactic(auto, unfolding(crate::specs::Pictures::entry))]
fn write_entry(out: &mut Bytes, shapes: &[Shape], purpose: Purpose) -> Result<(), NoMemory>
    ensures { OnOk result (out.new ≡ out.old ++ entry shapes.now purpose) }
{
    write_entry_front(out, purpose)?;
    write_entry_box(out, purpose)?;
    write_entry_count(out, count_of(shapes, purpose))
}

#[tactic(auto, unfolding(crate::specs::Pictures::legend))]
fn write_legend(out: &mut Bytes, shapes: &[Shape]) -> Result<(), NoMemory>
    ensures { OnOk result (out.new ≡ out.old ++ legend shapes.now) }
{
    write_entry(out, shapes, Purpose::Discharge)?;
    write_entry(out, shapes, Purpose::Load)?;
    write_entry(out, shapes, Purpose::MoveAside)?;
    write_entry(out, shapes, Purpose::PutBack)?;
    write_entry(out, shapes, Purpose::CoverOff)?;
    write_entry(out, shapes, Purpose::CoverOn)
}

#[tactic(auto, unfolding(crate::specs::Pictures::column_front))]
fn write_column_front(out: &mut Bytes, crane: u64) -> Result<(), NoMemory>
    requires { crane ≤ 8 }
    ensures { OnOk result (out.new ≡ out.old ++ column_front crane) }
{
    put(out, b"<g transform='translate(", 156 * crane)?;
    put(out, b" 0)'><text x='74' y='28' class='q'>Crane ", crane)
}

#[tactic(auto, unfolding(crate::specs::Pictures::column_ground))]
fn write_column_ground(out: &mut Bytes, rounds: u64) -> Result<(), NoMemory>
    requires { rounds ≤ 20000 }
    ensures { OnOk result (out.new ≡ out.old ++ column_ground rounds) }
{
    put(
        out,
        b"</text><rect y='36' width='148' height='",
        38 * rounds,
    )?;
    write_raw(out, b"' class='k'/></g>\n")
}

#[tactic(auto, unfolding(crate::specs::Pictures::column))]
fn write_column(out: &mut Bytes, rounds: u64, i: u32) -> Result<(), NoMemory>
    requires few { rounds ≤ 20000 }
    requires among { i < 8 }
    ensures { OnOk result (out.new ≡ out.old ++ column rounds i) }
{
    write_column_front(out, u64::from(i) + 1)?;
    write_column_ground(out, rounds)
}

#[tactic(auto, using(crate::proofs::Uptos::upto_more))]
fn write_columns(out: &mut Bytes, rounds: u64, cranes: u32) -> Result<(), NoMemory>
    requires few { rounds ≤ 20000 }
    requires cranes { cranes ≤ 8 }
    ensures { OnOk result (out.new ≡ out.old ++ columns rounds cranes) }
{
    for i in 0..cranes {
        write_column(out, rounds, i)?;
    }
    Ok(())
}

#[tactic(auto, unfolding(crate::specs::Pictures::row))]
fn write_row(out: &mut Bytes, i: u64) -> Result<(), NoMemory>
    requires { i < 20000 }
    ensures { OnOk result (out.new ≡ out.old ++ row i) }
{
    put(out, b"<text x='148' y='", 38 * i + 59)?;
    put(out, b"' class='n'>", i + 1)?;
    write_raw(out, b"</text>\n")
}

#[tactic(auto, using(crate::proofs::Uptos::upto_more))]
fn write_rows(out: &mut Bytes, rounds: u64) -> Result<(), NoMemory>
    requires { rounds ≤ 20000 }
    ensures { OnOk result (out.new ≡ out.old ++ rows rounds) }
{
    for i in 0..rounds {
        write_row(out, i)?;
    }
    Ok(())
}

#[tactic(auto, unfolding(crate::specs::Pictures::grid))]
fn write_grid(out: &mut Bytes, list: &CraneReport) -> Result<(), NoMemory>
    requires { IsDrawable list.now }
    ensures { OnOk result (out.new ≡ out.old ++ grid list.now) }
{
    let rounds = list.rounds.len() as u64;
    write_raw(out, b"<g transform='translate(-92 104)'>\n")?;
    write_columns(out, rounds, list.cranes)?;
    write_rows(out, rounds)
}

fn write_over(out: &mut Bytes, name: &str, list: &CraneReport) -> Result<(), NoMemory>
    requires { IsDrawable list.now }
    ensures { OnOk result (out.new ≡ out.old ++ over name.now list.now) }
{
    write_front(out, list)?;
    write_head(out, name, list)
}

/// The picture of a crane list under a name: a head with the numbers of cranes, moves and rounds and the least
/// number of rounds, a legend that counts what the moves are for, and for each move a shape in the column of its
/// crane and the row of its round, with its container and cell, or its cover.
pub fn work_picture(alloc: Global, name: &str, list: &CraneReport) -> Result<Bytes, NoMemory>
    requires { IsDrawable list.now }
    ensures { IfOk result (λ text. text ≡ work_picture name.now list.now) }
{
    let shapes = shapes_of(alloc, list.rounds.as_slice())?;
    let mut out = Bytes::new(alloc);
    write_over(&mut out, name, list)?;
    write_legend(&mut out, shapes.as_slice())?;
    write_grid(&mut out, list)?;
    write_body(&mut out, shapes.as_slice())?;
    write_raw(&mut out, b"</g></svg>\n")?;
    Ok(out)
}
