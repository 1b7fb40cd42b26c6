//! The text of a picture.
ghost use Rattle.std.specs.Prelude.{◌≡◌, ◌<◌, ◌≤◌, ◌^◌, ◌+◌, ◌-◌, ◌*◌, ◌/◌, ◌++◌, ◌∷◌, [], All, length, option_copied, IfOk, IfSome, OnOk};
ghost use Rattle.stow_report.specs.Listings.{IsCell, AreListable};
ghost use Rattle.bay_views.specs.Frames.{IsFrame, columns};
ghost use Rattle.bay_views.specs.Sheets.{IsSheet, sheet_width, sheet_height};
ghost use Rattle.bay_views.specs.CharacterSets.{character_set_of};
ghost use Rattle.bay_views.specs.Drawings.{two_digits, row_label, row_labels, tier_label, tier_labels, low_rows, deck_tiers, hold_tiers, area, areas, ground, template, bay_digits, use_at, bay, bay_of, bays, opening, texts, boxes, colours, pattern, key, front, view, view_of, views, over, base, drawn, body, drawing, picture};

use crate::cells::cell_of;
use crate::changes::{write_changes, write_changes_since};
use crate::character_sets::{CharacterSet, character_set_of};
use crate::frames::Frame;
use crate::heading::write_heading;
use crate::legend::{number_of, write_legend};
use crate::marks::{
    put, write_filled, write_label, write_number, write_raw, write_rect, write_vacant,
};
use crate::port_marks::{PortMarkList, mark_at, marks_of};
use crate::sheets::{Sheet, sheet_of};
use crate::stacks::write_stacks;
use baplie::{CellGroup, GroupList, Message};
use std::alloc::Global;
use stow_data::{Bytes, NameList, NoMemory};

/// The picture of a message: its head with the totals, a legend of the ports with their counts, and the
/// bays from fore to aft, with the tonnes of each stack and a shape for each cell. A port has the colour of
/// its number among the ports; that of a container which goes to none of them is one of no port. Beside the
/// groups of the bay plan before it counts and marks what was loaded, discharged and rehandled since, and
/// beside those of the one behind it marks what is discharged until then.
#[tactic(auto, unfolding(crate::specs::Drawings::picture))]
pub fn picture(
    alloc: Global,
    ports: &NameList,
    message: &Message,
    before: Option<&GroupList>,
    after: Option<&GroupList>,
) -> Result<Bytes, NoMemory>
    requires { AreListable message.now.groups }
    ensures { IfOk result (λ text. text ≡ picture ports.now message.now (option_copied before.entry) (option_copied after.entry)) }
{
    let groups = message.groups.as_slice();
    let set = character_set_of(message);
    let marks = marks_of(alloc, ports)?;
    let sheet = sheet_of(alloc, ports.len(), groups)?;
    let mut out = Bytes::new(alloc);
    write_over(&mut out, &sheet, message, before)?;
    write_legend(&mut out, set, ports, &marks, groups)?;
    write_base(&mut out, &sheet, groups)?;
    write_body(&mut out, set, &sheet, ports, &marks, groups)?;
    write_changes(&mut out, &sheet, before, after, groups)?;
    write_raw(&mut out, b"</svg>\n")?;
    Ok(out)
}

/// Appends what stands over the bays, but for the legend.
#[tactic(auto, unfolding(crate::specs::Drawings::over))]
fn write_over(
    out: &mut Bytes,
    sheet: &Sheet,
    message: &Message,
    before: Option<&GroupList>,
) -> Result<(), NoMemory>
    requires sheet { IsSheet sheet.now }
    requires few { length message.now.groups < 2 ^ 32 }
    ensures { OnOk result (out.new ≡ out.old ++ over sheet.now message.now (option_copied before.entry)) }
{
    let groups = message.groups.as_slice();
    write_front(out, sheet.width(), sheet.height())?;
    write_heading(
        out,
        character_set_of(message),
        message.head.as_slice(),
        groups,
    )?;
    write_changes_since(out, before, groups)
}

/// Appends the bays without their cells.
#[tactic(auto, unfolding(crate::specs::Drawings::base))]
fn write_base(out: &mut Bytes, sheet: &Sheet, groups: &[CellGroup]) -> Result<(), NoMemory>
    requires sheet { IsSheet sheet.now }
    requires groups { AreListable groups.now }
    ensures { OnOk result (out.new ≡ out.old ++ base sheet.now groups.now) }
{
    write_template(out, &sheet.frame)?;
    write_bays(out, sheet)?;
    write_stacks(out, sheet, groups)?;
    write_views(out, sheet)
}

fn write_view(
    out: &mut Bytes,
    i: u64,
    left: u64,
    top: u64,
    width: u64,
    height: u64,
) -> Result<(), NoMemory>
    ensures { OnOk result (out.new ≡ out.old ++ view i left top width height) }
{
    put(out, b"<view id='v", i)?;
    put(out, b"' viewBox='", left)?;
    put(out, b" ", top)?;
    put(out, b" ", width)?;
    put(out, b" ", height)?;
    write_raw(out, b"'/>\n")
}

/// Appends where each bay stands, for a page that shows it alone.
#[tactic(auto, using(crate::proofs::Uptos::upto_more))]
fn write_views(out: &mut Bytes, sheet: &Sheet) -> Result<(), NoMemory>
    requires { IsSheet sheet.now }
    ensures { OnOk result (out.new ≡ out.old ++ views sheet.now) }
{
    let width = u64::from(sheet.frame.bay_width());
    let height = u64::from(sheet.frame.bay_height());
    for i in 0..sheet.bays.len() {
        write_view(
            out,
            i as u64,
            sheet.bay_left(i),
            sheet.bay_top(i),
            width,
            height,
        )?;
    }
    Ok(())
}

/// Appends the shape of each group.
fn write_body(
    out: &mut Bytes,
    set: CharacterSet,
    sheet: &Sheet,
    ports: &NameList,
    marks: &PortMarkList,
    groups: &[CellGroup],
) -> Result<(), NoMemory>
    requires sheet { IsSheet sheet.now }
    requires cells { All IsCell groups.now }
    ensures { OnOk result (out.new ≡ out.old ++ body set sheet.now ports.now marks.now groups.now) }
{
    for group in groups {
        write_shape(out, set, sheet, ports, marks, group)?;
    }
    Ok(())
}

#[tactic(auto, unfolding(crate::specs::Drawings::drawn))]
fn write_shape(
    out: &mut Bytes,
    set: CharacterSet,
    sheet: &Sheet,
    ports: &NameList,
    marks: &PortMarkList,
    group: &CellGroup,
) -> Result<(), NoMemory>
    requires sheet { IsSheet sheet.now }
    requires cell { IsCell group.now }
    ensures { OnOk result (out.new ≡ out.old ++ drawn set sheet.now ports.now marks.now group.now) }
{
    let cell = cell_of(sheet, group);
    match &group.facts {
        Some(facts) => {
            let port = number_of(ports, &facts.dest);
            write_filled(out, set, &cell, port, mark_at(marks, port), facts)
        }
        None => write_vacant(out, &cell),
    }
}

fn write_opening(out: &mut Bytes, width: u64, height: u64) -> Result<(), NoMemory>
    ensures { OnOk result (out.new ≡ out.old ++ opening width height) }
{
    put(
        out,
        b"<svg xmlns='http://www.w3.org/2000/svg' width='",
        width,
    )?;
    put(out, b"' height='", height)?;
    put(out, b"' viewBox='0 0 ", width)?;
    put(out, b" ", height)?;
    write_raw(out, b"'>\n")
}

#[tactic(auto, unfolding(crate::specs::Drawings::front))]
fn write_front(out: &mut Bytes, width: u64, height: u64) -> Result<(), NoMemory>
    ensures { OnOk result (out.new ≡ out.old ++ front width height) }
{
    write_opening(out, width, height)?;
    write_raw(out, texts())?;
    write_raw(out, boxes())?;
    write_raw(out, colours())?;
    write_raw(out, pattern())?;
    write_raw(out, key())
}

fn texts() -> &'static [u8]
    ensures { result.now ≡ texts }
{
    b"<style>text{font:12px sans-serif}.h{font-weight:bold;font-size:15px}.n{font-size:11px;text-anchor:middle;fill:#444}.s{font-size:9.5px;text-anchor:middle}.t{font-size:10.5px;font-weight:bold;text-anchor:middle}.m,.g{font-size:8.5px}.g,.o{text-anchor:end}.c,.o{font-size:8px}.t,.m,.g,.c,.o{paint-order:stroke;stroke:#fff;stroke-width:2.6px;stroke-linejoin:round}\n"
}

fn boxes() -> &'static [u8]
    ensures { result.now ≡ boxes }
{
    b"rect{stroke:#444;stroke-width:.7}.v{fill:none;stroke:#999;stroke-dasharray:3 2}.k{fill:#eef4f8;stroke:none}.w{fill:#f2efe8;stroke:none}.x{fill:#000;stroke:none}.z{fill:url(#z)}.e rect{fill-opacity:.4}.r rect{stroke:#0033aa;stroke-width:2.4}.d rect{stroke:#a00000;stroke-width:2.4;stroke-dasharray:5 2}\n"
}

/// Seven colours that differ for colour-blind readers too (Okabe and Ito 2008).
fn colours() -> &'static [u8]
    ensures { result.now ≡ colours }
{
    b".p0{fill:#e69f00}.p1{fill:#56b4e9}.p2{fill:#009e73}.p3{fill:#f0e442}.p4{fill:#0072b2}.p5{fill:#d55e00}.p6{fill:#cc79a7}</style>\n"
}

fn pattern() -> &'static [u8]
    ensures { result.now ≡ pattern }
{
    b"<defs><pattern id='z' width='9' height='9' patternUnits='userSpaceOnUse' patternTransform='rotate(45)'><path d='M0 0H3.5V9H0Z' fill='#222'/></pattern></defs>\n"
}

fn key() -> &'static [u8]
    ensures { result.now ≡ key }
{
    b"<text x='14' y='60' class='l'>Seen from aft; 20 foot: half a cell, fore left, aft right. Letters: port of discharge. Number: tonnes. R: reefer (blue outline). E: empty (pale). Class of dangerous goods (dashed). &#9660;: discharged next. Beside a stack: its tonnes.</text>\n"
}

fn two_digits(n: u64) -> [u8; 2]
    ensures { result ≡ two_digits n }
{
    [b'0' + (n / 10 % 10) as u8, b'0' + (n % 10) as u8]
}

fn write_row(out: &mut Bytes, frame: &Frame, base: u64, n: u32) -> Result<(), NoMemory>
    requires frame { IsFrame frame.now }
    requires column { n < columns frame.now }
    ensures { OnOk result (out.new ≡ out.old ++ row_label frame.now base n) }
{
    frame.is_narrow();
    write_label(out, 62 + 56 * u64::from(n), base, b"n")?;
    out.extend(&two_digits(u64::from(frame.row_of(n))))?;
    write_raw(out, b"</text>")
}

#[tactic(auto, using(crate::proofs::Uptos::upto_more), unfolding(crate::specs::Drawings::row_labels))]
fn write_rows(out: &mut Bytes, frame: &Frame, base: u64) -> Result<(), NoMemory>
    requires { IsFrame frame.now }
    ensures { OnOk result (out.new ≡ out.old ++ row_labels frame.now base) }
{
    for n in 0..frame.columns() {
        write_row(out, frame, base, n)?;
    }
    Ok(())
}

fn write_tier(out: &mut Bytes, frame: &Frame, low: u32, k: u32) -> Result<(), NoMemory>
    requires frame { IsFrame frame.now }
    requires low { low ≤ 82 }
    requires high { k ≤ 50 }
    ensures { OnOk result (out.new ≡ out.old ++ tier_label frame.now low k) }
{
    let tier = low + 2 * k;
    write_label(out, 20, u64::from(frame.top_of(tier)) + 16, b"n")?;
    out.extend(&two_digits(u64::from(tier)))?;
    write_raw(out, b"</text>")
}

#[tactic(auto, using(crate::proofs::Uptos::upto_more))]
fn write_tiers(out: &mut Bytes, frame: &Frame, low: u32, height: u32) -> Result<(), NoMemory>
    requires frame { IsFrame frame.now }
    requires low { low ≤ 82 }
    requires height { height ≤ 984 }
    ensures { OnOk result (out.new ≡ out.old ++ tier_labels frame.now low height) }
{
    for k in 0..height / 24 {
        write_tier(out, frame, low, k)?;
    }
    Ok(())
}

#[tactic(auto, unfolding(crate::specs::Drawings::ground))]
fn write_ground(out: &mut Bytes, frame: &Frame) -> Result<(), NoMemory>
    requires { IsFrame frame.now }
    ensures { OnOk result (out.new ≡ out.old ++ ground frame.now) }
{
    let width = 56 * u64::from(frame.columns());
    let deck = u64::from(frame.deck_height());
    let begin = u64::from(frame.hold_begin());
    write_areas(out, width, deck, begin, u64::from(frame.hold_height()))
}

fn write_areas(
    out: &mut Bytes,
    width: u64,
    deck: u64,
    begin: u64,
    hold: u64,
) -> Result<(), NoMemory>
    requires { deck ≤ 264 }
    ensures { OnOk result (out.new ≡ out.old ++ areas width deck begin hold) }
{
    write_area(out, 54, width, deck, b"k'/>")?;
    write_area(out, deck + 56, width, 4, b"x'/>")?;
    write_area(out, begin, width, hold, b"w'/>")
}

#[tactic(auto, unfolding(crate::specs::Drawings::area))]
fn write_area(
    out: &mut Bytes,
    top: u64,
    width: u64,
    height: u64,
    class: &[u8],
) -> Result<(), NoMemory>
    ensures { OnOk result (out.new ≡ out.old ++ area top width height class.now) }
{
    write_rect(out, 34, top, width, height)?;
    write_raw(out, class)
}

/// Appends what each bay is drawn on, for use at each.
fn write_template(out: &mut Bytes, frame: &Frame) -> Result<(), NoMemory>
    requires { IsFrame frame.now }
    ensures { OnOk result (out.new ≡ out.old ++ template frame.now) }
{
    write_raw(out, b"<defs><g id='b'>")?;
    write_ground(out, frame)?;
    write_rows(out, frame, 36)?;
    write_low_rows(out, frame)?;
    write_deck_tiers(out, frame)?;
    write_hold_tiers(out, frame)?;
    write_raw(out, b"</g></defs>\n")
}

/// Appends the row numbers below the hold.
#[tactic(auto, unfolding(crate::specs::Drawings::low_rows))]
fn write_low_rows(out: &mut Bytes, frame: &Frame) -> Result<(), NoMemory>
    requires { IsFrame frame.now }
    ensures { OnOk result (out.new ≡ out.old ++ low_rows frame.now) }
{
    let end = frame.hold_begin() + frame.hold_height() + 26;
    write_rows(out, frame, u64::from(end))
}

#[tactic(auto, unfolding(crate::specs::Drawings::deck_tiers))]
fn write_deck_tiers(out: &mut Bytes, frame: &Frame) -> Result<(), NoMemory>
    requires { IsFrame frame.now }
    ensures { OnOk result (out.new ≡ out.old ++ deck_tiers frame.now) }
{
    write_tiers(out, frame, frame.deck_low, frame.deck_height())
}

#[tactic(auto, unfolding(crate::specs::Drawings::hold_tiers))]
fn write_hold_tiers(out: &mut Bytes, frame: &Frame) -> Result<(), NoMemory>
    requires { IsFrame frame.now }
    ensures { OnOk result (out.new ≡ out.old ++ hold_tiers frame.now) }
{
    write_tiers(out, frame, frame.hold_low, frame.hold_height())
}

fn write_bay_number(out: &mut Bytes, n: u64) -> Result<(), NoMemory>
    ensures { OnOk result (out.new ≡ out.old ++ bay_digits n) }
{
    if n < 100 {
        return out.extend(&two_digits(n));
    }
    write_number(out, n)
}

fn write_use(out: &mut Bytes, left: u64, top: u64) -> Result<(), NoMemory>
    ensures { OnOk result (out.new ≡ out.old ++ use_at left top) }
{
    put(out, b"<use href='#b' x='", left)?;
    put(out, b"' y='", top)?;
    write_raw(out, b"'/>")
}

fn write_bay(out: &mut Bytes, left: u64, top: u64, number: u32) -> Result<(), NoMemory>
    requires left { left < 2 ^ 33 }
    requires top { top < 2 ^ 42 }
    ensures { OnOk result (out.new ≡ out.old ++ bay left top number) }
{
    let number = u64::from(number);
    write_use(out, left, top)?;
    write_label(out, left + 34, top + 18, b"h")?;
    write_raw(out, b"Bay ")?;
    write_bay_number(out, number)?;
    write_raw(out, b" (")?;
    write_bay_number(out, number.saturating_sub(1))?;
    write_raw(out, b", ")?;
    write_bay_number(out, number + 1)?;
    write_raw(out, b")</text>\n")
}

#[tactic(auto, using(crate::proofs::Uptos::upto_more))]
fn write_bays(out: &mut Bytes, sheet: &Sheet) -> Result<(), NoMemory>
    requires { IsSheet sheet.now }
    ensures { OnOk result (out.new ≡ out.old ++ bays sheet.now) }
{
    for i in 0..sheet.bays.len() {
        let number = sheet.bays.as_slice()[i];
        write_bay(out, sheet.bay_left(i), sheet.bay_top(i), number)?;
    }
    Ok(())
}
