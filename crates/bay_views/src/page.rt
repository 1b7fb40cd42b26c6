//! The page that steps through several pictures.
ghost use Rattle.std.specs.Prelude.{◌≡◌, ◌<◌, ◌≤◌, ◌+◌, ◌++◌, length, slice_index_or, IfOk, OnOk};
ghost use Rattle.bay_views.specs.Pages.{is_unreserved, hex_digit, percent, reference, step, section_front, previous, counted, next, links, printed, prints, section, section_of, page_mark, is_own_page, page_head, page_keys, page_front, index_page};

use crate::escaping::escape_text;
use crate::marks::{put, write_raw};
use itoa::Buffer;
use std::alloc::Global;
use stow_data::{Bytes, NoMemory, NumberList, WordList};

fn is_unreserved(byte: u8) -> bool
    ensures { result ≡ is_unreserved byte }
{
    byte.is_ascii_alphanumeric() || byte == b'-' || byte == b'.' || byte == b'_' || byte == b'~'
}

fn hex_digit(n: u8) -> u8
    requires { n < 16 }
    ensures { result ≡ hex_digit n }
{
    if n < 10 { b'0' + n } else { b'7' + n }
}

fn write_percent(out: &mut Bytes, byte: u8) -> Result<(), NoMemory>
    ensures { OnOk result (out.new ≡ out.old ++ percent byte) }
{
    if is_unreserved(byte) {
        return out.push(byte);
    }
    out.push(b'%')?;
    out.push(hex_digit(byte / 16))?;
    out.push(hex_digit(byte % 16))
}

/// Appends a name as a reference: all but letters, digits, `-`, `.`, `_` and `~` by percent and two
/// hexadecimal digits (RFC 3986).
fn write_reference(out: &mut Bytes, name: &str) -> Result<(), NoMemory>
    ensures { OnOk result (out.new ≡ out.old ++ reference name.now) }
{
    for byte in name.as_bytes() {
        write_percent(out, *byte)?;
    }
    Ok(())
}

fn write_step(out: &mut Bytes, i: u64, word: &[u8]) -> Result<(), NoMemory>
    ensures { OnOk result (out.new ≡ out.old ++ step i word.now) }
{
    put(out, b"<a href='#c", i)?;
    write_raw(out, b"'>")?;
    write_raw(out, word)?;
    write_raw(out, b"</a> ")
}

#[tactic(auto, unfolding(crate::specs::Pages::previous))]
fn write_previous(out: &mut Bytes, i: u64) -> Result<(), NoMemory>
    ensures { OnOk result (out.new ≡ out.old ++ previous i) }
{
    if i > 0 {
        return write_step(out, i - 1, b"&lt; Previous");
    }
    Ok(())
}

#[tactic(auto, unfolding(crate::specs::Pages::next))]
fn write_next(out: &mut Bytes, i: u64, many: u64) -> Result<(), NoMemory>
    requires { i < many }
    ensures { OnOk result (out.new ≡ out.old ++ next i many) }
{
    if i + 1 >= many {
        return Ok(());
    }
    write_step(out, i + 1, b"Next &gt;")
}

fn write_section(out: &mut Bytes, i: u64, many: u64, name: &str) -> Result<(), NoMemory>
    requires { i < many }
    ensures { OnOk result (out.new ≡ out.old ++ section i many name.now) }
{
    write_section_front(out, i)?;
    write_previous(out, i)?;
    write_counted(out, i, many)?;
    write_next(out, i, many)?;
    write_links(out, name)
}

#[tactic(auto, unfolding(crate::specs::Pages::section_front))]
fn write_section_front(out: &mut Bytes, i: u64) -> Result<(), NoMemory>
    ensures { OnOk result (out.new ≡ out.old ++ section_front i) }
{
    put(out, b"<section id='c", i)?;
    write_raw(out, b"'><p>")
}

#[tactic(auto, unfolding(crate::specs::Pages::counted))]
fn write_counted(out: &mut Bytes, i: u64, many: u64) -> Result<(), NoMemory>
    requires { i < many }
    ensures { OnOk result (out.new ≡ out.old ++ counted i many) }
{
    put(out, b"<b>", i + 1)?;
    put(out, b" of ", many)?;
    write_raw(out, b"</b> ")
}

fn bays_at(bays: &NumberList, i: usize) -> u32
    ensures { result ≡ slice_index_or bays.now i 0 }
{
    if i < bays.len() {
        bays.as_slice()[i]
    } else {
        0
    }
}

fn write_section_of(
    out: &mut Bytes,
    names: &WordList,
    bays: &NumberList,
    i: usize,
) -> Result<(), NoMemory>
    requires { i < length names.now }
    ensures { OnOk result (out.new ≡ out.old ++ section_of names.now bays.now i) }
{
    let name = names.at(i).as_str();
    let many = names.len() as u64;
    write_section(out, i as u64, many, name)?;
    write_prints(out, name, bays_at(bays, i))?;
    write_raw(out, b"</section>\n")
}

#[tactic(auto, unfolding(crate::specs::Pages::printed))]
fn write_printed(out: &mut Bytes, name: &str, i: u64) -> Result<(), NoMemory>
    ensures { OnOk result (out.new ≡ out.old ++ printed name.now i) }
{
    write_raw(out, b"<img class='b' alt='' src='")?;
    write_reference(out, name)?;
    put(out, b".svg#v", i)?;
    write_raw(out, b"'>\n")
}

#[tactic(auto, using(crate::proofs::Uptos::upto_more), unfolding(crate::specs::Pages::prints))]
fn write_prints(out: &mut Bytes, name: &str, bays: u32) -> Result<(), NoMemory>
    ensures { OnOk result (out.new ≡ out.old ++ prints name.now bays) }
{
    for i in 0..bays {
        write_printed(out, name, u64::from(i))?;
    }
    Ok(())
}

fn write_links(out: &mut Bytes, name: &str) -> Result<(), NoMemory>
    ensures { OnOk result (out.new ≡ out.old ++ links name.now) }
{
    write_raw(out, b"<a href='")?;
    write_reference(out, name)?;
    write_raw(out, b".svg'>")?;
    escape_text(out, name)?;
    write_raw(out, b"</a></p>\n<object type='image/svg+xml' data='")?;
    write_reference(out, name)?;
    write_raw(out, b".svg'></object>\n")
}

fn page_mark() -> &'static [u8]
    ensures { result.now ≡ page_mark }
{
    b"<!DOCTYPE html>\n<!-- Written by stow-view, which writes it anew. -->\n"
}

/// Whether a text is a page of this program, or empty.
pub fn is_own_page(text: &[u8]) -> bool
    ensures { result ≡ is_own_page text.now }
{
    text.is_empty() || text.starts_with(page_mark())
}

fn page_head() -> &'static [u8]
    ensures { result.now ≡ page_head }
{
    b"<html lang='en'><head><meta charset='utf-8'><title>Bay views</title>\n<style>body{font:14px sans-serif;margin:0 12px}section{min-height:100vh}p{margin:0;padding:8px 0}.b{display:none}@media print{p,object{display:none}.b{display:block;max-width:100%;max-height:95vh;page-break-after:always}}</style>\n"
}

/// The script of the arrow keys.
fn page_keys() -> &'static [u8]
    ensures { result.now ≡ page_keys }
{
    b"<script>document.onkeydown=function(e){var d=e.key=='ArrowRight'?1:e.key=='ArrowLeft'?-1:0,i=(parseInt(location.hash.slice(2))||0)+d;if(d&&document.getElementById('c'+i)){location.hash='c'+i;e.preventDefault()}}</script></head><body>\n"
}

#[tactic(auto, unfolding(crate::specs::Pages::page_front))]
fn write_page_front(out: &mut Bytes) -> Result<(), NoMemory>
    ensures { OnOk result (out.new ≡ out.old ++ page_front) }
{
    write_raw(out, page_mark())?;
    write_raw(out, page_head())?;
    write_raw(out, page_keys())
}

/// The page of these files, of which each has its picture beside it under its name and `.svg`, with so many
/// bays: a section for each with its picture, links to the one before and the one behind, to which the arrow
/// keys step too, and the bays, of which each is printed on a page of its own.
#[tactic(auto, using(crate::proofs::Uptos::upto_more))]
pub fn index_page(alloc: Global, names: &WordList, bays: &NumberList) -> Result<Bytes, NoMemory>
    ensures { IfOk result (λ text. text ≡ index_page names.now bays.now) }
{
    let mut out = Bytes::new(alloc);
    write_page_front(&mut out)?;
    for i in 0..names.len() {
        write_section_of(&mut out, names, bays, i)?;
    }
    write_raw(&mut out, b"</body></html>\n")?;
    Ok(out)
}
