//! Each public call once.
ghost use Rattle.std.specs.Prelude.{◌≡◌, ◌<◌, IfOk};
ghost use Rattle.stow_report.specs.Listings.{IsCell};

use baplie::{CellGroup, Facts, GroupList, Message};
use bay_views::{add_ports, escape, escape_text, index_page, picture};
use edifact_segments::{ElementBuffer, Segment, SegmentList};
use std::alloc::Global;
use std::test::Fail;
use stow_data::{Bytes, Length, Name, NameList, NoMemory, NumberList, Word, WordList};

/// Whether a text holds another one.
fn has(text: &Bytes, part: &[u8]) -> bool {
    (0..text.len()).any(|front| text.as_slice()[front..].starts_with(part))
}

fn group(alloc: Global, bay: u32, tier: u32, facts: Option<Facts>) -> CellGroup
    requires bay { bay < 1000 }
    requires tier { tier < 100 }
    ensures { IsCell result }
{
    CellGroup {
        bay,
        row: 1,
        tier,
        facts,
        segments: SegmentList::new(alloc),
    }
}

/// A container whose names hold characters of markup.
fn marked() -> Facts {
    Facts {
        id: Name::of(b"A<B1"),
        iso: Name::of(b"42R1"),
        long: Length::Forty,
        empty: true,
        kg: 22_000,
        reefer: true,
        class: Some(Name::of(b"3&\"")),
        dest: Name::of(b"DE>AM"),
    }
}

fn segment(alloc: Global, tag: [u8; 3]) -> Result<Segment, NoMemory> {
    Segment::of(alloc, tag, ElementBuffer::new(alloc))
}

fn message_of(alloc: Global, groups: GroupList) -> Result<Message, NoMemory>
    ensures { IfOk result (λ m. m.groups ≡ groups) }
{
    Ok(Message {
        service: segment(alloc, *b"UNB")?,
        title: segment(alloc, *b"UNH")?,
        head: SegmentList::new(alloc),
        groups,
    })
}

fn drawn(alloc: Global) -> Result<Bytes, NoMemory> {
    let mut groups = GroupList::new(alloc);
    groups.push(group(alloc, 2, 2, Some(marked())))?;
    groups.push(group(alloc, 3, 82, None))?;
    let message = message_of(alloc, groups)?;
    let mut ports = NameList::new(alloc);
    add_ports(&mut ports, message.groups.as_slice())?;
    picture(alloc, &ports, &message, None, None)
}

/// The plan of `drawn` behind one where its container stood in another cell, beside one that it lacks.
fn drawn_behind(alloc: Global) -> Result<Bytes, NoMemory> {
    let mut before = GroupList::new(alloc);
    before.push(group(alloc, 2, 4, Some(marked())))?;
    let other = Facts {
        id: Name::of(b"C2"),
        ..marked()
    };
    before.push(group(alloc, 2, 2, Some(other)))?;
    let mut groups = GroupList::new(alloc);
    groups.push(group(alloc, 2, 2, Some(marked())))?;
    let message = message_of(alloc, groups)?;
    let mut ports = NameList::new(alloc);
    add_ports(&mut ports, message.groups.as_slice())?;
    picture(alloc, &ports, &message, Some(&before), None)
}

#[test]
fn counts_changes(rt: HostRuntime) -> Result<(), Fail> {
    let text = drawn_behind(rt.alloc())?;
    let line: &[u8] = b"&#9650; 0 loaded, &#9660; 1 discharged, &#9670; 1 rehandled</text>";
    assert_eq!(rt; has(&text, line), true);
    assert_eq!(rt; has(&text, b">&#9670;</text>"), true);
    Ok(())
}

#[test]
fn escapes_texts(rt: HostRuntime) -> Result<(), Fail> {
    let mut out = Bytes::new(rt.alloc());
    escape(&mut out, b"a<b>&\"'\xE9\x07 ")?;
    escape_text(&mut out, "é<")?;
    let wanted: &[u8] = b"a&lt;b&gt;&amp;&quot;&apos;&#233;&#65533; \xC3\xA9&lt;";
    assert_eq!(rt; out.as_slice(), wanted);
    Ok(())
}

#[test]
fn draws_cells(rt: HostRuntime) -> Result<(), Fail> {
    let text = drawn(rt.alloc())?;
    let title: &[u8] =
        b"<title>0020102 A&lt;B1 40 DE&gt;AM 22000 kg, reefer, empty, class 3&amp;&quot;</title>";
    assert_eq!(rt; has(&text, title), true);
    assert_eq!(rt; has(&text, b"<title>0030182 empty</title>"), true);
    assert_eq!(rt;
        has(
            &text,
            b">1 containers, 22.0 t; 20 foot: 0 containers, 0.0 t; 40 foot: 1 containers, 22.0 t</text>"
        ),
        true
    );
    Ok(())
}

#[test]
fn writes_legend(rt: HostRuntime) -> Result<(), Fail> {
    let text = drawn(rt.alloc())?;
    assert_eq!(rt; has(&text, b">DE&gt;AM: 1, 22.0 t</text>"), true);
    assert_eq!(rt; has(&text, b">Bay 02 (01, 03)</text>"), true);
    Ok(())
}

fn names(alloc: Global) -> Result<WordList, NoMemory> {
    let mut names = WordList::new(alloc);
    names.push(Word::of(alloc, "a b<.edi")?)?;
    names.push(Word::of(alloc, "c.edi")?)?;
    Ok(names)
}

fn page(alloc: Global) -> Result<Bytes, NoMemory> {
    let names = names(alloc)?;
    let page = index_page(alloc, &names, &NumberList::new(alloc));
    drop(names);
    page
}

#[test]
fn steps_through_pictures(rt: HostRuntime) -> Result<(), Fail> {
    let page = page(rt.alloc())?;
    let link: &[u8] = b"<a href='a%20b%3C.edi.svg'>a b&lt;.edi</a>";
    assert!(rt; has(&page, link));
    assert!(rt; has(&page, b"<a href='#c1'>Next &gt;</a>"));
    assert!(rt; has(&page, b"<a href='#c0'>&lt; Previous</a>"));
    Ok(())
}
