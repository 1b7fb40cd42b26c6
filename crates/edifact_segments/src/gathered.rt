//! Segments as they are gathered.
ghost use Rattle.std.specs.Prelude.{◌≡◌, ◌<◌, ◌^◌, [], ◌∷◌, ◌++◌, length, IfOk, OnOk};
ghost use Rattle.edifact_segments.specs.Elements.{segment};
ghost use Rattle.edifact_segments.specs.Gathered.{AreWithin, segments_of};

use crate::buffer::{ElementBuffer, start};
use crate::elements::ElementList;
use crate::segments::{Segment, SegmentList};
use std::alloc::Global;
use std::marker::Model;
use std::mem;
use std::rc::Rc;
use stow_data::NoMemory;

/// So many segments share a list of elements.
const SHARING: usize = 4_096;

/// A segment whose elements stand in a list, from one number up to another.
#[derive(Clone, Copy)]
pub(crate) struct Part {
    pub tag: [u8; 3],
    pub from: u32,
    pub to: u32,
}

/// Segments as they are gathered from an interchange. Contracts see the list of the segments.
///
/// Segments that follow each other share a list of elements. A long segment has its list for itself.
#[derive(Drop)]
pub(crate) struct GatheredSegments {
    alloc: Global,
    closed: SegmentList,

    /// The segments behind the closed ones, whose list of elements still grows.
    growing: Vec<Part>,
    elements: ElementBuffer,
}

impl Model for GatheredSegments {
    ghost use Rattle.std.specs.Prelude.{List, ◌++◌, length};
    ghost use Rattle.edifact_segments.specs.Gathered.{AreWithin, segments_of};
    ghost use Rattle.edifact_segments.specs.declared.segments.Segment.{Segment};

    ghost Value = { List Segment };

    ghost view = { λ g. g.closed ++ segments_of g.elements g.growing.items };

    ghost invariant = { λ g. AreWithin g.growing.items (length g.elements) };
}

impl GatheredSegments {
    /// No segment. It takes no memory.
    pub(crate) fn new(alloc: Global) -> GatheredSegments
        ensures { result ≡ [] }
    {
        GatheredSegments {
            alloc,
            closed: SegmentList::new(alloc),
            growing: Vec::new(alloc),
            elements: ElementBuffer::new(alloc),
        }
    }

    /// The number of segments.
    pub(crate) fn len(&self) -> usize
        requires { length self.now < 2 ^ 32 }
        ensures { result ≡ length self.now }
    {
        self.closed.len() + self.growing.len()
    }

    /// Appends a segment of this tag and these elements, of which any are left.
    pub(crate) fn push(
        &mut self,
        tag: [u8; 3],
        elements: &mut ElementBuffer,
    ) -> Result<(), NoMemory>
        ensures { OnOk result (self.new ≡ self.old ++ segment tag elements.old ∷ []) }
    {
        let alone = elements.is_long();
        self.close_where(alone)?;
        self.push_shared(tag, elements)?;
        let full = self.growing.len() >= SHARING;
        self.close_where(alone || full)
    }

    /// Appends a segment to those whose list grows.
    fn push_shared(&mut self, tag: [u8; 3], elements: &mut ElementBuffer) -> Result<(), NoMemory>
        ensures { OnOk result (self.new ≡ self.old ++ segment tag elements.old ∷ []) }
    {
        let from = start(self.elements.len())?;
        self.elements.take_over(self.alloc, elements)?;
        let to = start(self.elements.len())?;
        self.growing.push(Part { tag, from, to })?;
        Ok(())
    }

    /// Where it is told to, the list that grows is closed. The segments stay.
    fn close_where(&mut self, told: bool) -> Result<(), NoMemory>
        ensures { OnOk result (self.new ≡ self.old) }
    {
        if told { self.close() } else { Ok(()) }
    }

    /// Closes the list that grows. The segments stay.
    fn close(&mut self) -> Result<(), NoMemory>
        ensures { OnOk result (self.new ≡ self.old) }
    {
        let growing = mem::replace(&mut self.growing, Vec::new(self.alloc));
        let mut elements = mem::replace(&mut self.elements, ElementBuffer::new(self.alloc));
        elements.fit();
        let shared = Rc::new(self.alloc, elements)?;
        append_parts(&mut self.closed, &shared, growing.as_slice())
    }

    /// The list of the segments.
    pub(crate) fn finish(self) -> Result<SegmentList, NoMemory>
        ensures { IfOk result (λ segments. segments ≡ self) }
    {
        let mut closed = self.closed;
        let mut elements = self.elements;
        elements.fit();
        let shared = Rc::new(self.alloc, elements)?;
        append_parts(&mut closed, &shared, self.growing.as_slice())?;
        closed.fit();
        Ok(closed)
    }
}

/// Appends segments whose elements stand in this list.
fn append_parts(
    segments: &mut SegmentList,
    elements: &Rc<ElementBuffer>,
    parts: &[Part],
) -> Result<(), NoMemory>
    requires { AreWithin parts.now (length elements.now.value) }
    ensures { OnOk result (segments.new ≡ segments.old ++ segments_of elements.now.value parts.now) }
{
    for part in parts {
        segments.push(Segment {
            tag: part.tag,
            elements: ElementList::part(elements, part.from, part.to)?,
        })?;
    }
    Ok(())
}
