//! Segments.
ghost use Rattle.std.specs.Prelude.{◌≡◌, IfOk};
ghost use Rattle.edifact_segments.specs.Elements.{segment};

use crate::buffer::ElementBuffer;
use crate::elements::ElementList;
use std::alloc::Global;
use stow_data::{NoMemory, Seq};

/// A segment: a tag of three letters, and the elements behind it.
#[derive(Drop)]
pub struct Segment {
    pub tag: [u8; 3],
    pub elements: ElementList,
}

impl Segment {
    /// A segment with this tag and these elements.
    pub fn of(alloc: Global, tag: [u8; 3], elements: ElementBuffer) -> Result<Segment, NoMemory>
        ensures { IfOk result (λ s. s ≡ segment tag elements) }
    {
        Ok(Segment {
            tag,
            elements: ElementList::of(alloc, elements)?,
        })
    }

    /// A copy of the segment, which shares its elements.
    pub fn copy(&self) -> Result<Segment, NoMemory>
        ensures { IfOk result (λ s. s ≡ self.now) }
    {
        Ok(Segment {
            tag: self.tag,
            elements: self.elements.copy()?,
        })
    }
}

/// A list of segments.
pub type SegmentList = Seq<Segment>;
