//! The elements of a segment.
ghost use Rattle.std.specs.Prelude.{◌≡◌, ◌≤◌, ◌↔◌, [], length, IfOk, IsTrue, slice_index_or, slice_range};
ghost use Rattle.edifact_segments.specs.Elements.{component_at};

use crate::buffer::{ElementBuffer, start};
use std::alloc::Global;
use std::marker::Model;
use std::rc::Rc;
use stow_data::NoMemory;

/// The elements of a segment, each with its components. Contracts see the list of the elements, each as
/// the list of its components, each as its bytes.
///
/// Segments of one interchange share the list that their elements stand in, so that a segment takes little
/// memory of its own, and a copy none.
#[derive(Drop)]
pub struct ElementList {
    shared: Rc<ElementBuffer>,
    from: u32,
    to: u32,
}

impl Model for ElementList {
    ghost use Rattle.std.specs.Prelude.{List, ℕ, ◌≤◌, length, slice_range};

    ghost Value = { List (List (List ℕ)) };

    ghost view = { λ e. slice_range e.shared.value e.from e.to };

    ghost invariant = { λ e. (e.from ≤ e.to) × (e.to ≤ length e.shared.value) };
}

impl ElementList {
    /// A list of these elements.
    pub fn of(alloc: Global, elements: ElementBuffer) -> Result<ElementList, NoMemory>
        ensures { IfOk result (λ e. e ≡ elements) }
    {
        let to = start(elements.len())?;
        let shared = Rc::new(alloc, elements)?;
        Ok(ElementList {
            shared,
            from: 0,
            to,
        })
    }

    /// The elements from one number up to another of a list, which is shared.
    pub(crate) fn part(
        elements: &Rc<ElementBuffer>,
        from: u32,
        to: u32,
    ) -> Result<ElementList, NoMemory>
        requires ordered { from ≤ to }
        requires within { to ≤ length elements.now.value }
        ensures { IfOk result (λ e. e ≡ slice_range elements.now.value from to) }
    {
        Ok(ElementList {
            shared: elements.clone()?,
            from,
            to,
        })
    }

    /// The number of elements.
    pub fn len(&self) -> usize
        ensures { result ≡ length self.now }
    {
        (self.to - self.from) as usize
    }

    /// Whether there is no element.
    pub fn is_empty(&self) -> bool
        ensures { IsTrue result ↔ (self.now ≡ []) }
    {
        self.len() == 0
    }

    /// The number of components of an element, from 0. An absent element has none.
    pub fn components(&self, element: usize) -> usize
        ensures { result ≡ length (slice_index_or self.now element []) }
    {
        let from = self.from as usize;
        let to = self.to as usize;
        if element < to - from {
            self.shared.as_ref().components(from + element)
        } else {
            0
        }
    }

    /// The bytes of a component of an element, both from 0: none where either is absent.
    pub fn component(&self, element: usize, component: usize) -> &[u8]
        ensures { result.now ≡ component_at self.now element component }
    {
        let from = self.from as usize;
        let to = self.to as usize;
        if element < to - from {
            self.shared.as_ref().component(from + element, component)
        } else {
            &[]
        }
    }

    /// A copy of the list, which shares its elements.
    pub fn copy(&self) -> Result<ElementList, NoMemory>
        ensures { IfOk result (λ e. e ≡ self.now) }
    {
        Ok(ElementList {
            shared: self.shared.clone()?,
            from: self.from,
            to: self.to,
        })
    }
}
