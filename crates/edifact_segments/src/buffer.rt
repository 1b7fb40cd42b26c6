//! Elements that grow.
ghost use Rattle.std.specs.Prelude.{◌≡◌, ◌+◌, ◌<◌, ◌≤◌, ◌↔◌, [], ◌∷◌, ◌++◌, length, is_ok, if◌then◌else◌, slice_index, slice_index_or, IfOk, IsTrue, OnOk};
ghost use Rattle.edifact_segments.specs.Pieces.{on_last, IsAscending};
ghost use Rattle.edifact_segments.specs.Elements.{component_at};

use std::alloc::Global;
use std::marker::Model;
use std::mem;
use stow_data::NoMemory;

/// So many bytes, components or elements stand in a list of their own.
const MANY: usize = 1_000;

/// A growing list of elements, each with its components. Contracts see the list of the elements, each as
/// the list of its components, each as its bytes. More than 2^32 bytes or components are want of memory.
#[derive(Drop)]
pub struct ElementBuffer {
    bytes: Vec<u8>,

    /// Where each component begins in the bytes.
    components: Vec<u32>,

    /// Where each element begins in the components.
    elements: Vec<u32>,
}

impl Model for ElementBuffer {
    ghost use Rattle.std.specs.Prelude.{List, ℕ, length};
    ghost use Rattle.edifact_segments.specs.Pieces.{pieces, IsAscending};

    ghost Value = { List (List (List ℕ)) };

    ghost view = { λ e. pieces e.elements.items (pieces e.components.items e.bytes.items) };

    ghost invariant = { λ e. IsAscending e.elements.items (length e.components.items) × IsAscending e.components.items (length e.bytes.items) };
}

impl ElementBuffer {
    /// No element. It takes no memory.
    pub fn new(alloc: Global) -> ElementBuffer
        ensures { result ≡ [] }
    {
        ElementBuffer {
            bytes: Vec::new(alloc),
            components: Vec::new(alloc),
            elements: Vec::new(alloc),
        }
    }

    /// Drops the elements, and keeps the room.
    pub fn clear(&mut self)
        ensures { self.new ≡ [] }
    {
        self.elements.clear();
        self.components.clear();
        self.bytes.clear();
    }

    /// Gives unused room back. The elements stay.
    pub(crate) fn fit(&mut self)
        ensures { self.new ≡ self.old }
    {
        self.elements.shrink_to_fit();
        self.components.shrink_to_fit();
        self.bytes.shrink_to_fit();
    }

    /// Whether the list is long enough to stand alone.
    pub(crate) fn is_long(&self) -> bool {
        self.bytes.len() >= MANY || self.components.len() >= MANY || self.elements.len() >= MANY
    }

    /// The number of elements.
    pub fn len(&self) -> usize
        ensures { result ≡ length self.now }
    {
        self.elements.len()
    }

    /// Whether there is no element.
    pub fn is_empty(&self) -> bool
        ensures { IsTrue result ↔ (self.now ≡ []) }
    {
        self.len() == 0
    }

    /// The number of components of an element, from 0. An absent element has none.
    pub fn components(&self, element: usize) -> usize
        ensures { result ≡ length (slice_index_or self.now element []) }
    {
        if element < self.elements.len() {
            let (from, to) = piece(self.elements.as_slice(), self.components.len(), element);
            to - from
        } else {
            0
        }
    }

    /// The bytes of a component of an element, both from 0: none where either is absent.
    pub fn component(&self, element: usize, component: usize) -> &[u8]
        ensures { result.now ≡ component_at self.now element component }
    {
        if element >= self.elements.len() {
            return &[];
        }
        let (from, to) = piece(self.elements.as_slice(), self.components.len(), element);
        if component >= to - from {
            return &[];
        }
        let (from, to) = piece(
            self.components.as_slice(),
            self.bytes.len(),
            from + component,
        );
        &self.bytes.as_slice()[from..to]
    }

    /// Appends an element without components. The list stays as it was where memory is wanting.
    pub fn start_element(&mut self) -> Result<(), NoMemory>
        ensures { self.new ≡ (if is_ok result then self.old ++ [] ∷ [] else self.old) }
    {
        let component = start(self.components.len())?;
        self.elements.push(component)?;
        Ok(())
    }

    /// Appends a component to the last element. The list stays as it was where memory is wanting.
    pub fn add_component(&mut self, text: &[u8]) -> Result<(), NoMemory>
        requires { 0 < length self.old }
        ensures { self.new ≡ (if is_ok result then on_last (λ e. e ++ text.now ∷ []) self.old else self.old) }
    {
        let from = start(self.bytes.len())?;
        self.components.try_reserve(1)?;
        self.bytes.extend_from_slice(text)?;
        self.components.push_reserved(from);
        Ok(())
    }

    /// Appends an element of one component. The list stays as it was where memory is wanting.
    pub fn push(&mut self, text: &[u8]) -> Result<(), NoMemory>
        ensures { self.new ≡ (if is_ok result then self.old ++ (text.now ∷ []) ∷ [] else self.old) }
    {
        let component = start(self.components.len())?;
        let from = start(self.bytes.len())?;
        self.elements.try_reserve(1)?;
        self.components.try_reserve(1)?;
        self.bytes.extend_from_slice(text)?;
        self.components.push_reserved(from);
        self.elements.push_reserved(component);
        Ok(())
    }

    /// Appends the elements of another list, which is left with any. They are moved where there are none.
    pub(crate) fn take_over(
        &mut self,
        alloc: Global,
        other: &mut ElementBuffer,
    ) -> Result<(), NoMemory>
        ensures appended { OnOk result (self.new ≡ self.old ++ other.old) }
        ensures grows { length self.old ≤ length self.new }
    {
        if self.is_empty() {
            *self = mem::replace(other, ElementBuffer::new(alloc));
            Ok(())
        } else {
            self.append(other)
        }
    }

    /// Appends the elements of another list.
    fn append(&mut self, other: &ElementBuffer) -> Result<(), NoMemory>
        ensures appended { OnOk result (self.new ≡ self.old ++ other.now) }
        ensures grows { length self.old ≤ length self.new }
    {
        for i in 0..other.len() {
            self.append_element(other, i)?;
        }
        Ok(())
    }

    /// Appends an element of another list.
    fn append_element(&mut self, other: &ElementBuffer, i: usize) -> Result<(), NoMemory>
        ensures appended { OnOk result (self.new ≡ self.old ++ slice_index_or other.now i [] ∷ []) }
        ensures grows { length self.old ≤ length self.new }
    {
        self.start_element()?;
        for k in 0..other.components(i) {
            self.add_component(other.component(i, k))?;
        }
        Ok(())
    }
}

/// Where what is put behind so many items begins.
pub(crate) fn start(items: usize) -> Result<u32, NoMemory>
    ensures { IfOk result (λ n. n ≡ items) }
{
    match u32::try_from(items) {
        Ok(n) => Ok(n),
        Err(_) => Err(NoMemory),
    }
}

/// Where a piece begins and where it ends.
fn piece(starts: &[u32], end: usize, i: usize) -> (usize, usize)
    requires within { i < length starts.now }
    requires ascending { IsAscending starts.now end }
    ensures from { result.0 ≡ slice_index starts.now i }
    ensures to { result.1 ≡ slice_index_or starts.now (i + 1) end }
    ensures ordered { result.0 ≤ result.1 }
    ensures bounded { result.1 ≤ end }
{
    let from = starts[i] as usize;
    let to = match starts.get(i + 1) {
        Some(next) => *next as usize,
        None => end,
    };
    (from, to)
}
