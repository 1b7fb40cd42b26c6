//! A segment while it is read.
ghost use Rattle.std.specs.Prelude.{◌≡◌, ◌+◌, ◌-◌, ◌<◌, ◌^◌, ℕ, List, [], ◌∷◌, ◌++◌, length, replicate, OnOk, MatchOption, vec_len};
ghost use Rattle.edifact_segments.specs.Drafts.{IsDraft, IsTagKept, IsTagNext, IsTagOf, padded, placed};
ghost use Rattle.edifact_segments.specs.Grammar.{IsTag, is_capital};
ghost use Rattle.edifact_segments.specs.Pieces.{on_last};

use crate::buffer::ElementBuffer;
use std::alloc::Global;
use stow_data::NoMemory;

/// A segment while it is read. The elements are in canonical form all the way: an empty component or
/// element is only counted, until something stands behind it.
#[derive(Drop)]
pub(crate) struct Draft {
    /// The tag, once the first element is read and is one.
    pub tag: Option<[u8; 3]>,
    pub elements: ElementBuffer,

    /// How many elements are read, the tag's included, and how many components of the next.
    pub element: usize,
    pub component: usize,

    /// The bytes of the next component up to its last released one: none where no byte was released.
    pub text: Vec<u8>,
}

impl Draft {
    pub(crate) fn new(alloc: Global) -> Draft
        ensures draft { IsDraft result [] [] }
        ensures text { result.text.items ≡ [] }
    {
        Draft {
            tag: None,
            elements: ElementBuffer::new(alloc),
            element: 0,
            component: 0,
            text: Vec::new(alloc),
        }
    }

    /// Nothing is read yet. The room is kept.
    pub(crate) fn clear(&mut self)
        ensures draft { IsDraft self.new [] [] }
        ensures text { self.new.text.items ≡ [] }
    {
        self.tag = None;
        self.elements.clear();
        self.element = 0;
        self.component = 0;
        self.text.clear();
    }

    /// A byte behind the release character, and the bytes before it that stand as they are.
    pub(crate) fn release(&mut self, run: &[u8], byte: u8) -> Result<(), NoMemory>
        ensures draft { (closed : List (List (List ℕ))) (now : List (List ℕ)) → IsDraft self.old closed now → IsDraft self.new closed now }
        ensures element { self.new.element ≡ self.old.element }
        ensures component { self.new.component ≡ self.old.component }
        ensures text { OnOk result (self.new.text.items ≡ (self.old.text.items ++ run.now) ++ byte ∷ []) }
    {
        self.text.extend_from_slice(run)?;
        self.text.push(byte)?;
        Ok(())
    }

    /// A component ends with these bytes.
    pub(crate) fn end_component(&mut self, run: &[u8]) -> Result<(), NoMemory>
        requires { self.old.component < 2 ^ 63 }
        ensures draft { (closed : List (List (List ℕ))) (now : List (List ℕ)) → IsDraft self.old closed now
            → OnOk result (IsDraft self.new closed (now ++ (self.old.text.items ++ run.now) ∷ [])) }
        ensures element { OnOk result (self.new.element ≡ self.old.element) }
        ensures component { OnOk result (self.new.component ≡ self.old.component + 1) }
        ensures text { OnOk result (self.new.text.items ≡ []) }
    {
        lengthen(&mut self.text, run)?;
        let text = joined(self.text.as_slice(), run);
        keep(&mut self.elements, self.element, self.component, text)?;
        self.component += 1;
        self.text.clear();
        Ok(())
    }

    /// An element ends with these bytes.
    pub(crate) fn end_element(&mut self, run: &[u8]) -> Result<(), NoMemory>
        requires { self.old.element < 2 ^ 63 }
        ensures draft { (closed : List (List (List ℕ))) (now : List (List ℕ)) → IsDraft self.old closed now
            → OnOk result (IsDraft self.new (closed ++ (now ++ (self.old.text.items ++ run.now) ∷ []) ∷ []) []) }
        ensures element { OnOk result (self.new.element ≡ self.old.element + 1) }
        ensures component { OnOk result (self.new.component ≡ 0) }
        ensures text { OnOk result (self.new.text.items ≡ []) }
    {
        lengthen(&mut self.text, run)?;
        let text = joined(self.text.as_slice(), run);
        keep(&mut self.elements, self.element, self.component, text)?;
        self.tag = next_tag(self.tag, self.element, self.component, text);
        self.element += 1;
        self.component = 0;
        self.text.clear();
        Ok(())
    }
}

/// Appends the run to the text where there is one.
fn lengthen(text: &mut Vec<u8>, run: &[u8]) -> Result<(), NoMemory>
    ensures none { text.old.items ≡ [] → text.new.items ≡ [] }
    ensures some { 0 < length text.old.items → OnOk result (text.new.items ≡ text.old.items ++ run.now) }
{
    if !text.is_empty() {
        text.extend_from_slice(run)?;
    }
    Ok(())
}

/// The bytes of a component: the text where there is one, which has the run already, and else the run alone.
fn joined<'a>(text: &'a [u8], run: &'a [u8]) -> &'a [u8]
    ensures none { text.now ≡ [] → result.now ≡ run.now }
    ensures some { 0 < length text.now → result.now ≡ text.now }
{
    if text.is_empty() { run } else { text }
}

/// The tag, once this element ends with this component.
fn next_tag(tag: Option<[u8; 3]>, element: usize, component: usize, text: &[u8]) -> Option<[u8; 3]>
    ensures { (closed : List (List (List ℕ))) (now : List (List ℕ)) → element ≡ length closed → component ≡ length now
        → IsTagKept tag closed → IsTagNext result closed (now ++ text.now ∷ []) }
{
    if element > 0 {
        tag
    } else if component > 0 {
        None
    } else {
        tag_of(text)
    }
}

/// Keeps a component behind so many components of the element with this number, counted from the tag's.
fn keep(
    elements: &mut ElementBuffer,
    element: usize,
    component: usize,
    text: &[u8],
) -> Result<(), NoMemory>
    ensures kept { 0 < element → 0 < length text.now → OnOk result (elements.new ≡ placed elements.old element component text.now) }
    ensures tag { element ≡ 0 → elements.new ≡ elements.old }
    ensures empty { length text.now ≡ 0 → elements.new ≡ elements.old }
{
    if element > 0 && !text.is_empty() {
        place(elements, element, component, text)
    } else {
        Ok(())
    }
}

/// Puts a component behind so many components of the element with this number, counted from 1.
fn place(
    elements: &mut ElementBuffer,
    element: usize,
    component: usize,
    text: &[u8],
) -> Result<(), NoMemory>
    requires { 0 < element }
    ensures { OnOk result (elements.new ≡ placed elements.old element component text.now) }
{
    pad_elements(elements, element)?;
    let present = elements.components(element - 1);
    pad_components(elements, present, component)?;
    elements.add_component(text)
}

/// Appends empty elements, up to so many.
fn pad_elements(elements: &mut ElementBuffer, count: usize) -> Result<(), NoMemory>
    ensures { OnOk result (elements.new ≡ padded elements.old count) }
{
    for _index in elements.len()..count {
        elements.start_element()?;
    }
    Ok(())
}

/// Appends empty components to the last element, where so many are present, up to so many.
fn pad_components(
    elements: &mut ElementBuffer,
    present: usize,
    count: usize,
) -> Result<(), NoMemory>
    requires { 0 < length elements.old }
    ensures padded { OnOk result (elements.new ≡ on_last (λ e. e ++ replicate (count - present) []) elements.old) }
    ensures length { OnOk result (length elements.new ≡ length elements.old) }
{
    for _index in present..count {
        elements.add_component(b"")?;
    }
    Ok(())
}

/// Three capital letters.
fn tag_of(text: &[u8]) -> Option<[u8; 3]>
    ensures { IsTagOf result (text.now ∷ []) }
{
    if text.len() == 3
        && is_capital_letter(text[0])
        && is_capital_letter(text[1])
        && is_capital_letter(text[2])
    {
        Some([text[0], text[1], text[2]])
    } else {
        None
    }
}

fn is_capital_letter(byte: u8) -> bool
    ensures { result ≡ is_capital byte }
{
    byte > 64 && byte < 91
}
