//! Short lists that take no memory.
ghost use Rattle.std.specs.Prelude.{◌≡◌, ◌≤◌, length};

use arrayvec::ArrayVec;
use std::marker::Model;

/// A list of at most `N` items, kept in place. Contracts see the list of its items; short lists are ordered as lists, a prefix first.
#[derive(Clone, Drop, PartialEq, Eq, PartialOrd, Ord)]
pub struct Short<T: Default, const N: usize> {
    items: ArrayVec<T, N>,
}

impl<T: Default, const N: usize> Model for Short<T, N> {
    ghost use Rattle.std.specs.Prelude.{List, ◌≤◌, length};

    ghost Value = { List T };

    ghost view = { λ s. s.items.items };

    ghost invariant = { λ s. length s.items.items ≤ N };

    ghost inverse = { λ xs. record { items = record { items = xs } } };
}

impl<T: Copy + Default, const N: usize> Short<T, N> {
    /// A list of these items, of which there are at most `N`.
    pub fn of(items: &[T]) -> Self
        requires { length items.now ≤ N }
        ensures { result ≡ items.now }
    {
        let mut list = ArrayVec::new();
        let _ = list.try_extend_from_slice(items);
        Short { items: list }
    }

    /// The items, at most `N`.
    pub fn items(&self) -> &[T]
        ensures value { result.now ≡ self.now }
        ensures short { length self.now ≤ N }
    {
        self.items.as_slice()
    }
}
