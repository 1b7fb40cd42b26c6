//! What the passes of a deque know, and the rule of its nodes.

use certificate::Node;
use crossbeam_deque::protocol::{Join, Lesson, Outcome, Protocol, Split};
use std::collections::LinkedList;
use std::marker::{Brand, PhantomData};

/// What each node meets.
pub trait Wanted {
    ghost use Rattle.certificate.specs.declared.nodes.Node.{Node};

    ghost meets: { Node → Type 0 };
}

impl Wanted for Brand {
    ghost meets = { λ _. Unit {0} };
}

// What a pass has put and taken, and its parts of the right to know the whole. No value of it is made.
pub struct Hand {
    pub parts: u64,
    pub put: LinkedList<Node>,
    pub took: LinkedList<Node>,
}

pub struct Fair<M: Wanted> {
    of: PhantomData<M>,
}

impl<M: Wanted> Protocol<Node, Hand> for Fair<M> {
    ghost use Rattle.std.specs.Prelude.{[]};
    ghost use Rattle.shared_search.specs.Bags.{hand, Balanced};

    ghost holds = { Balanced M.meets };

    ghost first = { hand 1024 [] [] };

    ghost guest = { hand 0 [] [] };
}

pub struct Cut;

impl Split<Hand> for Cut {
    ghost use Rattle.std.specs.Prelude.{◌-◌, []};
    ghost use Rattle.shared_search.specs.Bags.{hand};

    ghost left = { λ v. hand (v.parts - 1) v.put v.took };

    ghost right = { λ v. hand 1 [] [] };
}

impl Join<Hand> for Cut {
    ghost use Rattle.std.specs.Prelude.{◌+◌, ◌++◌, []};
    ghost use Rattle.shared_search.specs.Bags.{hand};

    ghost both = { λ v w. hand (v.parts + w.parts) (v.put ++ w.put) (v.took ++ w.took) };

    ghost spent = { hand 0 [] [] };
}

// A copy of what a pass knows, which counts for nothing.
pub struct Note;

impl Split<Hand> for Note {
    ghost use Rattle.shared_search.specs.Bags.{hand};

    ghost left = { λ v. v };

    ghost right = { λ v. hand 0 v.put v.took };
}

pub struct Puts;

impl Outcome<Node, Hand> for Puts {
    ghost use Rattle.std.specs.Prelude.{◌≡◌, ◌++◌};
    ghost use Rattle.shared_search.specs.Bags.{hand};

    ghost then = { λ v xs w. w ≡ hand v.parts (v.put ++ xs) v.took };
}

pub struct Pops<M: Wanted> {
    of: PhantomData<M>,
}

impl<M: Wanted> Outcome<Node, Hand> for Pops<M> {
    ghost use Rattle.shared_search.specs.Bags.{Took, Found};

    ghost then = { Took M.meets };

    ghost empty = { Found M.meets 0 };
}

pub struct Takes<M: Wanted> {
    of: PhantomData<M>,
}

impl<M: Wanted> Outcome<Node, Hand> for Takes<M> {
    ghost use Rattle.shared_search.specs.Bags.{Took, Found};

    ghost then = { Took M.meets };

    ghost empty = { Found M.meets 1 };
}

pub struct Total;

impl Lesson<Node, Hand> for Total {
    ghost use Rattle.std.specs.Prelude.{◌≡◌, ◌+◌, ℕ};
    ghost use Rattle.certificate.specs.declared.nodes.Node.{Node};
    ghost use Rattle.search_core.specs.Bags.{weigh};

    ghost fact = { λ v items. (h : Node → ℕ) → weigh h v.put ≡ weigh h v.took + weigh h items };
}
