//! The separations read so far, with the pairs of classes that they are of.
ghost use Rattle.std.specs.Prelude.{◌≡◌, ◌||◌, [], ◌∷◌, ◌++◌, IfOk, OnOk};
ghost use Rattle.std.specs.List.{list_any};
ghost use Rattle.std.specs.BTreeSet.{contains};
ghost use Rattle.ship_profile.specs.Separations.{is_same_pair};
ghost use Rattle.ship_profile.specs.ClassPairs.{pair_order, pair_of};

use crate::class_pair::ClassPair;
use std::alloc::Global;
use std::collections::BTreeSet;
use std::marker::Model;
use stow_data::{NoMemory, Separation, SeparationList};

/// The separations read so far. Contracts see their list.
#[derive(Drop)]
pub struct SeparationsSoFar {
    list: SeparationList,
    /// The two classes of each separation, in both orders.
    pairs: BTreeSet<ClassPair>,
}

impl Model for SeparationsSoFar {
    ghost use Rattle.std.specs.Prelude.{List};
    ghost use Rattle.stow_data.specs.declared.geometry.Separation.{Separation};
    ghost use Rattle.ship_profile.specs.ClassPairs.{ArePairs};

    ghost Value = { List Separation };

    ghost view = { λ s. s.list };

    ghost invariant = { λ s. ArePairs s.pairs s.list };
}

/// Enters the pair of a separation.
fn enter(pairs: &mut BTreeSet<ClassPair>, d: &Separation) -> Result<(), NoMemory>
    ensures { OnOk result ((e : Separation) → contains pair_order pairs.new (pair_of e) ≡ (is_same_pair d.now e || contains pair_order pairs.old (pair_of e))) }
{
    pairs.insert(ClassPair {
        a: d.b.copy(),
        b: d.a.copy(),
    })?;
    pairs.insert(ClassPair {
        a: d.a.copy(),
        b: d.b.copy(),
    })?;
    Ok(())
}

impl SeparationsSoFar {
    /// No separations yet.
    pub fn new(alloc: Global) -> Self
        ensures { result ≡ [] }
    {
        SeparationsSoFar {
            list: SeparationList::new(alloc),
            pairs: BTreeSet::new(alloc),
        }
    }

    /// Whether one of these separations is of the same two classes, in either order.
    pub fn has_pair(&self, e: &Separation) -> bool
        ensures { result ≡ list_any (λ d. is_same_pair d e.now) self.now }
    {
        self.pairs.contains(&ClassPair {
            a: e.a.copy(),
            b: e.b.copy(),
        })
    }

    /// These separations and one more.
    pub fn with(self, e: Separation) -> Result<Self, NoMemory>
        ensures { IfOk result (λ s. s ≡ self ++ e ∷ []) }
    {
        let SeparationsSoFar {
            mut list,
            mut pairs,
        } = self;
        enter(&mut pairs, &e)?;
        list.push(e)?;
        Ok(SeparationsSoFar { list, pairs })
    }

    /// The separations.
    pub fn into_list(self) -> SeparationList
        ensures { result ≡ self }
    {
        self.list
    }
}
