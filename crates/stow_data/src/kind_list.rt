//! Kinds of containers.
ghost use Rattle.std.specs.Prelude.{◌≡◌, ◌<◌, Some, length, slice_get};
ghost use Rattle.stow_data.specs.Kinds.{loads_at};

use crate::geometry::Length;
use crate::list::{NumberList, Seq};
use crate::names::Name;
use crate::numbers::{CallNo, ContainerNo, KindNo};
use std::marker::Model;

/// What containers that are alike have in common, and the call at which the first of them loads.
#[derive(Drop)]
pub struct Kind {
    pub dest: CallNo,
    pub long: Length,
    pub reefer: bool,
    pub class: Option<Name>,
    /// The weight in kilograms, rounded up to the ship's step.
    pub kg: u32,
    /// The least call at which a container of the kind loads; 0 where one is aboard at arrival.
    pub first: CallNo,
}

/// The kinds of a cargo, in the order in which a container of the kind first stands in it.
#[derive(Drop)]
pub struct Kinds {
    pub(crate) list: Seq<Kind>,
    pub(crate) each: Seq<KindNo>,
    pub(crate) loads: Seq<NumberList>,
}

impl Model for Kinds {
    ghost use Rattle.stow_data.specs.Kinds.{KindTable};

    ghost Value = { KindTable };

    ghost use Rattle.stow_data.specs.KindFields.{table_of, IsInRange};

    ghost view = { table_of };

    ghost invariant = { IsInRange };
}

impl Kinds {
    /// The number of kinds.
    pub fn len(&self) -> u32
        ensures { result ≡ length self.now.list }
    {
        self.list.len() as u32
    }

    /// A kind.
    pub fn kind(&self, g: KindNo) -> &Kind
        requires { g < length self.now.list }
        ensures { slice_get self.now.list g ≡ Some result.now }
    {
        self.list.at(g.0 as usize)
    }

    /// The kind of a container.
    pub fn of(&self, c: ContainerNo) -> KindNo
        requires { c < length self.now.each }
        ensures number { slice_get self.now.each c ≡ Some result }
        ensures is_kind { result < length self.now.list }
    {
        *self.each.at(c.0 as usize)
    }

    /// How many containers of a kind load at a call.
    pub fn count(&self, call: CallNo, g: KindNo) -> u32
        requires { g < length self.now.list }
        ensures { result ≡ loads_at self.now call g }
    {
        let call = call.0 as usize;
        if call >= self.loads.len() {
            return 0;
        }
        *self.loads.at(call).at(g.0 as usize)
    }
}
