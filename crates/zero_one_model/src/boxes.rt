//! Boxes: some variables fixed.
ghost use Rattle.std.specs.Prelude.{◌≡◌, ◌<◌, ◌↔◌, All, IfOk, IsSome, IsTrue, None, Some, length, replicate, slice_get, slice_set};
ghost use Rattle.zero_one_rows.specs.Variables.{variables};

use crate::model::Model;
use std::alloc::Global;
use stow_data::{NoMemory, Seq, VarNo};

/// A box: for each variable the value to which it is fixed, or none where it is free.
#[derive(Drop)]
pub struct Box01 {
    values: Seq<Option<bool>>,
}

impl std::marker::Model for Box01 {
    ghost use Rattle.std.specs.Prelude.{Bool, List, Option};

    ghost Value = { List (Option Bool) };

    ghost view = { λ b. b.values };
}

impl Box01 {
    /// The box of a program's variables, all of them free.
    pub fn free(alloc: Global, model: &Model) -> Result<Box01, NoMemory>
        ensures { IfOk result (λ b. b ≡ replicate (length (variables model.now)) None) }
    {
        Ok(Box01 {
            values: Seq::filled(alloc, None, model.vars() as usize)?,
        })
    }

    /// The value of a variable, where it is fixed.
    pub fn at(&self, x: VarNo) -> Option<bool>
        requires { x < length self.now }
        ensures { slice_get self.now x ≡ Some result }
    {
        *self.values.at(x.0 as usize)
    }

    /// Fixes a free variable.
    pub fn fix(&mut self, x: VarNo, value: bool)
        requires { slice_get self.old x ≡ Some None }
        ensures { self.new ≡ slice_set self.old x (Some value) }
    {
        self.values.set(x.0 as usize, Some(value));
    }

    /// Frees a variable.
    pub fn release(&mut self, x: VarNo)
        requires { x < length self.old }
        ensures { self.new ≡ slice_set self.old x None }
    {
        self.values.set(x.0 as usize, None);
    }

    /// Whether each variable is fixed.
    pub fn is_full(&self) -> bool
        ensures { IsTrue result ↔ All IsSome self.now }
    {
        self.values.as_slice().iter().all(|value| value.is_some())
    }

    /// A copy of the box.
    pub fn copy(&self, alloc: Global) -> Result<Box01, NoMemory>
        ensures { IfOk result (λ b. b ≡ self.now) }
    {
        Ok(Box01 {
            values: self.values.copy(alloc)?,
        })
    }
}
