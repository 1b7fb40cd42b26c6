//! What a box allows: at which calls each stay may end, and which stays it asks for.
ghost use Rattle.std.specs.Prelude.{◌≡◌, ◌<◌, IfOk, length};
ghost use Rattle.zero_one_rows.specs.Variables.{variables};

use std::alloc::Global;
use stow_data::{NoMemory, VarNo};
use voyage_state::{Facts, Mark, Planned, Sizes, Spot, bit_of};
use zero_one_model::{Box01, Model};
use zero_one_rows::Var;

/// What a box allows. Contracts see how much there is.
#[derive(Drop)]
pub struct Leave {
    sizes: Sizes,
    /// For each place of each lot the calls at which its stay may end, as bits.
    ends: Vec<u32>,
    /// The stays that the box asks for and that begin after the arrival, by the calls at which they begin.
    pledges: Vec<Planned>,
    /// For each place the calls at which such a stay begins there, as bits.
    pledged: Vec<u32>,
    /// How many variables are fixed at 1.
    ones: u32,
}

impl std::marker::Model for Leave {
    ghost use Rattle.std.specs.Prelude.{◌≡◌, length};
    ghost use Rattle.voyage_state.specs.declared.sizes.Sizes.{Sizes};

    ghost Value = { Sizes };

    ghost view = { λ l. l.sizes };

    ghost invariant = { λ l. (length l.ends.items ≡ l.sizes.stays) × (length l.pledged.items ≡ l.sizes.places) };
}

impl Leave {
    ghost use Rattle.voyage_state.specs.Ranges.{IsMark};

    /// What nothing was read of.
    pub fn new(alloc: Global, facts: &Facts) -> Result<Leave, NoMemory>
        ensures { IfOk result (λ l. l ≡ facts.now) }
    {
        let sizes = facts.sizes();
        Ok(Leave {
            sizes,
            ends: Vec::from_elem(alloc, 0, sizes.stays as usize)?,
            pledges: Vec::new(alloc),
            pledged: Vec::from_elem(alloc, 0, sizes.places as usize)?,
            ones: 0,
        })
    }

    /// The calls at which the stay at a place of a lot may end, as bits.
    pub fn ends(&self, stay: u32) -> u32 {
        self.ends.get(stay as usize).copied().unwrap_or(0)
    }

    /// The stays that the box asks for, by the calls at which they begin.
    pub fn pledges(&self) -> &[Planned] {
        self.pledges.as_slice()
    }

    /// The calls at which stays that the box asks for begin at this place, as bits.
    pub fn pledged(&self, place: u32) -> u32 {
        self.pledged.get(place as usize).copied().unwrap_or(0)
    }

    /// For each place the calls at which stays that the box asks for begin there, as bits.
    pub fn asked(&self) -> &[u32] {
        self.pledged.as_slice()
    }

    /// How many variables are fixed at 1.
    pub fn ones(&self) -> u32 {
        self.ones
    }

    /// Forgets what was read.
    fn clear(&mut self)
        ensures { self.new ≡ self.old }
    {
        self.ends.fill(0);
        self.pledges.clear();
        self.pledged.fill(0);
        self.ones = 0;
    }

    /// Allows a variable.
    fn allow(&mut self, mark: &Mark)
        requires { IsMark self.old mark.now }
        ensures { self.new ≡ self.old }
    {
        self.ends[mark.stays as usize] |= mark.lifted;
    }

    /// Notes a stay that the box asks for. False where the ship has no such place.
    fn pledge(&mut self, facts: &Facts, x: VarNo, v: &Var) -> Result<bool, NoMemory>
        requires { facts.now ≡ self.old }
        ensures { self.new ≡ self.old }
    {
        self.ones = self.ones.wrapping_add(1);
        if v.put.0 == 0 {
            return Ok(true);
        }
        let Some(place) = facts.find_place(v.place.0) else {
            return Ok(false);
        };
        self.pledged[v.place.0 as usize] |= bit_of(v.put.0);
        self.pledges.push(Planned {
            x,
            put: v.put.0,
            kind: v.kind.0,
            ends: bit_of(v.lifted.0),
            lifted: v.lifted.0,
            place: v.place.0,
            spot: Spot {
                stack: place.stack.0,
                tier: place.tier,
                span: place.span,
            },
            is_rehandled: false,
            cost: 0,
        })?;
        Ok(true)
    }

    /// Reads a variable of a box. False where it isn't known.
    fn read_one(
        &mut self,
        facts: &Facts,
        model: &Model,
        b: &Box01,
        x: VarNo,
    ) -> Result<bool, NoMemory>
        requires whole { length b.now ≡ length (variables model.now) }
        requires inside { x < length (variables model.now) }
        requires facts { facts.now ≡ self.old }
        ensures { self.new ≡ self.old }
    {
        let value = b.at(x);
        if value == Some(false) {
            return Ok(true);
        }
        let Some(mark) = facts.mark(x.0) else {
            return Ok(false);
        };
        self.allow(mark);
        if value.is_none() {
            return Ok(true);
        }
        self.pledge(facts, x, &model.var(x))
    }

    /// Reads a box. False where it names a variable or a place that isn't known, as none of the program's boxes does.
    pub fn read(&mut self, facts: &Facts, model: &Model, b: &Box01) -> Result<bool, NoMemory>
        requires whole { length b.now ≡ length (variables model.now) }
        requires facts { facts.now ≡ self.old }
        ensures { self.new ≡ self.old }
    {
        self.clear();
        for x in 0..model.vars() {
            if !self.read_one(facts, model, b, VarNo(x))? {
                return Ok(false);
            }
        }
        Ok(true)
    }
}
