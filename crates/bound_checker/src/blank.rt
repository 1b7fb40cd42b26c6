//! What a box is worth where no row has a multiplier, and costs to begin with.
ghost use Rattle.std.specs.Prelude.{◌≡◌, ◌<◌, IfOk, IfSome, length, slice_set, []};
ghost use Rattle.proof_trees.specs.Boxes.{Box};
ghost use Rattle.zero_one_rows.specs.Variables.{Voyage, variables};
ghost use Rattle.dual_bound.specs.Costs.{Priced};
ghost use Rattle.bound_checker.specs.Sums.{IsBlank, IsClean, IsZero};

use dual_bound::Costs;
use std::alloc::Global;
use stow_data::{NoMemory, VarNo};
use zero_one_model::{Box01, Model};

/// The most numbers that are made for layers of multipliers: 2^22, which are 64 MiB.
const MOST_NUMBERS: usize = 1 << 22;

/// The costs of a box where no row has a multiplier, and costs to begin a layer of multipliers with.
#[derive(Drop)]
pub struct Blank {
    /// Those of the box in hand.
    pub costs: Costs,

    /// Those that no layer uses now. Their dual values are of other boxes.
    pub spare: Vec<Costs>,

    /// The box in which each variable is 0. Costs are worth their right sides there, whatever they were worth elsewhere.
    pub zero: Box01,

    /// How many more numbers may be made.
    pub room: usize,
}

// The box in which each variable is 0.
fn zero_box(alloc: Global, model: &Model) -> Result<Box01, NoMemory>
    ensures { IfOk result (IsZero model.now) }
{
    let mut b = Box01::free(alloc, model)?;
    for v in 0..model.vars() {
        b.fix(VarNo(v), false);
    }
    Ok(b)
}

impl Blank {
    /// Those of a box.
    pub fn start(alloc: Global, model: &Model, b: &Box01) -> Result<Blank, NoMemory>
        requires { length b.now ≡ length (variables model.now) }
        ensures { IfOk result (IsBlank model.now b.now) }
    {
        let costs = Costs::start(alloc, model, b)?;
        match zero_box(alloc, model) {
            Ok(zero) => Ok(Blank {
                costs,
                spare: Vec::new(alloc),
                zero,
                room: MOST_NUMBERS,
            }),
            Err(no) => {
                drop(costs);
                Err(no)
            }
        }
    }

    /// A variable of the box is fixed so, or free again. It takes constant time.
    pub fn allow(&mut self, model: &Model, b: &Box01, x: VarNo, allowed: Option<bool>)
        requires var { x < length b.now }
        requires whole { length b.now ≡ length (variables model.now) }
        requires blank { IsBlank model.now b.now self.old }
        ensures { IsBlank model.now (slice_set b.now x allowed) self.new }
    {
        self.costs.allow(model, b, x, allowed);
    }

    /// Costs of some box without multipliers; None where there is no room for more.
    pub fn take(
        &mut self,
        alloc: Global,
        model: &Model,
        b: &Box01,
    ) -> Result<Option<Costs>, NoMemory>
        requires whole { length b.now ≡ length (variables model.now) }
        requires blank { IsBlank model.now b.now self.old }
        ensures blank { IsBlank model.now b.now self.new }
        ensures clean { IfOk result (λ costs. IfSome costs (IsClean model.now)) }
    {
        if let Some(costs) = self.spare.pop() {
            return Ok(Some(costs));
        }
        let count = model.vars() as usize;
        if self.room < count {
            return Ok(None);
        }
        let costs = Costs::start(alloc, model, b)?;
        self.room -= count;
        Ok(Some(costs))
    }

    /// Whether costs for so many variables are left, or room for them.
    pub fn is_left(&self, count: usize) -> bool {
        !self.spare.as_slice().is_empty() || self.room >= count
    }

    /// Keeps costs without multipliers for a later layer, where there is memory.
    pub fn keep(&mut self, costs: Costs)
        ensures { (m : Voyage) (b : Box) → IsBlank m b self.old → IsClean m costs → IsBlank m b self.new }
    {
        let _ = self.spare.push(costs);
    }

    /// Costs without multipliers, made those of the box in hand. It takes constant time.
    pub fn valued(&self, costs: Costs) -> Costs
        ensures { (m : Voyage) (b : Box) → IsBlank m b self.now → IsClean m costs → Priced m b [] result }
    {
        Costs {
            reduced: costs.reduced,
            right: 0,
            value: self.costs.value,
        }
    }
}
