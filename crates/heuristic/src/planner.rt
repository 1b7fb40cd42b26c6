//! The planner of one worker.
ghost use Rattle.std.specs.Prelude.{◌≡◌, ◌<◌, All, IfOk, IfSome, IsSome, None, Some, length, slice_get};
ghost use Rattle.std.specs.Arc.{arc_value};
ghost use Rattle.zero_one_rows.specs.Variables.{variables};

use crate::kept::Kept;
use crate::sailing::Sailor;
use std::alloc::Global;
use std::sync::Arc;
use stow_data::{NoMemory, VarNo};
use voyage_state::{Facts, Planned, gather_facts};
use zero_one_model::{Box01, Model};

/// What is asked of a planner at a node.
#[derive(Clone, Copy)]
pub struct HeuristicLimits {
    /// Only voyages that cost less than this are taken.
    pub cut: u64,
    /// A voyage that costs at most this is good enough: none is looked for behind it.
    pub enough: u64,
    /// How many voyages are tried at most.
    pub runs: u32,
    /// After how many looks at places none is begun.
    pub looks: u64,
}

/// Plans voyages by chance, again and again: its work space is kept from node to node.
#[derive(Drop)]
pub struct Planner {
    sailor: Sailor,
    /// The cheapest voyage that was found.
    kept: Kept,
    /// Only voyages that cost less than this are taken.
    cut: u64,
    ghost same_voyages: { kept ≡ sailor },
}

/// How early a stay comes as a branch: by put, tier, the latest lifting and place.
type Rank = (u32, u32, u32, u32);

/// Fixes a variable at a value where it is free.
fn fix_free(b: &mut Box01, x: VarNo, value: bool)
    requires inside { x < length b.old }
    ensures same_length { length b.new ≡ length b.old }
{
    if b.at(x).is_none() {
        b.fix(x, value);
    }
}

/// Fixes the free variables at 0.
fn fix_rest(model: &Model, b: &mut Box01)
    requires whole { length b.old ≡ length (variables model.now) }
    ensures whole { length b.new ≡ length (variables model.now) }
{
    for x in 0..model.vars() {
        fix_free(b, VarNo(x), false);
    }
}

impl Planner {
    /// A planner for the voyages of the ship and cargo whose program is `model`.
    pub fn new(alloc: Global, model: &Model) -> Result<Planner, NoMemory> {
        let facts = Arc::new(alloc, gather_facts(alloc, model)?)?;
        Planner::over(alloc, facts)
    }

    /// A planner that knows these facts.
    fn over(alloc: Global, facts: Arc<Facts, Global>) -> Result<Planner, NoMemory>
        ensures { IfOk result (λ p. p.sailor ≡ arc_value facts) }
    {
        let kept = Kept::new(alloc, facts.sizes())?;
        Ok(Planner {
            sailor: Sailor::new(alloc, facts, 1)?,
            kept,
            cut: u64::MAX,
        })
    }

    /// A fresh planner for the same voyages: what is the same in every voyage is known once for all.
    pub fn beside(&self, alloc: Global) -> Result<Planner, NoMemory> {
        self.fresh(alloc)
    }

    /// A fresh planner for the same voyages.
    fn fresh(&self, alloc: Global) -> Result<Planner, NoMemory>
        ensures { IfOk result (λ p. p.sailor ≡ self.now.sailor) }
    {
        Planner::over(alloc, self.sailor.facts()?)
    }

    /// A planner that goes on where this one stands, with a work space that the caller takes anew. Two planners that one thread
    /// made may lie in one cache line, and then each of two threads that write there waits for the other: so each thread makes
    /// its own.
    pub fn moved(&self, alloc: Global) -> Result<Planner, NoMemory> {
        let mut planner = self.fresh(alloc)?;
        planner.sailor.take_chance(&self.sailor);
        planner.kept.copy_from(&self.kept)?;
        planner.cut = self.cut;
        Ok(planner)
    }

    /// What the cheapest voyage of the last box costs; None where none was found.
    pub fn cost(&self) -> Option<u64> {
        if self.kept.is_found() {
            Some(self.kept.cost())
        } else {
            None
        }
    }

    /// How many of these stays the box asks for; None where it forbids one.
    fn asked_of(stays: &[Planned], model: &Model, b: &Box01) -> Option<u32>
        requires whole { length b.now ≡ length (variables model.now) }
    {
        let mut count: u32 = 0;
        for stay in stays {
            if stay.x.0 >= model.vars() {
                return None;
            }
            match b.at(stay.x) {
                Some(false) => return None,
                Some(true) => count = count.wrapping_add(1),
                None => {}
            }
        }
        Some(count)
    }

    /// How many of the cheapest voyage's stays the box asks for; None where it forbids one.
    fn asked(&self, model: &Model, b: &Box01) -> Option<u32>
        requires whole { length b.now ≡ length (variables model.now) }
    {
        let mut count: u32 = 0;
        for stays in self.kept.stacks() {
            count = count.wrapping_add(Planner::asked_of(stays, model, b)?);
        }
        Some(count)
    }

    /// Forgets the cheapest voyage, unless it is below the cut, and the box allows it and asks for no stay beside it.
    fn forget(&mut self, model: &Model, b: &Box01, cut: u64)
        requires whole { length b.now ≡ length (variables model.now) }
    {
        self.cut = cut;
        let asked = self.asked(model, b);
        let is_fresh = asked == Some(self.sailor.asked());
        if self.kept.cost() >= cut || !is_fresh {
            self.kept.forget();
        }
    }

    /// Sails one more voyage: over the whole ship, or over few stacks of the one that is kept. False where it fails, or costs
    /// more.
    fn sail(&mut self) -> Result<bool, NoMemory> {
        if !self.kept.is_found() {
            return self.sailor.sail_all(&self.kept, self.cut);
        }
        if self.sailor.is_whole_next() {
            let limit = self.kept.cost().saturating_add(1);
            return self.sailor.sail_all(&self.kept, limit);
        }
        self.sailor.sail_few(&self.kept)
    }

    /// Sails one more voyage, and keeps it where it is cheaper, or as cheap as the one that is kept.
    fn try_once(&mut self) -> Result<(), NoMemory> {
        if self.sail()? {
            self.sailor.hand_over(&mut self.kept)?;
        }
        Ok(())
    }

    /// Whether a voyage is kept that is good enough.
    fn has_enough(&self, enough: u64) -> bool {
        self.kept.is_found() && self.kept.cost() <= enough || self.cut <= enough
    }

    /// Looks for a voyage.
    fn look(&mut self, limits: HeuristicLimits) -> Result<(), NoMemory> {
        self.sailor.begin();
        for _ in 0..limits.runs {
            if self.has_enough(limits.enough) || self.sailor.looks() >= limits.looks {
                return Ok(());
            }
            self.try_once()?;
        }
        Ok(())
    }

    /// The earlier one of two branches.
    fn earlier(
        &self,
        model: &Model,
        b: &Box01,
        best: Option<(Rank, VarNo)>,
        stay: &Planned,
    ) -> Option<(Rank, VarNo)>
        requires whole { length b.now ≡ length (variables model.now) }
        requires best { IfSome best (λ c. slice_get b.now c.1 ≡ Some None) }
        ensures free { IfSome result (λ c. slice_get b.now c.1 ≡ Some None) }
    {
        if stay.x.0 >= model.vars() || b.at(stay.x).is_some() {
            return best;
        }
        let latest = u32::MAX - stay.lifted;
        let rank = (stay.put, stay.spot.tier, latest, stay.place);
        match best {
            Some((least, _)) if least <= rank => best,
            _ => Some((rank, stay.x)),
        }
    }

    /// The earliest one of a branch and the free ones of these stays.
    fn earliest(
        &self,
        model: &Model,
        b: &Box01,
        first: Option<(Rank, VarNo)>,
        stays: &[Planned],
    ) -> Option<(Rank, VarNo)>
        requires whole { length b.now ≡ length (variables model.now) }
        requires first { IfSome first (λ c. slice_get b.now c.1 ≡ Some None) }
        ensures free { IfSome result (λ c. slice_get b.now c.1 ≡ Some None) }
    {
        let mut best = first;
        for stay in stays {
            best = self.earlier(model, b, best, stay);
        }
        best
    }

    /// The first free stay of the cheapest voyage.
    fn branch(&self, model: &Model, b: &Box01) -> Option<VarNo>
        requires whole { length b.now ≡ length (variables model.now) }
        ensures free { IfSome result (λ x. slice_get b.now x ≡ Some None) }
    {
        if !self.kept.is_found() {
            return None;
        }
        let mut best = None;
        for stays in self.kept.stacks() {
            best = self.earliest(model, b, best, stays);
        }
        best.map(|found| found.1)
    }

    /// Fixes stays at 1.
    fn fix_each(model: &Model, b: &mut Box01, stays: &[Planned])
        requires whole { length b.old ≡ length (variables model.now) }
        ensures whole { length b.new ≡ length (variables model.now) }
    {
        for stay in stays {
            if stay.x.0 < model.vars() {
                fix_free(b, stay.x, true);
            }
        }
    }

    /// Fixes the stays of the cheapest voyage at 1.
    fn fix_stays(&self, model: &Model, b: &mut Box01)
        requires whole { length b.old ≡ length (variables model.now) }
        ensures whole { length b.new ≡ length (variables model.now) }
    {
        for stays in self.kept.stacks() {
            Planner::fix_each(model, b, stays);
        }
    }

    /// The cheapest voyage as a box: its stays at 1, all other variables at 0. None where none was found. It isn't said that
    /// it breaks no row.
    pub fn full_box(&self, alloc: Global, model: &Model) -> Result<Option<Box01>, NoMemory>
        ensures whole { IfOk result (λ found. IfSome found (λ b. length b ≡ length (variables model.now))) }
        ensures full { IfOk result (λ found. IfSome found (All IsSome)) }
    {
        if !self.kept.is_found() {
            return Ok(None);
        }
        let mut b = Box01::free(alloc, model)?;
        self.fix_stays(model, &mut b);
        fix_rest(model, &mut b);
        if b.is_full() { Ok(Some(b)) } else { Ok(None) }
    }

    /// A free variable of the box to divide by: the first free stay of the cheapest voyage that was found, by put, tier,
    /// the latest lifting and place. None where no voyage below the cut was found.
    pub fn choose(
        &mut self,
        model: &Model,
        b: &Box01,
        limits: HeuristicLimits,
    ) -> Result<Option<VarNo>, NoMemory>
        requires whole { length b.now ≡ length (variables model.now) }
        ensures free { IfOk result (λ chosen. IfSome chosen (λ x. slice_get b.now x ≡ Some None)) }
        ensures inside { IfOk result (λ chosen. IfSome chosen (λ x. x < length (variables model.now))) }
    {
        if !self.sailor.read(model, b)? {
            self.kept.forget();
            return Ok(None);
        }
        self.forget(model, b, limits.cut);
        self.look(limits)?;
        Ok(self.branch(model, b))
    }
}
