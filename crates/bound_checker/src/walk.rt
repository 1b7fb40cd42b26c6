//! A tree in preorder, walked with one box and one set of multipliers.
ghost use Rattle.std.specs.Prelude.{◌≡◌, ◌≢◌, ℕ, ◌<◌, ◌≤◌, ◌≤ℤ◌, true, false, All, List, [], ◌∷◌, ◌++◌, length, take, drop, slice_get, OnOk, IfOk, IfErr, IfSome, MatchResult, None, Some};
ghost use Rattle.proof_trees.specs.Boxes.{Box, fixed};
ghost use Rattle.proof_trees.specs.Multipliers.{Multipliers};
ghost use Rattle.proof_trees.specs.Trees.{Pending, begun, root};
ghost use Rattle.proof_trees.specs.Trees.{Leaf as Leaves, Branch as Branches};
ghost use Rattle.zero_one_rows.specs.declared.program.Row.{Row as Rows};
ghost use Rattle.zero_one_rows.specs.Variables.{Voyage, variables};
ghost use Rattle.zero_one_rows.specs.Rows.{whole};
ghost use Rattle.partial_plan.specs.Fixing.{released};
ghost use Rattle.bound_checker.specs.declared.walk.Frame.{Frame as Frames};
ghost use Rattle.bound_checker.specs.Waits.{AreBarer, bare};
ghost use Rattle.certificate.specs.Entries.{entry_of, end_of, number_of};
ghost use Rattle.bound_checker.specs.Faults.{needed, short_fault, step_fault};
ghost use Rattle.bound_checker.specs.Sums.{Carries, CarriesSome, IsAsideSome, IsClean};
ghost use Rattle.bound_checker.specs.Walks.{IsPriced, Goes, Tightens, frame_of, StandsWith, StandsSomeWith, Stands, StandsSome, without, IsAt, IsSomewhere, Narrows, Opens, Closes, Takes};

use crate::holders::Holders;
use crate::priced_box::{allow, follow, free_all};
use crate::prices::Prices;
use crate::steps::tighten_all;
use crate::sums::{Aside, Sums};
use certificate::{BoundNo, End, KeptRow, Record};
use dual_bound::Costs;
use partial_plan::{UndoList, undo};
use std::alloc::Global;
use stow_data::{NoMemory, VarNo};
use zero_one_model::{Box01, Model};
use zero_one_rows::Var;

/// A variable whose half of value 0 waits, and how much was fixed and changed before it.
#[derive(Drop)]
pub struct Frame {
    pub var: VarNo,
    pub mark: usize,
    pub changes: usize,

    /// The multipliers that it waits with, where a record behind it begins from zero; those in hand began from none then.
    pub aside: Option<Aside>,
}

/// The box in hand with its multipliers, and what leads back to those that wait.
#[derive(Drop)]
pub struct Walk<'a> {
    pub b: Box01,
    pub undo: UndoList,

    /// The box whose dual value is kept: the one in hand, but for the time of a record's steps.
    pub priced: Box01,
    pub prices: Prices<'a>,
    pub frames: Vec<Frame>,

    /// The frames that keep costs aside.
    pub holders: Holders,

    /// No box is left.
    pub done: bool,
}

/// The bounds in question.
#[derive(Clone, Copy)]
pub struct Bounds {
    /// The bound that is to be proved.
    pub low: u64,

    /// The greatest bound that no box refutes so far.
    pub high: u64,
}

// The least dual value that closes at a bound.
fn needed_value(bound: u64) -> i128
    ensures { result ≡ needed bound }
{
    16 * (bound as i128 - 1) + 1
}

// The greatest bound up to `most` at which a dual value closes.
fn closing_bound(value: i128, most: u64) -> u64
    requires { needed 0 ≤ℤ value }
    ensures low { result ≤ most }
    ensures closes { needed result ≤ℤ value }
    ensures greatest { (bound : ℕ) → bound ≤ most → needed bound ≤ℤ value → bound ≤ result }
{
    if value >= needed_value(most) {
        return most;
    }
    ((value + 15) as u128 / 16) as u64
}

// The greatest bound up to the high one at which a box closes, where it closes at the low one.
fn close_box(sums: &Sums, bounds: Bounds, node: u32) -> Result<u64, BoundNo>
    requires { bounds.low ≤ bounds.high }
    ensures { (m : Voyage) (b : Box) (ms : Multipliers Rows) → Carries m b ms sums.now
        → MatchResult result (λ best. Narrows bounds.low bounds.high best (λ bound. short_fault (whole m) bound node b ms ≡ None) (λ bound. short_fault (whole m) bound node b ms ≢ None)) (λ fault. short_fault (whole m) bounds.low node b ms ≡ Some fault) }
{
    let value = sums.value();
    let needed = needed_value(bounds.low);
    if value < needed {
        return Err(BoundNo::LeafShort {
            node,
            value,
            needed,
        });
    }
    Ok(closing_bound(value, bounds.high))
}

// What the costs that a box waits with took to make; None where it waits without.
fn kept_work(frame: &Frame) -> Option<usize> {
    match &frame.aside {
        Some(aside) => aside.kept_work(),
        None => None,
    }
}

// Looks at boxes that wait with costs, from the lowest on, until one of them is to let go of its own.
fn look_for_room(frames: &[Frame], holders: &mut Holders) -> Result<Option<usize>, NoMemory> {
    for place in holders.next..frames.len() {
        if let Some(work) = kept_work(&frames[place]) {
            if let Some(below) = holders.look_at(place, work)? {
                return Ok(Some(below));
            }
        }
    }
    Ok(holders.take_highest(frames.len()))
}

// The place of the box that is to let go of the costs that it waits with; None where none waits with costs.
fn place_of_room(frames: &[Frame], holders: &mut Holders) -> Result<Option<usize>, NoMemory>
    ensures { IfOk result (λ found. IfSome found (λ place. place < length frames.now)) }
{
    match look_for_room(frames, holders)? {
        Some(place) if place < frames.len() => Ok(Some(place)),
        _ => Ok(None),
    }
}

// A box that waits lets go of its costs.
fn let_go(alloc: Global, model: &Model, sums: &mut Sums, frame: &mut Frame) -> Result<(), NoMemory>
    requires carries { (b : Box) × CarriesSome model.now b sums.old }
    requires aside { IfSome frame.old.aside (IsAsideSome model.now) }
    ensures bare { frame.new ≡ bare frame.old }
    ensures carries { (b : Box) (ms : Multipliers Rows) → Carries model.now b ms sums.old → OnOk result (Carries model.now b ms sums.new) }
{
    match &mut frame.aside {
        Some(aside) => sums.let_go(alloc, model, aside),
        None => Ok(()),
    }
}

// The box that waits at this place lets go of its costs.
fn let_go_at(
    alloc: Global,
    model: &Model,
    sums: &mut Sums,
    frames: &mut Vec<Frame>,
    place: usize,
) -> Result<(), NoMemory>
    requires place { place < length frames.old.items }
    requires carries { (b : Box) × CarriesSome model.now b sums.old }
    requires aside { All (λ f. IfSome f.aside (IsAsideSome model.now)) frames.old.items }
    ensures barer { AreBarer frames.old.items frames.new.items }
    ensures carries { (b : Box) (ms : Multipliers Rows) → Carries model.now b ms sums.old → OnOk result (Carries model.now b ms sums.new) }
{
    let_go(alloc, model, sums, &mut frames[place])
}

// What was noted past a place of the list.
fn past(undo: &UndoList, mark: usize) -> &[VarNo]
    requires { mark ≤ length undo.now }
    ensures { result.now ≡ drop mark undo.now }
{
    &undo.as_slice()[mark..]
}

impl<'a> Walk<'a> {
    /// At the root: all variables are free, and no row has a multiplier.
    pub fn start(alloc: Global, model: &'a Model<'a>) -> Result<Walk<'a>, NoMemory>
        ensures { IfOk result (λ w. IsAt model.now w (root (whole model.now) ∷ [])) }
    {
        let b = Box01::free(alloc, model)?;
        match Box01::free(alloc, model) {
            Ok(priced) => match Prices::none(alloc, model, &priced) {
                Ok(prices) => Ok(Walk {
                    b,
                    undo: UndoList::new(alloc),
                    priced,
                    prices,
                    frames: Vec::new(alloc),
                    holders: Holders::none(alloc),
                    done: false,
                }),
                Err(no) => {
                    drop(b);
                    drop(priced);
                    Err(no)
                }
            },
            Err(no) => {
                drop(b);
                Err(no)
            }
        }
    }

    // Frees what was fixed past a place of the list.
    fn release(&mut self, model: &Model, mark: usize)
        requires mark { mark ≤ length self.old.undo }
        requires inside { All (λ v. v < length self.old.b) self.old.undo }
        requires priced { IsPriced model.now self.old }
        ensures { Goes model.now self.old (released self.old.b self.old.undo mark) (take mark self.old.undo) self.old.frames.items self.new }
    {
        let fixed = past(&self.undo, mark);
        free_all(model, fixed, &mut self.priced, &mut self.prices.sums);
        undo(&mut self.b, &mut self.undo, mark);
    }

    // Fixes a free variable.
    fn halve(&mut self, model: &Model, x: VarNo, value: bool) -> Result<(), NoMemory>
        requires free { slice_get self.old.b x ≡ Some None }
        requires priced { IsPriced model.now self.old }
        ensures { OnOk result (Goes model.now self.old (fixed self.old.b x value) (self.old.undo ++ x ∷ []) self.old.frames.items self.new) }
    {
        self.undo.push(x)?;
        self.b.fix(x, value);
        allow(
            model,
            &mut self.priced,
            &mut self.prices.sums,
            x,
            Some(value),
        );
        Ok(())
    }

    /// Goes on to the box that waits.
    pub fn leave(&mut self, alloc: Global, model: &Model) -> Result<(), NoMemory>
        requires stands { StandsSome model.now self.old }
        ensures { (q : Pending Rows) (qs : List (Pending Rows)) → Stands model.now self.old q qs → OnOk result (IsAt model.now self.new qs) }
    {
        let Some(frame) = self.frames.pop() else {
            self.done = true;
            return Ok(());
        };
        self.release(model, frame.mark);
        match self.prices.take_back(alloc, model, &self.b, frame.changes) {
            Ok(()) => {
                let sums = &mut self.prices.sums;
                sums.bring_back(alloc, model, &self.b, frame.aside)?;
                self.halve(model, frame.var, false)?;
                Ok(())
            }
            Err(no) => {
                drop(frame);
                Err(no)
            }
        }
    }

    // The box in hand closes.
    fn close(
        &mut self,
        alloc: Global,
        model: &Model,
        bounds: Bounds,
        node: u32,
    ) -> Result<u64, BoundNo>
        requires stands { StandsSome model.now self.old }
        requires order { bounds.low ≤ bounds.high }
        ensures { (q : Pending Rows) (qs : List (Pending Rows)) → Stands model.now self.old q qs → Closes model.now bounds node q qs Leaves result self.new }
    {
        let best = close_box(&self.prices.sums, bounds, node)?;
        self.leave(alloc, model)?;
        Ok(best)
    }

    // The half of value 1 comes into hand, and the other waits.
    fn divide(&mut self, model: &Model, x: VarNo) -> Result<(), NoMemory>
        requires free { slice_get self.old.b x ≡ Some None }
        requires priced { IsPriced model.now self.old }
        ensures { OnOk result (Goes model.now self.old (fixed self.old.b x true) (self.old.undo ++ x ∷ []) (self.old.frames.items ++ frame_of self.old x ∷ []) self.new) }
    {
        let (mark, changes) = (self.undo.len(), self.prices.changes.len());
        self.halve(model, x, true)?;
        self.frames.push(Frame {
            var: x,
            mark,
            changes,
            aside: None,
        })?;
        Ok(())
    }

    // A variable divides the box in hand: the half of value 1 comes first, and the other waits.
    fn branch(
        &mut self,
        model: &Model,
        var: &Var,
        bounds: Bounds,
        node: u32,
    ) -> Result<u64, BoundNo>
        requires stands { StandsSome model.now self.old }
        requires order { bounds.low ≤ bounds.high }
        ensures { (q : Pending Rows) (qs : List (Pending Rows)) → Stands model.now self.old q qs → Closes model.now bounds node q qs (Branches (number_of model.now var.now)) result self.new }
    {
        let Some(x) = model.number(var) else {
            return Err(BoundNo::BranchFixed { node });
        };
        if self.b.at(x).is_some() {
            return Err(BoundNo::BranchFixed { node });
        }
        self.divide(model, x)?;
        Ok(bounds.high)
    }

    // A record's end.
    fn end(
        &mut self,
        alloc: Global,
        model: &Model,
        end: &End,
        bounds: Bounds,
        node: u32,
    ) -> Result<u64, BoundNo>
        requires stands { StandsSome model.now self.old }
        requires order { bounds.low ≤ bounds.high }
        ensures { (q : Pending Rows) (qs : List (Pending Rows)) → Stands model.now self.old q qs → Closes model.now bounds node q qs (end_of (number_of model.now) end.now) result self.new }
    {
        match end {
            End::Leaf | End::Left => self.close(alloc, model, bounds, node),
            End::Branch(var) => self.branch(model, var, bounds, node),
        }
    }

    // A record's steps.
    fn tighten(
        &mut self,
        alloc: Global,
        model: &Model,
        steps: &[KeptRow],
        node: u32,
    ) -> Result<(), BoundNo>
        requires whole { length self.old.b ≡ length (variables model.now) }
        requires priced { IsPriced model.now self.old }
        ensures faultless { OnOk result (step_fault (whole model.now) node steps.now ≡ None) }
        ensures tightened { OnOk result (Tightens model.now self.old steps.now self.new) }
        ensures refused { IfErr result (λ f. f ≢ BoundNo.NoMemory → step_fault (whole model.now) node steps.now ≡ Some f) }
    {
        let mark = self.undo.len();
        let rows = &mut self.prices.sums.rows;
        tighten_all(alloc, model, rows, &mut self.b, &mut self.undo, steps, node)?;
        let fixed = past(&self.undo, mark);
        follow(
            model,
            &self.b,
            fixed,
            &mut self.priced,
            &mut self.prices.sums,
        );
        Ok(())
    }

    // Puts the multipliers aside that the last box waits with, which has this frame; then no row has one.
    fn put_aside(
        &mut self,
        alloc: Global,
        model: &Model,
        frame: Frame,
        clean: Costs,
    ) -> Result<(), NoMemory>
        requires stands { StandsSomeWith model.now self.old (self.old.frames.items ++ frame ∷ []) }
        requires none { frame.aside ≡ None }
        requires clean { IsClean model.now clean }
        ensures { (q : Pending Rows) (qs : List (Pending Rows)) → StandsWith model.now self.old (self.old.frames.items ++ frame ∷ []) q qs → OnOk result (Stands model.now self.new (without q) qs) }
    {
        let fixed = past(&self.undo, frame.mark);
        free_all(model, fixed, &mut self.priced, &mut self.prices.sums);
        match self
            .prices
            .take_back(alloc, model, &self.priced, frame.changes)
        {
            Ok(()) => {
                let aside = self.prices.sums.put_aside(alloc, clean);
                let sums = &mut self.prices.sums;
                follow(model, &self.b, fixed, &mut self.priced, sums);
                drop(frame.aside);
                self.frames.push(Frame {
                    aside: Some(aside),
                    ..frame
                })?;
                Ok(())
            }
            Err(no) => {
                drop(frame);
                drop(clean);
                Err(no)
            }
        }
    }

    // Begins without multipliers behind the last box that waits, which has this frame.
    fn begin_behind(&mut self, alloc: Global, model: &Model, frame: Frame) -> Result<(), NoMemory>
        requires stands { StandsSomeWith model.now self.old (self.old.frames.items ++ frame ∷ []) }
        ensures { (q : Pending Rows) (qs : List (Pending Rows)) → StandsWith model.now self.old (self.old.frames.items ++ frame ∷ []) q qs → OnOk result (Stands model.now self.new (without q) qs) }
    {
        if frame.aside.is_some() {
            return match self.prices.take_back(alloc, model, &self.b, frame.changes) {
                Ok(()) => Ok(self.frames.push(frame)?),
                Err(no) => {
                    drop(frame);
                    Err(no)
                }
            };
        }
        let blank = &mut self.prices.sums.blank;
        match blank.take(alloc, model, &self.b) {
            Ok(Some(clean)) => self.put_aside(alloc, model, frame, clean),
            Ok(None) => {
                self.frames.push(frame)?;
                self.prices.clear(alloc, model, &self.b)?;
                Ok(())
            }
            Err(no) => {
                drop(frame);
                Err(no)
            }
        }
    }

    // Where a box is to put its multipliers aside, and neither costs to go on with are left nor room for them, one that waits with costs lets go of its own.
    fn make_room(&mut self, alloc: Global, model: &Model, frame: &Frame) -> Result<(), NoMemory>
        requires stands { (f : Frames) × StandsSomeWith model.now self.old (self.old.frames.items ++ f ∷ []) }
        ensures { (f : Frames) (q : Pending Rows) (qs : List (Pending Rows)) → StandsWith model.now self.old (self.old.frames.items ++ f ∷ []) q qs → OnOk result (StandsWith model.now self.new (self.new.frames.items ++ f ∷ []) q qs) }
    {
        let sums = &mut self.prices.sums;
        if frame.aside.is_some() || sums.blank.is_left(model.vars() as usize) {
            return Ok(());
        }
        if let Some(place) = place_of_room(self.frames.as_slice(), &mut self.holders)? {
            let_go_at(alloc, model, sums, &mut self.frames, place)?;
        }
        Ok(())
    }

    // Begins with the multipliers in hand, or without any.
    fn begin(&mut self, alloc: Global, model: &Model, from_zero: bool) -> Result<(), NoMemory>
        requires stands { StandsSome model.now self.old }
        ensures { (q : Pending Rows) (qs : List (Pending Rows)) → Stands model.now self.old q qs → OnOk result (Stands model.now self.new (record { box = q.box; multipliers = begun from_zero q.multipliers }) qs) }
    {
        if !from_zero {
            return Ok(());
        }
        match self.frames.pop() {
            Some(frame) => match self.make_room(alloc, model, &frame) {
                Ok(()) => self.begin_behind(alloc, model, frame),
                Err(no) => {
                    drop(frame);
                    Err(no)
                }
            },
            None => {
                self.prices.clear(alloc, model, &self.b)?;
                Ok(())
            }
        }
    }

    // Where no box waits, nothing that was changed is to be taken back.
    fn forget(&mut self)
        ensures { (m : Voyage) (q : Pending Rows) (qs : List (Pending Rows)) → Stands m self.old q qs → Stands m self.new q qs }
    {
        self.holders.look_again(self.frames.len().saturating_sub(1));
        if self.frames.as_slice().is_empty() {
            self.prices.changes.clear();
        }
    }

    // A record's steps and raises.
    fn open(
        &mut self,
        alloc: Global,
        model: &Model,
        entry: &Record,
        node: u32,
    ) -> Result<(), BoundNo>
        requires stands { StandsSome model.now self.old }
        ensures { (q : Pending Rows) (qs : List (Pending Rows)) → Stands model.now self.old q qs → Opens model.now node q qs (entry_of model.now entry.now) result self.new }
    {
        self.forget();
        let steps = entry.steps.as_slice();
        self.tighten(alloc, model, steps, node)?;
        self.begin(alloc, model, entry.from_zero)?;
        let raises = entry.raises.as_slice();
        self.prices.raise_all(alloc, model, &self.b, raises, node)
    }

    /// One record: the greatest bound up to the high one that it doesn't refute.
    pub fn take(
        &mut self,
        alloc: Global,
        model: &Model,
        entry: &Record,
        bounds: Bounds,
        node: u32,
    ) -> Result<u64, BoundNo>
        requires at { IsSomewhere model.now self.old }
        requires order { bounds.low ≤ bounds.high }
        ensures { (qs : List (Pending Rows)) → IsAt model.now self.old qs → Takes model.now bounds node qs (entry_of model.now entry.now) result self.new }
    {
        if self.done {
            return Err(BoundNo::TreeTooLong);
        }
        self.open(alloc, model, entry, node)?;
        self.end(alloc, model, &entry.end, bounds, node)
    }
}
