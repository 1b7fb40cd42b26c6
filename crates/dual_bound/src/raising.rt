//! Raises of multipliers.
ghost use Rattle.std.specs.Prelude.{◌≡◌, true, ◌+◌, ◌<◌, ◌≤◌, ◌^◌, [], ◌∷◌, ◌++◌, length, Some, None, Ok, IfOk, OnOk, OnErr, IfSome, IfNone, ◌⊎◌, IsTrue, ◌↔◌, pos, ◌-ℤ◌, ◌*ℤ◌, ◌<ℤ◌};
ghost use Rattle.proof_trees.specs.Multipliers.{Multipliers as Prices, Closes, amount_of, with_amount};
ghost use Rattle.certificate.specs.Entries.{same_row};
ghost use Rattle.zero_one_rows.specs.Variables.{variables};
ghost use Rattle.zero_one_rows.specs.declared.program.Row.{Row as Rows};
ghost use Rattle.zero_one_rows.specs.Rows.{whole};
ghost use Rattle.certificate.specs.Stuck.{IsStuck};
ghost use Rattle.dual_bound.specs.Raising.{AreMultipliers, Raises};
ghost use Rattle.dual_bound.specs.Costs.{Priced, PricedSome};
ghost use Rattle.dual_bound.specs.Rising.{Rises, RisesBy, Ends};

use crate::changing::add_amount;
use crate::costs::Costs;
use crate::finding::find;
use crate::multipliers::{Multipliers, copy_of};
use crate::rising::{Rising, look_at};
use crate::sizes::signed;
use crate::table::RowTable;
use crate::terms::Listed;
use crossing_pricing::{Candidate, candidates};
use row_matrix::LooseBox;
use std::alloc::Global;
use stow_data::NoMemory;
use zero_one_model::{Box01, Model};
use zero_one_rows::{Raise, RaiseList, Row};

/// Where fewer raises are allowed, it costs too much to look how they are best made together.
const MANY: u32 = 1_000;

/// How raising ends.
#[derive(Clone, Copy)]
pub enum Raised {
    /// The dual value is above 16 times the cut less 1: the box closes at the cut.
    Reached,
    /// It isn't, and no multiplier below 2^40, raised by 1, raises it.
    Stuck,
    /// Neither holds, and as many raises are made as are allowed.
    Spent,
    NoMemory,
}

impl Costs {
    // Whether the value is above 16 times the cut less 1.
    fn is_above(&self, cut: u64) -> bool
        ensures { IsTrue result ↔ (pos 16 *ℤ (pos cut -ℤ pos 1)) <ℤ self.now.value }
    {
        self.value > 16 * (cut as i128 - 1)
    }

    // Whether the box closes at the cut.
    fn closes(&self, model: &Model, b: &Box01, m: &Multipliers, cut: u64) -> bool
        requires { Priced model.now b.now m.now self.now }
        ensures { IsTrue result ↔ Closes (whole model.now) b.now m.now cut }
    {
        self.is_above(cut)
    }
}

// By how much to raise a row: by this amount, if that is less and gains too.
fn limit(
    model: &Model,
    b: &Box01,
    m: &Multipliers,
    costs: &Costs,
    rising: &Rising,
    amount: u64,
) -> u64
    requires whole { length b.now ≡ length (variables model.now) }
    requires priced { Priced model.now b.now m.now costs.now }
    requires rises { Rises model.now b.now m.now rising.now }
    ensures { RisesBy model.now b.now m.now rising.now.row result }
{
    if amount == 0 || amount >= rising.more {
        return rising.more;
    }
    let listed = Listed {
        row: &rising.row,
        right: rising.right,
        terms: rising.terms.as_slice(),
    };
    if costs.gain(model, b, listed, amount) <= 0 {
        return rising.more;
    }
    amount
}

// The raise of a candidate, where it brings something.
fn candidate_raise(
    alloc: Global,
    model: &Model,
    table: &RowTable,
    b: &Box01,
    m: &Multipliers,
    costs: &Costs,
    candidate: Option<&Candidate>,
) -> Result<Option<Rising>, NoMemory>
    requires table { table.now ≡ model.now }
    requires whole { length b.now ≡ length (variables model.now) }
    requires priced { Priced model.now b.now m.now costs.now }
    ensures { IfOk result (λ o. IfSome o (λ c. Rises model.now b.now m.now c)) }
{
    let Some(candidate) = candidate else {
        return Ok(None);
    };
    match look_at(alloc, model, table, b, m, costs, Some(&candidate.row))? {
        Some(rising) => {
            let more = limit(model, b, m, costs, &rising, candidate.amount);
            Ok(Some(Rising { more, ..rising }))
        }
        None => Ok(None),
    }
}

// A row that can be raised with gain: the candidate, or else one that is found.
fn next(
    alloc: Global,
    model: &Model,
    table: &RowTable,
    b: &Box01,
    m: &Multipliers,
    costs: &Costs,
    minimizer: &mut Option<LooseBox>,
    from: u64,
    candidate: Option<&Candidate>,
) -> Result<Option<Rising>, NoMemory>
    requires table { table.now ≡ model.now }
    requires minimizer { IfSome minimizer.old (λ f. f.voyage ≡ model.now) }
    requires whole { length b.now ≡ length (variables model.now) }
    requires priced { Priced model.now b.now m.now costs.now }
    ensures minimizer { IfSome minimizer.new (λ f. f.voyage ≡ model.now) }
    ensures none { result ≡ Ok None → IsStuck model.now b.now m.now }
    ensures some { IfOk result (λ o. IfSome o (λ c. Rises model.now b.now m.now c)) }
{
    match candidate_raise(alloc, model, table, b, m, costs, candidate)? {
        Some(rising) => Ok(Some(rising)),
        None => find(alloc, model, table, b, m, costs, minimizer, from),
    }
}

// Appends a raise.
fn note(raises: &mut RaiseList, row: &Row, amount: i64) -> Result<(), NoMemory>
    ensures noted { OnOk result (raises.new ≡ raises.old ++ record { row = row.now; amount = amount } ∷ []) }
    ensures refused { OnErr result (raises.new ≡ raises.old) }
{
    let row = copy_of(row)?;
    raises.push(Raise { row, amount })
}

// Makes one raise, and appends it. After want of memory nothing is changed.
fn step(
    model: &Model,
    b: &Box01,
    m: &mut Multipliers,
    costs: &mut Costs,
    rising: &Rising,
    raises: &mut RaiseList,
) -> Result<(), NoMemory>
    requires whole { length b.now ≡ length (variables model.now) }
    requires priced { Priced model.now b.now m.old costs.old }
    requires rises { Rises model.now b.now m.old rising.now }
    ensures priced { Priced model.now b.now m.new costs.new }
    ensures raised { OnOk result (Raises model.now b.now 1 m.old m.new raises.old raises.new) }
    ensures one { OnOk result (length raises.new ≡ length raises.old + 1) }
    ensures refused { OnErr result ((m.new ≡ m.old) × (raises.new ≡ raises.old)) }
{
    let by = signed(rising.more);
    let place = m.place(&rising.row);
    let old = m.amount(place);
    m.give(place, copy_of(&rising.row)?, old + rising.more)?;
    if note(raises, &rising.row, by).is_err() {
        m.take_back(place, old);
        return Err(NoMemory);
    }
    let listed = Listed {
        row: &rising.row,
        right: rising.right,
        terms: rising.terms.as_slice(),
    };
    costs.add_row(model, b, listed, by);
    Ok(())
}

// How raising ends after the last raise that is allowed.
fn last(
    alloc: Global,
    model: &Model,
    table: &RowTable,
    b: &Box01,
    m: &Multipliers,
    costs: &Costs,
    minimizer: &mut Option<LooseBox>,
    cut: u64,
) -> Raised
    requires table { table.now ≡ model.now }
    requires minimizer { IfSome minimizer.old (λ f. f.voyage ≡ model.now) }
    requires whole { length b.now ≡ length (variables model.now) }
    requires priced { Priced model.now b.now m.now costs.now }
    ensures minimizer { IfSome minimizer.new (λ f. f.voyage ≡ model.now) }
    ensures ends { Ends model.now b.now m.now cut result }
{
    if costs.closes(model, b, m, cut) {
        return Raised::Reached;
    }
    match find(alloc, model, table, b, m, costs, minimizer, 0) {
        Err(_) => Raised::NoMemory,
        Ok(None) => Raised::Stuck,
        Ok(Some(_)) => Raised::Spent,
    }
}

// Makes one raise where the box doesn't close at the cut and some row can be raised with gain; else says how raising ends, with nothing changed.
fn turn(
    alloc: Global,
    model: &Model,
    table: &RowTable,
    b: &Box01,
    m: &mut Multipliers,
    costs: &mut Costs,
    minimizer: &mut Option<LooseBox>,
    cut: u64,
    from: &mut u64,
    candidate: Option<&Candidate>,
    raises: &mut RaiseList,
) -> Option<Raised>
    requires table { table.now ≡ model.now }
    requires minimizer { IfSome minimizer.old (λ f. f.voyage ≡ model.now) }
    requires whole { length b.now ≡ length (variables model.now) }
    requires priced { Priced model.now b.now m.old costs.old }
    ensures minimizer { IfSome minimizer.new (λ f. f.voyage ≡ model.now) }
    ensures priced { Priced model.now b.now m.new costs.new }
    ensures raised { IfNone result (Raises model.now b.now 1 m.old m.new raises.old raises.new) }
    ensures one { IfNone result (length raises.new ≡ length raises.old + 1) }
    ensures same { IfSome result (λ e. (m.new ≡ m.old) × (raises.new ≡ raises.old)) }
    ensures ends { IfSome result (λ e. Ends model.now b.now m.new cut e) }
    ensures not_spent { result ≡ Some Raised.Spent → ⊥ }
{
    if costs.closes(model, b, m, cut) {
        return Some(Raised::Reached);
    }
    match next(
        alloc, model, table, b, m, costs, minimizer, *from, candidate,
    ) {
        Ok(Some(rising)) => {
            let number = rising.number;
            let made = step(model, b, m, costs, &rising, raises);
            drop(rising);
            match made {
                Ok(()) => {
                    *from = number;
                    None
                }
                Err(_) => Some(Raised::NoMemory),
            }
        }
        Ok(None) => Some(Raised::Stuck),
        Err(_) => Some(Raised::NoMemory),
    }
}

// The raises that are tried first: where no row has a multiplier and many raises are allowed, a packing.
fn first_candidates(
    alloc: Global,
    model: &Model,
    table: &RowTable,
    m: &Multipliers,
    most: u32,
) -> Vec<Candidate> {
    if m.len() > 0 || most < MANY {
        return Vec::new(alloc);
    }
    let Some(pairs) = table.pairs() else {
        return Vec::new(alloc);
    };
    match candidates(alloc, pairs, model.cargo()) {
        Ok(candidates) => candidates,
        Err(NoMemory) => Vec::new(alloc),
    }
}

// Raises multipliers whose costs are kept, by these candidates first.
fn raise_candidates(
    alloc: Global,
    model: &Model,
    table: &RowTable,
    b: &Box01,
    m: &mut Multipliers,
    costs: &mut Costs,
    minimizer: &mut Option<LooseBox>,
    cut: u64,
    most: u32,
    raises: &mut RaiseList,
    candidates: &[Candidate],
) -> Raised
    requires table { table.now ≡ model.now }
    requires minimizer { IfSome minimizer.old (λ f. f.voyage ≡ model.now) }
    requires whole { length b.now ≡ length (variables model.now) }
    requires priced { Priced model.now b.now m.old costs.old }
    ensures minimizer { IfSome minimizer.new (λ f. f.voyage ≡ model.now) }
    ensures priced { Priced model.now b.now m.new costs.new }
    ensures raised { Raises model.now b.now most m.old m.new raises.old raises.new }
    ensures ends { Ends model.now b.now m.new cut result }
    ensures spent { result ≡ Raised.Spent → length raises.new ≡ length raises.old + most }
{
    let mut from = 0;
    for made in 0..most {
        let candidate = candidates.get(made as usize);
        if let Some(end) = turn(
            alloc, model, table, b, m, costs, minimizer, cut, &mut from, candidate, raises,
        ) {
            return end;
        }
    }
    last(alloc, model, table, b, m, costs, minimizer, cut)
}

/// Raises multipliers whose costs are kept.
pub fn raise_kept(
    alloc: Global,
    model: &Model,
    table: &RowTable,
    b: &Box01,
    m: &mut Multipliers,
    costs: &mut Costs,
    minimizer: &mut Option<LooseBox>,
    cut: u64,
    most: u32,
    raises: &mut RaiseList,
) -> Raised
    requires table { table.now ≡ model.now }
    requires minimizer { IfSome minimizer.old (λ f. f.voyage ≡ model.now) }
    requires whole { length b.now ≡ length (variables model.now) }
    requires priced { Priced model.now b.now m.old costs.old }
    ensures minimizer { IfSome minimizer.new (λ f. f.voyage ≡ model.now) }
    ensures priced { Priced model.now b.now m.new costs.new }
    ensures raised { Raises model.now b.now most m.old m.new raises.old raises.new }
    ensures ends { Ends model.now b.now m.new cut result }
    ensures spent { result ≡ Raised.Spent → length raises.new ≡ length raises.old + most }
{
    let candidates = first_candidates(alloc, model, table, m, most);
    let raised = raise_candidates(
        alloc,
        model,
        table,
        b,
        m,
        costs,
        minimizer,
        cut,
        most,
        raises,
        candidates.as_slice(),
    );
    drop(candidates);
    raised
}

// Adds a row without a multiplier to costs, with this one.
fn add_entry(
    alloc: Global,
    model: &Model,
    table: &RowTable,
    b: &Box01,
    costs: &mut Costs,
    row: &Row,
    amount: u64,
) -> Result<(), NoMemory>
    requires row { (whole model.now).has row.now ≡ true }
    requires amount { amount ≤ 2 ^ 40 }
    requires table { table.now ≡ model.now }
    requires whole { length b.now ≡ length (variables model.now) }
    requires priced { PricedSome model.now b.now costs.old }
    ensures { (ms : Prices Rows) → Priced model.now b.now ms costs.old → amount_of same_row ms row.now ≡ 0 → OnOk result (Priced model.now b.now (with_amount same_row ms row.now amount) costs.new) }
{
    add_amount(alloc, model, table, b, costs, row, signed(amount))
}

// Adds multipliers to the costs of none.
fn price_all(
    alloc: Global,
    model: &Model,
    table: &RowTable,
    b: &Box01,
    m: &Multipliers,
    costs: &mut Costs,
) -> Result<(), NoMemory>
    requires multipliers { AreMultipliers model.now m.now }
    requires table { table.now ≡ model.now }
    requires whole { length b.now ≡ length (variables model.now) }
    requires none { Priced model.now b.now [] costs.old }
    ensures { OnOk result (Priced model.now b.now m.now costs.new) }
{
    for entry in m.as_slice() {
        add_entry(alloc, model, table, b, costs, &entry.0, entry.1)?;
    }
    Ok(())
}

// The costs of multipliers in a box.
fn price(
    alloc: Global,
    model: &Model,
    table: &RowTable,
    b: &Box01,
    m: &Multipliers,
) -> Result<Costs, NoMemory>
    requires multipliers { AreMultipliers model.now m.now }
    requires table { table.now ≡ model.now }
    requires whole { length b.now ≡ length (variables model.now) }
    ensures { IfOk result (λ c. Priced model.now b.now m.now c) }
{
    let mut costs = Costs::start(alloc, model, b)?;
    match price_all(alloc, model, table, b, m, &mut costs) {
        Ok(_) => Ok(costs),
        Err(no) => {
            drop(costs);
            Err(no)
        }
    }
}

/// As `raise`, with a table of the program's rows at hand, which makes it fast: raises multipliers until the box closes at the cut, or no multiplier raised by 1 raises the dual value, or `most` raises are made. Each raise is appended to the list, also where memory is wanting after it.
pub fn raise_by(
    alloc: Global,
    model: &Model,
    table: &RowTable,
    b: &Box01,
    m: &mut Multipliers,
    cut: u64,
    most: u32,
    raises: &mut RaiseList,
) -> Raised
    requires multipliers { AreMultipliers model.now m.old }
    requires table { table.now ≡ model.now }
    requires whole { length b.now ≡ length (variables model.now) }
    ensures raised { Raises model.now b.now most m.old m.new raises.old raises.new }
    ensures kept { AreMultipliers model.now m.new }
    ensures reached { result ≡ Raised.Reached → Closes (whole model.now) b.now m.new cut }
    ensures not_reached { (result ≡ Raised.Stuck) ⊎ (result ≡ Raised.Spent) → Closes (whole model.now) b.now m.new cut → ⊥ }
    ensures stuck { result ≡ Raised.Stuck → IsStuck model.now b.now m.new }
    ensures not_stuck { result ≡ Raised.Spent → IsStuck model.now b.now m.new → ⊥ }
    ensures spent { result ≡ Raised.Spent → length raises.new ≡ length raises.old + most }
{
    let Ok(mut costs) = price(alloc, model, table, b, m) else {
        return Raised::NoMemory;
    };
    let mut minimizer = None;
    let raised = raise_kept(
        alloc,
        model,
        table,
        b,
        m,
        &mut costs,
        &mut minimizer,
        cut,
        most,
        raises,
    );
    drop(minimizer);
    drop(costs);
    raised
}

/// Raises multipliers until the box closes at the cut, or no multiplier raised by 1 raises the dual value, or `most` raises are made. Each raise is appended to the list, also where memory is wanting after it.
pub fn raise(
    alloc: Global,
    model: &Model,
    b: &Box01,
    m: &mut Multipliers,
    cut: u64,
    most: u32,
    raises: &mut RaiseList,
) -> Raised
    requires multipliers { AreMultipliers model.now m.old }
    requires whole { length b.now ≡ length (variables model.now) }
    ensures raised { Raises model.now b.now most m.old m.new raises.old raises.new }
    ensures kept { AreMultipliers model.now m.new }
    ensures reached { result ≡ Raised.Reached → Closes (whole model.now) b.now m.new cut }
    ensures not_reached { (result ≡ Raised.Stuck) ⊎ (result ≡ Raised.Spent) → Closes (whole model.now) b.now m.new cut → ⊥ }
    ensures stuck { result ≡ Raised.Stuck → IsStuck model.now b.now m.new }
    ensures not_stuck { result ≡ Raised.Spent → IsStuck model.now b.now m.new → ⊥ }
    ensures spent { result ≡ Raised.Spent → length raises.new ≡ length raises.old + most }
{
    let table = RowTable::none(alloc, model);
    let raised = raise_by(alloc, model, &table, b, m, cut, most, raises);
    drop(table);
    raised
}
