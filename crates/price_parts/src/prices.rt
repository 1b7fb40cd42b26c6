//! Multipliers, dual values and raises.
ghost use Rattle.std.specs.Prelude.{◌≡◌, ◌<◌, IfOk, length, true};
ghost use Rattle.dual_bound.specs.Raising.{AreMultipliers};
ghost use Rattle.zero_one_rows.specs.Rows.{whole};
ghost use Rattle.zero_one_rows.specs.Variables.{variables};

use box_parts::{asked_of, write_count};
use certificate::{KeptRaise, Record, Tree};
use dual_bound::{AddNo, Gauge, Multipliers, Raised, RowTable, value};
use partial_plan::{BaseMatrix, KeptBox};
use std::alloc::Global;
use stow_data::{Bytes, NoMemory, VarNo};
use zero_one_model::{Box01, Model};
use zero_one_rows::{Raise, RaiseList, Row, RowList};

/// The most raises.
const MOST: u32 = 4_096;

/// Fixes a variable of a box where it is free.
fn fix_in(b: &mut Box01, x: VarNo, to: bool)
    requires inside { x < length b.old }
    ensures { length b.new ≡ length b.old }
{
    if b.at(x).is_none() {
        b.fix(x, to);
    }
}

/// The box in which the variables of records are as these ask.
fn box_of(alloc: Global, model: &Model, records: &Tree) -> Result<Box01, NoMemory>
    ensures { IfOk result (λ b. length b ≡ length (variables model.now)) }
{
    let mut b = Box01::free(alloc, model)?;
    for record in records.as_slice() {
        if let Some((x, to)) = asked_of(model, record) {
            fix_in(&mut b, x, to);
        }
    }
    Ok(b)
}

/// Changes a row's multiplier.
fn add_price(model: &Model, prices: &mut Multipliers, row: &Row, amount: i64) -> Result<(), AddNo>
    requires row { (whole model.now).has row.now ≡ true }
    requires prices { AreMultipliers model.now prices.old }
    ensures { AreMultipliers model.now prices.new }
{
    prices.add(row, amount)
}

/// Changes the multiplier of a raise's row, and tells where that isn't done.
fn write_add(
    model: &Model,
    prices: &mut Multipliers,
    raise: &Raise,
    out: &mut Bytes,
) -> Result<(), NoMemory>
    requires prices { AreMultipliers model.now prices.old }
    ensures { AreMultipliers model.now prices.new }
{
    if !model.has_row(&raise.row) {
        return out.extend(b"no row\n");
    }
    match add_price(model, prices, &raise.row, raise.amount) {
        Ok(()) => Ok(()),
        Err(AddNo::OutOfRange) => out.extend(b"out of range\n"),
        Err(AddNo::NoMemory) => Err(NoMemory),
    }
}

/// Changes multipliers by raises.
fn write_adds(
    model: &Model,
    prices: &mut Multipliers,
    raises: &[KeptRaise],
    out: &mut Bytes,
) -> Result<(), NoMemory>
    requires prices { AreMultipliers model.now prices.old }
    ensures { AreMultipliers model.now prices.new }
{
    for raise in raises {
        write_add(model, prices, &raise.raise(), out)?;
    }
    Ok(())
}

/// The multipliers that records lead to, all of them from none.
fn prices_of(
    alloc: Global,
    model: &Model,
    records: &Tree,
    out: &mut Bytes,
) -> Result<Multipliers, NoMemory>
    ensures { IfOk result (AreMultipliers model.now) }
{
    let mut prices = Multipliers::zero(alloc);
    for record in records.as_slice() {
        write_adds(model, &mut prices, record.raises.as_slice(), out)?;
    }
    Ok(prices)
}

/// Fixes a variable of a gauge where it is free: at the other value, freed again, and then as it is to be. Whether the dual value is then the one
/// that was foretold.
fn fix_there(gauge: &mut Gauge, x: VarNo, to: bool) -> bool
    requires inside { x < length gauge.old.box }
    ensures voyage { gauge.new.voyage ≡ gauge.old.voyage }
    ensures whole { length gauge.new.box ≡ length gauge.old.box }
{
    if gauge.current().at(x).is_some() {
        return true;
    }
    gauge.fix(x, !to);
    gauge.release(x);
    if gauge.current().at(x).is_some() {
        return false;
    }
    let foretold = gauge.other(x, to);
    gauge.fix(x, to);
    gauge.value() == foretold
}

/// Changes the multipliers of a gauge by raises of rows that the program has; those that are refused change nothing.
fn add_there(
    alloc: Global,
    model: &Model,
    table: &RowTable,
    gauge: &mut Gauge,
    raises: &[Raise],
) -> Result<(), NoMemory>
    requires table { table.now ≡ model.now }
    requires voyage { gauge.old.voyage ≡ model.now }
    requires whole { length gauge.old.box ≡ length (variables model.now) }
    ensures voyage { gauge.new.voyage ≡ model.now }
    ensures whole { length gauge.new.box ≡ length (variables model.now) }
{
    for raise in raises {
        if model.has_row(&raise.row) {
            match gauge.add(alloc, table, &raise.row, raise.amount) {
                Ok(()) | Err(AddNo::OutOfRange) => (),
                Err(AddNo::NoMemory) => return Err(NoMemory),
            }
        }
    }
    Ok(())
}

/// Goes on with a gauge by what a record asks for. Whether each dual value was foretold.
fn go_on(
    alloc: Global,
    model: &Model,
    table: &RowTable,
    gauge: &mut Gauge,
    record: &Record,
) -> Result<bool, NoMemory>
    requires table { table.now ≡ model.now }
    requires voyage { gauge.old.voyage ≡ model.now }
    requires whole { length gauge.old.box ≡ length (variables model.now) }
    ensures voyage { gauge.new.voyage ≡ model.now }
    ensures whole { length gauge.new.box ≡ length (variables model.now) }
{
    let raises = record.raises.to_list(alloc)?;
    add_there(alloc, model, table, gauge, raises.as_slice())?;
    match asked_of(model, record) {
        Some((x, to)) => Ok(fix_there(gauge, x, to)),
        None => Ok(true),
    }
}

/// Goes on with a gauge by what records ask for. Whether each dual value was foretold.
fn go_along(
    alloc: Global,
    model: &Model,
    table: &RowTable,
    gauge: &mut Gauge,
    records: &Tree,
) -> Result<bool, NoMemory>
    requires table { table.now ≡ model.now }
    requires voyage { gauge.old.voyage ≡ model.now }
    requires whole { length gauge.old.box ≡ length (variables model.now) }
    ensures voyage { gauge.new.voyage ≡ model.now }
    ensures whole { length gauge.new.box ≡ length (variables model.now) }
{
    let mut foretold = true;
    for record in records.as_slice() {
        if !go_on(alloc, model, table, gauge, record)? {
            foretold = false;
        }
    }
    Ok(foretold)
}

/// The dual value of a gauge that goes along records.
fn write_gauge(
    alloc: Global,
    model: &Model,
    table: &RowTable,
    gauge: &mut Gauge,
    records: &Tree,
    out: &mut Bytes,
) -> Result<(), NoMemory>
    requires table { table.now ≡ model.now }
    requires voyage { gauge.old.voyage ≡ model.now }
    requires whole { length gauge.old.box ≡ length (variables model.now) }
{
    if !go_along(alloc, model, table, gauge, records)? {
        return out.extend(b"not foretold\n");
    }
    write_count(out, b"kept", gauge.value())
}

/// The free box without multipliers.
fn free_gauge<'a>(alloc: Global, model: &'a Model<'a>) -> Result<Gauge<'a>, NoMemory>
    ensures voyage { IfOk result (λ g. g.voyage ≡ model.now) }
    ensures whole { IfOk result (λ g. length g.box ≡ length (variables model.now)) }
{
    let b = Box01::free(alloc, model)?;
    Gauge::start(alloc, model, b)
}

/// The dual value of the box and the multipliers of records as it is kept from step to step.
fn write_kept_value(
    alloc: Global,
    model: &Model,
    table: &RowTable,
    records: &Tree,
    out: &mut Bytes,
) -> Result<(), NoMemory>
    requires table { table.now ≡ model.now }
{
    let mut gauge = free_gauge(alloc, model)?;
    let written = write_gauge(alloc, model, table, &mut gauge, records, out);
    drop(gauge);
    written
}

/// The dual value of the box and the multipliers of records by its definition.
fn write_plain_value(
    alloc: Global,
    model: &Model,
    prices: &Multipliers,
    records: &Tree,
    out: &mut Bytes,
) -> Result<(), NoMemory>
    requires prices { AreMultipliers model.now prices.now }
{
    let b = box_of(alloc, model, records)?;
    write_count(out, b"value", value(model, &b, prices))
}

/// The same after the multipliers were changed.
fn write_defined_value(
    alloc: Global,
    model: &Model,
    records: &Tree,
    out: &mut Bytes,
) -> Result<(), NoMemory> {
    let prices = prices_of(alloc, model, records, out)?;
    write_plain_value(alloc, model, &prices, records, out)
}

/// The same by its definition, and then as it is kept.
pub fn write_value(
    alloc: Global,
    model: &Model,
    records: &Tree,
    out: &mut Bytes,
) -> Result<(), NoMemory> {
    write_defined_value(alloc, model, records, out)?;
    let matrix = BaseMatrix::build(alloc, model)?;
    let table = RowTable::build(alloc, &matrix);
    let written = write_kept_value(alloc, model, &table, records, out);
    drop(table);
    drop(matrix);
    written
}

/// Whether a row's multiplier, raised by 1, raises the dual value. The multiplier is then as before.
fn rises(alloc: Global, table: &RowTable, gauge: &mut Gauge, row: &Row) -> Result<bool, NoMemory>
    requires table { table.now ≡ gauge.old.voyage }
    requires row { (whole gauge.old.voyage).has row.now ≡ true }
    ensures voyage { gauge.new.voyage ≡ gauge.old.voyage }
{
    let before = gauge.value();
    match gauge.add(alloc, table, row, 1) {
        Ok(()) => (),
        Err(AddNo::OutOfRange) => return Ok(false),
        Err(AddNo::NoMemory) => return Err(NoMemory),
    }
    let after = gauge.value();
    match gauge.add(alloc, table, row, -1) {
        Ok(()) | Err(AddNo::OutOfRange) => Ok(after > before),
        Err(AddNo::NoMemory) => Err(NoMemory),
    }
}

/// How many rows of the program there are whose multiplier, raised by 1, raises the dual value.
fn rising(
    alloc: Global,
    model: &Model,
    table: &RowTable,
    gauge: &mut Gauge,
) -> Result<u64, NoMemory>
    requires table { table.now ≡ model.now }
    requires voyage { gauge.old.voyage ≡ model.now }
{
    let mut count: u64 = 0;
    for k in 0..model.rows() {
        if rises(alloc, table, gauge, &model.row_at(k))? {
            count = count.wrapping_add(1);
        }
    }
    Ok(count)
}

/// How raises of a gauge end.
fn write_raised(end: &Raised, out: &mut Bytes) -> Result<(), NoMemory> {
    match end {
        Raised::Reached => out.extend(b"reached\n"),
        Raised::Stuck => out.extend(b"stuck\n"),
        Raised::Spent => out.extend(b"spent\n"),
        Raised::NoMemory => Err(NoMemory),
    }
}

/// Tells the dual value, and how many raises led to it.
fn write_worth(gauge: &Gauge, raised: usize, out: &mut Bytes) -> Result<(), NoMemory> {
    write_count(out, b"value", gauge.value())?;
    write_count(out, b"raises", raised)
}

/// Raises the multipliers of a gauge against a cut: how that ends, the dual value, and the raises.
fn raise_now(
    alloc: Global,
    table: &RowTable,
    gauge: &mut Gauge,
    cut: u64,
    out: &mut Bytes,
) -> Result<(), NoMemory>
    requires table { table.now ≡ gauge.old.voyage }
    ensures voyage { gauge.new.voyage ≡ gauge.old.voyage }
{
    let mut raises = RaiseList::new(alloc);
    let end = gauge.raise(alloc, table, cut, MOST, &mut raises);
    write_raised(&end, out)?;
    write_worth(gauge, raises.len(), out)
}

/// Raises the multipliers of a gauge against a cut: how that ends, the dual value, the raises, and how many rows raise it further.
fn write_raises_there(
    alloc: Global,
    model: &Model,
    table: &RowTable,
    gauge: &mut Gauge,
    cut: u64,
    out: &mut Bytes,
) -> Result<(), NoMemory>
    requires table { table.now ≡ model.now }
    requires voyage { gauge.old.voyage ≡ model.now }
{
    raise_now(alloc, table, gauge, cut, out)?;
    let count = rising(alloc, model, table, gauge)?;
    write_count(out, b"rows that rise", count)
}

/// The same with a table.
fn write_raises_by(
    alloc: Global,
    model: &Model,
    table: &RowTable,
    records: &Tree,
    cut: u64,
    out: &mut Bytes,
) -> Result<(), NoMemory>
    requires table { table.now ≡ model.now }
{
    let mut gauge = free_gauge(alloc, model)?;
    go_along(alloc, model, table, &mut gauge, records)?;
    let written = write_raises_there(alloc, model, table, &mut gauge, cut, out);
    drop(gauge);
    written
}

/// The same from the multipliers of records.
pub fn write_raises(
    alloc: Global,
    model: &Model,
    records: &Tree,
    cut: u64,
    out: &mut Bytes,
) -> Result<(), NoMemory> {
    let matrix = BaseMatrix::build(alloc, model)?;
    let table = RowTable::build(alloc, &matrix);
    let written = write_raises_by(alloc, model, &table, records, cut, out);
    drop(table);
    drop(matrix);
    written
}

/// A box that is kept, tightened by all base rows.
fn tightened_box(alloc: Global, kept: &mut KeptBox) -> Result<Box01, NoMemory>
    ensures { IfOk result (λ b. length b ≡ length (variables kept.old.voyage)) }
{
    let mut steps = RowList::new(alloc);
    let _end = kept.tighten(&mut steps);
    kept.is_whole();
    kept.now().copy(alloc)
}

/// The free box, tightened by all base rows of a matrix.
fn tightened_by(alloc: Global, matrix: &BaseMatrix) -> Result<Box01, NoMemory>
    ensures { IfOk result (λ b. length b ≡ length (variables matrix.now)) }
{
    let mut kept = KeptBox::free(alloc, matrix)?;
    let tightened = tightened_box(alloc, &mut kept);
    drop(kept);
    tightened
}

/// Raises the multipliers of a gauge from none, so many times over. How many raises there were the last time.
fn raise_often(alloc: Global, table: &RowTable, gauge: &mut Gauge, times: u64) -> usize
    requires { table.now ≡ gauge.old.voyage }
{
    let mut raised = 0;
    for _ in 0..times {
        let mut raises = RaiseList::new(alloc);
        gauge.clear(alloc);
        let _end = gauge.raise(alloc, table, u64::MAX, MOST, &mut raises);
        raised = raises.len();
    }
    raised
}

/// The tightened free box without multipliers.
fn tightened_gauge<'a>(
    alloc: Global,
    model: &'a Model<'a>,
    matrix: &BaseMatrix,
) -> Result<Gauge<'a>, NoMemory>
    requires { matrix.now ≡ model.now }
    ensures { IfOk result (λ g. g.voyage ≡ model.now) }
{
    let b = tightened_by(alloc, matrix)?;
    Gauge::start(alloc, model, b)
}

/// Raises from none in the tightened free box, over base rows that stand in a matrix.
fn write_root_over(
    alloc: Global,
    model: &Model,
    matrix: &BaseMatrix,
    times: u64,
    out: &mut Bytes,
) -> Result<(), NoMemory>
    requires { matrix.now ≡ model.now }
{
    let table = RowTable::build(alloc, matrix);
    let mut gauge = tightened_gauge(alloc, model, matrix)?;
    let raised = raise_often(alloc, &table, &mut gauge, times);
    let written = write_worth(&gauge, raised, out);
    drop(gauge);
    drop(table);
    written
}

/// The dual value of the tightened free box after raises from none, so many times over, and how many there were.
pub fn write_root(
    alloc: Global,
    model: &Model,
    times: u64,
    out: &mut Bytes,
) -> Result<(), NoMemory> {
    let matrix = BaseMatrix::build(alloc, model)?;
    let written = write_root_over(alloc, model, &matrix, times, out);
    drop(matrix);
    written
}
