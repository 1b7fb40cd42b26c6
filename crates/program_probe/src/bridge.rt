//! From plans to full boxes and back.
ghost use Rattle.std.specs.Prelude.{◌≡◌, ◌<◌, IfOk, length};
ghost use Rattle.stowage_rules.specs.Departure.{HasArrival};
ghost use Rattle.voyage_meaning.specs.Voyage.{HasCost};
ghost use Rattle.plan_lifts.specs.Lifted.{IsLifted};
ghost use Rattle.zero_one_rows.specs.Variables.{variables};
ghost use Rattle.model_bridge.specs.Laws.{IsProblem};
ghost use Rattle.program_probe.specs.Legal.{ArePlans};
ghost use Rattle.model_bridge.specs.Sailed.{IsFull, BreaksNone};

use crate::berth::write_voyage;
use crate::words::{write_count, write_number, write_var};
use certificate::{End, Tree};
use greedy_loader::load;
use model_bridge::{assignment_of, plan_of};
use partial_plan::{breaks_none, cost_of};
use plan_lifts::{LiftLists, Lifted, LiftsFault, lifts, moves_of};
use std::alloc::Global;
use stow_data::{Bytes, Cargo, NoMemory, PlaceNo, Plan, PlanList, Ship, VarNo};
use zero_one_model::{Box01, Model};
use zero_one_rows::Var;

/// A place with its container, where it has one.
fn write_filled(plan: &Plan, p: PlaceNo, out: &mut Bytes) -> Result<(), NoMemory>
    requires { p < length plan.now }
{
    match plan.at(p) {
        Some(c) => {
            write_number(out, u64::from(p.0))?;
            out.extend(b":")?;
            write_number(out, u64::from(c.0))
        }
        None => Ok(()),
    }
}

/// The places that a plan fills, each with its container.
fn write_plan(plan: &Plan, out: &mut Bytes) -> Result<(), NoMemory> {
    for p in 0..plan.len() {
        if let Ok(number) = u32::try_from(p) {
            write_filled(plan, PlaceNo(number), out)?;
        }
    }
    out.extend(b"\n")
}

/// The departures of calls 1 to N-1.
fn write_departures(plans: &PlanList, out: &mut Bytes) -> Result<(), NoMemory> {
    for plan in plans.as_slice() {
        out.extend(b"departure")?;
        write_plan(plan, out)?;
    }
    Ok(())
}

/// What is lifted at calls 1 to N-1.
fn write_lists(lists: &LiftLists, out: &mut Bytes) -> Result<(), NoMemory> {
    for list in lists.as_slice() {
        out.extend(b"lifted")?;
        for c in list.as_slice() {
            write_number(out, u64::from(c.0))?;
        }
        out.extend(b"\n")?;
    }
    Ok(())
}

/// The variables that are 1.
fn write_ones(model: &Model, full: &Box01, out: &mut Bytes) -> Result<(), NoMemory>
    requires { length full.now ≡ length (variables model.now) }
{
    for v in 0..model.vars() {
        if full.at(VarNo(v)) == Some(true) {
            write_var(out, b"one", model.var(VarNo(v)))?;
            out.extend(b"\n")?;
        }
    }
    Ok(())
}

/// The cost of legal departures.
fn write_cost(
    alloc: Global,
    ship: &Ship,
    cargo: &Cargo,
    plans: &PlanList,
    out: &mut Bytes,
) -> Result<(), NoMemory>
    requires arrival { HasArrival ship.now cargo.now }
    requires plans { ArePlans ship.now cargo.now plans.now }
{
    match lifts(alloc, ship, cargo, plans) {
        Ok(lifted) => write_count(out, b"cost", lifted.cost),
        Err(LiftsFault::Illegal { .. }) => out.extend(b"illegal\n"),
        Err(LiftsFault::NoMemory) => Err(NoMemory),
    }
}

/// A full box that breaks no base row: its ones, its cost, and its plans with their cost.
fn write_sailed(
    alloc: Global,
    ship: &Ship,
    cargo: &Cargo,
    model: &Model,
    full: &Box01,
    out: &mut Bytes,
) -> Result<(), NoMemory>
    requires arrival { HasArrival ship.now cargo.now }
    requires ship { model.now.ship ≡ ship.now }
    requires cargo { model.now.cargo ≡ cargo.now }
    requires problem { IsProblem model.now }
    requires full { IsFull model.now full.now }
    requires rows { BreaksNone model.now full.now }
{
    write_ones(model, full, out)?;
    write_count(out, b"cost", cost_of(model, full))?;
    let plans = plan_of(alloc, ship, cargo, model, full)?;
    write_departures(&plans, out)?;
    write_cost(alloc, ship, cargo, &plans, out)
}

/// Legal departures, what is lifted between them, the moves of it, and their full box.
fn write_way(
    alloc: Global,
    ship: &Ship,
    cargo: &Cargo,
    model: &Model,
    plans: &PlanList,
    out: &mut Bytes,
) -> Result<(), NoMemory>
    requires arrival { HasArrival ship.now cargo.now }
    requires ship { model.now.ship ≡ ship.now }
    requires cargo { model.now.cargo ≡ cargo.now }
    requires problem { IsProblem model.now }
    requires plans { ArePlans ship.now cargo.now plans.now }
{
    match lifts(alloc, ship, cargo, plans) {
        Ok(lifted) => write_lifted(alloc, ship, cargo, model, plans, &lifted, out),
        Err(LiftsFault::Illegal { .. }) => out.extend(b"illegal\n"),
        Err(LiftsFault::NoMemory) => Err(NoMemory),
    }
}

fn write_lifted(
    alloc: Global,
    ship: &Ship,
    cargo: &Cargo,
    model: &Model,
    plans: &PlanList,
    lifted: &Lifted,
    out: &mut Bytes,
) -> Result<(), NoMemory>
    requires arrival { HasArrival ship.now cargo.now }
    requires ship { model.now.ship ≡ ship.now }
    requires cargo { model.now.cargo ≡ cargo.now }
    requires problem { IsProblem model.now }
    requires plans { ArePlans ship.now cargo.now plans.now }
    requires lists { IsLifted ship.now cargo.now plans.now lifted.now.lists }
    requires costs { HasCost ship.now cargo.now plans.now lifted.now.cost }
{
    write_departures(plans, out)?;
    write_lists(&lifted.lists, out)?;
    write_count(out, b"cost", lifted.cost)?;
    let voyage = moves_of(alloc, ship, cargo, plans, lifted)?;
    write_voyage(alloc, ship, cargo, plans, &voyage, out)?;
    let full = assignment_of(alloc, ship, cargo, model, plans, lifted)?;
    write_sailed(alloc, ship, cargo, model, &full, out)
}

/// The loader's plans with what is lifted between them and the moves of it, their full box, and the plans of that.
pub fn write_loaded(
    alloc: Global,
    ship: &Ship,
    cargo: &Cargo,
    model: &Model,
    out: &mut Bytes,
) -> Result<(), NoMemory>
    requires arrival { HasArrival ship.now cargo.now }
    requires ship { model.now.ship ≡ ship.now }
    requires cargo { model.now.cargo ≡ cargo.now }
    requires problem { IsProblem model.now }
{
    match load(alloc, ship, cargo)? {
        Some(plans) => write_way(alloc, ship, cargo, model, &plans, out),
        None => out.extend(b"no plans\n"),
    }
}

/// Fixes a variable at 1 where it is free.
fn set_one(model: &Model, b: &mut Box01, x: Var)
    requires { length b.old ≡ length (variables model.now) }
    ensures { length b.new ≡ length (variables model.now) }
{
    if let Some(v) = model.number(&x) {
        if b.at(v).is_none() {
            b.fix(v, true);
        }
    }
}

/// Fixes a variable at 0 where it is free.
fn set_zero(b: &mut Box01, v: VarNo)
    requires { v < length b.old }
    ensures { length b.new ≡ length b.old }
{
    if b.at(v).is_none() {
        b.fix(v, false);
    }
}

/// The box whose ones are the variables by which some records divide.
fn box_of(alloc: Global, model: &Model, asked: &Tree) -> Result<Box01, NoMemory>
    ensures { IfOk result (λ b. length b ≡ length (variables model.now)) }
{
    let mut b = Box01::free(alloc, model)?;
    for record in asked.as_slice() {
        if let End::Branch(x) = record.end {
            set_one(model, &mut b, x);
        }
    }
    for v in 0..model.vars() {
        set_zero(&mut b, VarNo(v));
    }
    Ok(b)
}

/// The plans of the box whose ones are the variables by which some records divide, where it breaks no base row.
pub fn write_asked(
    alloc: Global,
    ship: &Ship,
    cargo: &Cargo,
    model: &Model,
    asked: &Tree,
    out: &mut Bytes,
) -> Result<(), NoMemory>
    requires arrival { HasArrival ship.now cargo.now }
    requires ship { model.now.ship ≡ ship.now }
    requires cargo { model.now.cargo ≡ cargo.now }
    requires problem { IsProblem model.now }
{
    let full = box_of(alloc, model, asked)?;
    if !full.is_full() || !breaks_none(alloc, model, &full)? {
        return out.extend(b"breaks a base row\n");
    }
    write_sailed(alloc, ship, cargo, model, &full, out)
}
