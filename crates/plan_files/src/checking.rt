//! The check of the departure files of a voyage.
ghost use Rattle.std.specs.Prelude.{◌≡◌, ◌≤◌, ◌<◌, ◌+◌, ◌^◌, All, MatchResult, length, map};
ghost use Rattle.stowage_rules.specs.Departure.{HasArrival};
ghost use Rattle.plan_lifts.specs.Lifted.{ArePlans};
ghost use Rattle.plan_files.specs.Shown.{ShowAll, Shows, shown_by};
ghost use Rattle.plan_files.specs.Checked.{FilesCost, HasLifts, IsFileFault, IsPlanNo, IsRuleFault, IsSetOf, IsUnshown, told_by};

use crate::file_faults::FileNo;
use crate::plan_faults::PlanNo;
use crate::reading::plan_of_message;
use crate::shown_law::told_is_shown;
use baplie::{Message, MessageList};
use plan_lifts::{Lifted, LiftsFault, lifts};
use std::alloc::Global;
use stow_data::{CallNo, Cargo, Plan, PlanList, Ship};

/// A legal file set.
#[derive(Drop)]
pub struct FileSet {
    /// The departures, of which the first is that of call 1.
    pub plans: PlanList,
    /// What must be lifted on a voyage with them, and their cost.
    pub lifted: Lifted,
}

/// The plan that the file of a call shows.
fn shown_plan(
    alloc: Global,
    ship: &Ship,
    cargo: &Cargo,
    message: &Message,
    call: CallNo,
) -> Result<Plan, PlanNo>
    requires { length message.now.groups ≤ 2 ^ 29 }
    ensures { MatchResult result (λ plan. Shows ship.now cargo.now call (shown_by message.now) plan) (λ e. IsFileFault ship.now cargo.now call message.now e) }
{
    ship.obeys_rules();
    cargo.obeys_rules();
    told_is_shown();
    match plan_of_message(alloc, ship, cargo, message, call) {
        Ok(plan) => Ok(plan),
        Err(FileNo::NoMemory) => Err(PlanNo::NoMemory),
        Err(no) => Err(PlanNo::File { call, no }),
    }
}

/// The plans that the files show, of which the first is that of call 1, or the first file that shows none.
fn shown_plans(
    alloc: Global,
    ship: &Ship,
    cargo: &Cargo,
    messages: &[Message],
) -> Result<PlanList, PlanNo>
    requires few { All (λ m. length m.groups ≤ 2 ^ 29) messages.now }
    requires calls { length messages.now < 12 }
    ensures { MatchResult result (λ plans. ShowAll ship.now cargo.now 1 (map shown_by messages.now) plans) (λ e. IsUnshown ship.now cargo.now 1 messages.now e) }
{
    let mut plans = PlanList::new(alloc);
    for (index, message) in messages.iter().enumerate() {
        let call = CallNo(index as u32 + 1);
        plans.push(shown_plan(alloc, ship, cargo, message, call)?)?;
    }
    Ok(plans)
}

/// What a fault of departures says of their files.
fn told_by(fault: LiftsFault) -> PlanNo
    ensures { result ≡ told_by fault }
{
    match fault {
        LiftsFault::Illegal { call, rule } => PlanNo::Rule { call, rule },
        LiftsFault::NoMemory => PlanNo::NoMemory,
    }
}

/// What must be lifted on a voyage with departures, of which the first is that of call 1, or the first that breaks a rule.
fn lifted_on(alloc: Global, ship: &Ship, cargo: &Cargo, plans: &PlanList) -> Result<Lifted, PlanNo>
    requires arrival { HasArrival ship.now cargo.now }
    requires each_call { length plans.now + 1 ≡ length cargo.now.rotation }
    requires formed { ArePlans ship.now cargo.now 1 plans.now }
    ensures { MatchResult result (λ lifted. HasLifts ship.now cargo.now plans.now lifted) (λ e. IsRuleFault ship.now cargo.now plans.now e) }
{
    match lifts(alloc, ship, cargo, plans) {
        Ok(lifted) => Ok(lifted),
        Err(fault) => Err(told_by(fault)),
    }
}

/// The departures that messages show, and what must be lifted on a voyage with them, or the first part that doesn't hold.
fn shown_set(
    alloc: Global,
    ship: &Ship,
    cargo: &Cargo,
    messages: &[Message],
) -> Result<FileSet, PlanNo>
    requires arrival { HasArrival ship.now cargo.now }
    requires each_call { length messages.now + 1 ≡ length cargo.now.rotation }
    requires few { All (λ m. length m.groups ≤ 2 ^ 29) messages.now }
    ensures { MatchResult result (λ set. IsSetOf ship.now cargo.now (map shown_by messages.now) set) (λ e. IsPlanNo ship.now cargo.now messages.now e) }
{
    ship.obeys_rules();
    cargo.obeys_rules();
    let plans = shown_plans(alloc, ship, cargo, messages)?;
    match lifted_on(alloc, ship, cargo, &plans) {
        Ok(lifted) => Ok(FileSet { plans, lifted }),
        Err(no) => {
            drop(plans);
            Err(no)
        }
    }
}

/// The departures that the files show, of which the first is that of call 1, and what must be lifted on a voyage with
/// them. Else the first file that shows no plan, and where all show one, the first departure that breaks a rule.
pub fn file_set_of(
    alloc: Global,
    ship: &Ship,
    cargo: &Cargo,
    messages: &MessageList,
) -> Result<FileSet, PlanNo>
    requires arrival { HasArrival ship.now cargo.now }
    requires each_call { length messages.now + 1 ≡ length cargo.now.rotation }
    requires few { All (λ m. length m.groups ≤ 2 ^ 29) messages.now }
    ensures { MatchResult result (λ set. IsSetOf ship.now cargo.now (map shown_by messages.now) set) (λ e. IsPlanNo ship.now cargo.now messages.now e) }
{
    shown_set(alloc, ship, cargo, messages.as_slice())
}

/// The cost of these departures.
pub fn check_plan(
    alloc: Global,
    ship: &Ship,
    cargo: &Cargo,
    messages: &MessageList,
) -> Result<u64, PlanNo>
    requires arrival { HasArrival ship.now cargo.now }
    requires each_call { length messages.now + 1 ≡ length cargo.now.rotation }
    requires few { All (λ m. length m.groups ≤ 2 ^ 29) messages.now }
    ensures { MatchResult result (λ cost. FilesCost ship.now cargo.now (map shown_by messages.now) cost) (λ e. IsPlanNo ship.now cargo.now messages.now e) }
{
    match file_set_of(alloc, ship, cargo, messages) {
        Ok(set) => Ok(set.lifted.cost),
        Err(no) => Err(no),
    }
}
