//! Refusals of departure files in a check.
ghost use Rattle.std.specs.Prelude.{◌≡◌, ◌∷◌, ◌++◌, [], pos, true, IfOk};
ghost use Rattle.stow_report.specs.declared.lines.Field.TheVariants.{Named, Number as OfNumber};
ghost use Rattle.stow_report.specs.Departures.{departure_line, of_plan, plan_line, rule_line, shown_line, with_field};

use crate::lines::{Field, Group, Line, numbered};
use crate::verdicts::file_line;
use baplie::BaplieFault;
use plan_files::{FileNo, PlanNo};
use std::alloc::Global;
use stow_data::{CallNo, Name, NoMemory};
use stowage_rules::RuleBroken;

/// The line of a departure file that is no bay plan: its fault, with the call of the file as last field.
pub fn departure_line(alloc: Global, call: CallNo, fault: BaplieFault) -> Result<Line, NoMemory>
    ensures { IfOk result (λ line. line ≡ departure_line call fault) }
{
    let mut line = file_line(alloc, fault)?;
    line.checked = true;
    line.fields.push(Field::Number(i128::from(call.0)))?;
    Ok(line)
}

/// A line of the refusal of departure files whose fields are numbers.
fn of_plan(alloc: Global, number: u32, numbers: &[i128]) -> Result<Line, NoMemory>
    ensures { IfOk result (λ line. line ≡ of_plan number numbers.now) }
{
    numbered(alloc, true, Group::Plan, number, numbers)
}

/// The line of a departure file that shows no plan for a fault of a container: the call, the fault's number, the id.
fn of_container(alloc: Global, call: CallNo, fault: u32, id: Name) -> Result<Line, NoMemory>
    ensures { IfOk result (λ line. line ≡ with_field (Named id) (of_plan 1 (pos call ∷ pos fault ∷ []))) }
{
    let mut line = of_plan(alloc, 1, &[i128::from(call.0), i128::from(fault)])?;
    line.fields.push(Field::Named(id))?;
    Ok(line)
}

/// The line of a departure file that shows no plan.
fn shown_line(alloc: Global, call: CallNo, fault: FileNo) -> Result<Line, NoMemory>
    ensures { IfOk result (λ line. line ≡ shown_line call fault) }
{
    match fault {
        FileNo::NoSuchCell { group } => of_plan(
            alloc,
            1,
            &[i128::from(call.0), 1, i128::from(group)],
        ),
        FileNo::Unknown { id } => of_container(alloc, call, 2, id),
        FileNo::Twice { id } => of_container(alloc, call, 3, id),
        FileNo::WrongLength { id } => of_container(alloc, call, 4, id),
        FileNo::CellTaken { id } => of_container(alloc, call, 5, id),
        FileNo::DischargeDiffers { id } => of_container(alloc, call, 6, id),
        FileNo::NotAboard { id } => of_container(alloc, call, 7, id),
        FileNo::MissingContainer { id } => of_container(alloc, call, 8, id),
        FileNo::NoMemory => of_plan(alloc, 1, &[i128::from(call.0), 9]),
    }
}

/// The line of a departure that breaks a rule: the call, and the rule's number and fields.
fn rule_line(alloc: Global, call: CallNo, rule: RuleBroken) -> Result<Line, NoMemory>
    ensures { IfOk result (λ line. line ≡ rule_line call rule) }
{
    let at = i128::from(call.0);
    match rule {
        RuleBroken::Support { half } => of_plan(alloc, 2, &[at, 1, i128::from(half.0)]),
        RuleBroken::TwentyOnForty { half } => of_plan(alloc, 2, &[at, 2, i128::from(half.0)]),
        RuleBroken::NoPlug { place } => of_plan(alloc, 2, &[at, 3, i128::from(place.0)]),
        RuleBroken::StackWeight { stack, kg } => of_plan(
            alloc,
            2,
            &[at, 4, i128::from(stack.0), i128::from(kg)],
        ),
        RuleBroken::Separation {
            index,
            first,
            second,
        } => of_plan(
            alloc,
            2,
            &[
                at,
                5,
                i128::from(index),
                i128::from(first.0),
                i128::from(second.0),
            ],
        ),
    }
}

/// The line of departure files that are no legal file set: the call, and why its file shows no plan or which rule its
/// departure breaks, as number and fields.
pub fn plan_line(alloc: Global, no: PlanNo) -> Result<Line, NoMemory>
    ensures { IfOk result (λ line. line ≡ plan_line no) }
{
    match no {
        PlanNo::File { call, no } => shown_line(alloc, call, no),
        PlanNo::Rule { call, rule } => rule_line(alloc, call, rule),
        PlanNo::NoMemory => of_plan(alloc, 3, &[]),
    }
}
