//! Refusals of the bay plan of the ship as it comes in.
ghost use Rattle.std.specs.Prelude.{◌≡◌, ◌∷◌, [], pos, false, IfOk};
ghost use Rattle.stow_report.specs.declared.lines.Group.TheVariants.{Arrival as OfArrival};
ghost use Rattle.stow_report.specs.Refusals.{numbered};
ghost use Rattle.stow_report.specs.Arrivals.{arrival_line, rule_numbers};

use crate::inputs::limit_line;
use crate::lines::{Group, Line, keyed, numbered};
use arrival_plan::ArrivalFault;
use std::alloc::Global;
use stow_data::NoMemory;
use stowage_rules::RuleBroken;

/// A line of an arrival's refusal whose fields are numbers.
fn of_arrival(alloc: Global, number: u32, numbers: &[i128]) -> Result<Line, NoMemory>
    ensures { IfOk result (λ line. line ≡ numbered false OfArrival number numbers.now) }
{
    numbered(alloc, false, Group::Arrival, number, numbers)
}

/// The line of a rule that what stands aboard at arrival breaks.
fn rule_line(alloc: Global, rule: RuleBroken) -> Result<Line, NoMemory>
    ensures { IfOk result (λ line. line ≡ numbered false OfArrival 6 (rule_numbers rule)) }
{
    match rule {
        RuleBroken::Support { half } => of_arrival(alloc, 6, &[1, i128::from(half.0)]),
        RuleBroken::TwentyOnForty { half } => of_arrival(alloc, 6, &[2, i128::from(half.0)]),
        RuleBroken::NoPlug { place } => of_arrival(alloc, 6, &[3, i128::from(place.0)]),
        RuleBroken::StackWeight { stack, kg } => of_arrival(
            alloc,
            6,
            &[4, i128::from(stack.0), i128::from(kg)],
        ),
        RuleBroken::Separation {
            index,
            first,
            second,
        } => of_arrival(
            alloc,
            6,
            &[
                5,
                i128::from(index),
                i128::from(first.0),
                i128::from(second.0),
            ],
        ),
    }
}

/// The line of a bay plan of the ship as it comes in that is refused: the cell group at fault, the id that stands
/// twice, or the rule that is broken, as its number and fields.
pub fn arrival_line(alloc: Global, fault: ArrivalFault) -> Result<Line, NoMemory>
    ensures { IfOk result (λ line. line ≡ arrival_line fault) }
{
    match fault {
        ArrivalFault::NoSuchCell { group } => of_arrival(alloc, 1, &[i128::from(group)]),
        ArrivalFault::WrongLength { group } => of_arrival(alloc, 2, &[i128::from(group)]),
        ArrivalFault::Twice { id } => keyed(alloc, false, Group::Arrival, 3, id, &[]),
        ArrivalFault::NotInRotation { group } => of_arrival(alloc, 4, &[i128::from(group)]),
        ArrivalFault::CellTaken { group } => of_arrival(alloc, 5, &[i128::from(group)]),
        ArrivalFault::Rule(rule) => rule_line(alloc, rule),
        ArrivalFault::TooLarge { limit, value } => limit_line(alloc, limit, value),
        ArrivalFault::NoMemory => of_arrival(alloc, 8, &[]),
    }
}
