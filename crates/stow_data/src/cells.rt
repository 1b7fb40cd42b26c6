//! Bay, row and tier numbers of places (ISO 9711).
ghost use Rattle.std.specs.Prelude.{◌≡◌, ◌≢◌, None, Some, IfOk, OnOk};
ghost use Rattle.std.specs.BTreeMap.{get};
ghost use Rattle.stow_data.specs.CellTable.{cell_order, cell_number, IsBounded, EachBounded, IsCellTable};

use crate::geometry::{Place, Span, Stack};
use crate::list::NoMemory;
use crate::numbers::PlaceNo;
use std::alloc::Global;
use std::collections::BTreeMap;

/// Bay, row and tier number of a place.
#[derive(Clone, Copy, PartialEq, Eq, PartialOrd, Ord)]
pub struct CellNumber {
    pub bay: u32,
    pub row: u32,
    pub tier: u32,
}

/// The number of a place of this stack.
pub fn number_on(stack: &Stack, place: Place) -> CellNumber
    requires { IsBounded stack.now place }
    ensures { result ≡ cell_number stack.now place }
{
    let bay = match place.span {
        Span::Fore => stack.bay - 1,
        Span::Aft => stack.bay + 1,
        Span::Both => stack.bay,
    };
    CellNumber {
        bay,
        row: stack.row,
        tier: stack.lowest + 2 * place.tier,
    }
}

/// Makes the table lead from this number to this place.
fn enter(
    table: &mut BTreeMap<CellNumber, PlaceNo>,
    number: CellNumber,
    place: PlaceNo,
) -> Result<(), NoMemory>
    ensures this { OnOk result (get cell_order table.new number ≡ Some place) }
    ensures others { OnOk result ((n : CellNumber) → n ≢ number → get cell_order table.new n ≡ get cell_order table.old n) }
{
    table.insert(number, place)?;
    Ok(())
}

/// The table that leads from a number to the place that has it.
pub fn cell_table(
    alloc: Global,
    stacks: &[Stack],
    places: &[Place],
) -> Result<BTreeMap<CellNumber, PlaceNo>, NoMemory>
    requires { EachBounded stacks.now places.now }
    ensures { IfOk result (λ table. IsCellTable stacks.now places.now table) }
{
    let mut table = BTreeMap::new(alloc);
    let mut number: u32 = 0;
    for place in places {
        let stack = &stacks[place.stack.0 as usize];
        enter(&mut table, number_on(stack, *place), PlaceNo(number))?;
        number = number.checked_add(1).ok_or(NoMemory)?;
    }
    Ok(table)
}
