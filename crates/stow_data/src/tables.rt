//! The tables of places and half-cells.
ghost use Rattle.std.specs.Prelude.{◌≡◌, ◌<◌, ◌≤◌, ◌^◌, ◌++◌, All, IfOk, OnOk, length, map, flat_map};
ghost use Rattle.std.specs.List.{enumerate_from, range_with_len};
ghost use Rattle.stow_data.specs.Ship.{sides, spans, tier_places, tier_halves, stack_places, stack_halves};

use crate::geometry::{Half, Lengths, Place, Span, Stack};
use crate::list::{NoMemory, Seq};
use crate::numbers::StackNo;
use std::alloc::Global;

/// What a stack offers in each of its tiers.
fn spans_of(lengths: Lengths) -> &'static [Span]
    ensures { result.now ≡ spans lengths }
{
    match lengths {
        Lengths::Forty => &[Span::Both],
        Lengths::Twenty => &[Span::Fore, Span::Aft],
        Lengths::Mixed => &[Span::Fore, Span::Aft, Span::Both],
        Lengths::ForeOnly => &[Span::Fore],
        Lengths::AftOnly => &[Span::Aft],
    }
}

/// The sides of a stack's half-cells: fore is false, aft is true.
pub fn sides_of(lengths: Lengths) -> &'static [bool]
    ensures { result.now ≡ sides lengths }
{
    match lengths {
        Lengths::Forty | Lengths::Twenty | Lengths::Mixed => &[false, true],
        Lengths::ForeOnly => &[false],
        Lengths::AftOnly => &[true],
    }
}

/// Appends the places of a tier.
fn push_tier_places(
    table: &mut Seq<Place>,
    stack: StackNo,
    tier: u32,
    plug: bool,
    spans: &[Span],
) -> Result<(), NoMemory>
    ensures { OnOk result (table.new ≡ table.old ++ map (λ span. record { stack = stack; tier = tier; span = span; plug = plug }) spans.now) }
{
    for span in spans {
        table.push(Place {
            stack,
            tier,
            span: *span,
            plug,
        })?;
    }
    Ok(())
}

/// Appends the places of a stack.
fn push_stack_places(table: &mut Seq<Place>, number: StackNo, stack: &Stack) -> Result<(), NoMemory>
    requires { length stack.now.plugs ≡ stack.now.tiers }
    ensures { OnOk result (table.new ≡ table.old ++ stack_places (number, stack.now)) }
{
    for tier in 0..stack.tiers {
        let plug = *stack.plugs.at(tier as usize);
        push_tier_places(table, number, tier, plug, spans_of(stack.lengths))?;
    }
    Ok(())
}

/// The places of the stacks, in order.
pub fn place_table(alloc: Global, stacks: &[Stack]) -> Result<Seq<Place>, NoMemory>
    requires { All (λ s. length s.plugs ≡ s.tiers) stacks.now }
    ensures { IfOk result (λ table. table ≡ flat_map stack_places (enumerate_from 0 stacks.now)) }
{
    let mut table = Seq::new(alloc);
    let mut number: u32 = 0;
    for stack in stacks {
        push_stack_places(&mut table, StackNo(number), stack)?;
        number = number.checked_add(1).ok_or(NoMemory)?;
    }
    Ok(table)
}

/// Appends the half-cells of a tier.
fn push_tier_halves(
    table: &mut Seq<Half>,
    stack: StackNo,
    tier: u32,
    sides: &[bool],
) -> Result<(), NoMemory>
    ensures { OnOk result (table.new ≡ table.old ++ map (λ side. record { stack = stack; tier = tier; aft = side }) sides.now) }
{
    for side in sides {
        table.push(Half {
            stack,
            tier,
            aft: *side,
        })?;
    }
    Ok(())
}

/// Appends the half-cells of a stack.
fn push_stack_halves(table: &mut Seq<Half>, number: StackNo, stack: &Stack) -> Result<(), NoMemory>
    ensures { OnOk result (table.new ≡ table.old ++ stack_halves (number, stack.now)) }
{
    for tier in 0..stack.tiers {
        push_tier_halves(table, number, tier, sides_of(stack.lengths))?;
    }
    Ok(())
}

/// The half-cells of the stacks, in order.
pub fn half_table(alloc: Global, stacks: &[Stack]) -> Result<Seq<Half>, NoMemory>
    ensures { IfOk result (λ table. table ≡ flat_map stack_halves (enumerate_from 0 stacks.now)) }
{
    let mut table = Seq::new(alloc);
    let mut number: u32 = 0;
    for stack in stacks {
        push_stack_halves(&mut table, StackNo(number), stack)?;
        number = number.checked_add(1).ok_or(NoMemory)?;
    }
    Ok(table)
}
