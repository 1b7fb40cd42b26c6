//! The variables by kind, tier, stack and lot.
ghost use Rattle.std.specs.Prelude.{◌≡◌, ℕ, ◌+◌, ◌*◌, ◌<◌, ◌≤◌, ◌^◌, IfOk, All, [], length, map, slice_index_or};
ghost use Rattle.stow_data.specs.Ship.{halves, places};
ghost use Rattle.stow_data.specs.Plans.{no_place};
ghost use Rattle.zero_one_rows.specs.Grouping.{IsGrouped};
ghost use Rattle.zero_one_model.specs.Indexed.{shelf, lot, place_shelf, half_key, place_key, below_key, above_key, other_of, IsIndexOf, NamesCells, is_keyed, first_of, second_of};

use std::alloc::Global;
use stow_data::{CallNo, HalfNo, KindNo, NoMemory, PlaceNo, Seq, Ship, StackNo};
use zero_one_rows::{Groups, Row, Var, group, half_at, place_at, under};

/// Tiers that a stack has at most.
pub const TIERS: usize = 40;

/// The variables of each kind, of each tier of a stack, of each stack, and of each lot: what of a kind is put at a call.
#[derive(Drop)]
pub struct Index {
    pub by_kind: Groups,
    pub by_shelf: Groups,
    pub by_stack: Groups,
    pub by_lot: Groups,
}

/// The number of a tier of a stack.
fn shelf_of(stack: StackNo, tier: u32) -> usize
    ensures { result ≡ shelf stack tier }
{
    stack.0 as usize * TIERS + tier as usize
}

/// The number of a lot, where there are so many kinds.
fn lot_of(kinds: u32, put: CallNo, kind: KindNo) -> usize
    ensures { result ≡ lot kinds put kind }
{
    put.0 as usize * kinds as usize + kind.0 as usize
}

/// The kind of each variable.
fn kind_keys(alloc: Global, vars: &[Var]) -> Result<Seq<usize>, NoMemory>
    ensures { IfOk result (λ keys. keys ≡ map (λ v. v.kind) vars.now) }
{
    let mut keys = Seq::new(alloc);
    for x in vars {
        keys.push(x.kind.0 as usize)?;
    }
    Ok(keys)
}

/// The tier at which each variable stands.
fn shelf_keys(alloc: Global, ship: &Ship, vars: &[Var]) -> Result<Seq<usize>, NoMemory>
    requires { All (λ v. v.place < length (places ship.now)) vars.now }
    ensures { IfOk result (λ keys. keys ≡ map (λ v. place_shelf (slice_index_or (places ship.now) v.place no_place)) vars.now) }
{
    let mut keys = Seq::new(alloc);
    for x in vars {
        let place = place_at(ship, x.place);
        keys.push(shelf_of(place.stack, place.tier))?;
    }
    Ok(keys)
}

/// The stack in which each variable stands.
fn stack_keys(alloc: Global, ship: &Ship, vars: &[Var]) -> Result<Seq<usize>, NoMemory>
    requires { All (λ v. v.place < length (places ship.now)) vars.now }
    ensures { IfOk result (λ keys. keys ≡ map (λ v. (slice_index_or (places ship.now) v.place no_place).stack) vars.now) }
{
    let mut keys = Seq::new(alloc);
    for x in vars {
        keys.push(place_at(ship, x.place).stack.0 as usize)?;
    }
    Ok(keys)
}

/// The lot of each variable.
fn lot_keys(alloc: Global, kinds: u32, vars: &[Var]) -> Result<Seq<usize>, NoMemory>
    ensures { IfOk result (λ keys. keys ≡ map (λ v. lot kinds v.put v.kind) vars.now) }
{
    let mut keys = Seq::new(alloc);
    for x in vars {
        keys.push(lot_of(kinds, x.put, x.kind))?;
    }
    Ok(keys)
}

/// The variables of each kind.
fn group_kinds(alloc: Global, kinds: u32, vars: &[Var]) -> Result<Groups, NoMemory>
    requires { length vars.now ≤ 200000 }
    ensures { IfOk result (IsGrouped (map (λ v. v.kind) vars.now) kinds) }
{
    let keys = kind_keys(alloc, vars)?;
    let groups = group(alloc, keys.as_slice(), kinds as usize);
    drop(keys);
    groups
}

/// The variables of each tier of a stack.
fn group_shelves(alloc: Global, ship: &Ship, vars: &[Var]) -> Result<Groups, NoMemory>
    requires places { All (λ v. v.place < length (places ship.now)) vars.now }
    requires few { length vars.now ≤ 200000 }
    ensures { IfOk result (IsGrouped (map (λ v. place_shelf (slice_index_or (places ship.now) v.place no_place)) vars.now) (length ship.now.stacks * 40)) }
{
    let keys = shelf_keys(alloc, ship, vars)?;
    let groups = group(alloc, keys.as_slice(), ship.stacks() as usize * TIERS);
    drop(keys);
    groups
}

/// The variables of each stack.
fn group_stacks(alloc: Global, ship: &Ship, vars: &[Var]) -> Result<Groups, NoMemory>
    requires places { All (λ v. v.place < length (places ship.now)) vars.now }
    requires few { length vars.now ≤ 200000 }
    ensures { IfOk result (IsGrouped (map (λ v. (slice_index_or (places ship.now) v.place no_place).stack) vars.now) (length ship.now.stacks)) }
{
    let keys = stack_keys(alloc, ship, vars)?;
    let groups = group(alloc, keys.as_slice(), ship.stacks() as usize);
    drop(keys);
    groups
}

/// The variables of each lot.
fn group_lots(alloc: Global, calls: u32, kinds: u32, vars: &[Var]) -> Result<Groups, NoMemory>
    requires { length vars.now ≤ 200000 }
    ensures { IfOk result (IsGrouped (map (λ v. lot kinds v.put v.kind) vars.now) (calls * kinds)) }
{
    let keys = lot_keys(alloc, kinds, vars)?;
    let groups = group(alloc, keys.as_slice(), calls as usize * kinds as usize);
    drop(keys);
    groups
}

/// The variables of each tier of a stack, and of each stack.
fn group_places(alloc: Global, ship: &Ship, vars: &[Var]) -> Result<(Groups, Groups), NoMemory>
    requires places { All (λ v. v.place < length (places ship.now)) vars.now }
    requires few { length vars.now ≤ 200000 }
    ensures shelves { IfOk result (λ g. IsGrouped (map (λ v. place_shelf (slice_index_or (places ship.now) v.place no_place)) vars.now) (length ship.now.stacks * 40) g.0) }
    ensures stacks { IfOk result (λ g. IsGrouped (map (λ v. (slice_index_or (places ship.now) v.place no_place).stack) vars.now) (length ship.now.stacks) g.1) }
{
    let shelves = group_shelves(alloc, ship, vars)?;
    match group_stacks(alloc, ship, vars) {
        Ok(stacks) => Ok((shelves, stacks)),
        Err(no) => {
            drop(shelves);
            Err(no)
        }
    }
}

/// The variables of each kind, and of each lot.
fn group_put(
    alloc: Global,
    calls: u32,
    kinds: u32,
    vars: &[Var],
) -> Result<(Groups, Groups), NoMemory>
    requires { length vars.now ≤ 200000 }
    ensures kinds { IfOk result (λ g. IsGrouped (map (λ v. v.kind) vars.now) kinds g.0) }
    ensures lots { IfOk result (λ g. IsGrouped (map (λ v. lot kinds v.put v.kind) vars.now) (calls * kinds) g.1) }
{
    let by_kind = group_kinds(alloc, kinds, vars)?;
    match group_lots(alloc, calls, kinds, vars) {
        Ok(by_lot) => Ok((by_kind, by_lot)),
        Err(no) => {
            drop(by_kind);
            Err(no)
        }
    }
}

/// The index of a voyage's variables.
pub fn index_of(
    alloc: Global,
    ship: &Ship,
    calls: u32,
    kinds: u32,
    vars: &[Var],
) -> Result<Index, NoMemory>
    requires places { All (λ v. v.place < length (places ship.now)) vars.now }
    requires few { length vars.now ≤ 200000 }
    ensures { IfOk result (λ x. IsIndexOf ship.now calls kinds vars.now x) }
{
    let put = group_put(alloc, calls, kinds, vars)?;
    match group_places(alloc, ship, vars) {
        Ok((by_shelf, by_stack)) => Ok(Index {
            by_kind: put.0,
            by_shelf,
            by_stack,
            by_lot: put.1,
        }),
        Err(no) => {
            drop(put);
            Err(no)
        }
    }
}

/// Whether the variables of a row of this family are found by one or two keys.
pub fn has_keys(row: &Row) -> bool
    ensures { result ≡ is_keyed row.now }
{
    match row {
        Row::Flow { .. }
        | Row::Start { .. }
        | Row::Cell { .. }
        | Row::Support { .. }
        | Row::Twenty { .. }
        | Row::Block { .. }
        | Row::Hatch { .. }
        | Row::Weight { .. }
        | Row::Apart { .. } => true,
        Row::Cross { .. } => false,
    }
}

/// The tier of a place.
pub fn key_of_place(ship: &Ship, p: PlaceNo) -> usize
    requires { p < length (places ship.now) }
    ensures { result ≡ place_key ship.now p }
{
    let place = place_at(ship, p);
    shelf_of(place.stack, place.tier)
}

/// The tier of a half-cell.
pub fn key_of_half(ship: &Ship, h: HalfNo) -> usize
    requires { h < length (halves ship.now) }
    ensures { result ≡ half_key ship.now h }
{
    let half = half_at(ship, h);
    shelf_of(half.stack, half.tier)
}

/// The tier below a half-cell; that of the lowest one itself.
pub fn key_below(ship: &Ship, h: HalfNo) -> usize
    requires { h < length (halves ship.now) }
    ensures { result ≡ below_key ship.now h }
{
    let half = under(half_at(ship, h));
    shelf_of(half.stack, half.tier)
}

/// The tier above a half-cell.
pub fn key_above(ship: &Ship, h: HalfNo) -> usize
    requires { h < length (halves ship.now) }
    ensures { result ≡ above_key ship.now h }
{
    let half = half_at(ship, h);
    shelf_of(half.stack, half.tier) + 1
}

/// The group of a second key, unless it is the first.
fn other(groups: &Groups, first: usize, second: usize) -> &[u32]
    ensures { result.now ≡ other_of groups.now first second }
{
    if second == first {
        return &[];
    }
    groups.of(second)
}

impl Index {
    /// The variables of a row's kind or stack, or of the tier of its first half-cell or place.
    pub fn first(&self, ship: &Ship, row: &Row) -> &[u32]
        requires { NamesCells ship.now row.now }
        ensures { result.now ≡ first_of ship.now self.now row.now }
    {
        match row {
            Row::Flow { kind, .. } => self.by_kind.of(kind.0 as usize),
            Row::Weight { stack, .. } => self.by_stack.of(stack.0 as usize),
            Row::Start { place, .. } | Row::Apart { first: place, .. } => {
                self.by_shelf.of(key_of_place(ship, *place))
            }
            Row::Cell { half, .. }
            | Row::Support { half, .. }
            | Row::Twenty { half, .. }
            | Row::Block { half, .. }
            | Row::Hatch { half, .. } => self.by_shelf.of(key_of_half(ship, *half)),
            Row::Cross { .. } => &[],
        }
    }

    /// Those of the tier of the second half-cell or place, where the row speaks of two.
    pub fn second(&self, ship: &Ship, row: &Row) -> &[u32]
        requires { NamesCells ship.now row.now }
        ensures { result.now ≡ second_of ship.now self.now row.now }
    {
        let shelves = &self.by_shelf;
        match row {
            Row::Support { half, .. } | Row::Twenty { half, .. } => {
                other(shelves, key_of_half(ship, *half), key_below(ship, *half))
            }
            Row::Block { half, .. } => {
                other(shelves, key_of_half(ship, *half), key_above(ship, *half))
            }
            Row::Hatch { half, lowest, .. } => {
                other(
                    shelves,
                    key_of_half(ship, *half),
                    key_of_half(ship, *lowest),
                )
            }
            Row::Apart { first, second, .. } => {
                other(
                    shelves,
                    key_of_place(ship, *first),
                    key_of_place(ship, *second),
                )
            }
            Row::Flow { .. }
            | Row::Start { .. }
            | Row::Cell { .. }
            | Row::Weight { .. }
            | Row::Cross { .. } => &[],
        }
    }

    /// The variables of a lot, where there are so many kinds.
    pub fn lot(&self, kinds: u32, put: CallNo, kind: KindNo) -> &[u32]
        ensures { result.now ≡ slice_index_or self.now.by_lot (lot kinds put kind) [] }
    {
        self.by_lot.of(lot_of(kinds, put, kind))
    }
}
