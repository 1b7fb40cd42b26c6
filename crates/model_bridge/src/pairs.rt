//! Variables that are 1, and the containers that they carry.
ghost use Rattle.std.specs.Prelude.{◌≡◌, ◌<◌, ◌++◌, ◌∷◌, [], All, IfOk, OnOk, cond, filter, flat_map, length, slice_index_or};
ghost use Rattle.std.specs.List.{zip};
ghost use Rattle.std.specs.List.Sorted.{IsPermutation, IsNonDecreasingBy};
ghost use Rattle.stow_data.specs.Kinds.{AreKinds};
ghost use Rattle.stow_data.specs.Ship.{places};
ghost use Rattle.zero_one_rows.specs.Variables.{variables};
ghost use Rattle.model_bridge.specs.Pairs.{ones, listed_ones, pair_at_arrival, is_put, stays, is_freed, freed, loads, loading_at, kind_of_var, each_kind, IsNextHeld};

use std::alloc::Global;
use stow_data::{CallNo, Cargo, ContainerNo, KindNo, Kinds, NoMemory, Seq, Ship, VarNo, kinds};
use zero_one_model::{Box01, Model};
use zero_one_rows::VarList;

/// A variable that is 1 and there, and its container.
pub type Held = (VarNo, ContainerNo);

pub type HeldList = Seq<Held>;

type Containers = Seq<ContainerNo>;

/// The kind of each container.
pub type KindList = Seq<KindNo>;

/// Appends an item where it is wanted.
fn push_item<T: Copy>(list: &mut Seq<T>, item: T, wanted: bool) -> Result<(), NoMemory>
    ensures { OnOk result (list.new ≡ list.old ++ cond wanted (item ∷ []) []) }
{
    if wanted { list.push(item) } else { Ok(()) }
}

/// Whether the box fixes the variable at 1.
fn is_one(full: &Box01, v: VarNo) -> bool
    requires { v < length full.now }
    ensures { result ≡ ones full.now v }
{
    match full.at(v) {
        Some(one) => one,
        None => false,
    }
}

/// The variables that a box fixes at 1, by rising number.
pub fn ones_of(alloc: Global, model: &Model, full: &Box01) -> Result<VarList, NoMemory>
    requires full { length full.now ≡ length (variables model.now) }
    ensures { IfOk result (λ list. list ≡ listed_ones model.now full.now) }
{
    let mut list = Seq::new(alloc);
    for v in 0..model.vars() {
        push_item(&mut list, VarNo(v), is_one(full, VarNo(v)))?;
    }
    Ok(list)
}

/// Appends a variable that is put at call 0, with the container that stands at its place at arrival.
fn push_arrived(held: &mut HeldList, cargo: &Cargo, model: &Model, v: VarNo) -> Result<(), NoMemory>
    requires cargo { model.now.cargo ≡ cargo.now }
    requires arrival { length cargo.now.arrival ≡ length (places model.now.ship) }
    requires var { v < length (variables model.now) }
    ensures { OnOk result (held.new ≡ held.old ++ pair_at_arrival model.now v) }
{
    let x = model.var(v);
    if x.put.0 != 0 {
        return Ok(());
    }
    match cargo.arrival().at(x.place) {
        Some(container) => held.push((v, container)),
        None => Ok(()),
    }
}

/// Each variable of the arrival with the container that stands at its place.
pub fn held_at_arrival(
    alloc: Global,
    cargo: &Cargo,
    model: &Model,
    list: &VarList,
) -> Result<HeldList, NoMemory>
    requires cargo { model.now.cargo ≡ cargo.now }
    requires arrival { length cargo.now.arrival ≡ length (places model.now.ship) }
    requires vars { All (λ v. v < length (variables model.now)) list.now }
    ensures { IfOk result (λ held. held ≡ flat_map (pair_at_arrival model.now) list.now) }
{
    let mut held = Seq::new(alloc);
    for v in list.as_slice() {
        push_arrived(&mut held, cargo, model, *v)?;
    }
    Ok(held)
}

/// Whether a pair's variable isn't lifted at the call.
fn stays(model: &Model, pair: Held, call: CallNo) -> bool
    requires { pair.0 < length (variables model.now) }
    ensures { result ≡ stays model.now call pair }
{
    model.var(pair.0).lifted != call
}

/// The pairs whose variable isn't lifted at the call.
fn kept(alloc: Global, model: &Model, held: &HeldList, call: CallNo) -> Result<HeldList, NoMemory>
    requires vars { All (λ e. e.0 < length (variables model.now)) held.now }
    ensures { IfOk result (λ kept. kept ≡ filter (stays model.now call) held.now) }
{
    let mut kept = Seq::new(alloc);
    for pair in held.as_slice() {
        push_item(&mut kept, *pair, stays(model, *pair, call))?;
    }
    Ok(kept)
}

/// Whether a pair's variable is lifted at the call, and its container doesn't leave there.
fn is_freed(cargo: &Cargo, model: &Model, pair: Held, call: CallNo) -> bool
    requires cargo { model.now.cargo ≡ cargo.now }
    requires var { pair.0 < length (variables model.now) }
    requires container { pair.1 < length cargo.now.containers }
    ensures { result ≡ is_freed model.now call pair }
{
    let leaves = cargo.container(pair.1).dest == call;
    model.var(pair.0).lifted == call && !leaves
}

/// Appends the containers that are lifted at the call and don't leave there.
fn push_freed(
    cargo: &Cargo,
    model: &Model,
    held: &HeldList,
    call: CallNo,
    pool: &mut Containers,
) -> Result<(), NoMemory>
    requires cargo { model.now.cargo ≡ cargo.now }
    requires vars { All (λ e. e.0 < length (variables model.now)) held.now }
    requires boxes { All (λ e. e.1 < length cargo.now.containers) held.now }
    ensures { OnOk result (pool.new ≡ pool.old ++ freed model.now call held.now) }
{
    for pair in held.as_slice() {
        push_item(pool, pair.1, is_freed(cargo, model, *pair, call))?;
    }
    Ok(())
}

/// Whether a container loads at the call.
fn loads(cargo: &Cargo, model: &Model, c: ContainerNo, call: CallNo) -> bool
    requires cargo { model.now.cargo ≡ cargo.now }
    requires container { c < length cargo.now.containers }
    ensures { result ≡ loads model.now call c }
{
    cargo.container(c).load == call
}

/// Appends the containers that load at the call.
fn push_loading(
    cargo: &Cargo,
    model: &Model,
    call: CallNo,
    pool: &mut Containers,
) -> Result<(), NoMemory>
    requires cargo { model.now.cargo ≡ cargo.now }
    ensures { OnOk result (pool.new ≡ pool.old ++ loading_at model.now call) }
{
    for c in 0..cargo.len() {
        let wanted = loads(cargo, model, ContainerNo(c), call);
        push_item(pool, ContainerNo(c), wanted)?;
    }
    Ok(())
}

/// Whether a variable is put at the call.
fn is_put(model: &Model, v: VarNo, call: CallNo) -> bool
    requires { v < length (variables model.now) }
    ensures { result ≡ is_put model.now call v }
{
    model.var(v).put == call
}

/// The variables that are put at the call.
fn put_at(alloc: Global, model: &Model, list: &VarList, call: CallNo) -> Result<VarList, NoMemory>
    requires vars { All (λ v. v < length (variables model.now)) list.now }
    ensures { IfOk result (λ put. put ≡ filter (is_put model.now call) list.now) }
{
    let mut put = Seq::new(alloc);
    for v in list.as_slice() {
        push_item(&mut put, *v, is_put(model, *v, call))?;
    }
    Ok(put)
}

/// The kind of each container.
fn kind_list(
    alloc: Global,
    cargo: &Cargo,
    model: &Model,
    kinds: &Kinds,
) -> Result<KindList, NoMemory>
    requires cargo { model.now.cargo ≡ cargo.now }
    requires kinds { AreKinds model.now.ship.weight_step cargo.now.containers kinds.now }
    ensures { IfOk result (λ list. list ≡ each_kind model.now) }
{
    let mut list = Seq::new(alloc);
    for c in 0..cargo.len() {
        list.push(kinds.of(ContainerNo(c)))?;
    }
    Ok(list)
}

/// The kind of each container of a voyage.
pub fn box_kinds(
    alloc: Global,
    ship: &Ship,
    cargo: &Cargo,
    model: &Model,
) -> Result<KindList, NoMemory>
    requires ship { model.now.ship ≡ ship.now }
    requires cargo { model.now.cargo ≡ cargo.now }
    ensures { IfOk result (λ list. list ≡ each_kind model.now) }
{
    let kinds = kinds(alloc, ship, cargo)?;
    let list = kind_list(alloc, cargo, model, &kinds);
    drop(kinds);
    list
}

/// The kind of a variable; that of number 0 past the last variable.
fn kind_of_var(model: &Model, v: VarNo) -> KindNo
    ensures { result ≡ kind_of_var model.now v }
{
    if v.0 >= model.vars() {
        return KindNo(0);
    }
    model.var(v).kind
}

/// The kind of a container by the list; number 0 past its end.
fn kind_of_box(kinds: &KindList, c: ContainerNo) -> KindNo
    ensures { result ≡ slice_index_or kinds.now c 0 }
{
    match kinds.as_slice().get(c.0 as usize) {
        Some(kind) => *kind,
        None => KindNo(0),
    }
}

/// Variables by kind.
fn vars_by_kind(alloc: Global, model: &Model, vars: &VarList) -> Result<VarList, NoMemory>
    ensures same { IfOk result (λ sorted. IsPermutation vars.now sorted) }
    ensures order { IfOk result (λ sorted. IsNonDecreasingBy (kind_of_var model.now) sorted) }
{
    let mut items = Vec::from_slice(alloc, vars.as_slice())?;
    items.sort_by_key(|v| kind_of_var(model, *v))?;
    Seq::of(alloc, items.as_slice())
}

/// Containers by kind.
fn boxes_by_kind(alloc: Global, kinds: &KindList, pool: &Containers) -> Result<Containers, NoMemory>
    ensures same { IfOk result (λ sorted. IsPermutation pool.now sorted) }
    ensures order { IfOk result (λ sorted. IsNonDecreasingBy (λ c. slice_index_or kinds.now c 0) sorted) }
{
    let mut items = Vec::from_slice(alloc, pool.as_slice())?;
    items.sort_by_key(|c| kind_of_box(kinds, *c))?;
    Seq::of(alloc, items.as_slice())
}

/// Appends the variables with the containers, in turn.
fn push_pairs(pairs: &mut HeldList, vars: &VarList, boxes: &Containers) -> Result<(), NoMemory>
    ensures { OnOk result (pairs.new ≡ pairs.old ++ zip vars.now boxes.now) }
{
    for k in 0..vars.len() {
        if k >= boxes.len() {
            return Ok(());
        }
        pairs.push((*vars.at(k), *boxes.at(k)))?;
    }
    Ok(())
}

/// The containers to be put at the call, by kind.
fn boxes_to_put(
    alloc: Global,
    cargo: &Cargo,
    model: &Model,
    kinds: &KindList,
    held: &HeldList,
    call: CallNo,
) -> Result<Containers, NoMemory>
    requires cargo { model.now.cargo ≡ cargo.now }
    requires vars { All (λ e. e.0 < length (variables model.now)) held.now }
    requires boxes { All (λ e. e.1 < length cargo.now.containers) held.now }
    ensures same { IfOk result (λ sorted. IsPermutation (freed model.now call held.now ++ loading_at model.now call) sorted) }
    ensures order { IfOk result (λ sorted. IsNonDecreasingBy (λ c. slice_index_or kinds.now c 0) sorted) }
{
    let mut pool = Seq::new(alloc);
    push_freed(cargo, model, held, call, &mut pool)?;
    push_loading(cargo, model, call, &mut pool)?;
    boxes_by_kind(alloc, kinds, &pool)
}

/// The variables that are put at the call, by kind.
fn vars_to_put(
    alloc: Global,
    model: &Model,
    list: &VarList,
    call: CallNo,
) -> Result<VarList, NoMemory>
    requires { All (λ v. v < length (variables model.now)) list.now }
    ensures same { IfOk result (λ sorted. IsPermutation (filter (is_put model.now call) list.now) sorted) }
    ensures order { IfOk result (λ sorted. IsNonDecreasingBy (kind_of_var model.now) sorted) }
{
    let put = put_at(alloc, model, list, call)?;
    let sorted = vars_by_kind(alloc, model, &put);
    drop(put);
    sorted
}

/// The pairs that stay at the call, and behind them these variables with these containers.
fn matched(
    alloc: Global,
    model: &Model,
    held: &HeldList,
    call: CallNo,
    vars: &VarList,
    boxes: &Containers,
) -> Result<HeldList, NoMemory>
    requires { All (λ e. e.0 < length (variables model.now)) held.now }
    ensures { IfOk result (λ next. next ≡ filter (stays model.now call) held.now ++ zip vars.now boxes.now) }
{
    let mut pairs = kept(alloc, model, held, call)?;
    match push_pairs(&mut pairs, vars, boxes) {
        Ok(_) => Ok(pairs),
        Err(no) => {
            drop(pairs);
            Err(no)
        }
    }
}

/// The pairs after a call at which these containers are put.
fn held_with(
    alloc: Global,
    model: &Model,
    list: &VarList,
    held: &HeldList,
    call: CallNo,
    boxes: &Containers,
) -> Result<HeldList, NoMemory>
    requires list { All (λ v. v < length (variables model.now)) list.now }
    requires vars { All (λ e. e.0 < length (variables model.now)) held.now }
    requires same { IsPermutation (freed model.now call held.now ++ loading_at model.now call) boxes.now }
    requires order { IsNonDecreasingBy (λ c. slice_index_or (each_kind model.now) c 0) boxes.now }
    ensures { IfOk result (λ next. IsNextHeld model.now call list.now held.now next) }
{
    let vars = vars_to_put(alloc, model, list, call)?;
    let next = matched(alloc, model, held, call, &vars, boxes);
    drop(vars);
    next
}

/// The pairs after a call: those that stay, and the variables that are put, matched with the containers to be put, kind
/// by kind.
pub fn held_after(
    alloc: Global,
    cargo: &Cargo,
    model: &Model,
    kinds: &KindList,
    list: &VarList,
    held: &HeldList,
    call: CallNo,
) -> Result<HeldList, NoMemory>
    requires cargo { model.now.cargo ≡ cargo.now }
    requires kinds { kinds.now ≡ each_kind model.now }
    requires list { All (λ v. v < length (variables model.now)) list.now }
    requires vars { All (λ e. e.0 < length (variables model.now)) held.now }
    requires boxes { All (λ e. e.1 < length cargo.now.containers) held.now }
    ensures { IfOk result (λ next. IsNextHeld model.now call list.now held.now next) }
{
    let boxes = boxes_to_put(alloc, cargo, model, kinds, held, call)?;
    let next = held_with(alloc, model, list, held, call, &boxes);
    drop(boxes);
    next
}
