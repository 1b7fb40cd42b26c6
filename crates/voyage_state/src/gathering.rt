//! What is the same in every run, gathered from the ship, the cargo and the 0-1 program.
ghost use Rattle.std.specs.Prelude.{◌≡◌, ◌<◌, All, IfSome, IsTrue, length};
ghost use Rattle.voyage_state.specs.Ranges.{IsArrived, IsMark, IsStack};

use crate::bonds::Bonds;
use crate::facts::{
    Arrived, Facts, KindFacts, Lot, Mark, NO_LOT, Spot, StackFacts, TIERS, bit_of, count_of,
    index_of,
};
use crate::prices::Prices;
use crate::sizes::Sizes;
use std::alloc::Global;
use stow_data::{
    CallNo, CoverNo, Kind, KindNo, Kinds, Name, NoMemory, Place, PlaceNo, Ship, StackNo, VarNo,
    kinds,
};
use zero_one_model::Model;
use zero_one_rows::Var;

/// The number of a hatch cover.
fn cover_number(cover: Option<CoverNo>) -> Option<u32> {
    match cover {
        None => None,
        Some(cover) => Some(cover.0),
    }
}

/// The places.
fn gather_places(alloc: Global, ship: &Ship) -> Result<Vec<Place>, NoMemory> {
    let mut places = Vec::new(alloc);
    for p in 0..ship.places() {
        places.push(ship.place(PlaceNo(p)))?;
    }
    Ok(places)
}

/// The first place of a stack.
fn first_place(places: &[Place], stack: u32) -> u32 {
    match places.iter().position(|place| place.stack.0 == stack) {
        None => u32::MAX,
        Some(place) => u32::try_from(place).unwrap_or(u32::MAX),
    }
}

/// The stacks.
fn gather_stacks(
    alloc: Global,
    ship: &Ship,
    places: &[Place],
) -> Result<Vec<StackFacts>, NoMemory> {
    let mut stacks = Vec::new(alloc);
    for s in 0..ship.stacks() {
        let stack = ship.stack(StackNo(s));
        stacks.push(StackFacts {
            bay: stack.bay,
            tiers: stack.tiers,
            limit_kg: stack.limit_kg,
            lengths: stack.lengths,
            first_place: first_place(places, s),
            over: cover_number(ship.cover_over(StackNo(s))),
            under: cover_number(ship.cover_under(StackNo(s))),
        })?;
    }
    Ok(stacks)
}

/// The classes that the cargo has, each once and in order.
fn class_names(alloc: Global, kinds: &Kinds) -> Result<Vec<Name>, NoMemory> {
    let mut names = Vec::new(alloc);
    for g in 0..kinds.len() {
        if let Some(class) = &kinds.kind(KindNo(g)).class {
            names.push(class.copy())?;
        }
    }
    names.sort_unstable();
    names.dedup();
    Ok(names)
}

/// The number of a class among these, from 1; 0 where it isn't among them.
fn class_number(names: &[Name], class: &Name) -> u32 {
    let before = names.partition_point(|name| name < class);
    match names.get(before) {
        Some(name) if name == class => u32::try_from(before).unwrap_or(u32::MAX).saturating_add(1),
        _ => 0,
    }
}

/// Two of the cargo's classes that a separation keeps apart.
#[derive(Clone, Copy)]
struct Apart {
    a: u32,
    b: u32,
    level: u32,
}

/// The separations of which the cargo has both classes.
fn gather_pairs(alloc: Global, ship: &Ship, names: &[Name]) -> Result<Vec<Apart>, NoMemory> {
    let mut pairs = Vec::new(alloc);
    for e in 0..ship.separations() {
        let separation = ship.separation(e);
        let a = class_number(names, &separation.a);
        let b = class_number(names, &separation.b);
        if a != 0 && b != 0 {
            pairs.push(Apart {
                a,
                b,
                level: separation.level,
            })?;
        }
    }
    Ok(pairs)
}

/// The greatest level at which two classes are kept apart, or 0.
fn level_of(pairs: &[Apart], a: u32, b: u32) -> u32 {
    let mut level: u32 = 0;
    for pair in pairs {
        if pair.a == a && pair.b == b || pair.a == b && pair.b == a {
            level = level.max(pair.level);
        }
    }
    level
}

/// Enters the levels of a class and each of so many.
fn enter_levels(
    levels: &mut Vec<u32>,
    pairs: &[Apart],
    a: u32,
    classes: u32,
) -> Result<(), NoMemory> {
    for b in 0..=classes {
        levels.push(level_of(pairs, a, b))?;
    }
    Ok(())
}

/// The levels of all pairs of the cargo's classes: they have numbers from 1.
fn gather_levels(alloc: Global, ship: &Ship, names: &[Name]) -> Result<Vec<u32>, NoMemory> {
    let pairs = gather_pairs(alloc, ship, names)?;
    let classes = count_of(names);
    let mut levels = Vec::new(alloc);
    for a in 0..=classes {
        enter_levels(&mut levels, pairs.as_slice(), a, classes)?;
    }
    Ok(levels)
}

/// What is the same of a kind.
fn facts_of_kind(kind: &Kind, names: &[Name]) -> KindFacts {
    let class = match &kind.class {
        None => 0,
        Some(class) => class_number(names, class),
    };
    KindFacts {
        dest: kind.dest.0,
        long: kind.long,
        reefer: kind.reefer,
        kg: kind.kg,
        class,
    }
}

/// The kinds.
fn gather_kinds(alloc: Global, kinds: &Kinds, names: &[Name]) -> Result<Vec<KindFacts>, NoMemory> {
    let mut list = Vec::new(alloc);
    for g in 0..kinds.len() {
        list.push(facts_of_kind(kinds.kind(KindNo(g)), names))?;
    }
    Ok(list)
}

/// How many containers of each kind load at a call.
fn gather_loads_at(loads: &mut Vec<u32>, kinds: &Kinds, call: u32) -> Result<(), NoMemory> {
    for g in 0..kinds.len() {
        loads.push(kinds.count(CallNo(call), KindNo(g)))?;
    }
    Ok(())
}

/// How many containers of each kind load at each call.
fn gather_loads(alloc: Global, kinds: &Kinds, calls: u32) -> Result<Vec<u32>, NoMemory> {
    let mut loads = Vec::new(alloc);
    for call in 0..calls {
        gather_loads_at(&mut loads, kinds, call)?;
    }
    Ok(loads)
}

/// The lots, as the variables are entered.
#[derive(Drop)]
struct Lots {
    /// For each call and kind its lot.
    lots: Vec<Lot>,
    /// For each fit and place its number among the places of a lot.
    ranks: Vec<u32>,
    /// For each variable what it belongs to.
    marks: Vec<Mark>,
    /// How many places all lots have.
    stays: u32,
    /// What stands aboard as the ship comes in.
    arrived: Vec<Arrived>,
}

/// Where a variable is entered: the numbers of its lot, and of its place's rank.
#[derive(Clone, Copy)]
struct Slots {
    lot: usize,
    rank: usize,
}

/// What a variable belongs to that has no lot.
const NO_MARK: Mark = Mark {
    stays: u32::MAX,
    lifted: 0,
};

impl Lots {
    /// No variables, of so many calls, kinds and places.
    fn new(alloc: Global, calls: u32, kinds: usize, places: usize) -> Result<Lots, NoMemory> {
        Ok(Lots {
            lots: Vec::from_elem(alloc, NO_LOT, (calls as usize).wrapping_mul(kinds))?,
            ranks: Vec::from_elem(alloc, u32::MAX, places.wrapping_mul(4))?,
            marks: Vec::new(alloc),
            stays: 0,
            arrived: Vec::new(alloc),
        })
    }

    /// Where a variable is entered. None where there is no such lot or place, as for no variable of a program.
    fn slots(&self, kinds: &[KindFacts], places: usize, v: &Var) -> Option<Slots>
        ensures lot { IfSome result (λ s. s.lot < length self.now.lots.items) }
        ensures rank { IfSome result (λ s. s.rank < length self.now.ranks.items) }
    {
        let kind = kinds.get(v.kind.0 as usize)?;
        let lot = index_of(v.put.0, kinds.len(), v.kind.0);
        let rank = index_of(kind.fit(), places, v.place.0);
        if lot < self.lots.len() && rank < self.ranks.len() {
            Some(Slots { lot, rank })
        } else {
            None
        }
    }

    /// Enters the first variable of a lot, unless an earlier one is there.
    fn open(&mut self, lot: usize, x: u32) -> Lot
        requires { lot < length self.old.lots.items }
        ensures lots { length self.new.lots.items ≡ length self.old.lots.items }
        ensures ranks { length self.new.ranks.items ≡ length self.old.ranks.items }
    {
        let stays = self.stays;
        let lot = &mut self.lots[lot];
        if lot.width == 0 {
            lot.first = x;
            lot.stays = stays;
        }
        *lot
    }

    /// Enters a place of a lot, as the variables of its first lifting name them: it is a container that stands aboard as the
    /// ship comes in, or a place for all containers that fit there.
    fn enter_place(
        &mut self,
        slots: Slots,
        rank: u32,
        places: &[Place],
        v: &Var,
    ) -> Result<(), NoMemory>
        requires lot { slots.lot < length self.old.lots.items }
        requires rank { slots.rank < length self.old.ranks.items }
    {
        let lot = &mut self.lots[slots.lot];
        lot.width = lot.width.wrapping_add(1);
        self.stays = self.stays.wrapping_add(1);
        if v.put.0 == 0 {
            return self.enter_arrived(rank, places, v);
        }
        self.ranks[slots.rank] = rank;
        Ok(())
    }

    /// Enters a container that stands aboard as the ship comes in.
    fn enter_arrived(&mut self, rank: u32, places: &[Place], v: &Var) -> Result<(), NoMemory> {
        if let Some(place) = places.get(v.place.0 as usize).copied() {
            self.arrived.push(Arrived {
                kind: v.kind.0,
                place: v.place.0,
                spot: Spot {
                    stack: place.stack.0,
                    tier: place.tier,
                    span: place.span,
                },
                rank,
            })?;
        }
        Ok(())
    }

    /// Enters what a variable belongs to. One without a lot gets a mark that is past all stays, which no facts have.
    fn enter(
        &mut self,
        kinds: &[KindFacts],
        places: &[Place],
        x: u32,
        v: &Var,
    ) -> Result<(), NoMemory> {
        let Some(slots) = self.slots(kinds, places.len(), v) else {
            self.marks.push(NO_MARK)?;
            return Ok(());
        };
        let lot = self.open(slots.lot, x);
        let is_first = v.lifted.0 == v.put.0.wrapping_add(1);
        if is_first {
            self.enter_place(slots, lot.width, places, v)?;
        }
        let past = x.wrapping_sub(lot.first);
        let rank = match lot.width {
            0 => past,
            width if is_first => width,
            width => past % width,
        };
        self.marks.push(Mark {
            stays: lot.stays.wrapping_add(rank),
            lifted: bit_of(v.lifted.0),
        })?;
        Ok(())
    }
}

/// The lots of all variables.
fn gather_lots(
    alloc: Global,
    model: &Model,
    kinds: &[KindFacts],
    places: &[Place],
) -> Result<Lots, NoMemory> {
    let mut lots = Lots::new(alloc, model.cargo().calls(), kinds.len(), places.len())?;
    for x in 0..model.vars() {
        lots.enter(kinds, places, x, &model.var(VarNo(x)))?;
    }
    lots.arrived.sort_by_key(|arrived| arrived.place)?;
    Ok(lots)
}

/// Whether stacks have at most 40 tiers, and covers below a number.
fn are_stacks(stacks: &[StackFacts], covers: u32) -> bool
    ensures { IsTrue result → All (IsStack covers) stacks.now }
{
    stacks.iter().all(|stack| stack.is_stack(covers))
}

/// Whether a container that arrived is of a kind and in a stack that there is.
fn is_arrived(arrived: &Arrived, sizes: Sizes) -> bool
    ensures { IsTrue result → IsArrived sizes arrived.now }
{
    arrived.kind < sizes.kinds && arrived.spot.stack < sizes.stacks && arrived.spot.tier < TIERS
}

/// Whether what arrived is of kinds and in stacks that there are.
fn are_arrived(arrived: &[Arrived], sizes: Sizes) -> bool
    ensures { IsTrue result → All (IsArrived sizes) arrived.now }
{
    arrived.iter().all(|arrived| is_arrived(arrived, sizes))
}

/// Whether the stays of these variables are among those that there are.
fn are_marks(marks: &[Mark], sizes: Sizes) -> bool
    ensures { IsTrue result → All (IsMark sizes) marks.now }
{
    marks.iter().all(|mark| mark.stays < sizes.stays)
}

/// Facts of nothing: no voyage is found by them.
fn no_facts(alloc: Global) -> Facts {
    let sizes = Sizes {
        stacks: 0,
        covers: 0,
        kinds: 0,
        places: 0,
        stays: 0,
        calls: 0,
    };
    Facts {
        sizes,
        stacks: Vec::new(alloc),
        bonds: Bonds::none(alloc),
        places: Vec::new(alloc),
        kinds: Vec::new(alloc),
        loads: Vec::new(alloc),
        lots: Vec::new(alloc),
        ranks: Vec::new(alloc),
        marks: Vec::new(alloc),
        arrived: Vec::new(alloc),
        levels: Vec::new(alloc),
        classes: 0,
        prices: Prices::none(),
    }
}

/// Whether there is as much of each as the sizes say, and what names one of these names one that there is.
fn are_whole(
    sizes: Sizes,
    stacks: &[StackFacts],
    kinds: &[KindFacts],
    places: &[Place],
    bonds: &Bonds,
    lots: &Lots,
) -> bool
    ensures each_stack { IsTrue result → length stacks.now ≡ sizes.stacks }
    ensures each_kind { IsTrue result → length kinds.now ≡ sizes.kinds }
    ensures each_place { IsTrue result → length places.now ≡ sizes.places }
    ensures bound { IsTrue result → bonds.now ≡ sizes.stacks }
    ensures stacks_in { IsTrue result → All (IsStack sizes.covers) stacks.now }
    ensures arrived_in { IsTrue result → All (IsArrived sizes) lots.now.arrived.items }
    ensures marks_in { IsTrue result → All (IsMark sizes) lots.now.marks.items }
{
    if stacks.len() != sizes.stacks as usize
        || kinds.len() != sizes.kinds as usize
        || places.len() != sizes.places as usize
        || bonds.count() != sizes.stacks
    {
        return false;
    }
    are_stacks(stacks, sizes.covers)
        && are_arrived(lots.arrived.as_slice(), sizes)
        && are_marks(lots.marks.as_slice(), sizes)
}

/// What is the same in every run over the ship and cargo whose 0-1 program is `model`.
///
/// That each number names what there is, is looked at here once for all; where one doesn't, the facts are those of nothing.
pub fn gather_facts(alloc: Global, model: &Model) -> Result<Facts, NoMemory> {
    let (ship, cargo) = (model.ship(), model.cargo());
    let list = kinds(alloc, ship, cargo)?;
    let names = class_names(alloc, &list)?;
    let places = gather_places(alloc, ship)?;
    let stacks = gather_stacks(alloc, ship, places.as_slice())?;
    let kinds = gather_kinds(alloc, &list, names.as_slice())?;
    let lots = gather_lots(alloc, model, kinds.as_slice(), places.as_slice())?;
    let levels = gather_levels(alloc, ship, names.as_slice())?;
    let by_bay = levels.iter().any(|level| *level == 3);
    let bonds = Bonds::bind(alloc, stacks.as_slice(), by_bay)?;
    let sizes = Sizes {
        stacks: count_of(stacks.as_slice()),
        covers: ship.covers(),
        kinds: count_of(kinds.as_slice()),
        places: count_of(places.as_slice()),
        stays: lots.stays,
        calls: cargo.calls(),
    };
    if !are_whole(sizes, &stacks, &kinds, &places, &bonds, &lots) {
        return Ok(no_facts(alloc));
    }
    Ok(Facts {
        sizes,
        stacks,
        bonds,
        places,
        kinds,
        loads: gather_loads(alloc, &list, sizes.calls)?,
        lots: lots.lots,
        ranks: lots.ranks,
        marks: lots.marks,
        arrived: lots.arrived,
        levels,
        classes: count_of(names.as_slice()),
        prices: Prices::of(cargo),
    })
}
