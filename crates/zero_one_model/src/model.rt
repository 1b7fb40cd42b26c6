//! The built program.
ghost use Rattle.std.specs.Prelude.{◌≡◌, ℕ, ◌+◌, ◌-◌, ◌*◌, ◌<◌, ◌≤◌, ◌≢◌, ◌^◌, ◌↔◌, true, false, length, slice_get, Some, IfOk, MatchOption, OnOk, All, ◌++◌, ◌∷◌, [], filter, flat_map, cond, Contains, pos, unsigned_abs, map, ◌&&◌};
ghost use Rattle.std.specs.List.{AllPairs, range_with_len};

use crate::building::built_parts;
use crate::filing::RowFiles;
use crate::index::{Index, has_keys, key_of_place};
use crate::lots::{may_cross, may_touch};
use crate::refusals::ModelNo;
use crate::runs::at_call;
use std::alloc::Global;
use stow_data::{CallNo, Cargo, KindNo, Kinds, NoMemory, Place, Seq, Ship, VarNo, kinds};
use zero_one_rows::{Chain, Row, RowList, RowLists, Var, VarList, is_crossing_variable, place_at};

/// Appends a variable's number where it is wanted.
fn push_var(list: &mut VarList, x: VarNo, wanted: bool) -> Result<(), NoMemory>
    ensures { OnOk result (list.new ≡ list.old ++ cond wanted (x ∷ []) []) }
{
    if wanted { list.push(x) } else { Ok(()) }
}

/// The 0-1 program of a voyage, with the rows of all ten families. Contracts see the voyage.
#[derive(Drop)]
pub struct Model<'a> {
    ship: &'a Ship,
    cargo: &'a Cargo,
    kinds: Kinds,
    vars: Seq<Var>,
    lists: RowLists,
    base: u64,
    rows: u64,
    index: Index,
    files: RowFiles,
}

impl<'a> std::marker::Model for Model<'a> {
    ghost use Rattle.zero_one_rows.specs.Variables.{Voyage};

    ghost Value = { Voyage };

    ghost use Rattle.zero_one_model.specs.Built.{voyage_of, IsBuilt};

    ghost view = { voyage_of };

    ghost invariant = { IsBuilt };
}

impl<'a> Model<'a> {
    ghost use Rattle.zero_one_rows.specs.declared.program.Var.{Var};
    ghost use Rattle.zero_one_rows.specs.declared.program.Row.TheVariants.{Cross};
    ghost use Rattle.zero_one_rows.specs.Variables.{Voyage, calls, variables, var, place, all_kinds, kind as kind_of, is_rehandled, var_cost};
    ghost use Rattle.zero_one_rows.specs.Crossing.{crosses, tallest, length_of};
    ghost use Rattle.zero_one_rows.specs.Rows.{coef, rhs, has, whole};
    ghost use Rattle.zero_one_rows.specs.Counted.{base_rows, all_rows};
    ghost use Rattle.zero_one_model.specs.Indexed.{Touches, stands, is_keyed, lot_of, place_key};
    ghost use Rattle.zero_one_model.specs.Runs.{calls_for, run_of, meets, base_row, named_runs, chain_runs};
    ghost use Rattle.zero_one_model.specs.Building.{Builds};
    ghost use Rattle.stow_data.specs.Ship.{places, same_length};
    ghost use Rattle.stow_data.specs.Shipment.{most_cost};

    /// The program of this ship and cargo. TooLarge comes exactly where the variables are more than 200,000, or else the rows more than 2,000,000.
    pub fn build(alloc: Global, ship: &'a Ship, cargo: &'a Cargo) -> Result<Model<'a>, ModelNo>
        requires arrival { length cargo.now.arrival ≡ length (places ship.now) }
        ensures { Builds (record { ship = ship.now; cargo = cargo.now }) result }
    {
        let kinds = kinds(alloc, ship, cargo)?;
        match built_parts(alloc, ship, cargo, &kinds) {
            Ok((vars, tables)) => Ok(Model {
                ship,
                cargo,
                kinds,
                vars,
                lists: tables.lists,
                base: tables.counts.base,
                rows: tables.counts.all,
                index: tables.index,
                files: tables.files,
            }),
            Err(no) => {
                drop(kinds);
                Err(no)
            }
        }
    }

    /// The number of variables.
    pub fn vars(&self) -> u32
        ensures number { result ≡ length (variables self.now) }
        ensures size { result ≤ 200000 }
    {
        self.vars.len() as u32
    }

    /// The number of rows.
    pub fn rows(&self) -> u64
        ensures number { result ≡ length (all_rows self.now) }
        ensures size { result ≤ 2000000 }
    {
        self.rows
    }

    /// A program has at most 200,000 variables and 2,000,000 rows, and no variable costs more than 1,000: a law, which costs nothing when it
    /// runs.
    pub fn keeps_limits(&self)
        ensures vars { length (variables self.now) ≤ 200000 }
        ensures rows { length (all_rows self.now) ≤ 2000000 }
        ensures costs { (x : Var) → var_cost self.now x ≤ 1000 }
    {
        self.cargo.obeys_rules();
        let _vars = self.vars();
        let _rows = self.rows();
    }

    /// The number of base rows; they come first.
    pub fn base_rows(&self) -> u64
        ensures { result ≡ length (base_rows self.now) }
    {
        self.base
    }

    /// The row with k rows before it in the order of rows.
    pub fn row_at(&self, k: u64) -> Row
        requires { k < length (all_rows self.now) }
        ensures place { slice_get (all_rows self.now) k ≡ Some result }
        ensures has { (whole self.now).has result ≡ true }
    {
        self.lists.at(self.base, k)
    }

    /// The number of a row in the order of rows: the inverse of `row_at`. None exactly where the program has no such row.
    pub fn row_number(&self, r: &Row) -> Option<u64>
        ensures { MatchOption result ((whole self.now).has r.now ≡ false) (λ k. slice_get (all_rows self.now) k ≡ Some r.now) }
    {
        self.lists.number(self.base, self.rows, r)
    }

    /// The ship.
    pub fn ship(&self) -> &Ship
        ensures { result.now ≡ self.now.ship }
    {
        self.ship
    }

    /// The cargo.
    pub fn cargo(&self) -> &Cargo
        ensures { result.now ≡ self.now.cargo }
    {
        self.cargo
    }

    /// The most that a voyage needs to cost: each container lifted once at each call but the last.
    pub fn limit(&self) -> u64
        ensures { result ≡ most_cost self.now.cargo }
    {
        self.cargo.limit()
    }

    /// A variable.
    pub fn var(&self, x: VarNo) -> Var
        requires { x < length (variables self.now) }
        ensures { result ≡ var self.now x }
    {
        *self.vars.at(x.0 as usize)
    }

    /// The number of a variable; None exactly where the program has no such variable.
    pub fn number(&self, v: &Var) -> Option<VarNo>
        ensures { MatchOption result ((x : ℕ) → x < length (variables self.now) → var self.now x ≢ v.now) (λ x. (x < length (variables self.now)) × (var self.now x ≡ v.now)) }
    {
        match self.vars.as_slice().binary_search(v) {
            Ok(x) => Some(VarNo(x as u32)),
            Err(_) => None,
        }
    }

    /// Whether the program has this row.
    pub fn has_row(&self, r: &Row) -> bool
        ensures { result ≡ (whole self.now).has r.now }
    {
        zero_one_rows::has_row(self.ship, self.cargo, &self.kinds, r)
    }

    fn coefficient_of(&self, r: &Row, x: Var) -> i64
        ghost m: { Voyage }
        requires model { self.now ≡ m }
        requires row { (whole m).has r.now ≡ true }
        requires place { x.place < length (places m.ship) }
        requires kind { x.kind < length (all_kinds m) }
        ensures { result ≡ coef m r.now x }
    {
        self.ship.obeys_rules();
        zero_one_rows::coefficient(self.ship, &self.kinds, r, x)
    }

    fn rhs_of(&self, r: &Row) -> i64
        ghost m: { Voyage }
        requires model { self.now ≡ m }
        requires row { (whole m).has r.now ≡ true }
        ensures { result ≡ (whole m).rhs r.now }
    {
        self.ship.obeys_rules();
        zero_one_rows::right_side(self.ship, self.cargo, &self.kinds, r)
    }

    fn cost_of(&self, x: Var) -> u32
        ghost m: { Voyage }
        requires model { self.now ≡ m }
        requires kind { x.kind < length (all_kinds m) }
        ensures value { result ≡ var_cost m x }
        ensures size { result ≤ 1000 }
    {
        zero_one_rows::cost_at(self.cargo, &self.kinds, x)
    }

    /// The coefficient of a variable in a row.
    pub fn coefficient(&self, r: &Row, x: VarNo) -> i64
        requires row { (whole self.now).has r.now ≡ true }
        requires var { x < length (variables self.now) }
        ensures value { result ≡ (whole self.now).coef r.now x }
        ensures size { unsigned_abs result ≤ 2 ^ 17 }
    {
        self.ship.obeys_rules();
        self.cargo.obeys_rules();
        self.coefficient_of(r, self.var(x))
    }

    /// The right side of a row.
    pub fn rhs(&self, r: &Row) -> i64
        requires { (whole self.now).has r.now ≡ true }
        ensures value { result ≡ (whole self.now).rhs r.now }
        ensures size { unsigned_abs result ≤ 2 ^ 37 }
    {
        self.ship.obeys_rules();
        self.cargo.obeys_rules();
        self.rhs_of(r)
    }

    /// What a variable costs: the price of the call at which it is lifted, where that is before its kind's destination, and else nothing.
    pub fn cost(&self, x: VarNo) -> u32
        requires { x < length (variables self.now) }
        ensures value { pos result ≡ (whole self.now).cost x }
        ensures size { result ≤ 1000 }
    {
        self.cost_of(self.var(x))
    }

    /// Appends those of some variables whose coefficient in a row isn't 0.
    fn select(&self, list: &mut VarList, r: &Row, among: &[u32]) -> Result<(), NoMemory>
        requires row { (whole self.now).has r.now ≡ true }
        requires inside { All (λ v. v < length (variables self.now)) among.now }
        ensures { OnOk result (list.new ≡ list.old ++ filter (stands self.now r.now) among.now) }
    {
        for v in among {
            let x = VarNo(*v);
            push_var(list, x, self.coefficient(r, x) != 0)?;
        }
        Ok(())
    }

    fn may_touch_lot(&self, r: &Row, put: CallNo, kind: KindNo) -> bool
        ghost m: { Voyage }
        requires model { self.now ≡ m }
        requires kind { kind < length (all_kinds m) }
        ensures { result ≡ false → (x : Var) → x.put ≡ put → x.kind ≡ kind → coef m r.now x ≡ pos 0 }
    {
        may_touch(&self.kinds, r, put, kind)
    }

    /// Appends those of a lot.
    fn select_lot(
        &self,
        list: &mut VarList,
        r: &Row,
        put: CallNo,
        kind: KindNo,
    ) -> Result<(), NoMemory>
        requires row { (whole self.now).has r.now ≡ true }
        requires put { put < calls self.now }
        requires kind { kind < length (all_kinds self.now) }
        ensures { OnOk result (list.new ≡ list.old ++ filter (stands self.now r.now) (lot_of self.now put kind)) }
    {
        if !self.may_touch_lot(r, put, kind) {
            return Ok(());
        }
        self.select(list, r, self.index.lot(self.kinds.len(), put, kind))
    }

    /// Appends those that are put at a call.
    fn select_put(&self, list: &mut VarList, r: &Row, put: CallNo) -> Result<(), NoMemory>
        requires row { (whole self.now).has r.now ≡ true }
        requires put { put < calls self.now }
        ensures { OnOk result (list.new ≡ list.old ++ filter (stands self.now r.now) (flat_map (lot_of self.now put) (range_with_len 0 (length (all_kinds self.now))))) }
    {
        for g in 0..self.kinds.len() {
            self.select_lot(list, r, put, KindNo(g))?;
        }
        Ok(())
    }

    /// Appends those of all lots.
    fn select_lots(&self, list: &mut VarList, r: &Row) -> Result<(), NoMemory>
        requires { (whole self.now).has r.now ≡ true }
        ensures { OnOk result (list.new ≡ list.old ++ filter (stands self.now r.now) (flat_map (λ put. flat_map (lot_of self.now put) (range_with_len 0 (length (all_kinds self.now)))) (range_with_len 0 (calls self.now)))) }
    {
        for put in 0..self.cargo.calls() {
            self.select_put(list, r, CallNo(put))?;
        }
        Ok(())
    }

    /// The variables of a row, found by its one or two keys.
    fn vars_by_keys(&self, alloc: Global, r: &Row) -> Result<VarList, NoMemory>
        requires row { (whole self.now).has r.now ≡ true }
        requires keyed { is_keyed r.now ≡ true }
        ensures each { IfOk result (λ xs. (x : ℕ) → Contains xs x ↔ Touches self.now r.now x) }
        ensures once { IfOk result (λ xs. AllPairs (λ x y. x ≢ y) xs) }
    {
        self.ship.obeys_rules();
        let mut list = Seq::new(alloc);
        self.select(&mut list, r, self.index.first(self.ship, r))?;
        self.select(&mut list, r, self.index.second(self.ship, r))?;
        Ok(list)
    }

    /// The variables of a row, found lot by lot.
    fn vars_by_lots(&self, alloc: Global, r: &Row) -> Result<VarList, NoMemory>
        requires row { (whole self.now).has r.now ≡ true }
        ensures each { IfOk result (λ xs. (x : ℕ) → Contains xs x ↔ Touches self.now r.now x) }
        ensures once { IfOk result (λ xs. AllPairs (λ x y. x ≢ y) xs) }
    {
        let mut list = Seq::new(alloc);
        self.select_lots(&mut list, r)?;
        Ok(list)
    }

    /// The variables whose coefficient in a row isn't 0, each once.
    pub fn vars_of(&self, alloc: Global, r: &Row) -> Result<VarList, NoMemory>
        requires { (whole self.now).has r.now ≡ true }
        ensures each { IfOk result (λ xs. (x : ℕ) → Contains xs x ↔ Touches self.now r.now x) }
        ensures once { IfOk result (λ xs. AllPairs (λ x y. x ≢ y) xs) }
    {
        if has_keys(r) {
            self.vars_by_keys(alloc, r)
        } else {
            self.vars_by_lots(alloc, r)
        }
    }

    /// Appends a row where the program has it and the variable's coefficient in it isn't 0.
    fn keep(&self, list: &mut RowList, r: Row, x: VarNo) -> Result<(), NoMemory>
        requires { x < length (variables self.now) }
        ensures { OnOk result (list.new ≡ list.old ++ filter (meets self.now x) (r ∷ [])) }
    {
        if self.has_row(&r) && self.coefficient(&r, x) != 0 {
            list.push(r)
        } else {
            Ok(())
        }
    }

    /// The first call, or price, at which a variable may stand in a run, and at how many it may.
    fn calls_of_run(&self, v: Var, r: &Row) -> (u32, u32)
        ghost m: { Voyage }
        requires model { self.now ≡ m }
        requires put { v.put < v.lifted }
        requires lifted { v.lifted ≤ 12 }
        ensures calls { range_with_len result.0 result.1 ≡ calls_for m v r.now }
        ensures fits { result.0 + result.1 ≤ 2 ^ 32 }
    {
        match r {
            Row::Start { .. } => (1, 1),
            Row::Cross { length, .. } => (1, self.tiers_for(*length)),
            Row::Flow { .. }
            | Row::Cell { .. }
            | Row::Support { .. }
            | Row::Twenty { .. }
            | Row::Block { .. }
            | Row::Hatch { .. }
            | Row::Weight { .. }
            | Row::Apart { .. } => (v.put.0, v.lifted.0 - v.put.0 + 1),
        }
    }

    /// The tiers of the tallest column of a length in feet.
    fn tiers_for(&self, foot: u32) -> u32
        ensures { result ≡ tallest self.now.ship (length_of foot) }
    {
        if foot == 20 {
            self.lists.short_tiers
        } else {
            self.lists.long_tiers
        }
    }

    /// Appends those rows of a run in which a variable stands.
    fn keep_run(&self, list: &mut RowList, r: &Row, x: VarNo) -> Result<(), NoMemory>
        requires { x < length (variables self.now) }
        ensures { OnOk result (list.new ≡ list.old ++ filter (meets self.now x) (run_of self.now (var self.now x) r.now)) }
    {
        self.cargo.obeys_rules();
        let (first, count) = self.calls_of_run(self.var(x), r);
        for k in 0..count {
            self.keep(list, at_call(r, first + k), x)?;
        }
        Ok(())
    }

    /// A base row by its number.
    fn base_row_at(&self, k: u32) -> Row
        requires { k < length (base_rows self.now) }
        ensures { result ≡ base_row self.now k }
    {
        self.row_at(u64::from(k))
    }

    /// Appends those of the runs of some base rows.
    fn keep_filed(&self, list: &mut RowList, numbers: &[u32], x: VarNo) -> Result<(), NoMemory>
        requires var { x < length (variables self.now) }
        requires inside { All (λ k. k < length (base_rows self.now)) numbers.now }
        ensures { OnOk result (list.new ≡ list.old ++ filter (meets self.now x) (flat_map (run_of self.now (var self.now x)) (map (base_row self.now) numbers.now))) }
    {
        for k in numbers {
            self.keep_run(list, &self.base_row_at(*k), x)?;
        }
        Ok(())
    }

    /// The place at which a variable stands.
    fn place_of(&self, x: VarNo) -> Place
        requires { x < length (variables self.now) }
        ensures { result ≡ place self.now (var self.now x).place }
    {
        place_at(self.ship, self.var(x).place)
    }

    /// Appends those of the runs that a variable's own numbers name.
    fn keep_named(&self, list: &mut RowList, x: VarNo) -> Result<(), NoMemory>
        requires { x < length (variables self.now) }
        ensures { OnOk result (list.new ≡ list.old ++ filter (meets self.now x) (flat_map (run_of self.now (var self.now x)) (named_runs self.now (var self.now x)))) }
    {
        let Var { kind, place, .. } = self.var(x);
        let call = CallNo(1);
        let stack = self.place_of(x).stack;
        self.keep_run(list, &Row::Flow { q: 0, call, kind }, x)?;
        self.keep_run(list, &Row::Flow { q: 1, call, kind }, x)?;
        self.keep_run(list, &Row::Start { q: 0, place }, x)?;
        self.keep_run(list, &Row::Start { q: 1, place }, x)?;
        self.keep_run(list, &Row::Weight { call, stack }, x)
    }

    fn crosses_at(&self, foot: u32, chain: &Chain, x: Var) -> bool
        ghost m: { Voyage }
        requires model { self.now ≡ m }
        requires kind { x.kind < length (all_kinds m) }
        ensures { result ≡ crosses m foot chain.now x }
    {
        is_crossing_variable(&self.kinds, foot, chain, x)
    }

    /// Appends those crossing rows of a chain in which a variable stands.
    fn keep_chain(
        &self,
        list: &mut RowList,
        foot: u32,
        chain: &Chain,
        x: VarNo,
    ) -> Result<(), NoMemory>
        requires { x < length (variables self.now) }
        ensures { OnOk result (list.new ≡ list.old ++ filter (meets self.now x) (run_of self.now (var self.now x) (Cross foot 1 chain.now))) }
    {
        if !self.crosses_at(foot, chain, self.var(x)) {
            return Ok(());
        }
        let row = Row::Cross {
            length: foot,
            price: 1,
            chain: Chain::of(chain.items()),
        };
        self.keep_run(list, &row, x)
    }

    /// Appends those crossing rows of some chains in which a variable stands.
    fn keep_each_chain(
        &self,
        list: &mut RowList,
        foot: u32,
        chains: &[Chain],
        x: VarNo,
    ) -> Result<(), NoMemory>
        requires { x < length (variables self.now) }
        ensures { OnOk result (list.new ≡ list.old ++ filter (meets self.now x) (flat_map (run_of self.now (var self.now x)) (map (λ c. Cross foot 1 c) chains.now))) }
    {
        for chain in chains {
            self.keep_chain(list, foot, chain, x)?;
        }
        Ok(())
    }

    fn may_cross_at(&self, foot: u32, x: Var) -> bool
        ghost m: { Voyage }
        requires model { self.now ≡ m }
        requires kind { x.kind < length (all_kinds m) }
        ensures { result ≡ (same_length (length_of foot) (kind_of m x.kind).long && is_rehandled m x) }
    {
        may_cross(&self.kinds, foot, x)
    }

    /// Appends those crossing rows of a length in which a variable stands.
    fn keep_chains(&self, list: &mut RowList, foot: u32, x: VarNo) -> Result<(), NoMemory>
        requires { x < length (variables self.now) }
        ensures { OnOk result (list.new ≡ list.old ++ filter (meets self.now x) (flat_map (run_of self.now (var self.now x)) (chain_runs self.now foot))) }
    {
        if !self.may_cross_at(foot, self.var(x)) {
            return Ok(());
        }
        self.keep_each_chain(list, foot, self.lists.chains.as_slice(), x)
    }

    /// The number of the tier at which a variable stands.
    fn shelf(&self, x: VarNo) -> usize
        requires { x < length (variables self.now) }
        ensures { result ≡ place_key self.now.ship (var self.now x).place }
    {
        key_of_place(self.ship, self.var(x).place)
    }

    /// The rows in which the coefficient of a variable isn't 0, each once.
    pub fn rows_of(&self, alloc: Global, x: VarNo) -> Result<RowList, NoMemory>
        requires { x < length (variables self.now) }
        ensures each { IfOk result (λ rs. (r : Row) → Contains rs r ↔ Touches self.now r x) }
        ensures once { IfOk result (λ rs. AllPairs (λ r s. r ≢ s) rs) }
    {
        self.ship.obeys_rules();
        let shelf = self.shelf(x);
        let mut list = Seq::new(alloc);
        self.keep_named(&mut list, x)?;
        self.keep_filed(&mut list, self.files.by_first.of(shelf), x)?;
        self.keep_filed(&mut list, self.files.by_second.of(shelf), x)?;
        self.keep_chains(&mut list, 20, x)?;
        self.keep_chains(&mut list, 40, x)?;
        Ok(list)
    }
}
