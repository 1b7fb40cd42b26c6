//! A box and multipliers, with the dual value kept from step to step.
ghost use Rattle.std.specs.Prelude.{◌≡◌, true, ◌+◌, ◌<◌, length, slice_get, slice_set, take, Some, None, [], IfOk, if◌then◌else◌};
ghost use Rattle.proof_trees.specs.Multipliers.{worth, raised};
ghost use Rattle.certificate.specs.Entries.{same_row};
ghost use Rattle.zero_one_rows.specs.Variables.{variables};
ghost use Rattle.zero_one_rows.specs.Rows.{whole};
ghost use Rattle.dual_bound.specs.Adding.{Adds};
ghost use Rattle.dual_bound.specs.Raising.{Raises};
ghost use Rattle.dual_bound.specs.Rising.{Ends};

use crate::changing::change_kept;
use crate::costs::Costs;
use crate::multipliers::{AddNo, Multipliers};
use crate::raising::{Raised, raise_kept};
use crate::table::RowTable;
use row_matrix::{BaseMatrix, LooseBox};
use std::alloc::Global;
use stow_data::{NoMemory, VarNo};
use zero_one_model::{Box01, Model};
use zero_one_rows::{RaiseList, Row};

/// A box and multipliers of a program, with every reduced cost and the dual value, which are kept from step to step. Contracts see the voyage, the box and the multipliers.
#[derive(Drop)]
pub struct Gauge<'a> {
    model: &'a Model<'a>,
    b: Box01,
    multipliers: Multipliers,
    costs: Costs,
    minimizer: Option<LooseBox<'a>>,
}

impl<'a> std::marker::Model for Gauge<'a> {
    ghost use Rattle.dual_bound.specs.Gauging.{Gauging};

    ghost Value = { Gauging };

    ghost use Rattle.dual_bound.specs.GaugeRule.{gauging_of, IsGauge};

    ghost view = { gauging_of };

    ghost invariant = { IsGauge };
}

impl<'a> Gauge<'a> {
    /// A box without multipliers.
    pub fn start(alloc: Global, model: &'a Model<'a>, b: Box01) -> Result<Gauge<'a>, NoMemory>
        requires { length b ≡ length (variables model.now) }
        ensures { IfOk result (λ g. g ≡ record { voyage = model.now; box = b; multipliers = [] }) }
    {
        match Costs::start(alloc, model, &b) {
            Ok(costs) => Ok(Gauge {
                model,
                b,
                multipliers: Multipliers::zero(alloc),
                costs,
                minimizer: None,
            }),
            Err(no) => {
                drop(b);
                Err(no)
            }
        }
    }

    /// A box without multipliers, which also keeps by how much base rows are met where the reduced costs are least, while there is memory for it: raises then pass by all rows that gain nothing for that.
    pub fn start_over(
        alloc: Global,
        matrix: &'a BaseMatrix<'a>,
        b: Box01,
    ) -> Result<Gauge<'a>, NoMemory>
        requires { length b ≡ length (variables matrix.now) }
        ensures { IfOk result (λ g. g ≡ record { voyage = matrix.now; box = b; multipliers = [] }) }
    {
        let model = matrix.model();
        match Costs::start(alloc, model, &b) {
            Ok(costs) => Ok(Gauge {
                model,
                b,
                multipliers: Multipliers::zero(alloc),
                costs,
                minimizer: LooseBox::free(alloc, matrix).ok(),
            }),
            Err(no) => {
                drop(b);
                Err(no)
            }
        }
    }

    /// The box.
    pub fn current(&self) -> &Box01
        ensures { result.now ≡ self.now.box }
    {
        &self.b
    }

    /// The multipliers.
    pub fn multipliers(&self) -> &Multipliers
        ensures { result.now ≡ self.now.multipliers }
    {
        &self.multipliers
    }

    /// The dual value of the box.
    pub fn value(&self) -> i128
        ensures { result ≡ worth (whole self.now.voyage) self.now.box self.now.multipliers }
    {
        self.costs.total()
    }

    /// The dual value that the box has with a free variable fixed.
    pub fn other(&self, x: VarNo, value: bool) -> i128
        requires { slice_get self.now.box x ≡ Some None }
        ensures { result ≡ worth (whole self.now.voyage) (slice_set self.now.box x (Some value)) self.now.multipliers }
    {
        self.costs.other(self.model, &self.b, x, Some(value))
    }

    /// Fixes a free variable.
    pub fn fix(&mut self, x: VarNo, value: bool)
        requires { slice_get self.old.box x ≡ Some None }
        ensures { self.new ≡ record self.old { box = slice_set self.old.box x (Some value) } }
    {
        self.costs.allow(self.model, &self.b, x, Some(value));
        self.b.fix(x, value);
    }

    /// Frees a variable.
    pub fn release(&mut self, x: VarNo)
        requires { x < length self.old.box }
        ensures { self.new ≡ record self.old { box = slice_set self.old.box x None } }
    {
        self.costs.allow(self.model, &self.b, x, None);
        self.b.release(x);
    }

    /// Changes a row's multiplier by an amount. OutOfRange comes exactly where it would leave 0 to 2^40; after a refusal nothing is changed.
    pub fn add(
        &mut self,
        alloc: Global,
        table: &RowTable,
        row: &Row,
        amount: i64,
    ) -> Result<(), AddNo>
        requires table { table.now ≡ self.old.voyage }
        requires row { (whole self.old.voyage).has row.now ≡ true }
        ensures same { (self.new.voyage ≡ self.old.voyage) × (self.new.box ≡ self.old.box) }
        ensures adds { Adds (raised same_row self.old.multipliers row.now amount) self.old.multipliers self.new.multipliers result }
    {
        change_kept(
            alloc,
            self.model,
            table,
            &self.b,
            &mut self.multipliers,
            &mut self.costs,
            row,
            amount,
        )
    }

    /// Leaves no row a multiplier. It takes no memory.
    pub fn clear(&mut self, alloc: Global)
        ensures { self.new ≡ record self.old { multipliers = [] } }
    {
        self.multipliers = Multipliers::zero(alloc);
        self.costs.clear(self.model, &self.b);
    }

    /// Forgets the rows behind the first so many, where each of them has the multiplier 0; else nothing is changed. Whether it did. It takes no memory.
    pub fn shorten(&mut self, count: usize) -> bool
        ensures { self.new ≡ (if result then record self.old { multipliers = take count self.old.multipliers } else self.old) }
    {
        self.multipliers.shorten(count)
    }

    /// Raises multipliers until the box closes at the cut, or no multiplier raised by 1 raises the dual value, or `most` raises are made. Each raise is appended to the list, also where memory is wanting after it.
    pub fn raise(
        &mut self,
        alloc: Global,
        table: &RowTable,
        cut: u64,
        most: u32,
        raises: &mut RaiseList,
    ) -> Raised
        requires { table.now ≡ self.old.voyage }
        ensures same { (self.new.voyage ≡ self.old.voyage) × (self.new.box ≡ self.old.box) }
        ensures raised { Raises self.old.voyage self.old.box most self.old.multipliers self.new.multipliers raises.old raises.new }
        ensures ends { Ends self.old.voyage self.old.box self.new.multipliers cut result }
        ensures spent { result ≡ Raised.Spent → length raises.new ≡ length raises.old + most }
    {
        raise_kept(
            alloc,
            self.model,
            table,
            &self.b,
            &mut self.multipliers,
            &mut self.costs,
            &mut self.minimizer,
            cut,
            most,
            raises,
        )
    }
}
