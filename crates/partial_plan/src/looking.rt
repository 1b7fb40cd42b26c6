//! Rows that are looked at until none forces anything.
ghost use Rattle.std.specs.Prelude.{◌≡◌, ℕ, ◌+◌, ◌<◌, ◌≤◌, ◌++◌, List, All, IfNone, IfSome, None, OnOk, length, slice_index_or, true, false, pos, ◌≤ℤ◌, cond};
ghost use Rattle.proof_trees.specs.Boxes.{at, tight, violated};
ghost use Rattle.zero_one_rows.specs.declared.program.Row.{Row};
ghost use Rattle.zero_one_rows.specs.Variables.{variables};
ghost use Rattle.zero_one_rows.specs.Rows.{base, whole};
ghost use Rattle.partial_plan.specs.Fixing.{Fixes};
ghost use Rattle.partial_plan.specs.Forced.{forces, is_above, stepped};
ghost use Rattle.zero_one_rows.specs.Tightening.{IsQuiet};
ghost use Rattle.partial_plan.specs.Tightening.{Tightens};
ghost use Rattle.row_matrix.specs.Terms.{count, row_at, slack_in, AreTerms};
ghost use Rattle.row_matrix.specs.Waiting.{waits_at};
ghost use Rattle.row_matrix.specs.Following.{IsWide, ChangedRowsWait};
ghost use Rattle.partial_plan.specs.PropagationState.{IsState, Rests, work};
ghost use Rattle.partial_plan.specs.Looking.{AnyForced, Ends, NoneForced};

use crate::state::PropagationState;
use crate::tightening::Tightened;
use row_matrix::{BaseMatrix, Term};
use stow_data::NoMemory;
use zero_one_model::Box01;
use zero_one_rows::{RowList, rows_are_listed};

// Whether a row with this slack forces a variable that is free.
fn is_forced(allowed: Option<bool>, slack: i64, by: i32) -> bool
    ensures { result ≡ forces slack allowed by }
{
    allowed.is_none() && (slack as i128) < by.unsigned_abs() as i128
}

// Whether a row with this slack forces one of its variables.
fn forces_any(b: &Box01, terms: &[Term], slack: i64) -> bool
    requires { All (λ t. t.at < length b.now) terms.now }
    ensures none { result ≡ false → NoneForced b.now slack terms.now }
    ensures some { result ≡ true → AnyForced b.now slack terms.now }
{
    terms
        .iter()
        .any(|term| is_forced(b.at(term.at), slack, term.by))
}

// Whether no coefficient of a base row passes this slack.
fn is_wide(matrix: &BaseMatrix, k: usize, slack: i64) -> bool
    requires { k < count matrix.now }
    ensures { result ≡ true → IsWide matrix.now slack k }
{
    slack >= i64::from(matrix.tops()[k])
}

impl PropagationState {
    // Fixes the variable of a term, where a row with this slack forces it.
    fn fix_term(&mut self, matrix: &BaseMatrix, term: &Term, slack: i64)
        requires state { IsState matrix.now self.old }
        requires var { term.now.at < length self.old.b }
        ensures state { IsState matrix.now self.new }
        ensures known { self.new.b ≡ stepped slack self.old.b term.now.at term.now.by }
        ensures noted { (xs : List ℕ) × (self.new.undo.items ≡ self.old.undo.items ++ xs) × Fixes self.old.b self.new.b xs }
        ensures marks { ChangedRowsWait matrix.now self.old.slacks self.new.slacks }
    {
        if !is_forced(self.b.at(term.at), slack, term.by) {
            return;
        }
        self.fix(matrix, term.at, term.by > 0);
    }

    // Fixes all that a base row of these terms with this slack forces.
    fn fix_all(&mut self, matrix: &BaseMatrix, k: usize, terms: &[Term], slack: i64)
        requires state { IsState matrix.now self.old }
        requires row { k < count matrix.now }
        requires terms { AreTerms matrix.now (row_at matrix.now k) terms.now }
        requires slack { slack ≡ slack_in matrix.now self.old.b k }
        requires met { pos 0 ≤ℤ slack }
        ensures state { IsState matrix.now self.new }
        ensures known { self.new.b ≡ tight (whole matrix.now) self.old.b (row_at matrix.now k) }
        ensures noted { (xs : List ℕ) × (self.new.undo.items ≡ self.old.undo.items ++ xs) × Fixes self.old.b self.new.b xs }
        ensures marks { ChangedRowsWait matrix.now self.old.slacks self.new.slacks }
    {
        for term in terms {
            self.fix_term(matrix, term, slack);
        }
    }

    // Fixes all that a base row forces, at once; a violated row fixes nothing. Its terms are listed where they aren't written out; where memory is wanting for that, nothing is fixed.
    pub(crate) fn force(
        &mut self,
        matrix: &BaseMatrix,
        terms: &mut Vec<Term>,
        k: usize,
    ) -> Result<(), NoMemory>
        requires state { IsState matrix.now self.old }
        requires row { k < count matrix.now }
        ensures state { IsState matrix.now self.new }
        ensures known { OnOk result (self.new.b ≡ tight (whole matrix.now) self.old.b (row_at matrix.now k)) }
        ensures noted { (xs : List ℕ) × (self.new.undo.items ≡ self.old.undo.items ++ xs) × Fixes self.old.b self.new.b xs }
        ensures marks { ChangedRowsWait matrix.now self.old.slacks self.new.slacks }
    {
        let slack = self.slacks.slack[k];
        if slack < 0 {
            return Ok(());
        }
        if let Some(terms) = matrix.written_terms(k) {
            self.fix_all(matrix, k, terms, slack);
            return Ok(());
        }
        matrix.terms(k, terms)?;
        self.fix_all(matrix, k, terms.as_slice(), slack);
        Ok(())
    }

    // Looks at a row of these terms that waits and is met; what it answers ends tightening.
    fn look_among(
        &mut self,
        matrix: &BaseMatrix,
        terms: &[Term],
        steps: &mut RowList,
        k: usize,
        slack: i64,
    ) -> Option<Tightened>
        requires state { IsState matrix.now self.old }
        requires rests { Rests matrix.now self.old.b self.old.slacks }
        requires row { k < count matrix.now }
        requires waits { waits_at self.old.slacks.waits.items k ≡ true }
        requires terms { AreTerms matrix.now (row_at matrix.now k) terms.now }
        requires slack { slack ≡ slack_in matrix.now self.old.b k }
        requires met { pos 0 ≤ℤ slack }
        ensures state { IsState matrix.now self.new }
        ensures rests { Rests matrix.now self.new.b self.new.slacks }
        ensures steps { Tightens matrix.now self.old.b self.new.b steps.old steps.new }
        ensures noted { (xs : List ℕ) × (self.new.undo.items ≡ self.old.undo.items ++ xs) × Fixes self.old.b self.new.b xs }
        ensures less { IfNone result (work matrix.now self.new < work matrix.now self.old) }
        ensures ends { IfSome result (Ends matrix.now self.new.b) }
    {
        if !forces_any(&self.b, terms, slack) {
            self.slacks.clear(k);
            return None;
        }
        match steps.push(matrix.row(k)) {
            Ok(()) => {
                self.slacks.clear(k);
                self.fix_all(matrix, k, terms, slack);
                None
            }
            Err(_) => Some(Tightened::NoMemory),
        }
    }

    // Looks at a row that waits, whose terms it lists where one may be forced and they aren't written out; what it answers ends tightening.
    fn look(
        &mut self,
        matrix: &BaseMatrix,
        terms: &mut Vec<Term>,
        steps: &mut RowList,
        k: usize,
    ) -> Option<Tightened>
        requires state { IsState matrix.now self.old }
        requires rests { Rests matrix.now self.old.b self.old.slacks }
        requires row { k < count matrix.now }
        requires waits { waits_at self.old.slacks.waits.items k ≡ true }
        ensures state { IsState matrix.now self.new }
        ensures rests { Rests matrix.now self.new.b self.new.slacks }
        ensures steps { Tightens matrix.now self.old.b self.new.b steps.old steps.new }
        ensures noted { (xs : List ℕ) × (self.new.undo.items ≡ self.old.undo.items ++ xs) × Fixes self.old.b self.new.b xs }
        ensures less { IfNone result (work matrix.now self.new < work matrix.now self.old) }
        ensures ends { IfSome result (Ends matrix.now self.new.b) }
    {
        let slack = self.slacks.slack[k];
        if slack < 0 {
            self.slacks.hint(k);
            return Some(Tightened::Violated(matrix.row(k)));
        }
        if is_wide(matrix, k, slack) {
            self.slacks.clear(k);
            return None;
        }
        if let Some(terms) = matrix.written_terms(k) {
            return self.look_among(matrix, terms, steps, k, slack);
        }
        match matrix.terms(k, terms) {
            Ok(()) => self.look_among(matrix, terms.as_slice(), steps, k, slack),
            Err(_) => Some(Tightened::NoMemory),
        }
    }

    // Looks at rows that wait until none is left, or one is violated.
    pub(crate) fn tighten(
        &mut self,
        matrix: &BaseMatrix,
        terms: &mut Vec<Term>,
        steps: &mut RowList,
    ) -> Tightened
        requires state { IsState matrix.now self.old }
        requires rests { Rests matrix.now self.old.b self.old.slacks }
        ensures state { IsState matrix.now self.new }
        ensures rests { Rests matrix.now self.new.b self.new.slacks }
        ensures steps { Tightens matrix.now self.old.b self.new.b steps.old steps.new }
        ensures noted { (xs : List ℕ) × (self.new.undo.items ≡ self.old.undo.items ++ xs) × Fixes self.old.b self.new.b xs }
        ensures ends { Ends matrix.now self.new.b result }
    {
        while let Some(k) = self.slacks.next() {
            if let Some(end) = self.look(matrix, terms, steps, k) {
                return end;
            }
        }
        rows_are_listed();
        self.settle(matrix);
        Tightened::Quiet
    }
}
