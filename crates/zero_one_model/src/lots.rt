//! Which lots a row may touch, and which variables crossing rows may.
ghost use Rattle.std.specs.Prelude.{◌≡◌, ◌<◌, ◌&&◌, false, length, pos};
ghost use Rattle.stow_data.specs.Ship.{same_length};
ghost use Rattle.zero_one_rows.specs.declared.program.Var.{Var};
ghost use Rattle.zero_one_rows.specs.Variables.{Voyage, all_kinds, kind as kind_of, is_rehandled};
ghost use Rattle.zero_one_rows.specs.Crossing.{length_of};
ghost use Rattle.zero_one_rows.specs.Rows.{coef};

use stow_data::{CallNo, KindNo, Kinds, Length, PlaceNo};
use zero_one_rows::{Row, Var, is_crossing_variable, kind_at};

/// Whether a row may touch what of a kind is put at a call: false only where it touches none of that.
#[tactic(auto, using(crate::proofs::LotVariables::not_crossing))]
pub fn may_touch(kinds: &Kinds, row: &Row, put: CallNo, kind: KindNo) -> bool
    ghost m: { Voyage }
    requires kinds { kinds.now.list ≡ all_kinds m }
    requires kind { kind < length (all_kinds m) }
    ensures { result ≡ false → (x : Var) → x.put ≡ put → x.kind ≡ kind → coef m row.now x ≡ pos 0 }
{
    let lot = Var {
        put,
        kind,
        lifted: CallNo(0),
        place: PlaceNo(0),
    };
    match row {
        Row::Cross { length, chain, .. } => is_crossing_variable(kinds, *length, chain, lot),
        Row::Flow { .. }
        | Row::Start { .. }
        | Row::Cell { .. }
        | Row::Support { .. }
        | Row::Twenty { .. }
        | Row::Block { .. }
        | Row::Hatch { .. }
        | Row::Weight { .. }
        | Row::Apart { .. } => true,
    }
}

/// Whether a length in feet is this one.
fn has_length(foot: u32, long: Length) -> bool
    ensures { result ≡ same_length (length_of foot) long }
{
    match long {
        Length::Twenty => foot == 20,
        Length::Forty => foot != 20,
    }
}

/// Whether crossing rows of a length may touch a variable: it has the length, and is lifted before its destination.
pub fn may_cross(kinds: &Kinds, foot: u32, x: Var) -> bool
    ghost m: { Voyage }
    requires kinds { kinds.now.list ≡ all_kinds m }
    requires kind { x.kind < length (all_kinds m) }
    ensures { result ≡ (same_length (length_of foot) (kind_of m x.kind).long && is_rehandled m x) }
{
    let kind = kind_at(kinds, x.kind);
    has_length(foot, kind.long) && x.lifted.0 < kind.dest.0
}
