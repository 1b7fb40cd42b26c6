//! What records ask for.
ghost use Rattle.std.specs.Prelude.{◌<◌, IfSome, length};
ghost use Rattle.zero_one_rows.specs.Variables.{variables};

use certificate::{End, Record};
use stow_data::VarNo;
use zero_one_model::Model;

/// The variable by which a record divides, where the program has it, and the value that it is to have: 0 where the record begins from zero.
pub fn asked_of(model: &Model, record: &Record) -> Option<(VarNo, bool)>
    ensures { IfSome result (λ asked. asked.0 < length (variables model.now)) }
{
    let End::Branch(var) = &record.end else {
        return None;
    };
    let x = model.number(var)?;
    Some((x, !record.from_zero))
}
