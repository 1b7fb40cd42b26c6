//! What stands under a key of a TOML table: a text, a number, a truth value, an array or a table, or the reason why there is none.
#![tactic(auto)]

mod at_keys;
mod of_values;
mod parsing;

pub use at_keys::{
    array_at, class_at, code_at, digits_at, flag_at, if_there, name_at, number_at, or_default,
    signed_at, tables_at, text_at, value_at,
};
pub use of_values::{
    Unread, array_of, class_of, code_of, count_of, digits_of, flag_of, name_of, number_of,
    signed_of, table_of, tables_of, text_of,
};
pub use parsing::{NoDocument, document};
