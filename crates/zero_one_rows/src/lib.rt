//! The 0-1 program of a voyage (after Avriel, Penn, Shpirer and Witteboon, 1998): its variables, its rows one by one and as one list, and the chains of calls that number its crossing rows.
#![tactic(auto)]

mod all_chains;
mod chain_sides;
mod coefficients;
mod counts;
mod crossing;
mod groups;
mod laws;
mod levels;
mod listing;
mod lookups;
mod membership;
mod offers;
mod order_laws;
mod program;
mod row_at;
mod row_lists;
mod row_number;
mod row_tests;
mod which_rows;

pub use all_chains::{Chain, Chains};
pub use chain_sides::chain_rhs;
pub use coefficients::{half_at, kind_at, place_at, stack_at, under};
pub use counts::{RowCounts, count_rows};
pub use crossing::{columns, is_crossing, is_crossing_variable, tallest};
pub use groups::{Groups, group};
pub use laws::{rows_are_in_range, variables_stand_once};
pub use listing::{Listing, list_variables};
pub use lookups::{coefficient, cost_at, right_side};
pub use membership::{has_pair, is_chain_of, pair_at, pair_count};
pub use offers::{Offers, gather_offers};
pub use order_laws::{rows_are_in_order, rows_are_listed};
pub use program::{Raise, RaiseList, Row, RowList, Var, VarList};
pub use row_lists::{HatchPair, NearPair, Pair, RowLists, list_rows};
pub use which_rows::has_row;
