//! What every crate speaks of: lists, names, the ship's geometry, plans and the cargo.
#![tactic(auto)]

mod cargoes;
mod cells;
mod digits;
mod geometry;
mod hatches;
mod kind_finder;
mod kind_list;
mod limits;
mod list;
mod names;
mod nearness;
mod numbers;
mod plans;
mod ship_tables;
mod ships;
mod short;
mod tables;
mod words;

pub use cargoes::{Cargo, Container, ContainerList, Origin};
pub use digits::{are_digits, digit, value_of};
pub use geometry::{
    Cover, CoverList, Half, Length, Lengths, Place, Separation, SeparationList, Span, Stack,
    StackList, Stacks, length_of_type,
};
pub use kind_finder::kinds;
pub use kind_list::{Kind, Kinds};
pub use limits::Limit;
pub use list::{Bytes, FlagList, NoMemory, NumberList, Seq};
pub use names::{Name, NameList};
pub use nearness::{is_near, shares_half};
pub use numbers::{CallNo, ContainerNo, CoverNo, HalfNo, KindNo, PlaceNo, StackNo, VarNo};
pub use plans::{Plan, PlanList};
pub use ships::Ship;
pub use short::Short;
pub use words::{Word, WordList};
