//! Pictures of crane lists as SVG 1.1 texts, cranes across and rounds down, and the call that draws that of a file.
#![tactic(auto)]

mod drawing;
mod law;
mod lines;
mod naming;
mod purposes;
mod reading;
mod shapes;
#[cfg(test)]
mod tests;
mod top;
mod totals;

pub use drawing::work_picture;
pub use law::drawn_once;
pub use naming::list_asked;
pub use purposes::Purpose;
pub use reading::{ListFault, read_list};
pub use shapes::{Shape, ShapeList, shapes_of};
pub use top::draw_work;
