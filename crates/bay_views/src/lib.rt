//! Pictures of bay plan messages (SMDG BAPLIE 2.2) as SVG 1.1 texts, and the page that steps through them.
#![tactic(auto)]

mod bays;
mod cells;
mod changes;
mod character_sets;
mod drawing;
mod escaping;
mod frames;
mod heading;
mod law;
mod legend;
mod marks;
mod page;
mod port_marks;
mod sheets;
mod stacks;

pub use bays::bay_count;
pub use cells::Cell;
pub use character_sets::CharacterSet;
pub use drawing::picture;
pub use escaping::{escape, escape_text};
pub use frames::Frame;
pub use heading::same_voyage;
pub use law::{cells_keep_apart, drawn_once, marks_differ, nothing_breaks_out};
pub use legend::add_ports;
pub use page::{index_page, is_own_page};
pub use sheets::Sheet;
