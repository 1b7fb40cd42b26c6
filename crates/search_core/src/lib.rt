//! The search as a machine over events: its rule, its verdicts, the tree of what it ended, and the replay of a tree; and the workers of the machine, with their nodes by key, where no event takes memory.
#![tactic(auto)]

mod children;
mod laws;
mod machine_laws;
mod node_keys;
mod records;
mod refused;
mod seat;
mod seats;

pub use laws::{
    ended_keys_are_ended_nodes, ended_keys_are_told, held_keys_are_held_nodes,
    keys_are_refused_as_nodes, keys_name_nodes, keys_stand_for_nodes,
};
pub use machine_laws::{
    each_event_has_one_verdict, events_keep_the_rule, events_leave_a_tree, handed_nodes_are_whole,
    journals_are_a_tree, journals_replay, records_are_of_nodes, searched_is_founded,
    searching_goes_on,
};
pub use node_keys::NodeKey;
pub use records::Done;
pub use refused::Refused;
pub use seats::Seats;
