//! Events of a search.
ghost use Rattle.event_search.specs.Answered.{GivesBack};

use certificate::Record;
use search_core::Refused;

/// What a worker does, by its number, which counts from 0.
#[derive(Drop)]
pub enum Event {
    /// The first child that waits goes to the back of the worker's deque.
    Push { worker: u32 },

    /// The last node of its own deque goes into its hand.
    Pop { worker: u32 },

    /// The first node of the victim's deque goes into its hand.
    Steal { worker: u32, victim: u32 },

    /// It sees the best value.
    Load { worker: u32 },

    /// A leaf's full box is offered: the best value becomes the lesser of itself and the box's price.
    Offer { worker: u32, entry: Record },

    /// It draws a ticket for the node in its hand. Past the budget the node is left.
    Draw { worker: u32 },

    /// A leaf that closes at the value seen ends the node in its hand.
    Close { worker: u32, entry: Record },

    /// A branch ends the node in its hand, whose children wait to be pushed, the one with value 1 first.
    Branch { worker: u32, entry: Record },
}

/// A refusal with its event.
pub(crate) fn given_back(answer: Result<(), Refused>, event: Event) -> Result<(), (Refused, Event)>
    ensures { GivesBack answer event result }
{
    match answer {
        Ok(()) => Ok(()),
        Err(cause) => Err((cause, event)),
    }
}
