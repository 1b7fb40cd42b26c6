//! The laws, called on runs over small programs.
ghost use Rattle.std.specs.Prelude.{◌≡◌, ℕ, Bool, [], ◌∷◌, pos, ◌≤ℤ◌};
ghost use Rattle.proof_trees.specs.Program.{Solution, cost_of};
ghost use Rattle.proof_trees.specs.OneVariable.{one_variable};
ghost use Rattle.search_core.specs.Machine.{State, Pop, Close, begin, Accepts};
ghost use Rattle.search_core.specs.Refusals.{Refuses};
ghost use Rattle.search_core.specs.declared.refused.Refused.TheVariants.{HandEmpty, DequeEmpty};
ghost use Rattle.search_core.specs.Replays.{ordered, replay, Replays};
ghost use Rattle.search_core.specs.Samples.{same_number, closing, closed, closing_journal, no_variables, five_nodes, five_turns};

use search_core::{each_event_has_one_verdict, events_keep_the_rule, journals_replay};

/// One worker pops the root, draws, loads and closes it. Then nothing is open, so each solution costs at least 1.
fn closed_root_bounds_the_cost()
    ensures { (x : ℕ → Bool) → Solution one_variable x → pos 1 ≤ℤ cost_of one_variable x }
{
    events_keep_the_rule::<u32>();
}

/// A close is refused before the pop, and isn't accepted; a pop is refused after the close.
fn empty_hand_and_deque_are_refused()
    ensures close { Refuses same_number one_variable (0 ∷ []) (begin 1 1 1) (Close 0 closing) HandEmpty }
    ensures not_both { (next : State ℕ) → Accepts same_number one_variable (0 ∷ []) (begin 1 1 1) (Close 0 closing) next → ⊥ }
    ensures pop { Refuses same_number one_variable (0 ∷ []) closed (Pop 0) DequeEmpty }
{
    each_event_has_one_verdict::<u32>();
}

/// The journal of the closed root is the outcome of a replay.
fn closed_root_replays()
    ensures { Replays same_number one_variable (0 ∷ []) closing_journal [] 1 1 1 }
{
    journals_replay::<u32>();
}

/// The replay of a tree with two branches, two leaves and a node that was left, event by event.
fn five_nodes_replay()
    ensures { replay same_number no_variables [] (ordered five_nodes) ≡ five_turns }
{}

#[test]
fn laws_hold_of_small_programs(rt: HostRuntime) {
    closed_root_bounds_the_cost();
    empty_hand_and_deque_are_refused();
    closed_root_replays();
    five_nodes_replay();
}
