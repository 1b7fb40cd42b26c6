//! What keys of nodes stand for.
ghost use Rattle.std.specs.Prelude.{◌≡◌, ℕ, Bool, true, false, List, [], length, Some, slice_get};
ghost use Rattle.proof_trees.specs.Trees.{Entry};
ghost use Rattle.search_core.specs.Machine.{StateOver, State, Event, Push, Pop, Steal, Load, Draw, Accepts, worker, Pushes, Pops, Steals, Loads, Draws, begin, begin_with, half_node, handled};
ghost use Rattle.search_core.specs.Refusals.{Refuses, NoSuchWorker, HandIsEmpty, Holding, RefusesPush, RefusesPop, RefusesSteal, RefusesLoad, RefusesDraw};
ghost use Rattle.search_core.specs.declared.refused.Refused.{Refused as Cause};
ghost use Rattle.search_core.specs.declared.node_keys.NodeKey.{NodeKey as Key};
ghost use Rattle.search_core.specs.declared.node_keys.NodeKey.TheVariants.{Root};
ghost use Rattle.search_core.specs.declared.records.Done.{Done as Ended};
ghost use Rattle.search_core.specs.Told.{told, node_of, ended_at, state_of, InTable, KeysStand, NameEarlier};
ghost use Rattle.search_core.specs.Rooms.{EndsHand, HalvesHand, SplitsHand};

/// The workers' start stands for the machine's, and what an event does to keys is what it does to the nodes that they stand for.
pub fn keys_stand_for_nodes<T, R>()
    ensures begins { (entry : T → Entry R) (workers start budget : ℕ) → state_of entry (begin_with Root workers start budget) ≡ begin workers start budget }
    ensures push { (entry : T → Entry R) (c d : StateOver Key (Ended T)) (i : ℕ) → Pushes c i d → Pushes (state_of entry c) i (state_of entry d) }
    ensures pop { (entry : T → Entry R) (c d : StateOver Key (Ended T)) (i : ℕ) → Pops c i d → Pops (state_of entry c) i (state_of entry d) }
    ensures steal { (entry : T → Entry R) (c d : StateOver Key (Ended T)) (i victim : ℕ) → Steals c i victim d → Steals (state_of entry c) i victim (state_of entry d) }
    ensures load { (entry : T → Entry R) (c d : StateOver Key (Ended T)) (i : ℕ) → Loads c i d → Loads (state_of entry c) i (state_of entry d) }
    ensures draw { (entry : T → Entry R) (c d : StateOver Key (Ended T)) (i : ℕ) → Draws c i d → Draws (state_of entry c) i (state_of entry d) }
{}

/// An event that is refused over keys is refused with the same cause over the nodes that they stand for.
pub fn keys_are_refused_as_nodes<T, R>()
    ensures push { (entry : T → Entry R) (c : StateOver Key (Ended T)) (i : ℕ) (cause : Cause) → RefusesPush c i cause → RefusesPush (state_of entry c) i cause }
    ensures pop { (entry : T → Entry R) (c : StateOver Key (Ended T)) (i : ℕ) (cause : Cause) → RefusesPop c i cause → RefusesPop (state_of entry c) i cause }
    ensures steal { (entry : T → Entry R) (c : StateOver Key (Ended T)) (i victim : ℕ) (cause : Cause) → RefusesSteal c i victim cause → RefusesSteal (state_of entry c) i victim cause }
    ensures load { (entry : T → Entry R) (c : StateOver Key (Ended T)) (i : ℕ) (cause : Cause) → RefusesLoad c i cause → RefusesLoad (state_of entry c) i cause }
    ensures draw { (entry : T → Entry R) (c : StateOver Key (Ended T)) (i : ℕ) (cause : Cause) → RefusesDraw c i cause → RefusesDraw (state_of entry c) i cause }
{}

/// A key that ends is told as its node with its record, and its halves' keys are the halves of that node.
pub fn ended_keys_are_ended_nodes<T, R>()
    ensures ends { (entry : T → Entry R) (c d : StateOver Key (Ended T)) (i : ℕ) (done : Ended T) → KeysStand c → EndsHand c i done.node done d
        → EndsHand (state_of entry c) i (node_of (told entry c.ended) done.node) (handled (node_of (told entry c.ended) done.node) (entry done.entry)) (state_of entry d) }
    ensures halves { (entry : T → Entry R) (c d : StateOver Key (Ended T)) (i : ℕ) (done : Ended T) → KeysStand c → HalvesHand c i done.node done d
        → SplitsHand (state_of entry c) i (node_of (told entry c.ended) done.node) (handled (node_of (told entry c.ended) done.node) (entry done.entry))
        (half_node (node_of (told entry c.ended) done.node) (entry done.entry) true) (half_node (node_of (told entry c.ended) done.node) (entry done.entry) false) (state_of entry d) }
{}

/// Each key that a worker has or that was left names a node, from the start on and after each event.
pub fn keys_name_nodes<T>()
    ensures begins { (workers start budget : ℕ) → KeysStand {D = Ended T} (begin_with Root workers start budget) }
    ensures push { (c d : StateOver Key (Ended T)) (i : ℕ) → KeysStand c → Pushes c i d → KeysStand d }
    ensures pop { (c d : StateOver Key (Ended T)) (i : ℕ) → KeysStand c → Pops c i d → KeysStand d }
    ensures steal { (c d : StateOver Key (Ended T)) (i victim : ℕ) → KeysStand c → Steals c i victim d → KeysStand d }
    ensures load { (c d : StateOver Key (Ended T)) (i : ℕ) → KeysStand c → Loads c i d → KeysStand d }
    ensures draw { (c d : StateOver Key (Ended T)) (i : ℕ) → KeysStand c → Draws c i d → KeysStand d }
    ensures ends { (c d : StateOver Key (Ended T)) (i : ℕ) (n : Key) (done : Ended T) → KeysStand c → EndsHand c i n done d → KeysStand d }
    ensures halves { (c d : StateOver Key (Ended T)) (i : ℕ) (n : Key) (done : Ended T) → KeysStand c → HalvesHand c i n done d → KeysStand d }
{}

/// Where ended keys name earlier ones, they still do so after one more node from a hand; and each ended key is told as its node with its entry.
pub fn ended_keys_are_told<T, R>()
    ensures none { NameEarlier {T = T} [] }
    ensures ends { (c d : StateOver Key (Ended T)) (i : ℕ) (done : Ended T) → KeysStand c → NameEarlier c.ended → EndsHand c i done.node done d → NameEarlier d.ended }
    ensures halves { (c d : StateOver Key (Ended T)) (i : ℕ) (done : Ended T) → KeysStand c → NameEarlier c.ended → HalvesHand c i done.node done d → NameEarlier d.ended }
    ensures earlier { (ds : List (Ended T)) (k : ℕ) (d : Ended T) → NameEarlier ds → slice_get ds k ≡ Some d → InTable k d.node }
    ensures told { (entry : T → Entry R) (ds : List (Ended T)) (k : ℕ) (d : Ended T) → NameEarlier ds → slice_get ds k ≡ Some d
        → ended_at (told entry ds) k ≡ handled (node_of (told entry ds) d.node) (entry d.entry) }
{}

/// What a worker has in its hand, by key, stands for a node in the same worker's hand, with the same ticket and value seen.
pub fn held_keys_are_held_nodes<T, R>()
    ensures none { (entry : T → Entry R) (c : StateOver Key (Ended T)) (i : ℕ) → NoSuchWorker c i → NoSuchWorker (state_of entry c) i }
    ensures free { (entry : T → Entry R) (c : StateOver Key (Ended T)) (i : ℕ) → HandIsEmpty c i → HandIsEmpty (state_of entry c) i }
    ensures held { (entry : T → Entry R) (c : StateOver Key (Ended T)) (i : ℕ) (n : Key) (ticket : Bool) → Holding c i n ticket → Holding (state_of entry c) i (node_of (told entry c.ended) n) ticket }
    ensures seen { (entry : T → Entry R) (c : StateOver Key (Ended T)) (i : ℕ) → (worker (state_of entry c) i).seen ≡ (worker c i).seen }
    ensures made { (entry : T → Entry R) (c : StateOver Key (Ended T)) (i : ℕ) → (worker c i).made ≡ [] → (worker (state_of entry c) i).made ≡ [] }
    ensures named { (c : StateOver Key (Ended T)) (i : ℕ) (n : Key) → KeysStand c → (worker c i).hand ≡ Some n → InTable (length c.ended) n }
{}
