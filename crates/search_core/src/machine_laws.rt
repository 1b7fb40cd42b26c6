//! Laws of the search machine, of journals and of their replay.
ghost use Rattle.std.specs.Prelude.{◌≡◌, ℕ, ◌<◌, ◌≤◌, ◌⊎◌, Bool, true, false, cond, List, [], ◌∷◌, ◌++◌, length, map};
ghost use Rattle.proof_trees.specs.Program.{Program};
ghost use Rattle.proof_trees.specs.Trees.{Leaf, Entry, Pending, Proves};
ghost use Rattle.search_core.specs.Bags.{weigh, Every};
ghost use Rattle.search_core.specs.Journals.{Path, Placed, branches, is_left, box_after, all_nodes, Whole, Tree, preorder, located, trail, Gathers, Settled, Anything, Allowed, EachAllowed};
ghost use Rattle.search_core.specs.Machine.{Node, Handled, handled, root_node, half_node, begins, price, is_full, at_its_path, State, Event, begin, BaseSolves, NoneNegative, Accepts, Runs, ObeysRule};
ghost use Rattle.search_core.specs.Outcomes.{path_of, WholeNodes, nodes_of, Tells, EachHandled, HoldsNothing, Traces, Searched, Founded};
ghost use Rattle.search_core.specs.Searching.{Searching};
ghost use Rattle.search_core.specs.Along.{HoldsAlong, IsOfNode};
ghost use Rattle.search_core.specs.Refusals.{Refuses};
ghost use Rattle.search_core.specs.declared.refused.Refused.{Refused};
ghost use Rattle.search_core.specs.Replays.{IsOffer, Replays};

/// The first state obeys the rule of the machine, and each accepted event keeps it.
///
/// So after every list of events, with any number of workers, each solution cheaper than the word lies in the box of an open node. It is asked that what meets the base rows meets every row, and that no cost is negative.
pub fn events_keep_the_rule<R>()
    ensures begins { (same : R → R → Bool) (p : Program R) (workers start budget : ℕ) → 0 < workers → ObeysRule same p (begin workers start budget) }
    ensures step { (same : R → R → Bool) (p : Program R) (base : List R) → BaseSolves p base → NoneNegative p
        → (before after : State R) (event : Event R) → ObeysRule same p before → Accepts same p base before event after → ObeysRule same p after }
    ensures run { (same : R → R → Bool) (p : Program R) (base : List R) → BaseSolves p base → NoneNegative p
        → (workers start budget : ℕ) (events : List (Event R)) (last : State R) → 0 < workers → Runs same p base (begin workers start budget) events last → ObeysRule same p last }
{}

/// Each event has one verdict: it is accepted or refused, and never both; one state comes after it, or one cause is told.
pub fn each_event_has_one_verdict<R>()
    ensures some { (same : R → R → Bool) (p : Program R) (base : List R) (state : State R) (event : Event R)
        → ((next : State R) × Accepts same p base state event next) ⊎ ((cause : Refused) × Refuses same p base state event cause) }
    ensures not_both { (same : R → R → Bool) (p : Program R) (base : List R) (state next : State R) (event : Event R) (cause : Refused)
        → Accepts same p base state event next → Refuses same p base state event cause → ⊥ }
    ensures one_state { (same : R → R → Bool) (p : Program R) (base : List R) (state next other : State R) (event : Event R)
        → Accepts same p base state event next → Accepts same p base state event other → next ≡ other }
    ensures one_cause { (same : R → R → Bool) (p : Program R) (base : List R) (state : State R) (event : Event R) (cause other : Refused)
        → Refuses same p base state event cause → Refuses same p base state event other → cause ≡ other }
{}

/// What the machine ended, with what is open, is one tree whose records are allowed at the word.
///
/// Where no worker has a node, the ended records and the left nodes are whole. A record that is allowed at a value is allowed at every lesser one.
pub fn events_leave_a_tree<R>()
    ensures run { (same : R → R → Bool) (p : Program R) (base : List R) → BaseSolves p base → NoneNegative p
        → (workers start budget : ℕ) (events : List (Event R)) (last : State R) → 0 < workers → Runs same p base (begin workers start budget) events last → Traces same p last }
    ensures outcome { (same : R → R → Bool) (p : Program R) (state : State R) → Every HoldsNothing state.workers → Traces same p state → WholeNodes state.ended state.left }
    ensures lesser { (same : R → R → Bool) (p : Program R) (less bound : ℕ) → less ≤ bound → (q : Pending R) (e : Entry R) → Allowed same p Anything bound q e → Allowed same p Anything less q e }
{}

/// Whole journals are one tree, with each record at its path, of which as many aren't left open as there are entries; and what is proved of each record proves the tree, or settles it where nodes were left.
pub fn journals_are_a_tree<R>()
    ensures tree { (entries : List (Placed R)) (left : List Path) → Whole entries left → (t : Tree R) × Gathers (all_nodes entries left) t }
    ensures one { (nodes : List (Placed R)) (t s : Tree R) → Gathers nodes t → Gathers nodes s → t ≡ s }
    ensures records { (entries : List (Placed R)) (left : List Path) (t : Tree R) → Gathers (all_nodes entries left) t
        → (h : Placed R → ℕ) → weigh h (located t) ≡ weigh h (all_nodes entries left) }
    ensures handled { (entries : List (Placed R)) (left : List Path) (t : Tree R) → Whole entries left → Gathers (all_nodes entries left) t
        → weigh (λ e. cond (is_left e.end) 0 1) (preorder t) ≡ length entries }
    ensures settled { (same : R → R → Bool) (p : Program R) (bound : ℕ) (entries : List (Placed R)) (left : List Path) (t : Tree R)
        → Gathers (all_nodes entries left) t → EachAllowed same p bound (all_nodes entries left) entries → Settled same p (preorder t) bound }
    ensures proved { (same : R → R → Bool) (p : Program R) (bound : ℕ) (entries : List (Placed R)) (t : Tree R)
        → Whole entries [] → Gathers (all_nodes entries []) t → EachAllowed same p bound (all_nodes entries []) entries → Proves same p (preorder t) bound }
{}

/// Where nodes are handed on with the records above them, the journals are whole, and the records above a node are its ancestors' records in the journals.
///
/// So what is proved of a record below the records of the node in hand is proved of it in the tree.
pub fn handed_nodes_are_whole<R>()
    ensures whole { (entries : List (Handled R)) (left : List (Node R)) → WholeNodes entries left → Whole (map at_its_path entries) (map path_of left) }
    ensures trails { (same : R → R → Bool) → Tells same → (entries : List (Handled R)) (left : List (Node R)) → WholeNodes entries left
        → Every (λ e. e.node.trail ≡ trail (nodes_of entries left) e.node.path) entries × Every (λ n. n.trail ≡ trail (nodes_of entries left) n.path) left }
    ensures allowed { (same : R → R → Bool) → Tells same → (p : Program R) (bound : ℕ) (entries : List (Handled R)) (left : List (Node R))
        → WholeNodes entries left → EachHandled same p bound entries → EachAllowed same p bound (nodes_of entries left) (map at_its_path entries) }
{}

/// Each record of the gathered tree is that of a handled node, or the empty one of a node that was left, and begins with what its node begins with.
///
/// So what holds of each handled record at its node, and of the empty record, holds of each record along the tree.
pub fn records_are_of_nodes<R>()
    ensures { (same : R → R → Bool) → Tells same → (p : Program R) (entries : List (Handled R)) (left : List (Node R)) (t : Tree R)
        → WholeNodes entries left → Gathers (nodes_of entries left) t → HoldsAlong same p (IsOfNode same p entries left) (preorder t) }
{}

/// Whole journals are the outcome of a replay, if the tree is settled at a value that is the start or the price of a full leaf, the records are within the budget, and fill it where a node was left.
///
/// The machine has one worker for each node. It accepts the replay whole, and ends with that value as its word, the records ended and the left nodes in its left list.
pub fn journals_replay<R>()
    ensures { (same : R → R → Bool) (p : Program R) (base : List R) → BaseSolves p base → NoneNegative p
        → (word start budget : ℕ) (entries : List (Placed R)) (left : List Path) (t : Tree R)
        → Whole entries left → Gathers (all_nodes entries left) t → Settled same p (preorder t) word → IsOffer same p base (all_nodes entries left) entries start word
        → length entries ≤ budget → (0 < length left → length entries ≡ budget) → Replays same p base entries left start budget word }
{}

/// What workers know together: whole nodes, records allowed at values that are at least the best, a best value that was the start or a full leaf's price, and a budget that was kept.
///
/// It makes the journals one tree that is settled at the best value, and proves it where no node is left, and the outcome of a replay.
pub fn searched_is_founded<R>()
    ensures { (same : R → R → Bool) (p : Program R) (base : List R) → BaseSolves p base → NoneNegative p → Tells same
        → (entries : List (Handled R)) (left : List (Node R)) (start budget best : ℕ) → Searched same p base entries left start budget best → Founded same p base entries left start budget best }
{}

/// A search by one worker goes on as each node that waits is taken and ended: by a leaf, by a full leaf that is cheaper than the best, or by a branch whose halves then wait.
///
/// At the end, what waits was left.
pub fn searching_goes_on<R>()
    ensures begins { (same : R → R → Bool) (p : Program R) (base : List R) (start : ℕ) → Searching same p base [] (root_node ∷ []) start start }
    ensures closes { (same : R → R → Bool) (p : Program R) (base : List R) (entries : List (Handled R)) (waiting : List (Node R)) (n : Node R) (e : Entry R) (start best value : ℕ)
        → Searching same p base entries (waiting ++ n ∷ []) start best → best ≤ value → Allowed same p Anything value (begins same p n) e → e.end ≡ Leaf
        → Searching same p base (entries ++ handled n e ∷ []) waiting start best }
    ensures offers { (same : R → R → Bool) (p : Program R) (base : List R) (entries : List (Handled R)) (waiting : List (Node R)) (n : Node R) (e : Entry R) (start best cost : ℕ)
        → Searching same p base entries (waiting ++ n ∷ []) start best → cost ≤ best → Allowed same p Anything cost (begins same p n) e → e.end ≡ Leaf
        → is_full p base (box_after same p (begins same p n) e) ≡ true → price p (box_after same p (begins same p n) e) ≡ cost
        → Searching same p base (entries ++ handled n e ∷ []) waiting start cost }
    ensures divides { (same : R → R → Bool) (p : Program R) (base : List R) (entries : List (Handled R)) (waiting : List (Node R)) (n : Node R) (e : Entry R) (start best value : ℕ)
        → Searching same p base entries (waiting ++ n ∷ []) start best → best ≤ value → Allowed same p Anything value (begins same p n) e → branches e.end ≡ true
        → Searching same p base (entries ++ handled n e ∷ []) (waiting ++ half_node n e false ∷ half_node n e true ∷ []) start best }
    ensures ends { (same : R → R → Bool) (p : Program R) (base : List R) (entries : List (Handled R)) (waiting : List (Node R)) (start budget best : ℕ)
        → Searching same p base entries waiting start best → length entries ≤ budget → (0 < length waiting → length entries ≡ budget) → Searched same p base entries waiting start budget best }
{}
