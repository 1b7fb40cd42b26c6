//! The numbers of a certificate's head.
ghost use Rattle.std.specs.Prelude.{◌≡◌, ◌↔◌, IfSome, IsTrue, MatchOption, None, is_some};
ghost use Rattle.voyage_files.specs.Judged.{AreOther, Fits, IsNumbersNo, NumbersHold, handled, was_handled};

use certificate::{End, Head, Outcome, Tree};
use stow_report::NumbersNo;
use zero_one_model::Model;

/// Whether a record that ends so isn't left open.
fn was_handled(end: End) -> bool
    ensures { result ≡ was_handled end }
{
    match end {
        End::Leaf | End::Branch(_) => true,
        End::Left => false,
    }
}

/// The number of records that aren't left open.
fn handled(tree: &Tree) -> u64
    ensures { result ≡ handled tree.now }
{
    let mut count: u64 = 0;
    for record in tree.as_slice() {
        if was_handled(record.end) {
            count += 1;
        }
    }
    count
}

/// Whether the outcome fits the cost and the bound.
fn fits(model: &Model, head: &Head) -> bool
    ensures { IsTrue result ↔ Fits model.now head.now.outcome head.now.rehandles head.now.bound }
{
    let most = model.limit();
    match (head.outcome, head.rehandles) {
        (Outcome::Optimal, Some(cost)) => head.bound == cost,
        (Outcome::Gap, Some(cost)) => head.bound < cost,
        (Outcome::NoPlan, None) => head.bound > most && head.bound - most == 1,
        (Outcome::Undecided, None) => head.bound <= most,
        _ => false,
    }
}

/// The cost that a certificate says and the one that is found, where they differ.
fn other_cost(said: Option<u64>, found: Option<u64>) -> Option<NumbersNo>
    requires { is_some said ≡ is_some found }
    ensures same { result ≡ None → found ≡ said }
    ensures other { IfSome result (AreOther said found) }
{
    match (said, found) {
        (Some(said), Some(found)) if said != found => Some(NumbersNo::Rehandles { said, found }),
        _ => None,
    }
}

/// The first number that isn't as it is found, where the departure files have this cost.
pub fn numbers_no(model: &Model, head: &Head, tree: &Tree, found: Option<u64>) -> Option<NumbersNo>
    requires { is_some head.now.rehandles ≡ is_some found }
    ensures { MatchOption result (NumbersHold model.now head.now tree.now found) (IsNumbersNo model.now head.now tree.now found) }
{
    if let Some(no) = other_cost(head.rehandles, found) {
        return Some(no);
    }
    let nodes = handled(tree);
    if head.nodes != nodes {
        return Some(NumbersNo::Nodes {
            said: head.nodes,
            found: nodes,
        });
    }
    if !fits(model, head) {
        return Some(NumbersNo::Outcome);
    }
    None
}
