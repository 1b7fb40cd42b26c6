//! Rows worked out by hand.
use zero_one_rows::{Chain, Chains, chain_rhs};

// Of the numbers 0 to 4 there are five rising rows of four.
#[test]
fn first_chains_over_four_calls(rt: HostRuntime) {
    let mut chains = Chains::over(4);
    assert!(rt; chains.next() == Some(Chain::of(&[0, 1, 2, 3])));
    assert!(rt; chains.next() == Some(Chain::of(&[0, 1, 2, 4])));
    assert!(rt; chains.next() == Some(Chain::of(&[0, 1, 3, 4])));
}

#[test]
fn last_chains_over_four_calls(rt: HostRuntime) {
    let mut chains = Chains::over(4);
    let _ = chains.next();
    let _ = chains.next();
    let _ = chains.next();
    assert!(rt; chains.next() == Some(Chain::of(&[0, 2, 3, 4])));
    assert!(rt; chains.next() == Some(Chain::of(&[1, 2, 3, 4])));
    assert!(rt; chains.next().is_none());
}

// Three numbers are too few.
#[test]
fn no_chain_over_two_calls(rt: HostRuntime) {
    assert!(rt; Chains::over(2).next().is_none());
}

// Two loads of 2 that cross in one column of 4 tiers: at price 1, 4 - 1 - 2 * (2 - 1); at price 2, 4 - 2 - 0.
#[test]
fn two_loads_in_one_column(rt: HostRuntime) {
    assert_eq!(rt; chain_rhs(&[2, 2], 1, 4, 1), 1);
    assert_eq!(rt; chain_rhs(&[2, 2], 1, 4, 2), 2);
}

// Columns that nothing needs cost their price.
#[test]
fn no_loads(rt: HostRuntime) {
    assert_eq!(rt; chain_rhs(&[0, 0], 3, 4, 1), -3);
}
