//! Which lists of numbers are chains, and which pairs of calls a chain has.
ghost use Rattle.std.specs.Prelude.{◌≡◌, ◌/◌, ◌<◌, ◌≤◌, length, slice_get, Some};
ghost use Rattle.zero_one_rows.specs.Chains.{rises, is_chain, is_pair, pairs_of};

use crate::all_chains::Chain;

// Whether each number is below the end and above the one before it.
fn is_rising(numbers: &[u32], end: u32) -> bool
    ensures { result ≡ rises 0 end numbers.now }
{
    let mut low = 0;
    for number in numbers {
        if *number < low || *number >= end {
            return false;
        }
        low = *number + 1;
    }
    true
}

/// Whether a list of numbers is a chain of the calls 0 to `calls`: rising, and of an even number of at least 4.
pub fn is_chain_of(chain: &Chain, calls: u32) -> bool
    requires { calls ≤ 12 }
    ensures { result ≡ is_chain calls chain.now }
{
    let numbers = chain.items();
    let is_long = numbers.len() % 2 == 0 && numbers.len() >= 4;
    is_rising(numbers, calls + 1) && is_long
}

/// Whether a chain has this pair of a call and a later one: at one place of its first half and of its second half.
pub fn has_pair(chain: &Chain, load: u32, dest: u32) -> bool
    ensures { result ≡ is_pair chain.now load dest }
{
    let numbers = chain.items();
    let (loads, dests) = numbers.split_at(numbers.len() / 2);
    loads
        .iter()
        .zip(dests)
        .any(|(i, d)| *i == load && *d == dest)
}

/// How many pairs a chain has.
pub fn pair_count(chain: &Chain) -> usize
    ensures number { result ≡ length (pairs_of chain.now) }
    ensures half { result ≡ length chain.now / 2 }
    ensures few { result ≤ 6 }
{
    chain.items().len() / 2
}

/// A pair of a chain: a call of its first half and the call at the same place of its second half.
pub fn pair_at(chain: &Chain, k: usize) -> (u32, u32)
    requires { k < length (pairs_of chain.now) }
    ensures { slice_get (pairs_of chain.now) k ≡ Some result }
{
    let half = pair_count(chain);
    prove!(k < half);
    let numbers = chain.items();
    (numbers[k], numbers[half + k])
}
