//! Rows by their numbers.
ghost use Rattle.std.specs.Prelude.{◌≡◌, ℕ, ◌+◌, ◌*◌, ◌/◌, ◌%◌, ◌<◌, ◌≤◌, length, slice_get, Some};
ghost use Rattle.zero_one_rows.specs.declared.program.Row.TheVariants.{Cross};
ghost use Rattle.zero_one_rows.specs.Counted.{IsOfTwo, per_call, flow_rows, start_rows, cell_rows, support_rows, twenty_rows, block_rows, hatch_rows, weight_rows, apart_rows, cross_rows, from_weights, from_hatches, from_blocks, from_twenties, from_supports, from_cells, from_starts, base_in, rows_in};

use crate::all_chains::Chain;
use crate::program::Row;
use crate::row_lists::RowLists;
use stow_data::{CallNo, HalfNo, PlaceNo, StackNo};

/// Of two lists of so many items, one behind the other, which one has item k, and where.
fn of_two(count: u64, k: u64) -> (u32, u64)
    requires { k < count + count }
    ensures { IsOfTwo count k result.0 result.1 }
{
    if k < count { (0, k) } else { (1, k - count) }
}

/// The call, from 1, and the place in it of item k, where each of so many calls has so many items.
fn in_call(calls: u32, width: usize, k: u64) -> (u32, usize)
    requires { k < calls * width }
    ensures call { result.0 ≡ k / width + 1 }
    ensures place { result.1 ≡ k % width }
    ensures inside { result.1 < width }
{
    let width = width as u64;
    ((k / width) as u32 + 1, (k % width) as usize)
}

impl RowLists {
    fn flow_at(&self, k: u64) -> Row
        requires inside { k < length (flow_rows self.now) }
        requires few { length (flow_rows self.now) ≤ 2000000 }
        ensures { slice_get (flow_rows self.now) k ≡ Some result }
    {
        let (q, index) = of_two(self.pairs.len() as u64, k);
        let pair = *self.pairs.at(index as usize);
        Row::Flow {
            q,
            call: pair.call,
            kind: pair.kind,
        }
    }

    fn start_at(&self, k: u64) -> Row
        requires inside { k < length (start_rows self.now) }
        requires few { length (start_rows self.now) ≤ 2000000 }
        ensures { slice_get (start_rows self.now) k ≡ Some result }
    {
        let (q, index) = of_two(self.filled.len() as u64, k);
        Row::Start {
            q,
            place: PlaceNo(*self.filled.at(index as usize)),
        }
    }

    fn cell_at(&self, k: u64) -> Row
        requires { k < self.now.calls * self.now.halves }
        ensures { slice_get (cell_rows self.now) k ≡ Some result }
    {
        let (call, half) = in_call(self.calls, self.halves as usize, k);
        Row::Cell {
            call: CallNo(call),
            half: HalfNo(half as u32),
        }
    }

    fn support_at(&self, k: u64) -> Row
        requires { k < self.now.calls * length self.now.uppers }
        ensures { slice_get (support_rows self.now) k ≡ Some result }
    {
        let (call, index) = in_call(self.calls, self.uppers.len(), k);
        Row::Support {
            call: CallNo(call),
            half: HalfNo(*self.uppers.at(index)),
        }
    }

    fn twenty_at(&self, k: u64) -> Row
        requires { k < self.now.calls * length self.now.uppers }
        ensures { slice_get (twenty_rows self.now) k ≡ Some result }
    {
        let (call, index) = in_call(self.calls, self.uppers.len(), k);
        Row::Twenty {
            call: CallNo(call),
            half: HalfNo(*self.uppers.at(index)),
        }
    }

    fn block_at(&self, k: u64) -> Row
        requires { k < self.now.calls * length self.now.lowers }
        ensures { slice_get (block_rows self.now) k ≡ Some result }
    {
        let (call, index) = in_call(self.calls, self.lowers.len(), k);
        Row::Block {
            call: CallNo(call),
            half: HalfNo(*self.lowers.at(index)),
        }
    }

    fn hatch_at(&self, k: u64) -> Row
        requires inside { k < length (hatch_rows self.now) }
        requires few { length (hatch_rows self.now) ≤ 2000000 }
        ensures { slice_get (hatch_rows self.now) k ≡ Some result }
    {
        let count = self.calls as u64 * self.hatches.len() as u64;
        let (w, rest) = of_two(count, k);
        let (call, index) = in_call(self.calls, self.hatches.len(), rest);
        let pair = *self.hatches.at(index);
        Row::Hatch {
            w,
            call: CallNo(call),
            half: pair.half,
            lowest: pair.lowest,
        }
    }

    fn weight_at(&self, k: u64) -> Row
        requires { k < self.now.calls * self.now.stacks }
        ensures { slice_get (weight_rows self.now) k ≡ Some result }
    {
        let (call, stack) = in_call(self.calls, self.stacks as usize, k);
        Row::Weight {
            call: CallNo(call),
            stack: StackNo(stack as u32),
        }
    }

    fn apart_at(&self, k: u64) -> Row
        requires { k < self.now.calls * length self.now.near }
        ensures { slice_get (apart_rows self.now) k ≡ Some result }
    {
        let (call, index) = in_call(self.calls, self.near.len(), k);
        let pair = *self.near.at(index);
        Row::Apart {
            call: CallNo(call),
            index: pair.index,
            first: pair.first,
            second: pair.second,
        }
    }

    /// A crossing row of a length, where the tallest column has so many tiers.
    fn chain_row_at(&self, foot: u32, tiers: u32, k: u64) -> Row
        requires { k < tiers * length self.now.chains }
        ensures { slice_get (per_call (λ p c. Cross foot p c) tiers self.now.chains) k ≡ Some result }
    {
        let (price, index) = in_call(tiers, self.chains.len(), k);
        Row::Cross {
            length: foot,
            price,
            chain: Chain::of(self.chains.at(index).items()),
        }
    }

    fn cross_at(&self, k: u64) -> Row
        requires inside { k < length (cross_rows self.now) }
        requires few { length (cross_rows self.now) ≤ 2000000 }
        ensures { slice_get (cross_rows self.now) k ≡ Some result }
    {
        let short = self.short_tiers as u64 * self.chains.len() as u64;
        if k < short {
            return self.chain_row_at(20, self.short_tiers, k);
        }
        self.chain_row_at(40, self.long_tiers, k - short)
    }

    /// A weight or an apart row.
    fn from_weights_at(&self, k: u64) -> Row
        requires inside { k < length (from_weights self.now) }
        requires few { length (from_weights self.now) ≤ 2000000 }
        ensures { slice_get (from_weights self.now) k ≡ Some result }
    {
        let weights = self.calls as u64 * self.stacks as u64;
        if k < weights {
            return self.weight_at(k);
        }
        self.apart_at(k - weights)
    }

    /// A hatch, weight or apart row.
    fn from_hatches_at(&self, k: u64) -> Row
        requires inside { k < length (from_hatches self.now) }
        requires few { length (from_hatches self.now) ≤ 2000000 }
        ensures { slice_get (from_hatches self.now) k ≡ Some result }
    {
        let hatches = 2 * (self.calls as u64 * self.hatches.len() as u64);
        if k < hatches {
            return self.hatch_at(k);
        }
        self.from_weights_at(k - hatches)
    }

    /// A block row, or one of a later family.
    fn from_blocks_at(&self, k: u64) -> Row
        requires inside { k < length (from_blocks self.now) }
        requires few { length (from_blocks self.now) ≤ 2000000 }
        ensures { slice_get (from_blocks self.now) k ≡ Some result }
    {
        let blocks = self.calls as u64 * self.lowers.len() as u64;
        if k < blocks {
            return self.block_at(k);
        }
        self.from_hatches_at(k - blocks)
    }

    /// A twenty row, or one of a later family.
    fn from_twenties_at(&self, k: u64) -> Row
        requires inside { k < length (from_twenties self.now) }
        requires few { length (from_twenties self.now) ≤ 2000000 }
        ensures { slice_get (from_twenties self.now) k ≡ Some result }
    {
        let twenties = self.calls as u64 * self.uppers.len() as u64;
        if k < twenties {
            return self.twenty_at(k);
        }
        self.from_blocks_at(k - twenties)
    }

    /// A support row, or one of a later family.
    fn from_supports_at(&self, k: u64) -> Row
        requires inside { k < length (from_supports self.now) }
        requires few { length (from_supports self.now) ≤ 2000000 }
        ensures { slice_get (from_supports self.now) k ≡ Some result }
    {
        let supports = self.calls as u64 * self.uppers.len() as u64;
        if k < supports {
            return self.support_at(k);
        }
        self.from_twenties_at(k - supports)
    }

    /// A cell row, or one of a later family.
    fn from_cells_at(&self, k: u64) -> Row
        requires inside { k < length (from_cells self.now) }
        requires few { length (from_cells self.now) ≤ 2000000 }
        ensures { slice_get (from_cells self.now) k ≡ Some result }
    {
        let cells = self.calls as u64 * self.halves as u64;
        if k < cells {
            return self.cell_at(k);
        }
        self.from_supports_at(k - cells)
    }

    /// A start row, or one of a later family.
    fn from_starts_at(&self, k: u64) -> Row
        requires inside { k < length (from_starts self.now) }
        requires few { length (from_starts self.now) ≤ 2000000 }
        ensures { slice_get (from_starts self.now) k ≡ Some result }
    {
        let starts = 2 * self.filled.len() as u64;
        if k < starts {
            return self.start_at(k);
        }
        self.from_cells_at(k - starts)
    }

    /// A base row.
    fn base_at(&self, k: u64) -> Row
        requires inside { k < length (base_in self.now) }
        requires few { length (base_in self.now) ≤ 2000000 }
        ensures { slice_get (base_in self.now) k ≡ Some result }
    {
        let flows = 2 * self.pairs.len() as u64;
        if k < flows {
            return self.flow_at(k);
        }
        self.from_starts_at(k - flows)
    }

    /// The row with k rows before it, of which so many are base rows.
    pub fn at(&self, base: u64, k: u64) -> Row
        requires inside { k < length (rows_in self.now) }
        requires few { length (rows_in self.now) ≤ 2000000 }
        requires base { base ≡ length (base_in self.now) }
        ensures { slice_get (rows_in self.now) k ≡ Some result }
    {
        if k < base {
            return self.base_at(k);
        }
        self.cross_at(k - base)
    }
}
