//! Runs: rows that differ in their call alone, or, of crossing rows, in their price.
ghost use Rattle.std.specs.Prelude.{◌≡◌};
ghost use Rattle.zero_one_model.specs.Runs.{at_call as row_at_call};

use stow_data::CallNo;
use zero_one_rows::{Chain, Row};

/// A row at another call, or price. An arrival row has neither, and stays.
pub fn at_call(row: &Row, n: u32) -> Row
    ensures { result ≡ row_at_call row.now n }
{
    let call = CallNo(n);
    match *row {
        Row::Flow { q, kind, .. } => Row::Flow { q, call, kind },
        Row::Start { q, place } => Row::Start { q, place },
        Row::Cell { half, .. } => Row::Cell { call, half },
        Row::Support { half, .. } => Row::Support { call, half },
        Row::Twenty { half, .. } => Row::Twenty { call, half },
        Row::Block { half, .. } => Row::Block { call, half },
        Row::Hatch {
            w,
            half,
            lowest,
            ..
        } => Row::Hatch {
            w,
            call,
            half,
            lowest,
        },
        Row::Weight { stack, .. } => Row::Weight { call, stack },
        Row::Apart {
            index,
            first,
            second,
            ..
        } => Row::Apart {
            call,
            index,
            first,
            second,
        },
        Row::Cross {
            length,
            ref chain,
            ..
        } => Row::Cross {
            length,
            price: n,
            chain: Chain::of(chain.items()),
        },
    }
}
