//! The right side of a crossing row.
ghost use Rattle.std.specs.Prelude.{◌≡◌, ◌≤◌, ◌^◌, length, unsigned_abs};
ghost use Rattle.zero_one_rows.specs.RightSide.{right_side};
ghost use Rattle.zero_one_rows.specs.Gains.{gain, best_gain};

// What so many columns keep out of a load, less their price; 0 where that is below 0.
fn gain_of(load: u32, columns: u32, height: u32, price: u32) -> u32
    requires columns { columns ≤ 6000 }
    requires price { price ≤ 6000 }
    requires height { height ≤ 39 }
    ensures { result ≡ gain height price load columns }
{
    load.min(height * columns).saturating_sub(price * columns)
}

fn best_gain_of(load: u32, columns: u32, height: u32, price: u32) -> u32
    requires columns { columns ≤ 6000 }
    requires price { price ≤ 6000 }
    requires height { height ≤ 39 }
    ensures value { result ≡ best_gain columns height price load }
    ensures low { result ≤ load }
{
    let mut best = 0;
    for count in 0..columns {
        best = best.max(gain_of(load, count + 1, height, price));
    }
    best
}

/// The right side of a crossing row: the loads of the pairs of its chain (containers, at most 6 loads), less what the
/// columns (at most 6,000, of at most 39 tiers) can keep from being lifted early, each at a price of at most 6,000.
pub fn chain_rhs(loads: &[u32], columns: u32, height: u32, price: u32) -> i64
    requires few { length loads.now ≤ 6 }
    requires columns { columns ≤ 6000 }
    requires price { price ≤ 6000 }
    requires height { height ≤ 39 }
    ensures value { result ≡ right_side loads.now columns height price }
    ensures size { unsigned_abs result ≤ 2 ^ 36 }
{
    let mut kept = (price * columns) as u64;
    let mut total: u64 = 0;
    for load in loads {
        total += *load as u64;
        kept += best_gain_of(*load, columns, height, price) as u64;
    }
    total as i64 - kept as i64
}
