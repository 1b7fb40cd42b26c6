//! The prices of rehandles at the calls, and how they compare.
use stow_data::{CallNo, Cargo};

/// For how many calls there are prices: the arrival and at most 12.
const CALLS: usize = 13;

/// The price of a rehandle at each call.
#[derive(Clone, Copy)]
pub struct Prices {
    each: [u32; 13],
    /// The usual price: the least that at least half of the prices don't exceed.
    usual: u32,
    /// Whether all calls have one price.
    is_flat: bool,
}

/// The price at each call; nothing at the arrival and behind the last but one.
fn each_price(cargo: &Cargo) -> [u32; 13] {
    let mut each = [0; CALLS];
    for call in 0..CALLS {
        each[call] = cargo.tariff(CallNo(call as u32));
    }
    each
}

/// The lesser of a price and another one, if there is one.
fn lesser(price: u32, other: Option<u32>) -> u32 {
    match other {
        None => price,
        Some(other) => price.min(other),
    }
}

/// How many of these prices are at most this one.
fn up_to(prices: &[u32], price: u32) -> usize {
    let mut count: usize = 0;
    for other in prices {
        if *other <= price {
            count = count.saturating_add(1);
        }
    }
    count
}

/// The least of these prices that at least half of them don't exceed; nothing where there is none.
fn usual_of(prices: &[u32]) -> u32 {
    let mut usual = None;
    for price in prices {
        if up_to(prices, *price).saturating_mul(2) >= prices.len() {
            usual = Some(lesser(*price, usual));
        }
    }
    usual.unwrap_or(0)
}

/// Those of the calls from 1 to the last but one.
fn before_last(each: &[u32], calls: u32) -> &[u32] {
    each.get(1..calls as usize).unwrap_or(&[])
}

impl Prices {
    /// No prices.
    pub fn none() -> Prices {
        Prices {
            each: [0; CALLS],
            usual: 0,
            is_flat: true,
        }
    }

    /// Those of a cargo.
    pub fn of(cargo: &Cargo) -> Prices {
        let each = each_price(cargo);
        let prices = before_last(&each, cargo.calls());
        let usual = usual_of(prices);
        let is_flat = prices.iter().all(|price| *price == usual);
        Prices {
            each,
            usual,
            is_flat,
        }
    }

    /// The price at a call; nothing at the arrival and at the last one.
    pub fn at(&self, call: u32) -> u32 {
        let each: &[u32] = &self.each;
        each.get(call as usize).copied().unwrap_or(0)
    }

    /// Whether all calls have one price.
    pub fn is_flat(&self) -> bool {
        self.is_flat
    }

    /// The least price of those calls of a set of bits that are past one call and at another at the latest; nothing where there is none.
    pub fn least(&self, calls: u32, past: u32, latest: u32) -> u32 {
        let mut least = None;
        for call in past.saturating_add(1)..latest.saturating_add(1).min(CALLS as u32) {
            if calls.wrapping_shr(call) & 1 == 1 {
                least = Some(lesser(self.at(call), least));
            }
        }
        least.unwrap_or(0)
    }

    /// How much a rehandle at a call weighs beside one at the usual price, which weighs 100: nothing where it is free, and at most 200
    /// however dear it is.
    pub fn burden(&self, call: u32) -> u32 {
        let price = self.at(call);
        let both = price.saturating_add(self.usual).max(1);
        price.saturating_mul(200) / both
    }

    /// How many times in 65,536 what is done so often at a usual price is done at the price of a call: twice as often where lifting is
    /// free, and the less the dearer it is.
    pub fn odds(&self, call: u32, times: u32) -> u32 {
        let ease = 200_u32.saturating_sub(self.burden(call));
        times.saturating_mul(ease) / 100
    }
}
