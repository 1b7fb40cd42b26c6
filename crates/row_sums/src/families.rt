//! The sums of a row, by its family.
ghost use Rattle.std.specs.Prelude.{◌≡◌, ◌+◌, ◌<◌, ◌^◌, ◌==◌, cond, length, slice_index_or};
ghost use Rattle.stow_data.specs.Ship.{halves};
ghost use Rattle.stow_data.specs.Plans.{no_half};
ghost use Rattle.zero_one_rows.specs.Rows.{above, below};
ghost use Rattle.row_sums.specs.Sums.{turned_sign, one, two};

use crate::classes::ClassPair;
use crate::sums::{Part, Parts, Sign, Sum};
use stow_data::{CallNo, Half, HalfNo, KindNo, PlaceNo, Ship, StackNo};
use zero_one_rows::half_at;

/// The sign in a row of an equality: as it is, or the other one.
fn sign_of(q: u32, sign: Sign) -> Sign
    ensures { result ≡ turned_sign q sign }
{
    if q == 0 {
        return sign;
    }
    match sign {
        Sign::Plus => Sign::Minus,
        Sign::Minus => Sign::Plus,
    }
}

fn one_of(sign: Sign, sum: Sum) -> Parts
    ensures { result ≡ one sign sum }
{
    Parts {
        first: Part { sign, sum },
        second: None,
    }
}

fn two_of(sign: Sign, sum: Sum, other_sign: Sign, other: Sum) -> Parts
    ensures { result ≡ two sign sum other_sign other }
{
    let second = Part {
        sign: other_sign,
        sum: other,
    };
    Parts {
        first: Part { sign, sum },
        second: Some(second),
    }
}

/// The half-cell above in its column.
fn over(h: &Half) -> Half
    requires { h.now.tier + 1 < 2 ^ 32 }
    ensures { result ≡ above h.now }
{
    Half {
        stack: h.stack,
        tier: h.tier + 1,
        aft: h.aft,
    }
}

/// The half-cell below in its column; the lowest one's is itself.
fn under(h: &Half) -> Half
    ensures { result ≡ below h.now }
{
    let tier = if h.tier == 0 { 0 } else { h.tier - 1 };
    Half {
        stack: h.stack,
        tier,
        aft: h.aft,
    }
}

pub fn flow_parts(q: u32, call: CallNo, kind: KindNo) -> Parts
    ensures { result ≡ two (turned_sign q Sign.Plus) (Sum.Put call kind) (turned_sign q Sign.Minus) (Sum.Lifted call kind) }
{
    let put = Sum::Put { call, kind };
    let lifted = Sum::Lifted { call, kind };
    two_of(sign_of(q, Sign::Plus), put, sign_of(q, Sign::Minus), lifted)
}

pub fn start_parts(q: u32, place: PlaceNo) -> Parts
    ensures { result ≡ one (turned_sign q Sign.Plus) (Sum.Start place) }
{
    one_of(sign_of(q, Sign::Plus), Sum::Start { place })
}

pub fn cell_parts(call: CallNo, half: Half) -> Parts
    ensures { result ≡ one Sign.Minus (Sum.Occupied call half) }
{
    one_of(Sign::Minus, Sum::Occupied { call, half })
}

pub fn support_parts(call: CallNo, half: Half) -> Parts
    ensures { result ≡ two Sign.Plus (Sum.Occupied call (below half)) Sign.Minus (Sum.Occupied call half) }
{
    let below = Sum::Occupied {
        call,
        half: under(&half),
    };
    two_of(Sign::Plus, below, Sign::Minus, Sum::Occupied { call, half })
}

pub fn twenty_parts(call: CallNo, half: Half) -> Parts
    ensures { result ≡ two Sign.Plus (Sum.OccupiedByTwenty call (below half)) Sign.Minus (Sum.OccupiedByTwenty call half) }
{
    let below = Sum::OccupiedByTwenty {
        call,
        half: under(&half),
    };
    let here = Sum::OccupiedByTwenty { call, half };
    two_of(Sign::Plus, below, Sign::Minus, here)
}

fn block_parts(call: CallNo, half: Half) -> Parts
    requires { half.tier + 1 < 2 ^ 32 }
    ensures { result ≡ two Sign.Minus (Sum.LiftedFrom call half) Sign.Minus (Sum.Staying call (above half)) }
{
    let above = Sum::Staying {
        call,
        half: over(&half),
    };
    let lifted = Sum::LiftedFrom { call, half };
    two_of(Sign::Minus, lifted, Sign::Minus, above)
}

/// The sums of the block row of a half-cell.
pub fn block_at(ship: &Ship, call: CallNo, h: HalfNo) -> Parts
    requires { h < length (halves ship.now) }
    ensures { let half = slice_index_or (halves ship.now) h no_half in result ≡ two Sign.Minus (Sum.LiftedFrom call half) Sign.Minus (Sum.Staying call (above half)) }
{
    ship.obeys_rules();
    let half = half_at(ship, h);
    block_parts(call, half)
}

/// Lifted from a half-cell (`w` 0), or put into it.
fn moved(w: u32, call: CallNo, half: Half) -> Sum
    ensures { result ≡ cond (w == 0) (Sum.LiftedFrom call half) (Sum.PutInto call half) }
{
    if w == 0 {
        return Sum::LiftedFrom { call, half };
    }
    Sum::PutInto { call, half }
}

pub fn hatch_parts(w: u32, call: CallNo, half: Half, lowest: Half) -> Parts
    ensures { result ≡ two Sign.Minus (cond (w == 0) (Sum.LiftedFrom call half) (Sum.PutInto call half)) Sign.Minus (Sum.Staying call lowest) }
{
    let on_cover = Sum::Staying { call, half: lowest };
    two_of(Sign::Minus, moved(w, call, half), Sign::Minus, on_cover)
}

pub fn weight_parts(call: CallNo, stack: StackNo) -> Parts
    ensures { result ≡ one Sign.Minus (Sum.Weight call stack) }
{
    one_of(Sign::Minus, Sum::Weight { call, stack })
}

pub fn apart_parts(call: CallNo, first: PlaceNo, second: PlaceNo, classes: ClassPair) -> Parts
    ensures { result ≡ two Sign.Minus (Sum.OccupiedByClass call first classes.a) Sign.Minus (Sum.OccupiedByClass call second classes.b) }
{
    let of_a = Sum::OccupiedByClass {
        call,
        place: first,
        class: classes.a,
    };
    let of_b = Sum::OccupiedByClass {
        call,
        place: second,
        class: classes.b,
    };
    two_of(Sign::Minus, of_a, Sign::Minus, of_b)
}
