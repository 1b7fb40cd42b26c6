//! Sums of whole numbers within their ranges.
ghost use Rattle.std.specs.Prelude.{◌≡◌, ℕ, ◌+◌, ◌*◌, ◌≤◌, ◌^◌, pos, ◌+ℤ◌, ◌-ℤ◌, ◌*ℤ◌, unsigned_abs};
ghost use Rattle.proof_trees.specs.Multipliers.{least};

/// The least over the values that are allowed of a variable with this reduced cost.
pub fn least_of(allowed: Option<bool>, reduced: i128) -> i128
    ensures value { result ≡ least allowed reduced }
    ensures size { unsigned_abs result ≤ unsigned_abs reduced }
{
    match allowed {
        None => { if reduced < 0 { reduced } else { 0 } }
        Some(true) => reduced,
        Some(false) => 0,
    }
}

/// A number less another.
pub fn difference(left: i128, right: i128) -> i128
    requires left { unsigned_abs left ≤ 2 ^ 123 }
    requires right { unsigned_abs right ≤ 2 ^ 123 }
    ensures value { result ≡ left -ℤ right }
    ensures size { unsigned_abs result ≤ unsigned_abs left + unsigned_abs right }
{
    left - right
}

/// The sum of two numbers.
pub fn sum_of(left: i128, right: i128) -> i128
    requires left { unsigned_abs left ≤ 2 ^ 123 }
    requires right { unsigned_abs right ≤ 2 ^ 123 }
    ensures value { result ≡ left +ℤ right }
    ensures size { unsigned_abs result ≤ unsigned_abs left + unsigned_abs right }
{
    left + right
}

/// So many times a number.
pub fn product(by: i64, each: i64) -> i128
    requires by { unsigned_abs by ≤ 2 ^ 40 }
    requires each { unsigned_abs each ≤ 2 ^ 37 }
    ensures value { result ≡ by *ℤ each }
    ensures size { (x y : ℕ) → unsigned_abs by ≤ x → unsigned_abs each ≤ y → unsigned_abs result ≤ x * y }
{
    by as i128 * each as i128
}

/// A value in which one part is put in place of another.
pub fn swapped(value: i128, old: i128, new: i128) -> i128
    requires value { unsigned_abs value ≤ 2 ^ 123 }
    requires old { unsigned_abs old ≤ 2 ^ 80 }
    requires new { unsigned_abs new ≤ 2 ^ 80 }
    ensures value { result ≡ value +ℤ (new -ℤ old) }
    ensures size { unsigned_abs result ≤ unsigned_abs value + 2 ^ 81 }
{
    value + (new - old)
}

/// A reduced cost less so many times a coefficient.
pub fn moved(reduced: i128, by: i64, coef: i64) -> i128
    requires reduced { unsigned_abs reduced ≤ 2 ^ 100 }
    requires by { unsigned_abs by ≤ 2 ^ 40 }
    requires coef { unsigned_abs coef ≤ 2 ^ 17 }
    ensures value { result ≡ reduced -ℤ by *ℤ coef }
    ensures size { unsigned_abs result ≤ unsigned_abs reduced + 2 ^ 57 }
{
    difference(reduced, product(by, coef))
}

/// A total with so many times a number more.
pub fn grown(total: i128, by: i64, each: i64) -> i128
    requires total { unsigned_abs total ≤ 2 ^ 123 }
    requires by { unsigned_abs by ≤ 2 ^ 40 }
    requires each { unsigned_abs each ≤ 2 ^ 37 }
    ensures value { result ≡ total +ℤ by *ℤ each }
    ensures size { unsigned_abs result ≤ unsigned_abs total + 2 ^ 77 }
{
    sum_of(total, product(by, each))
}

/// 16 times a variable's cost.
pub fn first_cost(cost: u32) -> i128
    requires { cost ≤ 1000 }
    ensures value { result ≡ pos 16 *ℤ pos cost }
    ensures size { unsigned_abs result ≤ 16000 }
{
    16 * cost as i128
}

/// A multiplier as a number with sign.
pub fn signed(amount: u64) -> i64
    requires { amount ≤ 2 ^ 40 }
    ensures value { result ≡ pos amount }
    ensures size { unsigned_abs result ≤ 2 ^ 40 }
{
    amount as i64
}
