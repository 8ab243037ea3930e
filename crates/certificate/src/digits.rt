ghost use Rattle.std.specs.Prelude.{◌≡◌, ◌+◌, ◌-◌, ◌*◌, ◌^◌, ◌<◌, ◌≤◌, nat_lt, ℕ};

/// An unsigned integer that is read digit by digit.
pub(crate) trait Digits: Copy {
    ghost value: { Self → ℕ };

    ghost places: { ℕ };

    /// The number 0.
    fn zero() -> Self
        ensures { value result ≡ 0 };

    /// The number with one more digit at its end.
    fn push(self, digit: u8) -> Self
        requires digit { digit ≤ 9 }
        requires fits { value self < 10 ^ (places - 1) }
        ensures { value result ≡ value self * 10 + digit };

    /// Whether the number is above another one.
    fn is_above(self, most: Self) -> bool
        ensures { result ≡ nat_lt (value most) (value self) };
}

impl Digits for u64 {
    ghost value = { λ n. n };

    ghost places = { 19 };

    fn zero() -> u64 {
        0
    }

    fn push(self, digit: u8) -> u64 {
        self * 10 + u64::from(digit)
    }

    fn is_above(self, most: u64) -> bool {
        self > most
    }
}

impl Digits for u128 {
    ghost value = { λ n. n };

    ghost places = { 24 };

    fn zero() -> u128 {
        0
    }

    fn push(self, digit: u8) -> u128 {
        self * 10 + u128::from(digit)
    }

    fn is_above(self, most: u128) -> bool {
        self > most
    }
}
