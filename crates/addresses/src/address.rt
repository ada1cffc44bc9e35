//! Addresses and masks of either family, as numbers.

ghost use Rattle.std.specs.Prelude.{◌≡◌, ℕ, ◌≤◌, ◌<◌, ◌-◌, ◌^◌};
ghost use Rattle.std.specs.Int.Count.{count_leading_zeros};
ghost use Rattle.std.proofs.Common.{rules};

/// An address or a mask, a number of 128 bits at most.
pub trait Address: Copy {
    ghost BITS: { ℕ };

    ghost number: { Self → ℕ };

    /// How many bits it has.
    const BITS: u32;

    /// The number.
    fn to_u128(self) -> u128
        ensures value { result ≡ number self }
        ensures fits { result < 2 ^ BITS };

    /// How many of the first bits are ones, up to the first that is not.
    fn leading_ones(self) -> u32
        ensures { result ≡ count_leading_zeros BITS (2 ^ BITS - 1 - number self) };

    ghost narrow: { BITS ≤ 128 };
}

impl Address for u32 {
    ghost BITS = { 32 };

    ghost number = { λ a. a };

    const BITS: u32 = 32;

    ghost narrow = { Prim.search rules };

    fn to_u128(self) -> u128 {
        u128::from(self)
    }

    fn leading_ones(self) -> u32 {
        self.leading_ones()
    }
}

impl Address for u128 {
    ghost BITS = { 128 };

    ghost number = { λ a. a };

    const BITS: u32 = 128;

    ghost narrow = { Prim.search rules };

    fn to_u128(self) -> u128 {
        self
    }

    fn leading_ones(self) -> u32 {
        self.leading_ones()
    }
}
