//! Numbers by how many bytes they have.

ghost use Rattle.std.specs.Prelude.{◌≡◌, ℕ, ◌<◌, ◌≤◌, ◌^◌};
ghost use Rattle.std.proofs.Common.{rules};

/// An unsigned number of eight bytes at most.
pub trait Number: Copy {
    ghost WIDTH: { ℕ };

    ghost value: { Self → ℕ };

    /// How many bytes it has.
    const WIDTH: u8;

    /// A number that fits these bytes.
    fn narrowed(number: u64) -> Self
        requires { number < 256 ^ WIDTH }
        ensures { value result ≡ number };

    ghost narrow: { WIDTH ≤ 8 };
}

impl Number for u16 {
    ghost WIDTH = { 2 };

    ghost value = { λ n. n };

    const WIDTH: u8 = 2;

    ghost narrow = { Prim.search rules };

    fn narrowed(number: u64) -> u16 {
        number as u16
    }
}

impl Number for u32 {
    ghost WIDTH = { 4 };

    ghost value = { λ n. n };

    const WIDTH: u8 = 4;

    ghost narrow = { Prim.search rules };

    fn narrowed(number: u64) -> u32 {
        number as u32
    }
}

impl Number for u64 {
    ghost WIDTH = { 8 };

    ghost value = { λ n. n };

    const WIDTH: u8 = 8;

    ghost narrow = { Prim.search rules };

    fn narrowed(number: u64) -> u64 {
        number
    }
}
