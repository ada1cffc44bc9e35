//! Guest memory: the lines that size it, write it and read it.

#![tactic(auto)]

use lines::{Fault, told};
use std::io::Write;

/// The most bytes that a guest may have.
pub const MOST: usize = 1048576;

const OUTSIDE: Fault = Fault::Line("outside memory");

/// Guest memory: the first `size` of its bytes.
#[derive(Drop)]
pub struct Memory {
    pub all: [u8; MOST],
    pub size: usize,
}

// The bytes from an address on, where all of them are inside.
fn part(memory: &mut [u8], at: u64, n: u64) -> Result<&mut [u8], Fault> {
    let end = at.checked_add(n).ok_or(OUTSIDE)?;
    memory.get_mut(at as usize..end as usize).ok_or(OUTSIDE)
}

impl Memory {
    /// The bytes that the guest has.
    pub fn bytes(&mut self) -> &mut [u8] {
        let size = self.size.min(MOST);
        let all = &mut self.all[..];
        &mut all[..size]
    }

    /// memory N: so many zero bytes.
    pub fn resize(&mut self, s: &[u8]) -> Result<(), Fault> {
        let [size] = text::arguments::<1>(s).ok_or(Fault::Line("expected memory N"))?;
        if (MOST as u64) < size {
            return Err(Fault::Line("N is at most 1048576"));
        }
        self.size = size as usize;
        self.bytes().fill(0);
        Ok(())
    }

    /// poke ADDR HEX: the guest writes these bytes.
    pub fn poke(&mut self, s: &[u8]) -> Result<(), Fault> {
        if text::count(s) != 3 {
            return Err(Fault::Line("expected poke ADDR HEX"));
        }
        let at = text::argument(s, 1).ok_or(Fault::Line("not a number of 64 bits"))?;
        let digits = text::word(s, 2);
        let n = hexadecimal::count(digits).ok_or(Fault::Line("malformed bytes"))?;
        hexadecimal::bytes(digits, part(self.bytes(), at, n as u64)?);
        Ok(())
    }

    /// peek ADDR LEN: prints bytes.
    pub fn peek<W: Write>(&mut self, out: &mut W, s: &[u8]) -> Result<(), Fault> {
        let [at, n] = text::arguments::<2>(s).ok_or(Fault::Line("expected peek ADDR LEN"))?;
        told::bytes(out, part(self.bytes(), at, n)?)?;
        Ok(())
    }
}
