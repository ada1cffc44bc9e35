// A buffer that is filled behind the bytes that are kept at its front.
ghost use Rattle.std.specs.Prelude.{◌≤◌, ◌≡◌, drop, length};
ghost use Rattle.std.specs.Io.KnownBytes.{ReadConsumes};
ghost use Rattle.input.specs.Input.{amount, Fills, Moves};

use std::io;
use std::io::Read;

// What a read answered, and where the bytes end that are there now.
#[derive(Clone, Copy)]
pub struct Filled {
    pub got: io::Result<usize>,
    pub end: usize,
}

// How many bytes a read brought: none where it failed.
pub fn came(got: io::Result<usize>) -> usize
    ensures { result ≡ amount got }
{
    got.unwrap_or(0)
}

// Reads once. The bytes that are kept stay, and those that came stand behind them: of a reader whose bytes are known these are the next
// ones, there are none only at its end, and a read that fails takes none.
pub fn fill<R: Read>(from: &mut R, buffer: &mut [u8], kept: usize) -> Filled
    requires { kept ≤ length buffer.old }
    ensures fills { Fills result kept buffer.old buffer.new }
    ensures known { ReadConsumes (R.remaining from.old) (R.remaining from.new) result.got (drop kept buffer.new) }
{
    let got = from.read(&mut buffer[kept..]);
    Filled {
        got: got,
        end: kept + came(got),
    }
}

// The bytes from one position to another, moved to the front.
pub fn shift(buffer: &mut [u8], from: usize, end: usize)
    requires { (from ≤ end) × (end ≤ length buffer.old) }
    ensures { Moves from end buffer.old buffer.new }
{
    buffer.copy_within(from..end, 0);
}
