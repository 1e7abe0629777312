//! Numbers in bytes; a byte past the end counts as 0.
ghost use Rattle.std.specs.Prelude.{◌≡◌, take};
ghost use Rattle.dayfile.specs.Bytes.{value, weighed};
ghost use Rattle.dayfile.specs.Layout.{Wide};

use dayfile::{byte_at, half_at, word_at};

/// The number in one, two or four bytes, the lowest byte first.
pub(crate) fn number_at(bytes: &[u8], at: usize, width: usize) -> u32
    requires { Wide width }
    ensures { result ≡ value at width bytes.now }
{
    match width {
        1 => u32::from(byte_at(bytes, at)),
        2 => u32::from(half_at(bytes, at)),
        _ => word_at(bytes, at),
    }
}

/// The sum of (i + 1) times byte i over the first 508 bytes, of a block that may be short, as the last one of a refused file.
pub(crate) fn check_of(block: &[u8]) -> u32
    ensures { result ≡ weighed 0 (take 508 block.now) }
{
    let judged = block.get(..508).unwrap_or(block);
    let mut sum = 0;
    for (i, &byte) in judged.iter().enumerate() {
        sum += (i as u32 + 1) * u32::from(byte);
    }
    sum
}
