//! The blocks of a file, and what stands before one of them.
ghost use Rattle.std.specs.Prelude.{◌≡◌};
ghost use Rattle.std.specs.Option.{unwrap_or};
ghost use Rattle.dayfile.specs.Files.{block, kind, kind_before, number_before, tally, latest};
ghost use Rattle.dayfile.specs.Kinds.{letter};

use dayfile::{BLOCK, Kind, byte_at, word_at};

/// The bytes of block `k`: fewer than a block has, or none, where the file ends before.
pub(crate) fn block_at(file: &[u8], k: usize) -> &[u8]
    ensures { result.now ≡ block file.now k }
{
    // by its place: `nth` of the file's chunks would go through all blocks before it
    let (whole, rest) = file.as_chunks::<BLOCK>();
    match whole.get(k) {
        Some(block) => block,
        None if k == whole.len() => rest,
        None => &[],
    }
}

/// The letter of block `k`.
pub(crate) fn kind_at(file: &[u8], k: usize) -> u8
    ensures { result ≡ kind file.now k }
{
    byte_at(block_at(file, k), 0)
}

/// The letter of the block right before block `k`, if there is one.
pub(crate) fn kind_before(file: &[u8], k: usize) -> Option<u8>
    ensures { result ≡ kind_before file.now k }
{
    k.checked_sub(1).map(|last| kind_at(file, last))
}

/// The number in the block right before block `k`, or 0.
pub(crate) fn number_before(file: &[u8], k: usize) -> u32
    ensures { result ≡ number_before file.now k }
{
    k.checked_sub(1)
        .map_or(0, |last| word_at(block_at(file, last), 4))
}

/// How many of the blocks before block `k` are of a kind.
pub(crate) fn count_before(file: &[u8], k: usize, kind: Kind) -> usize
    ensures { result ≡ tally (letter kind) file.now k }
{
    file.chunks(BLOCK)
        .take(k)
        .filter(|block| byte_at(block, 0) == kind.letter())
        .count()
}

/// The number in the last block of a kind before block `k`, or 0.
pub(crate) fn last_before(file: &[u8], k: usize, kind: Kind) -> u32
    ensures { result ≡ unwrap_or (latest (letter kind) file.now k) 0 }
{
    file.chunks(BLOCK)
        .take(k)
        .filter(|block| byte_at(block, 0) == kind.letter())
        .last()
        .map_or(0, |block| word_at(block, 4))
}
