//! Ways to damage the small day's file, one for each refusal of a file.
ghost use Rattle.std.specs.Prelude.{◌+◌, ◌≤◌, length};

use dayfile::{BLOCK, check_of};
use small_day::BYTES;
use std::fmt;

/// What is done to the file.
#[derive(Clone, Copy, Debug, PartialEq, Eq)]
pub enum Damage {
    Length,
    Check,
    Order,
    Field,
    Number,
    Owners,
    Counts,
}

/// All of them, in the order of the refusals.
pub const DAMAGES: [Damage; 7] = [
    Damage::Length,
    Damage::Check,
    Damage::Order,
    Damage::Field,
    Damage::Number,
    Damage::Owners,
    Damage::Counts,
];

impl Damage {
    /// The name of an example with this damage.
    pub fn name(self) -> &'static str {
        match self {
            Damage::Length => "wrong-length",
            Damage::Check => "wrong-check",
            Damage::Order => "wrong-order",
            Damage::Field => "wrong-field",
            Damage::Number => "wrong-number",
            Damage::Owners => "wrong-owners",
            Damage::Counts => "wrong-counts",
        }
    }

    /// Damages the small day's file, and gives what is left of it.
    pub fn apply(self, file: &mut [u8; BYTES]) -> &[u8]
        ensures { length result.now ≤ 2560 }
    {
        let (blocks, _) = file.as_chunks_mut::<BLOCK>();
        match self {
            Damage::Length => return &file[..BYTES - 1],
            Damage::Check => overwrite(&mut blocks[2], 4, &104u32.to_le_bytes()),
            Damage::Order => change(&mut blocks[1], 0, b"R"),
            Damage::Field => change(&mut blocks[0], 8, &1_000u16.to_le_bytes()),
            Damage::Number => change(&mut blocks[3], 4, &102u32.to_le_bytes()),
            Damage::Owners => change(&mut blocks[4], 128, &399_999u32.to_le_bytes()),
            Damage::Counts => change(&mut blocks[0], 10, &[4]),
        }
        file
    }
}

/// What is done, in words.
impl fmt::Display for Damage {
    fn fmt<W: fmt::Write>(&self, f: &mut fmt::Formatter<W>) -> fmt::Result {
        f.write_str(match self {
            Damage::Length => "the last byte is cut off",
            Damage::Check => "participant 102 becomes 104, and the check stays",
            Damage::Order => "the first participant's block begins with R, and its check is mended",
            Damage::Field => "the version becomes 1000, and the check is mended",
            Damage::Number => "participant 103 becomes 102, and the check is mended",
            Damage::Owners => "the second owner's parts become 399999, and the check is mended",
            Damage::Counts => "the count of participants becomes 4, and the check is mended",
        })
    }
}

/// Writes bytes over a block, and mends its check.
fn change(block: &mut [u8; BLOCK], at: usize, bytes: &[u8])
    requires { at + length bytes.now ≤ 508 }
{
    overwrite(block, at, bytes);
    let check = check_of(block);
    overwrite(block, 508, &check.to_le_bytes());
}

fn overwrite(block: &mut [u8; BLOCK], at: usize, bytes: &[u8])
    requires { at + length bytes.now ≤ 512 }
{
    block[at..at + bytes.len()].copy_from_slice(bytes);
}
