//! Admitting a file: the rules for its length, its blocks in their order, and its counts.
ghost use Rattle.std.specs.Prelude.{◌≡◌, ℕ, ◌+◌, ◌-◌, ◌*◌, ◌/◌, ◌%◌, ◌^◌, ◌<◌, ◌≤◌, ◌++◌, length, IfOk, Ok, Err, MatchResult};
ghost use Rattle.dayfile.specs.Kinds.{told};
ghost use Rattle.dayfile.specs.Blocks.{Shows, shown};
ghost use Rattle.dayfile.specs.Records.{record_of, encode};
ghost use Rattle.dayfile.specs.Files.{verdict, answer, block, blocks, kind, counted, end_fault, standing, behind, lone_fault};
ghost use Rattle.dayfile.specs.Rules.{Ruled, RuledAlone, fault_in};
ghost use Rattle.dayfile.specs.WellFormed.{WellFormedOnly};

use crate::before::Before;
use crate::block::Block;
use crate::day::AdmittedDay;
use crate::fault::Fault;
use crate::judge::judge_alone;
use crate::read::parts;

/// Bytes of a block.
pub const BLOCK: usize = 512;
/// The longest file: 128 blocks.
pub const LONGEST: usize = 65_536;

/// Puts the day of a file into the caller's place, or says why not and leaves the place as it was.
pub fn admit<'f>(file: &'f [u8], day: &mut AdmittedDay<'f>) -> Result<(), Fault>
    ensures verdict { result ≡ answer (verdict file.now) }
    ensures first_broken_rule_told { Ruled file.now result }
    ensures accepted_just_if_well_formed { WellFormedOnly file.now result }
    ensures place_filled_or_kept { MatchResult result (λ _. day.new.file.now ≡ file.now) (λ _. day.new ≡ day.old) }
{
    judge_file(file)?;
    *day = AdmittedDay { file };
    Ok(())
}

/// The first fault of a file.
fn judge_file(file: &[u8]) -> Result<(), Fault>
    ensures { result ≡ answer (verdict file.now) }
{
    if file.is_empty() || file.len() % BLOCK != 0 || file.len() > LONGEST {
        return Err(Fault::Length);
    }
    let before = judge_blocks(file)?;
    if before.participants == usize::from(file[10]) && before.resources == usize::from(file[11]) {
        Ok(())
    } else {
        Err(Fault::Counts)
    }
}

/// The first fault of a file's blocks, or what stands behind them.
fn judge_blocks(file: &[u8]) -> Result<Before, Fault>
    requires { length file.now ≤ 65536 }
    ensures { MatchResult result (λ before. behind file.now ≡ Ok (told before)) (λ fault. behind file.now ≡ Err fault) }
{
    let mut before = Before::nothing();
    for (k, block) in file.as_chunks::<BLOCK>().0.iter().enumerate() {
        before.judge(block, k)?;
        before.note(block);
    }
    Ok(before)
}

/// The bytes of block `k`.
pub(crate) fn block_at(file: &[u8], k: usize) -> &[u8; BLOCK]
    requires { 512 * (k + 1) ≤ length file.now }
    ensures { result.now ≡ block file.now k }
{
    &file.as_chunks::<BLOCK>().0[k]
}

/// The parts of a block by itself, or the fault.
pub fn read_block<'f>(block: &'f [u8; 512]) -> Result<Block<'f>, Fault>
    ensures verdict { fault_in result ≡ lone_fault block.now }
    ensures first_broken_rule_told { RuledAlone block.now (fault_in result) }
    ensures shows_its_parts { IfOk result (λ b. Shows block.now b × (shown b ≡ record_of block.now)) }
    ensures encoded_again { IfOk result (λ b. encode (shown b) ≡ block.now) }
{
    judge_alone(block)?;
    // always some: the kind of a block without a fault is known
    parts(block).ok_or(Fault::Order { block: 0 })
}
