//! Run files: a program and a journal, as the bytes of one file.
ghost use Rattle.std.specs.Prelude.{◌≡◌, ◌<◌, ◌⊎◌, length, IfOk, IfErr, MatchOption};
ghost use Rattle.std.specs.Int.{w32, from_be_bytes};
ghost use Rattle.asl_code.specs.declared.image.Image.{Image};
ghost use Rattle.asl_journal.specs.Journal.{Log};
ghost use Rattle.asl_journal.specs.Bytes.{SpellsLog};
ghost use Rattle.asl_loader.specs.Faults.{IsProgramImage};
ghost use Rattle.asl_journal.specs.RunFile.{HasParts, HasNoParts, SpellsRun, IsFileFault, IsPartFault, IsLogFault};

use crate::fault::JournalFault;
use crate::journal::Journal;
use crate::journal_bytes::get;
use crate::journal_writing::put;
use asl_code::Program;
use asl_loader::{LoadFault, load, store};
use std::alloc::{AllocError, Global};
use thiserror::Error;

/// Why bytes are no run file. Where several apply, the first is answered (`docs/JOURNAL.md`, "Run files").
#[derive(Debug, Drop, Error)]
pub enum FileFault {
    /// The bytes, so many, end before the image does.
    #[error("Truncated({0})")]
    Truncated(usize),
    /// The image is refused. Places are counted in it.
    #[error("Image({0})")]
    Image(LoadFault),
    /// The journal is refused. Places are counted in it.
    #[error("Journal({0})")]
    Journal(JournalFault),
    /// An allocation failed.
    #[error("OutOfMemory")]
    OutOfMemory,
}

/// The bytes of the run file.
///
/// # Errors
///
/// An allocation failed.
pub fn put_run(alloc: Global, program: &Program, journal: &Journal) -> Result<Vec<u8>, AllocError>
    ensures { IfOk result (λ bytes. SpellsRun program.now journal.now bytes.items) }
{
    let image = image_bytes(alloc, program)?;
    let events = put(alloc, journal)?;
    file_of(alloc, image.as_slice(), events.as_slice())
}

/// The program and the journal that the bytes spell, all of them. The journal need not be one of the program: that is for
/// replay to judge.
///
/// # Errors
///
/// `Truncated`; then the refusal of the image, the verifier's included; then that of the journal; `OutOfMemory` where a growth
/// was refused.
pub fn get_run(alloc: Global, bytes: &[u8]) -> Result<(Program, Journal), FileFault>
    ensures found { IfOk result (λ run. SpellsRun run.0 run.1 bytes.now) }
    // What is spelled is answered, unless memory was refused.
    ensures only { (image : Image) (log : Log) → SpellsRun image log bytes.now
        → (result ≡ Ok (image, log)) ⊎ (result ≡ Err FileFault.OutOfMemory) }
    ensures refused { IfErr result (λ fault. IsFileFault bytes.now fault) }
{
    match parts_of(bytes) {
        Some((image, events)) => run_of(alloc, bytes, image, events),
        None => Err(FileFault::Truncated(bytes.len())),
    }
}

/// The program and the journal of the parts of the bytes.
fn run_of(
    alloc: Global,
    bytes: &[u8],
    image: &[u8],
    events: &[u8],
) -> Result<(Program, Journal), FileFault>
    requires { HasParts bytes.now image.now events.now }
    ensures found { IfOk result (λ run. SpellsRun run.0 run.1 bytes.now) }
    ensures refused { IfErr result (λ fault. IsFileFault bytes.now fault) }
{
    let program = program_of(alloc, image)?;
    let journal = journal_of(alloc, events)?;
    Ok((program, journal))
}

/// The program of the image's part.
fn program_of(alloc: Global, image: &[u8]) -> Result<Program, FileFault>
    ensures ok { IfOk result (λ program. IsProgramImage image.now program) }
    ensures err { IfErr result (λ fault. IsPartFault image.now fault) }
{
    match load(alloc, image) {
        Ok(program) => Ok(program),
        Err(LoadFault::OutOfMemory) => Err(FileFault::OutOfMemory),
        Err(fault) => Err(FileFault::Image(fault)),
    }
}

/// The journal of its part.
fn journal_of(alloc: Global, events: &[u8]) -> Result<Journal, FileFault>
    ensures ok { IfOk result (λ journal. SpellsLog journal events.now) }
    ensures err { IfErr result (λ fault. IsLogFault events.now fault) }
{
    match get(alloc, events) {
        Ok(journal) => Ok(journal),
        Err(JournalFault::OutOfMemory) => Err(FileFault::OutOfMemory),
        Err(fault) => Err(FileFault::Journal(fault)),
    }
}

/// The program's image, which four bytes can count.
fn image_bytes(alloc: Global, program: &Program) -> Result<Vec<u8>, AllocError>
    ensures image { IfOk result (λ bytes. IsProgramImage bytes.items program.now) }
    ensures short { IfOk result (λ bytes. length bytes.items < 4294967296) }
{
    let _verified = program.image();
    store(alloc, program)
}

/// The two parts as one file.
fn file_of(alloc: Global, image: &[u8], events: &[u8]) -> Result<Vec<u8>, AllocError>
    requires { length image.now < 4294967296 }
    ensures { IfOk result (λ bytes. HasParts bytes.items image.now events.now) }
{
    let mut bytes = Vec::new(alloc);
    bytes.extend_from_slice(&(image.len() as u32).to_be_bytes())?;
    bytes.extend_from_slice(image)?;
    bytes.extend_from_slice(events)?;
    Ok(bytes)
}

/// The image's part of the bytes, and the journal's.
fn parts_of(bytes: &[u8]) -> Option<(&[u8], &[u8])>
    ensures { MatchOption result (HasNoParts bytes.now) (λ parts. HasParts bytes.now parts.0.now parts.1.now) }
{
    if bytes.len() < 4 {
        return None;
    }
    let (front, rest) = bytes.split_at(4);
    let length = number_of(front);
    if rest.len() < length {
        return None;
    }
    Some(rest.split_at(length))
}

/// The number that four bytes spell.
fn number_of(front: &[u8]) -> usize
    requires { length front.now ≡ 4 }
    ensures { result ≡ from_be_bytes w32 front.now }
{
    u32::from_be_bytes([front[0], front[1], front[2], front[3]]) as usize
}
