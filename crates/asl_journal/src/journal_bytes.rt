//! Reading a whole journal from its bytes.
ghost use Rattle.std.specs.Prelude.{◌≡◌, ◌⊎◌, IfOk, IfErr};
ghost use Rattle.asl_journal.specs.Bytes.{SpellsLog};
ghost use Rattle.asl_journal.specs.Faults.{IsBytesFault};
ghost use Rattle.asl_journal.specs.Journal.{Log};
ghost use Rattle.asl_loader.specs.ImageFields.{Keeps};
ghost use Rattle.asl_journal.specs.JournalFields.{bad_fault, log_at, whole_of};

use crate::fault::JournalFault;
use crate::journal::Journal;
use crate::journal_fields::parts_at;
use asl_loader::Stop;
use std::alloc::Global;

/// The journal that the bytes spell, all of them.
///
/// # Errors
///
/// The first refusal from front to back; `OutOfMemory` where an allocation failed, and then the bytes spell a journal.
pub fn get(alloc: Global, bytes: &[u8]) -> Result<Journal, JournalFault>
    ensures found { IfOk result (λ journal. SpellsLog journal bytes.now) }
    // What is spelled is answered, unless memory was refused.
    ensures only { (log : Log) → SpellsLog log bytes.now
        → (result ≡ Ok log) ⊎ (result ≡ Err JournalFault.OutOfMemory) }
    ensures refused { IfErr result (λ fault. IsBytesFault bytes.now fault) }
{
    whole_of(alloc, bytes)
}

/// The journal that is all the bytes: `Truncated` where they end before the last event that is counted, `Trailing` where more follow it.
#[tactic(auto, unfolding(crate::specs::JournalFields::whole_of))]
fn whole_of(alloc: Global, bytes: &[u8]) -> Result<Journal, JournalFault>
    ensures { ((result ≡ Err JournalFault.OutOfMemory) × ((log : Log) × (whole_of bytes.now ≡ Ok log)))
        ⊎ (result ≡ whole_of bytes.now) }
{
    match journal_at(alloc, bytes) {
        Ok((journal, [])) => journal.ok_or(JournalFault::OutOfMemory),
        Ok((_journal, rest)) => Err(JournalFault::Trailing(bytes.len() - rest.len())),
        Err(Stop::Short) => Err(JournalFault::Truncated(bytes.len())),
        Err(Stop::Bad(left)) => Err(bad_fault(bytes.len() - left)),
    }
}

/// The journal at the front of the bytes, as long as there is memory for it, and the bytes after it.
fn journal_at(alloc: Global, bytes: &[u8]) -> Result<(Option<Journal>, &[u8]), Stop>
    ensures { Keeps (λ x. x.0) (λ x. x.1.now) result (log_at bytes.now) }
{
    let (threads, events, rest) = parts_at(alloc, bytes)?;
    match events {
        Some(events) => Ok((Some(Journal::from_parts(threads, events.into_vec())), rest)),
        None => Ok((None, rest)),
    }
}

/// The fault of a bad byte: the field at byte 0 is the letters, and the one at byte 4 the version.
fn bad_fault(at: usize) -> JournalFault
    ensures { result ≡ bad_fault at }
{
    match at {
        0 => JournalFault::Magic,
        4 => JournalFault::Version,
        _ => JournalFault::BadField(at),
    }
}
