//! Laws of the definitions that the contracts of this crate cite.

ghost use Rattle.asl_loader.specs.Bytes.{ImageOfSpellingIsOne, SpellingOfImageIsOne};
ghost use Rattle.asl_loader.specs.Faults.{BytesHaveAnOutcome, OutcomeIsOne, LoadUndoesStore, StoreUndoesLoad};

/// An image and its bytes belong to no other.
pub fn image_and_bytes_are_one()
    ensures image { ImageOfSpellingIsOne }
    ensures bytes { SpellingOfImageIsOne }
{}

/// To load what was stored gives the same program, and to store what was loaded gives the same bytes.
pub fn load_and_store_undo_each_other()
    ensures load { LoadUndoesStore }
    ensures store { StoreUndoesLoad }
{}

/// Bytes have exactly one outcome: a program, or one refusal. Running out of memory is left out.
pub fn bytes_have_one_outcome()
    ensures some { BytesHaveAnOutcome }
    ensures one { OutcomeIsOne }
{}
