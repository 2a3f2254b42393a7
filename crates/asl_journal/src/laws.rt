//! Laws of the definitions that the contracts of this crate cite.
ghost use Rattle.std.specs.Prelude.{◌≡◌, ◌++◌, ℕ, List, take};
ghost use Rattle.asl_code.specs.declared.image.Image.{Image};
ghost use Rattle.asl_code.specs.Verified.{IsVerified};
ghost use Rattle.asl_machine.specs.State.{State};
ghost use Rattle.asl_machine.specs.Run.{IsThreadCount, IsReached, start_of};
ghost use Rattle.asl_machine.specs.ComputedRun.{state_after};
ghost use Rattle.asl_journal.specs.declared.event.Event.{Event};
ghost use Rattle.asl_journal.specs.Bytes.{LogOfSpellingIsOne, SpellingOfLogIsOne};
ghost use Rattle.asl_journal.specs.Faults.{BytesHaveAnOutcome, OutcomeIsOne};
ghost use Rattle.asl_journal.specs.Computed.{GoesBy, state_at};
ghost use Rattle.asl_journal.specs.Journal.{AreThere, IsJournal, LeadsFrom, LeadsTo, schedule_of};
ghost use Rattle.asl_journal.specs.Replay.{DiffersAt};
ghost use Rattle.asl_journal.specs.RunFile.{RunOfSpellingIsOne, SpellingOfRunIsOne, FilesHaveAnOutcome, FileOutcomeIsOne};

/// A journal and its bytes belong to no other. So to get what was put gives the same journal.
pub fn journal_and_bytes_are_one()
    ensures journal { LogOfSpellingIsOne }
    ensures bytes { SpellingOfLogIsOne }
{}

/// Bytes have exactly one outcome: a journal, or one refusal. Running out of memory says nothing of them.
pub fn bytes_have_one_outcome()
    ensures some { BytesHaveAnOutcome }
    ensures one { OutcomeIsOne }
{}

/// A run and its bytes belong to no other. So to get what was put gives the same program and the same journal.
pub fn run_and_bytes_are_one()
    ensures run { RunOfSpellingIsOne }
    ensures bytes { SpellingOfRunIsOne }
{}

/// Bytes have exactly one outcome as a run file: a run, or one refusal. Lack of memory is left out.
pub fn run_files_have_one_outcome()
    ensures some { FilesHaveAnOutcome }
    ensures one { FileOutcomeIsOne }
{}

/// Events lead from a state to one state at the most. The state where a journal leads is reached.
pub fn events_lead_to_one_state()
    ensures one { (image : Image) (s end other : State) (events : List Event) → LeadsFrom image s events end
        → LeadsFrom image s events other → end ≡ other }
    ensures reached { (image : Image) (count : ℕ) (events : List Event) (state : State) → IsJournal image count events
        → LeadsTo image count events state → IsReached image count state }
{}

/// Journals and the computed step. The replies of a journal are the computed ones of its schedule, and it leads to the computed
/// state. Events of threads that are there whose replies are the computed ones are a journal. Events that lead from any state to
/// another go by the computed step, and those of threads that are there that go by it from a reached state lead to the computed one.
pub fn journals_are_computed()
    ensures computed { (image : Image) (count : ℕ) (events : List Event) → IsJournal image count events
        → GoesBy image (start_of image count) events × LeadsTo image count events (state_at image count events) }
    ensures one { (image : Image) (count : ℕ) (events : List Event) (state : State) → LeadsTo image count events state
        → state ≡ state_at image count events }
    ensures only { (image : Image) (count : ℕ) (events : List Event) → IsVerified image → IsThreadCount image count
        → AreThere count events → GoesBy image (start_of image count) events → IsJournal image count events }
    ensures from { (image : Image) (s end : State) (events : List Event) → LeadsFrom image s events end
        → GoesBy image s events × (end ≡ state_after image s (schedule_of events)) }
    ensures onwards { (image : Image) (count : ℕ) (s : State) (events : List Event) → IsVerified image → IsReached image count s
        → AreThere count events → GoesBy image s events → LeadsFrom image s events (state_after image s (schedule_of events)) }
{}

/// Events in two parts lead from one state to another exactly where the first part leads from the one to some state between, and
/// the second from there to the other.
pub fn runs_have_parts()
    ensures together { (image : Image) (s middle end : State) (first rest : List Event) → LeadsFrom image s first middle
        → LeadsFrom image middle rest end → LeadsFrom image s (first ++ rest) end }
    ensures parts { (image : Image) (s end : State) (first rest : List Event) → LeadsFrom image s (first ++ rest) end
        → (middle : State) × LeadsFrom image s first middle × LeadsFrom image middle rest end }
{}

/// The first events of a journal of a program, however many, are one too.
pub fn prefixes_are_journals()
    ensures { (image : Image) (count k : ℕ) (events : List Event) → IsJournal image count events
        → IsJournal image count (take k events) }
{}

/// One event at the most is the first that differs from a program's run, and no event of a journal is.
pub fn first_differences_are_one()
    ensures one { (image : Image) (count : ℕ) (events : List Event) (index other : ℕ) → DiffersAt image count events index
        → DiffersAt image count events other → index ≡ other }
    ensures none { (image : Image) (count : ℕ) (events : List Event) (index : ℕ) → IsJournal image count events
        → ¬ DiffersAt image count events index }
{}
