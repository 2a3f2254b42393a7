//! The theorems: what holds of the programs that `asl compile` writes, of those that `asl check` accepts, and of the journals of
//! their runs. Each is a law, the contract of a function that does nothing. Read them in order: first what the whole is for, then its
//! parts.
#![tactic(auto)]

ghost use Rattle.std.specs.Prelude.{◌≡◌, ◌≢◌, ◌<◌, ◌≤◌, ℕ, suc, Bool, List, [], All, Some, length, take, slice_get};
ghost use Rattle.asl_code.specs.declared.image.Image.{Image};
ghost use Rattle.asl_code.specs.declared.lock.Lock.{Lock};
ghost use Rattle.asl_code.specs.Verified.{IsVerified};
ghost use Rattle.asl_syntax.specs.Tree.{Item};
ghost use Rattle.asl_syntax.specs.Parsed.{Parses};
ghost use Rattle.asl_syntax.specs.Printed.{printed};
ghost use Rattle.asl_lower.specs.declared.section.Section.{Section};
ghost use Rattle.asl_lower.specs.Lowered.{Lowered, IsLowering};
ghost use Rattle.asl_lower.specs.LegalLowering.{IsLegalLowering};
ghost use Rattle.asl_lower.specs.Regions.{Inside};
ghost use Rattle.asl_points_to.specs.Classes.{Classed, AreClasses};
ghost use Rattle.asl_lock_expr.specs.ClassOf.{TellsStores};
ghost use Rattle.asl_backward_flow.specs.Needed.{Needed};
ghost use Rattle.asl_machine.specs.declared.reply.Reply.TheVariants.{Blocked};
ghost use Rattle.asl_machine.specs.State.{State};
ghost use Rattle.asl_machine.specs.Run.{IsThreadCount, start_of};
ghost use Rattle.asl_machine.specs.Fresh.{AreApart};
ghost use Rattle.asl_machine.specs.World.{SomeoneGoesOn};
ghost use Rattle.asl_emitter.specs.Inferred.{IsInferred, IsInferredFor};
ghost use Rattle.asl_emitter.specs.Refused.{IsAccepted, IsRefusedInference};
ghost use Rattle.asl_emitter.specs.declared.fault.InferFault.{InferFault};
ghost use Rattle.asl_emitter.specs.declared.fault.InferFault.TheVariants.{OutOfMemory};
ghost use Rattle.asl_assembler.specs.Text.{Spells};
ghost use Rattle.asl_assembler.specs.Canonical.{canonical_text};
ghost use Rattle.asl_loader.specs.Bytes.{SpellsImage, text_of};
ghost use Rattle.asl_journal.specs.declared.event.Event.{Event};
ghost use Rattle.asl_journal.specs.declared.event.Receipt.{Receipt};
ghost use Rattle.asl_journal.specs.Bytes.{SpellsLog, log_fields};
ghost use Rattle.asl_journal.specs.Journal.{Log, LeadsTo, IsJournal, most_events, schedule_of, replies_in};
ghost use Rattle.asl_journal.specs.RunFile.{SpellsRun};
ghost use Rattle.asl_runner.specs.History.{IsHistory};
ghost use Rattle.asl_soundness.specs.Safe.{IsSafe};
ghost use Rattle.asl_atomicity.specs.Serial.{TakenStep, IsRun, HasSerial, MakesNoneInside};
ghost use Rattle.asl_atomicity.specs.Renamed.{HasSerialUpTo, FindsRoomInside};
ghost use Rattle.asl_check.specs.Refused.{IsChecked};
ghost use Rattle.asl_theorems.specs.Compiled.{Compiles};
ghost use Rattle.asl_theorems.specs.Journals.{events_of, AreSteps, HasSerialJournal, HasSerialJournalUpTo};
ghost use Rattle.asl_theorems.specs.RaceFree.{IsRaceFree, IsRaceFreeJournal};

use asl_assembler::laws::{canonical_texts_are_spelled, texts_spell_one_image};
use asl_journal::laws::{journal_and_bytes_are_one, run_and_bytes_are_one};
use asl_loader::laws::image_and_bytes_are_one;
use asl_syntax::laws::{a_printed_tree_is_read_back, a_text_has_one_tree};

/// The headline. No reply in any journal of a compiled program is a fault for a missing lock, for a section that was not
/// entered, or for one that was left open: with any number of threads, in any order of their steps.
pub fn no_compiled_program_faults_for_a_missing_lock()
    ensures { (source : List ℕ) (k_limit : ℕ) (image : Image) (count : ℕ) (events : List Event) (end : State)
        → Compiles source k_limit image → LeadsTo image count events end → All IsSafe (replies_in events) }
{}

/// The same of a program that `check` accepts, whoever made its lists.
pub fn no_checked_program_faults_for_a_missing_lock()
    ensures { (source : List ℕ) (tree : List Item) (k_limit : ℕ) (image : Image) (count : ℕ) (events : List Event) (end : State)
        → Parses source tree → IsVerified image → IsChecked tree k_limit image → LeadsTo image count events end → All IsSafe (replies_in events) }
{}

/// Workers. No reply in the journal that workers leave of a compiled program, or of one that `check` accepts, is such a fault, and so
/// none in their receipts: with any number of threads and of workers, however these come to their turns.
pub fn no_worker_meets_a_missing_lock()
    ensures events { (source : List ℕ) (k_limit : ℕ) (image : Image) (count workers : ℕ) (events : List Event) (receipts : List (List Receipt))
        → Compiles source k_limit image → IsHistory image count workers events receipts → All IsSafe (replies_in events) }
    ensures receipts { (source : List ℕ) (k_limit : ℕ) (image : Image) (count workers : ℕ) (events : List Event) (receipts : List (List Receipt))
        (worker : ℕ) (mine : List Receipt) → Compiles source k_limit image → IsHistory image count workers events receipts
        → slice_get receipts worker ≡ Some mine → All (λ receipt. IsSafe receipt.reply) mine }
    ensures checked_events { (source : List ℕ) (tree : List Item) (k_limit : ℕ) (image : Image) (count workers : ℕ) (events : List Event)
        (receipts : List (List Receipt)) → Parses source tree → IsVerified image → IsChecked tree k_limit image
        → IsHistory image count workers events receipts → All IsSafe (replies_in events) }
    ensures checked_receipts { (source : List ℕ) (tree : List Item) (k_limit : ℕ) (image : Image) (count workers : ℕ) (events : List Event)
        (receipts : List (List Receipt)) (worker : ℕ) (mine : List Receipt) → Parses source tree → IsVerified image
        → IsChecked tree k_limit image → IsHistory image count workers events receipts
        → slice_get receipts worker ≡ Some mine → All (λ receipt. IsSafe receipt.reply) mine }
{}

/// Files and texts. Reading undoes writing: what is spelled belongs to one value, and an image, a journal and a run have one
/// spelling. A source is printed as one that is read as the same tree, if it keeps the limit of bytes. The canonical text of a
/// program that some text or some bytes spell is read as the same program.
pub fn reading_undoes_writing()
    ensures images { (image other : Image) (bytes others : List ℕ) → SpellsImage image bytes
        → (SpellsImage other bytes → other ≡ image) × (SpellsImage image others → others ≡ bytes) }
    ensures texts { (image other : Image) (text : List ℕ) → Spells text image → Spells text other → other ≡ image }
    ensures journals { (log other : Log) (bytes others : List ℕ) → SpellsLog log bytes
        → (SpellsLog other bytes → other ≡ log) × (SpellsLog log others → others ≡ bytes) }
    ensures runs { (image other : Image) (log another : Log) (bytes others : List ℕ) → SpellsRun image log bytes
        → (SpellsRun other another bytes → (other ≡ image) × (another ≡ log)) × (SpellsRun image log others → others ≡ bytes) }
    ensures sources { (tree : List Item) (source : List ℕ) → Parses source tree → length (printed tree) ≤ 1048576
        → Parses (printed tree) tree }
    ensures trees { (tree other : List Item) (source : List ℕ) → Parses source tree → Parses source other → other ≡ tree }
    ensures canonical { (image other : Image) (text : List ℕ) → IsVerified image → Spells text image
        → Spells (canonical_text image) image × (Spells (canonical_text image) other → other ≡ image) }
    ensures disassembled { (image other : Image) (bytes : List ℕ) → IsVerified image → SpellsImage image bytes
        → Spells (canonical_text image) image × (Spells (canonical_text image) other → other ≡ image) }
{
    image_and_bytes_are_one();
    texts_spell_one_image();
    canonical_texts_are_spelled();
    journal_and_bytes_are_one();
    run_and_bytes_are_one();
    a_printed_tree_is_read_back();
    a_text_has_one_tree();
}

/// The machine. Journals, of which the commands speak, are runs by the instruction table, and each such run, of as many
/// threads as the program's version allows, is a journal's. Events lead to one state at the most, and are those of one run.
pub fn journals_are_runs_by_the_table()
    ensures table { (image : Image) (count : ℕ) (events : List Event) (end : State) → IsVerified image
        → LeadsTo image count events end → IsJournal image count events }
    ensures one { (image : Image) (count : ℕ) (events : List Event) (end other : State) → IsVerified image
        → LeadsTo image count events end → LeadsTo image count events other → end ≡ other }
    ensures some { (image : Image) (count : ℕ) (events : List Event) (end : State) → LeadsTo image count events end
        → (steps : List TakenStep) × IsRun image (start_of image count) steps end × (events ≡ events_of steps) }
    ensures only { (image : Image) (count : ℕ) (steps : List TakenStep) (end : State) → IsThreadCount image count
        → IsRun image (start_of image count) steps end → LeadsTo image count (events_of steps) end }
    ensures steps { (image : Image) (count : ℕ) (steps others : List TakenStep) (end other : State)
        → IsRun image (start_of image count) steps end → IsRun image (start_of image count) others other
        → events_of steps ≡ events_of others → steps ≡ others }
{}

/// It is not said of nothing. Each order of the steps of as many threads as the program's version allows has a journal, and no
/// two. Compiled programs are verified. Of others this is not so: a thread may be where the table has no line.
pub fn every_schedule_has_one_journal()
    ensures some { (image : Image) (count : ℕ) (schedule : List ℕ) → IsVerified image → IsThreadCount image count → All (λ t. t < count) schedule
        → (events : List Event) × IsJournal image count events × (schedule_of events ≡ schedule) }
    ensures one { (image : Image) (count : ℕ) (events others : List Event) → IsJournal image count events
        → IsJournal image count others → schedule_of events ≡ schedule_of others → events ≡ others }
    ensures verified { (source : List ℕ) (k_limit : ℕ) (image : Image) → Compiles source k_limit image → IsVerified image }
    ensures others { ¬ ((image : Image) (count : ℕ) (schedule : List ℕ) → IsThreadCount image count → All (λ t. t < count) schedule
        → (events : List Event) × ((end : State) × LeadsTo image count events end × (schedule_of events ≡ schedule))) }
{}

/// Each journal of a program that bytes spell, if it is not too long for any, has bytes. So it can be kept as a run file.
pub fn every_journal_has_bytes()
    ensures { (image : Image) (bytes : List ℕ) (log : Log) → SpellsImage image bytes
        → IsJournal image log.threads log.events → length log.events ≤ most_events → SpellsLog log (text_of (log_fields log)) }
{}

/// In no journal do threads block one another all together: where an event is blocked, some running
/// thread that holds a lock has a step that is not. And at each position no two threads share what is fresh for one.
pub fn no_journal_is_stuck()
    ensures blocked { (image : Image) (log : Log) (k : ℕ) (event : Event) (state : State) → IsJournal image log.threads log.events
        → LeadsTo image log.threads (take k log.events) state
        → slice_get log.events k ≡ Some event → event.reply ≡ Blocked → SomeoneGoesOn image state }
    ensures apart { (image : Image) (log : Log) (k : ℕ) (state : State) → IsJournal image log.threads log.events
        → LeadsTo image log.threads (take k log.events) state → AreApart image state }
{}

/// The lists. A compiled program is its source's: whatever lowering, finest classes and written classes there are of the
/// source's tree, the program is the image that is inferred of these. Its tables and its code are the lowering's, with classes in
/// place of sites; each section's list is the fitted one of what it needs, and none is empty that needs a lock.
pub fn a_compiled_program_is_its_sources()
    ensures inferred { (source : List ℕ) (k_limit : ℕ) (image : Image) (tree : List Item) (l : Lowered) (c : Classed) (stores : ℕ → ℕ → Bool)
        → Compiles source k_limit image → Parses source tree → IsLowering tree l → AreClasses l c → TellsStores l c stores
        → IsInferred l c stores k_limit image }
    ensures some { (source : List ℕ) (k_limit : ℕ) (image : Image) (tree : List Item) (l : Lowered) (c : Classed) (stores : ℕ → ℕ → Bool)
        (n : ℕ) (section : Section) (list : List Lock) (lock : Lock)
        → Compiles source k_limit image → Parses source tree → IsLowering tree l → AreClasses l c → TellsStores l c stores
        → slice_get l.sections n ≡ Some section → slice_get image.lists n ≡ Some list
        → Needed l c stores k_limit (Inside n) (suc section.acquire) lock → list ≢ [] }
    ensures kept { (source : List ℕ) (k_limit : ℕ) (tree : List Item) (l : Lowered)
        → Parses source tree → IsAccepted tree k_limit → IsLowering tree l → IsLegalLowering l }
{
    a_text_has_one_tree();
}

/// A source has one compiled program at the most for each longest path.
pub fn a_source_has_one_program()
    ensures { (source : List ℕ) (k_limit : ℕ) (image other : Image)
        → Compiles source k_limit image → Compiles source k_limit other → image ≡ other }
{
    a_text_has_one_tree();
}

/// Every program has exactly one outcome of compiling, memory aside. An accepted program has an image, for it cannot be that there
/// is none; it has no fault but that memory ran out, and one image. A program that is not accepted has a fault, for it cannot be
/// that it has none. The finest classes of a program's lowering cannot be missing.
pub fn every_program_has_one_outcome()
    ensures image { (tree : List Item) (k_limit : ℕ) → IsAccepted tree k_limit → ¬ (¬ ((image : Image) × IsInferredFor tree k_limit image)) }
    ensures one { (tree : List Item) (k_limit : ℕ) (image other : Image) → IsInferredFor tree k_limit image → IsInferredFor tree k_limit other → image ≡ other }
    ensures both { (tree : List Item) (k_limit : ℕ) (fault : InferFault) → IsAccepted tree k_limit → IsRefusedInference tree k_limit fault → fault ≡ OutOfMemory }
    ensures neither { (source : List ℕ) (tree : List Item) (k_limit : ℕ) → Parses source tree → ¬ (IsAccepted tree k_limit)
        → ¬ ((fault : InferFault) → fault ≢ OutOfMemory → ¬ (IsRefusedInference tree k_limit fault)) }
    ensures classes { (source : List ℕ) (tree : List Item) (l : Lowered) → Parses source tree → IsLowering tree l → ¬ (¬ ((c : Classed) × AreClasses l c)) }
{}

/// The debugger. At each position of a journal there is a state to which the instruction table leads the program's threads by the
/// events before it, and one only: the one that the debugger shows there.
pub fn positions_go_by_the_table()
    ensures some { (image : Image) (log : Log) (k : ℕ) → IsJournal image log.threads log.events
        → (state : State) × LeadsTo image log.threads (take k log.events) state }
    ensures one { (image : Image) (log : Log) (k : ℕ) (state other : State) → IsJournal image log.threads log.events
        → LeadsTo image log.threads (take k log.events) state → LeadsTo image log.threads (take k log.events) other → state ≡ other }
{}

/// Atomicity. Each run of a compiled program, and so each of its journals, has a serial one: the same state in the end, the
/// same replies for each thread, the same order outside sections, and sections one at a time. It is the very same state where no
/// step inside a section is a `new`; where none finds that there is no room for an object, the same up to the numbers of objects.
pub fn compiled_programs_are_atomic()
    ensures serial { (source : List ℕ) (k_limit : ℕ) (image : Image) (count : ℕ) (steps : List TakenStep) (end : State)
        → Compiles source k_limit image → IsRun image (start_of image count) steps end
        → All (MakesNoneInside image) steps → HasSerial image count steps end }
    ensures up_to_numbers { (source : List ℕ) (k_limit : ℕ) (image : Image) (count : ℕ) (steps : List TakenStep) (end : State)
        → Compiles source k_limit image → IsRun image (start_of image count) steps end
        → All FindsRoomInside steps → HasSerialUpTo image count steps end }
{}

/// Atomicity of journals. Each journal of a compiled program is that of a run; under the same conditions on its steps there is a
/// serial journal, which leads to the same state and tells each thread the same, in the second form up to the numbers of objects.
pub fn journals_of_compiled_programs_are_atomic()
    ensures { (source : List ℕ) (k_limit : ℕ) (image : Image) (count : ℕ) (events : List Event) (end : State)
        → Compiles source k_limit image → LeadsTo image count events end
        → (steps : List TakenStep) × AreSteps image count events end steps
        × (All (MakesNoneInside image) steps → HasSerialJournal image count events steps end)
        × (All FindsRoomInside steps → HasSerialJournalUpTo image count events steps end) }
{}

/// Atomicity of checked programs. Each run of a program that `check` accepts has a serial one, as those of a compiled one have.
pub fn checked_programs_are_atomic()
    ensures serial { (source : List ℕ) (tree : List Item) (k_limit : ℕ) (image : Image) (count : ℕ) (steps : List TakenStep) (end : State)
        → Parses source tree → IsVerified image → IsChecked tree k_limit image → IsRun image (start_of image count) steps end
        → All (MakesNoneInside image) steps → HasSerial image count steps end }
    ensures up_to_numbers { (source : List ℕ) (tree : List Item) (k_limit : ℕ) (image : Image) (count : ℕ) (steps : List TakenStep) (end : State)
        → Parses source tree → IsVerified image → IsChecked tree k_limit image → IsRun image (start_of image count) steps end
        → All FindsRoomInside steps → HasSerialUpTo image count steps end }
{}

/// So has each journal of such a program.
pub fn journals_of_checked_programs_are_atomic()
    ensures { (source : List ℕ) (tree : List Item) (k_limit : ℕ) (image : Image) (count : ℕ) (events : List Event) (end : State)
        → Parses source tree → IsVerified image → IsChecked tree k_limit image → LeadsTo image count events end
        → (steps : List TakenStep) × AreSteps image count events end steps
        × (All (MakesNoneInside image) steps → HasSerialJournal image count events steps end)
        × (All FindsRoomInside steps → HasSerialJournalUpTo image count events steps end) }
{}

/// Data races. No run of a compiled program, or of one whose own lists `check` accepts, has one, with any number of threads, in any
/// order of their steps: of two steps of different threads that access one cell, one of them to write it, one happens before the other,
/// by the order of each thread's steps and by that of who gives back a node of the lock tree before who is granted it in a mode that
/// does not go with that. Accesses are those of `load`, `store` and `new`, and what the evaluation of a granted list reads. What goes
/// with this, of objects that are met and of tries to enter a section, `IsRaceFree` lists.
pub fn programs_have_no_race()
    ensures compiled { (source : List ℕ) (k_limit : ℕ) (image : Image) (count : ℕ) → Compiles source k_limit image → IsRaceFree image count }
    ensures checked { (source : List ℕ) (tree : List Item) (k_limit : ℕ) (image : Image) (count : ℕ) → Parses source tree → IsVerified image
        → IsChecked tree k_limit image → IsRaceFree image count }
{}

/// Data races in journals. Each journal of such a program, and each that workers leave of it, is that of steps of which no two are a race.
pub fn journals_have_no_race()
    ensures compiled { (source : List ℕ) (k_limit : ℕ) (image : Image) (count : ℕ) (events : List Event) (end : State)
        → Compiles source k_limit image → LeadsTo image count events end → IsRaceFreeJournal image count events end }
    ensures checked { (source : List ℕ) (tree : List Item) (k_limit : ℕ) (image : Image) (count : ℕ) (events : List Event) (end : State)
        → Parses source tree → IsVerified image → IsChecked tree k_limit image → LeadsTo image count events end
        → IsRaceFreeJournal image count events end }
    ensures workers { (source : List ℕ) (k_limit : ℕ) (image : Image) (count workers : ℕ) (events : List Event) (receipts : List (List Receipt))
        → Compiles source k_limit image → IsHistory image count workers events receipts
        → (end : State) × IsRaceFreeJournal image count events end }
    ensures checked_workers { (source : List ℕ) (tree : List Item) (k_limit : ℕ) (image : Image) (count workers : ℕ) (events : List Event)
        (receipts : List (List Receipt)) → Parses source tree → IsVerified image → IsChecked tree k_limit image
        → IsHistory image count workers events receipts → (end : State) × IsRaceFreeJournal image count events end }
{}
