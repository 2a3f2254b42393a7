//! Laws of fresh objects, as functions that do nothing: what each ensures is the law.
ghost use Rattle.std.specs.Prelude.{◌↔◌, ℕ, IsTrue, List};
ghost use Rattle.asl_code.specs.declared.image.Image.{Image};
ghost use Rattle.asl_code.specs.Verified.{IsVerified};
ghost use Rattle.asl_code.specs.Versions.{has_fresh};
ghost use Rattle.asl_machine.specs.declared.reply.Reply.{Reply};
ghost use Rattle.asl_machine.specs.State.{State};
ghost use Rattle.asl_machine.specs.Run.{IsReached, RunsBy, start_of};
ghost use Rattle.asl_machine.specs.WellFormed.{SatisfiesInvariant};
ghost use Rattle.asl_machine.specs.Fresh.{AreApart, IsFreshFor};
ghost use Rattle.asl_machine.specs.MadeBy.{HasMadeInside};
ghost use Rattle.asl_machine.specs.Step.{Step};

/// No frame of another thread has an address in an object that is fresh for a thread, and no cell has one but those of the
/// thread's own fresh objects, and those that it holds for writing, of objects that are fresh for nobody: from a sound state
/// each line of the table keeps this, and it holds of each reached state. By images of a version without fresh
/// objects none is ever fresh.
pub fn fresh_objects_stay_apart()
    ensures line { (image : Image) (s : State) (t : ℕ) (reply : Reply) (new : State) → SatisfiesInvariant image s → AreApart image s
        → Step image s t reply new → AreApart image new }
    ensures reached { (image : Image) (count : ℕ) (s : State) → IsVerified image → IsReached image count s → AreApart image s }
{}

/// What the machine keeps as fresh for a thread is what it has made in its section: at the end of a run from the start of so
/// many threads, exactly the objects that the thread has made inside a section on the way, and has been in one ever since,
/// by an image whose version has fresh objects.
pub fn fresh_objects_are_made_in_the_section()
    ensures fresh { (image : Image) (count : ℕ) (schedule : List ℕ) (replies : List Reply) (s : State) (t object : ℕ) → IsVerified image
        → RunsBy image (start_of image count) schedule replies s
        → (IsFreshFor s t object ↔ (IsTrue (has_fresh image.version) × HasMadeInside image (start_of image count) schedule s t object)) }
{}
