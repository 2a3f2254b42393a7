//! The first pass: classes and structure. Laws of the runs of an image of a lowering with legal classes, whatever its lists,
//! as functions that do nothing: what each ensures is the law.
ghost use Rattle.std.specs.Prelude.{◌≡◌, ◌≢◌, ◌<◌, ℕ, IsTrue, Some, slice_get};
ghost use Rattle.asl_code.specs.declared.image.Image.{Image};
ghost use Rattle.asl_code.specs.declared.instr.Instr.{Instr};
ghost use Rattle.asl_lower.specs.Lowered.{Lowered};
ghost use Rattle.asl_lower.specs.OpenSections.{is_access};
ghost use Rattle.asl_lower.specs.LegalLowering.{IsLegalLowering};
ghost use Rattle.asl_points_to.specs.Classes.{Classed};
ghost use Rattle.asl_machine.specs.declared.fault.Fault.TheVariants.{NoSection, Open};
ghost use Rattle.asl_machine.specs.declared.reply.Reply.{Reply};
ghost use Rattle.asl_machine.specs.declared.reply.Reply.TheVariants as reply;
ghost use Rattle.asl_machine.specs.State.{Activity, State, activity_at};
ghost use Rattle.asl_machine.specs.Run.{IsReached};
ghost use Rattle.asl_machine.specs.Step.{Step};
ghost use Rattle.asl_soundness.specs.Coded.{IsImageOf};
ghost use Rattle.asl_soundness.specs.Agrees.{Agrees};
ghost use Rattle.asl_soundness.specs.Nested.{AreNested};

/// In each reached state every address, in a cell or in a register of any frame, is that of an object of the class that the
/// classes name there.
pub fn states_agree_with_classes()
    ensures { (l : Lowered) (c : Classed) (image : Image) (count : ℕ) (s : State) → IsLegalLowering l → IsImageOf l c image
        → IsReached image count s → Agrees c s }
{}

/// In each reached state the depth of a thread is the number of the sections that are open at its frames; functions above a
/// frame in a section are inner, the others are bare.
pub fn depths_count_open_sections()
    ensures { (l : Lowered) (c : Classed) (image : Image) (count : ℕ) (s : State) → IsLegalLowering l → IsImageOf l c image
        → IsReached image count s → AreNested l s }
{}

/// No step leaves a section that was not entered, and no thread returns from its last frame in one.
pub fn sections_are_entered_and_left()
    ensures { (l : Lowered) (c : Classed) (image : Image) (count : ℕ) (s new : State) (t : ℕ) (answer : Reply) → IsLegalLowering l
        → IsImageOf l c image → IsReached image count s → Step image s t answer new
        → (answer ≢ reply.Fault NoSection) × (answer ≢ reply.Fault Open) }
{}

/// Who stands at an access is in a section.
pub fn accesses_are_in_sections()
    ensures { (l : Lowered) (c : Classed) (image : Image) (count : ℕ) (s : State) (t : ℕ) (a : Activity) (i : Instr) → IsLegalLowering l → IsImageOf l c image
        → IsReached image count s → activity_at s.threads t ≡ Some a → slice_get l.code a.top.pc ≡ Some i → IsTrue (is_access i) → 0 < a.depth }
{}
