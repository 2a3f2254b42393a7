//! The second and the third pass, and the end: a law of one step, whatever the lists, and laws of the runs of a program whose
//! lists cover the locks that it needs, as functions that do nothing: what each ensures is the law.
ghost use Rattle.std.specs.Prelude.{◌≡◌, ◌≢◌, ◌<◌, ℕ, ◌∷◌, Bool, Some, slice_get};
ghost use Rattle.asl_code.specs.declared.image.Image.{Image};
ghost use Rattle.asl_code.specs.declared.instr.Instr.{Instr};
ghost use Rattle.asl_code.specs.declared.lock.Lock.{Lock};
ghost use Rattle.asl_lower.specs.Lowered.{Lowered};
ghost use Rattle.asl_lower.specs.LegalLowering.{IsLegalLowering};
ghost use Rattle.asl_points_to.specs.Classes.{Classed};
ghost use Rattle.asl_lock_expr.specs.Links.{view, IsOne, link, dereferenced};
ghost use Rattle.asl_backward_flow.specs.Needed.{Needed};
ghost use Rattle.asl_machine.specs.declared.reply.Reply.{Reply};
ghost use Rattle.asl_machine.specs.State.{Frame, Activity, State, activity_at};
ghost use Rattle.asl_machine.specs.Run.{IsReached};
ghost use Rattle.asl_machine.specs.Cover.{cover};
ghost use Rattle.asl_machine.specs.Step.{Step};
ghost use Rattle.asl_soundness.specs.Coded.{IsImageOf};
ghost use Rattle.asl_soundness.specs.Protected.{Protected, LockThere};
ghost use Rattle.asl_soundness.specs.Safe.{ListsCover, TellsAllStores, NeverFaultsForLocks};
ghost use Rattle.asl_soundness.specs.Wanted.{AreProtected, TopHas, WaitingHave};

/// One step from a reached state, for any one lock. Of the thread's own step, in a section before and after it and in the same
/// frame, as over any instruction but a `call` and a `ret`: where each lock that the link over its instruction gives is
/// protected before it, the lock is protected after it. Of another thread's step: a lock that is protected for a frame with
/// its dereferenced prefixes stays protected. Neither asks more of the lists than that the verifier takes them.
pub fn links_keep_locks_protected()
    ensures own { (l : Lowered) (c : Classed) (stores : ℕ → ℕ → Bool) (k_limit : ℕ) (image : Image) (count : ℕ) (s new : State)
        (t : ℕ) (reply : Reply) (a b : Activity) (i : Instr) (n : Lock)
        → IsLegalLowering l → IsImageOf l c image → IsReached image count s → Step image s t reply new
        → activity_at s.threads t ≡ Some a → slice_get l.code a.top.pc ≡ Some i
        → activity_at new.threads t ≡ Some b → 0 < a.depth → 0 < b.depth → b.below ≡ a.below
        → LockThere c n
        → AreProtected (cover s.holding a.fresh) t s.objects a.top.regs (IsOne (link (view c stores k_limit a.top.function) i n))
        → Protected (cover new.holding b.fresh) t new.objects b.top.regs n }
    ensures others { (l : Lowered) (c : Classed) (image : Image) (count : ℕ) (s new : State) (t u : ℕ) (reply : Reply)
        (a : Activity) (place : ℕ) (f : Frame) (n : Lock)
        → IsLegalLowering l → IsImageOf l c image → IsReached image count s → Step image s u reply new
        → activity_at s.threads t ≡ Some a → slice_get (a.top ∷ a.below) place ≡ Some f → t ≢ u
        → LockThere c n
        → AreProtected (cover s.holding a.fresh) t s.objects f.regs (IsOne (dereferenced n))
        → Protected (cover s.holding a.fresh) t s.objects f.regs n
        → Protected (cover new.holding a.fresh) t new.objects f.regs n }
{}

/// In each reached state all locks that the region of a thread's top frame needs where the frame stands are protected: over
/// the frame's own steps, its loops, and the steps of other threads.
pub fn needed_locks_are_protected()
    ensures { (l : Lowered) (c : Classed) (stores : ℕ → ℕ → Bool) (k_limit : ℕ) (image : Image) (count : ℕ) (s : State) (t : ℕ) (a : Activity)
        → IsLegalLowering l → IsImageOf l c image → TellsAllStores l c stores → ListsCover l c (Needed l c stores k_limit) image
        → IsReached image count s → activity_at s.threads t ≡ Some a
        → TopHas l (Needed l c stores k_limit) (cover s.holding a.fresh) t s.objects a.top a.below }
{}

/// In each reached state, for each frame that waits after a call, all locks that the call leaves of what the frame's region
/// needs after it are protected: over all that the callee does, and the steps of other threads.
pub fn locks_of_waiting_frames_are_protected()
    ensures { (l : Lowered) (c : Classed) (stores : ℕ → ℕ → Bool) (k_limit : ℕ) (image : Image) (count : ℕ) (s : State) (t : ℕ) (a : Activity)
        → IsLegalLowering l → IsImageOf l c image → TellsAllStores l c stores → ListsCover l c (Needed l c stores k_limit) image
        → IsReached image count s → activity_at s.threads t ≡ Some a
        → WaitingHave l c stores k_limit (Needed l c stores k_limit) (cover s.holding a.fresh) t s.objects a.below }
{}

/// No run of such a program ever faults for a missing lock, for a section that was not entered, or for one left open.
pub fn never_unprotected()
    ensures { (l : Lowered) (c : Classed) (stores : ℕ → ℕ → Bool) (k_limit : ℕ) (image : Image)
        → IsLegalLowering l → IsImageOf l c image → TellsAllStores l c stores → ListsCover l c (Needed l c stores k_limit) image
        → NeverFaultsForLocks image }
{}
