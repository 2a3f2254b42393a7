//! Laws of runs, as functions that do nothing: what each ensures is the law.
ghost use Rattle.std.specs.Prelude.{◌≡◌, ◌<◌, ◌++◌, ℕ, List, All, length};
ghost use Rattle.asl_code.specs.declared.image.Image.{Image};
ghost use Rattle.asl_code.specs.Verified.{IsVerified};
ghost use Rattle.asl_machine.specs.declared.reply.Reply.{Reply};
ghost use Rattle.asl_machine.specs.State.{State};
ghost use Rattle.asl_machine.specs.Run.{start_of, RunsBy, IsReached};
ghost use Rattle.asl_machine.specs.ComputedRun.{replies_of, state_after};
ghost use Rattle.asl_machine.specs.Step.{Step};

/// A run, and one that goes on where it ends, are a run over both schedules. A run over a schedule in two parts is a run over the
/// first part, and one over the second from where the first ends.
pub fn runs_go_on()
    ensures together { (image : Image) (s middle end : State) (first rest : List ℕ) (replies others : List Reply)
        → RunsBy image s first replies middle → RunsBy image middle rest others end
        → RunsBy image s (first ++ rest) (replies ++ others) end }
    ensures parts { (image : Image) (s end : State) (first rest : List ℕ) (replies : List Reply)
        → RunsBy image s (first ++ rest) replies end
        → (middle : State) × (early : List Reply) × (late : List Reply) × (replies ≡ early ++ late)
        × RunsBy image s first early middle × RunsBy image middle rest late end }
{}

/// The start is reached, and so is what a line of the table or a run leaves of a reached state. A reached state has as many
/// threads as the start.
pub fn runs_reach()
    ensures start { (image : Image) (count : ℕ) → IsReached image count (start_of image count) }
    ensures step { (image : Image) (count : ℕ) (s new : State) (t : ℕ) (reply : Reply) → IsReached image count s
        → Step image s t reply new → IsReached image count new }
    ensures run { (image : Image) (count : ℕ) (s end : State) (schedule : List ℕ) (replies : List Reply) → IsReached image count s
        → RunsBy image s schedule replies end → IsReached image count end }
    ensures count { (image : Image) (count : ℕ) (s : State) → IsReached image count s → length s.threads ≡ count }
{}

/// A verified program has a run over each schedule of threads that are there, from their start. No two runs over a schedule from one
/// state differ. The replies and the end of a run are the computed ones.
pub fn runs_are_the_tables()
    ensures some { (image : Image) (count : ℕ) (schedule : List ℕ) → IsVerified image → All (λ t. t < count) schedule
        → (replies : List Reply) × (end : State) × RunsBy image (start_of image count) schedule replies end }
    ensures one { (image : Image) (s end other : State) (schedule : List ℕ) (replies others : List Reply)
        → RunsBy image s schedule replies end → RunsBy image s schedule others other → (replies ≡ others) × (end ≡ other) }
    ensures computed { (image : Image) (s end : State) (schedule : List ℕ) (replies : List Reply) → RunsBy image s schedule replies end
        → (replies ≡ replies_of image s schedule) × (end ≡ state_after image s schedule) }
{}
