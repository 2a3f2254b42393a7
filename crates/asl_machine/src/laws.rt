//! Laws of the machine, as functions that do nothing: what each ensures is the law.
ghost use Rattle.std.specs.Prelude.{◌≡◌, ◌≢◌, ◌<◌, ℕ, List, IsTrue};
ghost use Rattle.asl_code.specs.declared.image.Image.{Image};
ghost use Rattle.asl_code.specs.declared.lock.Lock.{Lock};
ghost use Rattle.asl_code.specs.declared.value.Value.{Value};
ghost use Rattle.asl_code.specs.Verified.{IsVerified};
ghost use Rattle.asl_mode_lanes.specs.declared.mode.Mode.TheVariants.{NL};
ghost use Rattle.asl_lock_forest.specs.declared.node.Node.{Node};
ghost use Rattle.asl_lock_forest.specs.Holding.{HoldsNothing, IsLawful, IsWithin, held};
ghost use Rattle.asl_lock_forest.specs.Request.{names_once, asks_modes, asks_parents};
ghost use Rattle.asl_machine.specs.declared.reply.Reply.{Reply};
ghost use Rattle.asl_machine.specs.State.{Object, State, depth_at};
ghost use Rattle.asl_machine.specs.Request.{IsLeast, all_asks, request_of};
ghost use Rattle.asl_machine.specs.Run.{IsReached};
ghost use Rattle.asl_machine.specs.Nodes.{IsNode};
ghost use Rattle.asl_machine.specs.WellFormed.{IsWellFormed};
ghost use Rattle.asl_machine.specs.Step.{Step};
ghost use Rattle.asl_machine.specs.StepFunction.{step_of};
ghost use Rattle.asl_machine.specs.World.{SomeoneGoesOn};

/// The request of a lock list is the least map that is at least every ask of its locks. It names each node once and none in
/// NL, and with each node its parent, in a mode that is enough.
pub fn requests_are_least()
    ensures least { (objects : List Object) (regs : List Value) (locks : List Lock) →
        IsLeast (all_asks objects regs locks) (request_of objects regs locks) }
    ensures once { (objects : List Object) (regs : List Value) (locks : List Lock) → IsTrue (names_once (request_of objects regs locks)) }
    ensures modes { (objects : List Object) (regs : List Value) (locks : List Lock) → IsTrue (asks_modes (request_of objects regs locks)) }
    ensures parents { (objects : List Object) (regs : List Value) (locks : List Lock) → IsTrue (asks_parents (request_of objects regs locks)) }
{}

/// In each state that a schedule of a verified program reaches, each thread's step has a line of the table. In no state has it two
/// with another reply or another state after it. A line has the computed reply and leaves the computed state.
pub fn steps_have_one_line()
    ensures some { (image : Image) (count : ℕ) (s : State) (t : ℕ) → IsVerified image → IsReached image count s
        → t < count → (reply : Reply) × (new : State) × Step image s t reply new }
    ensures one { (image : Image) (s new other : State) (t : ℕ) (reply answer : Reply) → Step image s t reply new
        → Step image s t answer other → (reply ≡ answer) × (new ≡ other) }
    ensures computed { (image : Image) (s new : State) (t : ℕ) (reply : Reply) → Step image s t reply new
        → (reply ≡ (step_of image s t).reply) × (new ≡ (step_of image s t).state) }
{}

/// Each reached state is well formed: every address in a cell, in a frame's register or as the value of an ended thread is
/// that of a cell that is there, every frame is in its function's body with its function's registers, and each frame but the
/// top one waits after the `call` that made the one above.
pub fn reached_states_are_well_formed()
    ensures { (image : Image) (count : ℕ) (s : State) → IsVerified image → IsReached image count s → IsWellFormed image s }
{}

/// In each reached state a thread that is in no section, as one that has ended, holds nothing, and the holding is lawful.
pub fn reached_holdings_are_lawful()
    ensures outside { (image : Image) (count : ℕ) (s : State) (t : ℕ) → IsVerified image → IsReached image count s
        → depth_at s.threads t ≡ 0 → HoldsNothing s.holding t }
    ensures lawful { (image : Image) (count : ℕ) (s : State) → IsVerified image → IsReached image count s
        → IsLawful s.holding }
    ensures within { (image : Image) (count : ℕ) (s : State) → IsVerified image → IsReached image count s
        → IsWithin image.classes count s.holding }
{}

/// In each reached state the nodes that a thread holds are there: of classes that are there, and leaves of cells that are
/// there under their objects' classes. So a node that is not there is held in `NL`.
pub fn held_nodes_are_there()
    ensures { (image : Image) (count : ℕ) (s : State) (t : ℕ) (node : Node) → IsVerified image → IsReached image count s
        → held s.holding t node ≢ NL → IsNode image.classes s.objects node }
{}

/// Where a step is blocked, some running thread holds a node, and its next step is not blocked.
pub fn no_world_is_blocked()
    ensures { (image : Image) (count : ℕ) (s new : State) (t : ℕ) → IsVerified image → IsReached image count s
        → Step image s t Reply.Blocked new → SomeoneGoesOn image s }
{}
