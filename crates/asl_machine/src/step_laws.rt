//! Laws of what steps, stores, new objects and grants leave as it was, as functions that do nothing: what each ensures is
//! the law.
ghost use Rattle.std.specs.Prelude.{◌≡◌, ◌≢◌, ◌++◌, ℕ, List, Some, length, slice_get};
ghost use Rattle.asl_code.specs.Locks.{effect_of};
ghost use Rattle.asl_code.specs.declared.image.Image.{Image};
ghost use Rattle.asl_code.specs.declared.lock.Lock.{Lock};
ghost use Rattle.asl_code.specs.declared.value.Cell.{Cell};
ghost use Rattle.asl_code.specs.declared.value.Value.{Value};
ghost use Rattle.asl_mode_lanes.specs.declared.mode.Mode.{Mode};
ghost use Rattle.asl_mode_lanes.specs.Mode.{AtMost};
ghost use Rattle.asl_lock_forest.specs.declared.node.Node.{Node};
ghost use Rattle.asl_lock_forest.specs.Holding.{Holding, HoldsNothing, held, grant, Covers};
ghost use Rattle.asl_machine.specs.declared.reply.Reply.{Reply};
ghost use Rattle.asl_machine.specs.State.{Object, State, cell_at, class_of, size_of, written};
ghost use Rattle.asl_machine.specs.Request.{asks_of, request_of, IsAsk, IsOn};
ghost use Rattle.asl_machine.specs.Step.{Step};

/// A step of a thread leaves every other thread as it was, and what it holds. An object that is there keeps its class and
/// its size.
pub fn steps_leave_others_alone()
    ensures threads { (image : Image) (s new : State) (t other : ℕ) (reply : Reply) → Step image s t reply new → other ≢ t
        → slice_get new.threads other ≡ slice_get s.threads other }
    ensures holdings { (image : Image) (s new : State) (t other : ℕ) (reply : Reply) (node : Node) → Step image s t reply new → other ≢ t
        → held new.holding other node ≡ held s.holding other node }
    ensures classes { (image : Image) (s new : State) (t object class : ℕ) (reply : Reply) → Step image s t reply new
        → class_of s.objects object ≡ Some class → class_of new.objects object ≡ Some class }
    ensures sizes { (image : Image) (s new : State) (t object size : ℕ) (reply : Reply) → Step image s t reply new
        → size_of s.objects object ≡ Some size → size_of new.objects object ≡ Some size }
{}

/// After a store the cell has the value; every other cell has what it had, and objects keep their classes and sizes.
pub fn stores_change_one_cell()
    ensures stored { (objects : List Object) (cell : Cell) (value old : Value) → cell_at objects cell ≡ Some old
        → cell_at (written objects cell value) cell ≡ Some value }
    ensures others { (objects : List Object) (cell other : Cell) (value : Value) → other ≢ cell
        → cell_at (written objects cell value) other ≡ cell_at objects other }
    ensures classes { (objects : List Object) (cell : Cell) (value : Value) (object : ℕ)
        → class_of (written objects cell value) object ≡ class_of objects object }
    ensures sizes { (objects : List Object) (cell : Cell) (value : Value) (object : ℕ)
        → size_of (written objects cell value) object ≡ size_of objects object }
    ensures count { (objects : List Object) (cell : Cell) (value : Value) → length (written objects cell value) ≡ length objects }
{}

/// Where objects are added after others, the cells of those have what they had, and they keep their classes and sizes.
pub fn new_objects_change_no_cell()
    ensures cells { (objects more : List Object) (cell : Cell) (value : Value) → cell_at objects cell ≡ Some value
        → cell_at (objects ++ more) cell ≡ Some value }
    ensures classes { (objects more : List Object) (object class : ℕ) → class_of objects object ≡ Some class
        → class_of (objects ++ more) object ≡ Some class }
    ensures sizes { (objects more : List Object) (object size : ℕ) → size_of objects object ≡ Some size
        → size_of (objects ++ more) object ≡ Some size }
{}

/// A thread that is granted the request of a list holds each node in at least what each lock of the list asks there, and
/// covers the cells that the lock is on.
pub fn grants_cover_their_locks()
    ensures asked { (h : Holding) (t : ℕ) (objects : List Object) (regs : List Value) (locks : List Lock) (place : ℕ)
        (lock : Lock) (node : Node) (mode : Mode) → HoldsNothing h t → slice_get locks place ≡ Some lock
        → IsAsk (asks_of objects regs lock) node mode
        → AtMost mode (held (grant h t (request_of objects regs locks)) t node) }
    ensures covered { (h : Holding) (t : ℕ) (objects : List Object) (regs : List Value) (locks : List Lock) (place : ℕ)
        (lock : Lock) (cell : Cell) (class : ℕ) → HoldsNothing h t → slice_get locks place ≡ Some lock
        → IsOn objects regs lock cell class
        → Covers (grant h t (request_of objects regs locks)) t cell class (effect_of lock) }
{}
