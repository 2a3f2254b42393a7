//! Laws of expressions and links, as functions that do nothing: what each ensures is the law.
ghost use Rattle.std.specs.Prelude.{◌≡◌, ◌≢◌, ◌⊎◌, ◌↔◌, ◌++◌, ℕ, Bool, true, false, List, [], Option, Some};
ghost use Rattle.asl_code.specs.declared.value.Value.{Value};
ghost use Rattle.asl_code.specs.declared.value.Cell.{Cell};
ghost use Rattle.asl_code.specs.declared.value.Effect.{Effect};
ghost use Rattle.asl_code.specs.declared.value.Effect.TheVariants.{Read};
ghost use Rattle.asl_code.specs.declared.instr.Instr.{Instr};
ghost use Rattle.asl_code.specs.declared.instr.Instr.TheVariants.{Call};
ghost use Rattle.asl_code.specs.declared.lock.Base.{Base as AnyBase};
ghost use Rattle.asl_code.specs.declared.lock.Base.TheVariants.{Reg};
ghost use Rattle.asl_code.specs.declared.lock.Expr.{Expr};
ghost use Rattle.asl_code.specs.declared.lock.Lock.{Lock};
ghost use Rattle.asl_code.specs.declared.lock.Lock.TheVariants.{Class as ClassLock};
ghost use Rattle.asl_code.specs.declared.path.Op.{Op};
ghost use Rattle.asl_lower.specs.Lowered.{Lowered};
ghost use Rattle.asl_lower.specs.OpenSections.{InBody, CallsAt};
ghost use Rattle.asl_points_to.specs.Classes.{Classed};
ghost use Rattle.asl_expression.specs.Expression.{Seen, pointed, base_cell, path_cell, cell_denoted};
ghost use Rattle.asl_lock_expr.specs.ClassOf.{path_class, class_of, MayStore};
ghost use Rattle.asl_lock_expr.specs.Links.{LinkContext, IsOne, IsSettled, on, hits, begins_with_star, goes_through, link, settle, prefixes, dereferenced};
ghost use Rattle.asl_lock_expr.specs.Partings.{PartsAtStar};
ghost use Rattle.asl_lock_expr.specs.Agrees.{HeapAgrees, IsWrite};
ghost use Rattle.asl_lock_expr.specs.Order.{AreInOrder};

/// The cell and the class at the end of a path are those at the end of its second part, from the end of its first.
pub fn paths_go_in_parts()
    ensures cells { (h : Seen) (p q : List Op) (start : Option Cell) → path_cell h (p ++ q) start ≡ path_cell h q (path_cell h p start) }
    ensures classes { (c : Classed) (p q : List Op) (start : Option ℕ) → path_class c (p ++ q) start ≡ path_class c q (path_class c p start) }
{}

/// Where the cells of a heap agree with the classes, the cell to which a path leads is of the class of the path.
pub fn cells_are_of_their_expressions_classes()
    ensures { (c : Classed) (classes : ℕ → Option ℕ) (h : Seen) → HeapAgrees c classes h → (ops : List Op) (cell end : Cell) (x : ℕ)
        → classes cell.object ≡ Some x → path_cell h ops (Some cell) ≡ Some end
        → (y : ℕ) × (path_class c ops (Some x) ≡ Some y) × (classes end.object ≡ Some y) }
{}

/// After a store a path leads where it led, or to where a path that the link of the store offers leads from the stored
/// value in the old heap.
pub fn stores_move_paths_as_links_say()
    ensures { (c : Classed) (classes : ℕ → Option ℕ) (h new : Seen) (c0 : Cell) (v : Value) → IsWrite h new c0 v → HeapAgrees c classes new
        → (b hit : ℕ) (effect : Effect) → classes c0.object ≡ Some hit → (ops : List Op) (cell end : Cell) (x : ℕ)
        → classes cell.object ≡ Some x → path_cell new ops (Some cell) ≡ Some end
        → ((path_cell h ops (Some cell) ≡ Some end) × (begins_with_star ops ≡ true → cell ≢ c0))
        ⊎ ((r : List Op) × IsOne (hits c (Some hit) b effect (Some x) ops) (on (Reg b) r effect) × (path_cell h r (pointed v) ≡ Some end)) }
{}

/// After a store a path leads where it led, or to no cell as before, if it goes through no class that is stored to, or if
/// none of its dereferenced prefixes denotes the cell.
pub fn stores_elsewhere_move_no_path()
    ensures classes { (c : Classed) (classes : ℕ → Option ℕ) (h new : Seen) (c0 : Cell) (v : Value) → IsWrite h new c0 v → HeapAgrees c classes new
        → (stores : ℕ → Bool) (hit : ℕ) → classes c0.object ≡ Some hit → stores hit ≡ true → (ops : List Op) (cell : Cell) (x : ℕ)
        → classes cell.object ≡ Some x → goes_through c stores (Some x) ops ≡ false
        → path_cell new ops (Some cell) ≡ path_cell h ops (Some cell) }
    ensures prefixes { (h new : Seen) (c0 : Cell) (v : Value) → IsWrite h new c0 v → (regs : List Value) (e : Expr)
        → ((d : Expr) → IsOne (prefixes e.base [] e.path) (on d.base d.path Read) → cell_denoted h regs d ≢ Some c0)
        → path_cell new e.path (base_cell regs e.base) ≡ cell_denoted h regs e }
{}

/// Links ask at each `*` of a path, that is, wherever the path parts into a front, a `*` and a rest: a store hits it if the front
/// is of the class that is stored to, and continues with the rest from the stored register; a call goes through it if the front
/// is of a class that is stored to; and the front is read when the path is evaluated.
pub fn links_ask_at_each_star()
    ensures hits { (c : Classed) (hit : Option ℕ) (b : ℕ) (effect : Effect) (class : Option ℕ) (ops : List Op) (l : Lock)
        → IsOne (hits c hit b effect class ops) l
        ↔ PartsAtStar ops (λ front rest. (x : ℕ) × (path_class c front class ≡ Some x) × (hit ≡ Some x) × (l ≡ on (Reg b) rest effect)) }
    ensures through { (c : Classed) (stores : ℕ → Bool) (class : Option ℕ) (ops : List Op)
        → (goes_through c stores class ops ≡ true)
        ↔ PartsAtStar ops (λ front rest. (x : ℕ) × (path_class c front class ≡ Some x) × (stores x ≡ true)) }
    ensures prefixes { (base : AnyBase) (ops : List Op) (effect : Effect) (l : Lock)
        → IsOne (dereferenced (on base ops effect)) l ↔ PartsAtStar ops (λ front rest. l ≡ on base front Read) }
{}

/// What is linked is no longer than it may be, and has a class.
pub fn links_are_settled()
    ensures { (v : LinkContext) (i : Instr) (l n : Lock) → IsOne (link v i l) n → IsSettled v n }
{}

/// Settling never drops an expression that has a class: it stays, or its class comes in its place.
pub fn expressions_with_a_class_are_left()
    ensures { (v : LinkContext) (e : Expr) (effect : Effect) (x : ℕ) → class_of v.classes v.function e ≡ Some x
        → IsOne (settle v (on e.base e.path effect)) (on e.base e.path effect) ⊎ IsOne (settle v (on e.base e.path effect)) (ClassLock x effect) }
{}

/// The dereferenced prefixes of what a call leaves are left too.
pub fn prefixes_of_what_a_call_leaves_are_left()
    ensures { (v : LinkContext) (a first g : ℕ) (m : Lock) (e k : Expr) (effect other : Effect)
        → IsOne (link v (Call a first g) m) (on e.base e.path effect) → IsOne (dereferenced (on e.base e.path effect)) (on k.base k.path other)
        → IsOne (link v (Call a first g) (on k.base k.path other)) (on k.base k.path other) }
{}

/// A caller may store to each class to which its callee may store.
pub fn written_classes_pass_on()
    ensures { (l : Lowered) (c : Classed) (f pc g x : ℕ) → InBody l f pc → CallsAt l pc g → MayStore l c g x → MayStore l c f x }
{}

/// Lists in order that have the same locks are the same.
pub fn lists_in_order_are_one()
    ensures { (ms ns : List Lock) → AreInOrder ms → AreInOrder ns → ((l : Lock) → IsOne ms l ↔ IsOne ns l) → ms ≡ ns }
{}
