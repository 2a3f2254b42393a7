//! Laws of classes, as functions that do nothing: what each ensures is the law.
ghost use Rattle.std.specs.Prelude.{◌≡◌, ◌+◌, ◌<◌, ℕ, Some, slice_get};
ghost use Rattle.asl_code.specs.declared.image.Function.{Function as FunctionValue};
ghost use Rattle.asl_code.specs.declared.instr.Instr.TheVariants.{Call, Return};
ghost use Rattle.asl_lower.specs.Lowered.{Lowered};
ghost use Rattle.asl_lower.specs.OpenSections.{InBody};
ghost use Rattle.asl_points_to.specs.Classes.{Classed, to, inside, members, Gives, IsLegal, IsLeast, IsFinest, AreClasses};

/// A program has one numbering of its least legal classes, at the most; `classes` answers it, unless it has more than 1,024
/// classes or memory runs out.
pub fn classes_are_one()
    ensures { (l : Lowered) (c d : Classed) → AreClasses l c → AreClasses l d → c ≡ d }
{}

/// The least legal classes are the finest: members share a class, and something points somewhere, only where this is so in
/// all legal classes.
pub fn least_classes_are_finest()
    ensures { (l : Lowered) (c : Classed) → IsLeast l c → IsFinest l c }
{}

/// Each number below the count is the class of a member, and members, registers and cells have no other class.
pub fn classes_are_there()
    ensures used { (l : Lowered) (c : Classed) → AreClasses l c → (k : ℕ) → k < c.count → (m : ℕ) × (slice_get (members c) m ≡ Some k) }
    ensures members { (l : Lowered) (c : Classed) → AreClasses l c → (m x : ℕ) → slice_get (members c) m ≡ Some x → x < c.count }
    ensures registers { (l : Lowered) (c : Classed) → AreClasses l c → (f r x : ℕ) → to c f r ≡ Some x → x < c.count }
    ensures cells { (l : Lowered) (c : Classed) → AreClasses l c → (x y : ℕ) → inside c x ≡ Some y → y < c.count }
{}

/// A call passes where its arguments point to the parameters, and where the returned register points back to the register of
/// the result.
pub fn calls_pass_classes()
    ensures arguments { (l : Lowered) (c : Classed) (f pc a first g n : ℕ) (callee : FunctionValue) → IsLegal l c
        → InBody l f pc → slice_get l.code pc ≡ Some (Call a first g) → slice_get l.functions g ≡ Some callee
        → n < callee.params → Gives (to c f (first + n)) (to c g n) }
    ensures result { (l : Lowered) (c : Classed) (f pc a first g last r : ℕ) → IsLegal l c
        → InBody l f pc → slice_get l.code pc ≡ Some (Call a first g) → InBody l g last
        → slice_get l.code last ≡ Some (Return r) → Gives (to c g r) (to c f a) }
{}
