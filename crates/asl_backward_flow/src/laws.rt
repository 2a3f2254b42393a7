//! Laws of needed locks, as functions that do nothing: what each ensures is the law.
ghost use Rattle.std.specs.Prelude.{ℕ, Bool, IsTrue};
ghost use Rattle.asl_code.specs.declared.lock.Lock.{Lock};
ghost use Rattle.asl_lower.specs.Lowered.{Lowered};
ghost use Rattle.asl_lower.specs.LegalLowering.{IsLegalLowering};
ghost use Rattle.asl_lower.specs.Regions.{Region, IsIn, IsEnd};
ghost use Rattle.asl_points_to.specs.Classes.{Classed, AreClasses};
ghost use Rattle.asl_lock_expr.specs.ClassOf.{TellsStores};
ghost use Rattle.asl_backward_flow.specs.Needed.{Needed};
ghost use Rattle.asl_backward_flow.specs.Closed.{IsClosed};
ghost use Rattle.asl_backward_flow.specs.Based.{IsLockOf};

/// The needed locks are a closed family, and lie in each closed family that a test tells.
pub fn the_needed_locks_are_the_least_closed_family()
    ensures closed { (l : Lowered) (c : Classed) (stores : ℕ → ℕ → Bool) (k_limit : ℕ) → IsClosed l c stores k_limit (Needed l c stores k_limit) }
    ensures least { (l : Lowered) (c : Classed) (stores : ℕ → ℕ → Bool) (k_limit : ℕ) (has : Region → ℕ → Lock → Bool)
        → IsClosed l c stores k_limit (λ r pc n. IsTrue (has r pc n)) → (r : Region) (pc : ℕ) (n : Lock) → Needed l c stores k_limit r pc n → IsTrue (has r pc n) }
{}

/// Nothing is needed outside a region, nor at its end: the `ret` of a body, the `rel` of a section.
pub fn nothing_is_needed_outside_a_region()
    ensures outside { (l : Lowered) (c : Classed) (stores : ℕ → ℕ → Bool) (k_limit : ℕ) (r : Region) (pc : ℕ) (n : Lock)
        → Needed l c stores k_limit r pc n → (f : ℕ) × IsIn l r f pc }
    ensures end { (l : Lowered) (c : Classed) (stores : ℕ → ℕ → Bool) (k_limit : ℕ) (r : Region) (pc : ℕ) (n : Lock)
        → IsLegalLowering l → IsEnd l r pc → ¬ Needed l c stores k_limit r pc n }
{}

/// What a needed lock names is there: a class, or an expression of the region's function that has a class, begins on one of the
/// function's registers or a global, and has at most as many operations as paths may have.
pub fn what_needed_locks_name_is_there()
    ensures { (l : Lowered) (c : Classed) (stores : ℕ → ℕ → Bool) (k_limit : ℕ) → IsLegalLowering l → AreClasses l c
        → (r : Region) (pc : ℕ) (n : Lock) → Needed l c stores k_limit r pc n → (f q : ℕ) → IsIn l r f q → IsLockOf l c k_limit f n }
{}

/// What is needed depends on the classes that functions may store to, and not on how a test tells them.
pub fn needed_locks_depend_on_written_classes_alone()
    ensures { (l : Lowered) (c : Classed) (stores others : ℕ → ℕ → Bool) (k_limit : ℕ) → TellsStores l c stores → TellsStores l c others
        → (r : Region) (pc : ℕ) (n : Lock) → Needed l c stores k_limit r pc n → Needed l c others k_limit r pc n }
{}
