//! Laws of lists of locks and of inferred images, as functions that do nothing: what each ensures is the law. asl_probe_analysis
//! calls each, so that tests/cases see them there. The promises of `infer` are clauses of the call itself (`inferred.rt`).
ghost use Rattle.std.specs.Prelude.{◌≡◌, ◌<◌, ◌≤◌, ◌⊎◌, ◌↔◌, ℕ, Bool, List, length};
ghost use Rattle.asl_code.specs.declared.image.Image.{Image};
ghost use Rattle.asl_code.specs.Fits.{FitsImage};
ghost use Rattle.asl_code.specs.declared.lock.Lock.{Lock as AnyLock};
ghost use Rattle.asl_syntax.specs.Tree.{Item};
ghost use Rattle.asl_lower.specs.Lowered.{Lowered};
ghost use Rattle.asl_lower.specs.LegalLowering.{IsLegalLowering};
ghost use Rattle.asl_points_to.specs.Classes.{Classed, AreClasses};
ghost use Rattle.asl_lock_expr.specs.ClassOf.{TellsStores};
ghost use Rattle.asl_lock_expr.specs.Links.{IsOne};
ghost use Rattle.asl_soundness.specs.Covering.{CoversLock};
ghost use Rattle.asl_soundness.specs.Safe.{NeverFaultsForLocks};
ghost use Rattle.asl_atomicity.specs.Serial.{HasSerialRuns};
ghost use Rattle.asl_atomicity.specs.Renamed.{HasSerialRunsUpTo};
ghost use Rattle.asl_emitter.specs.declared.fault.InferFault.{InferFault as AnyFault};
ghost use Rattle.asl_emitter.specs.Inferred.{IsInferred, IsInferredFor};
ghost use Rattle.asl_emitter.specs.Refused.{IsAccepted, IsRefusedInference};
ghost use Rattle.asl_emitter.specs.Lists.{Absorbs, IsReduced, IsFitted, HasClass};

/// Absorbing is a strict order, so each lock of a set is kept or absorbed by one that is kept.
pub fn absorbing_is_a_strict_order()
    ensures irreflexive { (c : Classed) (f : ℕ) (a : AnyLock) → ¬ Absorbs c f a a }
    ensures transitive { (c : Classed) (f : ℕ) (x y z : AnyLock) → Absorbs c f x y → Absorbs c f y z → Absorbs c f x z }
    ensures kept { (c : Classed) (f : ℕ) (given list : List AnyLock) → IsReduced c f (IsOne given) list → (a : AnyLock) → IsOne given a
        → IsOne list a ⊎ ((m : AnyLock) × IsOne list m × Absorbs c f m a) }
{}

/// The reduced list and the fitted list of a set are one list each, which depends on the set alone, and a fitted list is
/// short.
pub fn lists_depend_on_the_set_alone()
    ensures reduced { (c : Classed) (f : ℕ) (given other xs ys : List AnyLock) → ((a : AnyLock) → IsOne given a ↔ IsOne other a)
        → IsReduced c f (IsOne given) xs → IsReduced c f (IsOne other) ys → xs ≡ ys }
    ensures fitted { (c : Classed) (f most : ℕ) (given other xs ys : List AnyLock) → ((a : AnyLock) → IsOne given a ↔ IsOne other a)
        → IsFitted c f most (IsOne given) xs → IsFitted c f most (IsOne other) ys → xs ≡ ys }
    ensures short { (c : Classed) (f most : ℕ) (given list : List AnyLock) → 0 < most → IsFitted c f most (IsOne given) list → length list ≤ most }
{}

/// For each lock of the set that has a class, a lock of the fitted list covers it: the root, its class or the same
/// expression, with an effect at least as strong.
pub fn fitted_lists_stand_over_their_sets()
    ensures { (c : Classed) (f most : ℕ) (given list : List AnyLock) → IsFitted c f most (IsOne given) list → (a : AnyLock)
        → IsOne given a → HasClass c f a → (m : AnyLock) × IsOne list m × CoversLock c f m a }
{}

/// The image that is inferred for a lowering is verified, no run of it ever faults for a missing lock, for a section that
/// was not entered, or for one left open, and its sections are atomic: each run in which no section finds that there is no room
/// for an object ends as a serial one up to the numbers of objects, and as the very same where no step inside a section is a `new`.
pub fn inferred_images_are_sound()
    ensures verified { (l : Lowered) (c : Classed) (stores : ℕ → ℕ → Bool) (k_limit : ℕ) (image : Image) → IsLegalLowering l → AreClasses l c → c.count ≤ 1024
        → IsInferred l c stores k_limit image → FitsImage image }
    ensures sound { (l : Lowered) (c : Classed) (stores : ℕ → ℕ → Bool) (k_limit : ℕ) (image : Image) → IsLegalLowering l → AreClasses l c → c.count ≤ 1024
        → TellsStores l c stores → IsInferred l c stores k_limit image → NeverFaultsForLocks image }
    ensures atomic { (l : Lowered) (c : Classed) (stores : ℕ → ℕ → Bool) (k_limit : ℕ) (image : Image) → IsLegalLowering l → AreClasses l c → c.count ≤ 1024
        → TellsStores l c stores → IsInferred l c stores k_limit image → (count : ℕ) → HasSerialRuns image count }
    ensures atomic_up_to_numbers { (l : Lowered) (c : Classed) (stores : ℕ → ℕ → Bool) (k_limit : ℕ) (image : Image) → IsLegalLowering l → AreClasses l c → c.count ≤ 1024
        → TellsStores l c stores → IsInferred l c stores k_limit image → (count : ℕ) → HasSerialRunsUpTo image count }
{}

/// A program has one outcome at the most, lack of memory aside: a fault of its lowering keeps out all else, too many classes
/// keep out too many locks, and an accepted program has no fault. Of several regions with too many locks any is told.
pub fn programs_have_one_outcome()
    ensures registers { (is : List Item) (k_limit function : ℕ) (other : AnyFault) → IsRefusedInference is k_limit (AnyFault.Registers function)
        → IsRefusedInference is k_limit other → other ≡ AnyFault.Registers function }
    ensures code_size { (is : List Item) (k_limit : ℕ) (other : AnyFault) → IsRefusedInference is k_limit AnyFault.CodeSize
        → IsRefusedInference is k_limit other → other ≡ AnyFault.CodeSize }
    ensures access { (is : List Item) (k_limit function pc : ℕ) (other : AnyFault) → IsRefusedInference is k_limit (AnyFault.AccessOutsideSection function pc)
        → IsRefusedInference is k_limit other → other ≡ AnyFault.AccessOutsideSection function pc }
    ensures classes { (is : List Item) (k_limit : ℕ) (other : AnyFault) → IsRefusedInference is k_limit AnyFault.TooManyClasses
        → IsRefusedInference is k_limit other → (other ≡ AnyFault.TooManyClasses) ⊎ (other ≡ AnyFault.OutOfMemory) }
    ensures locks { (is : List Item) (k_limit : ℕ) (region : _) (other : AnyFault) → IsRefusedInference is k_limit (AnyFault.TooManyLocks region)
        → IsRefusedInference is k_limit other → ((another : _) × (other ≡ AnyFault.TooManyLocks another)) ⊎ (other ≡ AnyFault.OutOfMemory) }
    ensures accepted { (is : List Item) (k_limit : ℕ) (other : AnyFault) → IsAccepted is k_limit
        → IsRefusedInference is k_limit other → other ≡ AnyFault.OutOfMemory }
{}

/// A program has one inferred image for each longest path, at the most.
pub fn inferred_images_are_one()
    ensures { (is : List Item) (k_limit : ℕ) (image other : Image) → IsInferredFor is k_limit image → IsInferredFor is k_limit other → image ≡ other }
{}
