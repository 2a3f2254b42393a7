//! Laws of the check, as functions that do nothing: what each ensures is the law.
ghost use Rattle.std.specs.Prelude.{◌≡◌, ℕ, List};
ghost use Rattle.asl_code.specs.declared.image.Image.{Image};
ghost use Rattle.asl_syntax.specs.Tree.{Item};
ghost use Rattle.asl_syntax.specs.Parsed.{Parses};
ghost use Rattle.asl_emitter.specs.Inferred.{IsInferredFor};
ghost use Rattle.asl_emitter.specs.Refused.{IsAccepted};
ghost use Rattle.asl_check.specs.declared.fault.CheckFault.{CheckFault};
ghost use Rattle.asl_check.specs.Refused.{IsChecked, IsRefusedLists, IsOutOfMemory, IsOfProgram};

/// The lists that are inferred for an accepted program are enough for it, with paths of as many operations.
pub fn inferred_lists_are_enough()
    ensures { (source : List ℕ) (tree : List Item) (k_limit : ℕ) (image : Image) → Parses source tree → IsAccepted tree k_limit
        → IsInferredFor tree k_limit image → IsChecked tree k_limit image }
{}

/// A program that is checked is refused only where the memory ran out.
pub fn checked_programs_have_no_fault()
    ensures { (tree : List Item) (k_limit : ℕ) (image : Image) (fault : CheckFault) → IsChecked tree k_limit image
        → IsRefusedLists tree k_limit image fault → IsOutOfMemory fault }
{}

/// A program has one refusal of its code and its lists at the most: the first.
pub fn refusals_of_lists_are_one()
    ensures { (tree : List Item) (k_limit : ℕ) (image : Image) (fault other : CheckFault) → IsOfProgram fault → IsOfProgram other
        → IsRefusedLists tree k_limit image fault → IsRefusedLists tree k_limit image other → fault ≡ other }
{}
