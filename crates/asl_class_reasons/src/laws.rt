//! Laws of reasons, as functions that do nothing: what each ensures is the law.
ghost use Rattle.std.specs.Prelude.{ℕ, List};
ghost use Rattle.asl_lower.specs.Lowered.{Lowered};
ghost use Rattle.asl_points_to.specs.Classes.{Classed, IsLegal, Share};
ghost use Rattle.asl_class_reasons.specs.declared.place.Step.{Step as StepValue};
ghost use Rattle.asl_class_reasons.specs.declared.place.Place.TheVariants.{Member};
ghost use Rattle.asl_class_reasons.specs.declared.straight.StraightChain.{StraightChain as ChainValue};
ghost use Rattle.asl_class_reasons.specs.Reasons.{Joined, IsMember, AreReasons, IsStraight};

/// Where a chain of reasons leads from one member to another, they share a class in all legal classes of the program.
pub fn chains_put_together()
    ensures { (l : Lowered) (steps : List StepValue) → AreReasons l steps → (m n : ℕ) → IsMember l m → Joined steps (Member m) (Member n) → (c : Classed) → IsLegal l c → Share c m n }
{}

/// So they do where a straight chain leads from the one to the other.
pub fn straight_chains_put_together()
    ensures { (l : Lowered) (steps : List StepValue) → AreReasons l steps → (m n : ℕ) → IsMember l m → (chain : ChainValue) → IsStraight l steps (Member m) (Member n) chain → (c : Classed) → IsLegal l c → Share c m n }
{}
