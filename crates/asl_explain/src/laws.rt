//! A law of chains, as a function that does nothing: what it ensures is the law.
ghost use Rattle.std.specs.Prelude.{◌≡◌, ℕ, List, Some, slice_get};
ghost use Rattle.asl_code.specs.declared.lock.Lock.{Lock as AnyLock};
ghost use Rattle.asl_lower.specs.Regions.{Region as AnyRegion};
ghost use Rattle.asl_backward_flow.specs.Needed.{region_of};
ghost use Rattle.asl_explain.specs.declared.explained_value.Step.{Step as StepValue};
ghost use Rattle.asl_explain.specs.Chains.{Read, Needs, AreSteps, IsChain};

/// A region needs a lock at a point exactly where a chain comes to it there, and each step of a chain is of a need.
pub fn needs_are_what_chains_come_to()
    ensures found { (x : Read) (r : AnyRegion) (pc : ℕ) (lock : AnyLock) → Needs x r pc lock → (steps : List StepValue) × IsChain x r pc lock steps }
    ensures needed { (x : Read) (r : AnyRegion) (pc : ℕ) (lock : AnyLock) (steps : List StepValue) → IsChain x r pc lock steps → Needs x r pc lock }
    ensures steps { (x : Read) (steps : List StepValue) → AreSteps x steps → (n : ℕ) (s : StepValue) → slice_get steps n ≡ Some s
        → Needs x (region_of s.region) s.pc s.lock }
{}
