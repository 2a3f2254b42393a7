//! A law of what chains rest on, as a function that does nothing: what it ensures is the law.
ghost use Rattle.std.specs.Prelude.{◌<◌, List};
ghost use Rattle.asl_lower.specs.Lowered.{Lowered};
ghost use Rattle.asl_class_reasons.specs.declared.place.Place.{Place as PlaceValue};
ghost use Rattle.asl_class_reasons.specs.declared.place.Step.{Step as StepValue};
ghost use Rattle.asl_class_text.specs.declared.told.ToldStep.{ToldStep as ToldValue};
ghost use Rattle.asl_class_text.specs.Chains.{IsStraightChain};
ghost use Rattle.asl_class_text.specs.Grounds.{Meet};

/// A straight chain from one place into another follows from more reasons than the chains that say why its steps meet at cells, whichever
/// way these lead. So nothing that is told rests on itself.
pub fn chains_rest_on_less()
    ensures back { (l : Lowered) (reasons : List StepValue) (from into one other : PlaceValue) (ts us : List ToldValue) (c : IsStraightChain l reasons from into ts) → Meet l ts one other → (g : IsStraightChain l reasons other one us) → g.before < c.before }
    ensures forth { (l : Lowered) (reasons : List StepValue) (from into one other : PlaceValue) (ts us : List ToldValue) (c : IsStraightChain l reasons from into ts) → Meet l ts one other → (g : IsStraightChain l reasons one other us) → g.before < c.before }
{}
