//! Laws of assembly text, as functions that do nothing: what each ensures is the law.
ghost use Rattle.std.specs.Prelude.{◌≡◌, List, ℕ, Result};
ghost use Rattle.asl_code.specs.declared.image.Image.{Image};
ghost use Rattle.asl_assembler.specs.Words.{lines_of};
ghost use Rattle.asl_assembler.specs.Text.{Spells, IsBadLine};
ghost use Rattle.asl_assembler.specs.Faults.{IsOutcome};
ghost use Rattle.asl_assembler.specs.declared.assembly.AsmFault.{AsmFault};
ghost use Rattle.asl_assembler.specs.Canonical.{canonical_text, FitsText};
ghost use Rattle.asl_code.specs.Verified.{IsVerified};

/// A text spells one image at the most, and has no bad line where it spells one; one line at the most is the bad one.
pub fn texts_spell_one_image()
    ensures image { (text : List ℕ) (image other : Image) → Spells text image → Spells text other → image ≡ other }
    ensures line { (text : List ℕ) (number other : ℕ) → IsBadLine (lines_of text) number → IsBadLine (lines_of text) other → number ≡ other }
    ensures either { (text : List ℕ) (image : Image) (number : ℕ) → Spells text image → IsBadLine (lines_of text) number → ⊥ }
{}

/// A text has exactly one outcome: a program, or one refusal. Running out of memory is left out.
pub fn texts_have_one_outcome()
    ensures some { (text : List ℕ) → (outcome : Result Image AsmFault) × IsOutcome text outcome }
    ensures one { (text : List ℕ) (outcome other : Result Image AsmFault) → IsOutcome text outcome → IsOutcome text other → outcome ≡ other }
{}

/// The canonical text of a verified image that some text spells, or whose numbers fit their fields, spells this image and
/// no other. So to assemble what was disassembled gives the program back.
pub fn canonical_texts_are_spelled()
    ensures spelled { (image : Image) → IsVerified image → FitsText image → Spells (canonical_text image) image }
    ensures fits { (image : Image) (text : List ℕ) → IsVerified image → Spells text image → FitsText image }
    ensures back { (image other : Image) (text : List ℕ) → IsVerified image → Spells text image
        → Spells (canonical_text image) other → other ≡ image }
{}
