//! Laws of lowerings, as functions that do nothing: what each ensures is the law.
ghost use Rattle.std.specs.Prelude.{◌≡◌, ◌≢◌, ℕ, suc, ◌⊎◌, List, [], ◌∷◌, Some, IsTrue, slice_get};
ghost use Rattle.asl_code.specs.declared.instr.Instr.{Instr};
ghost use Rattle.asl_lower.specs.declared.section.Section.{Section};
ghost use Rattle.asl_syntax.specs.Tree.{Item};
ghost use Rattle.asl_syntax.specs.Parsed.{IsParsed};
ghost use Rattle.asl_lower.specs.Lowered.{Lowered, IsLowering};
ghost use Rattle.asl_lower.specs.OpenSections.{open_at, release_of, InBody, FlowsTo, CallsAt, IsBare, IsInner, is_access, IsBareAccess};
ghost use Rattle.asl_lower.specs.Regions.{Region, Inside, IsIn, IsEnd, outermost, AreDistinct};
ghost use Rattle.asl_lower.specs.LegalLowering.{IsLegalLowering};
ghost use Rattle.asl_lower.specs.Limits.{HasMain, KeepsLimits};
ghost use Rattle.asl_lower.specs.Operands.{AreOperandsThere};
ghost use Rattle.asl_lower.specs.Facts.{IsParted, IsNested, HasSections, ReturnsLast, StaysInside, IsNumbered};

/// Each program has one lowering.
pub fn one_lowering()
    ensures there { (is : List Item) → (l : Lowered) × IsLowering is l }
    ensures one { (is : List Item) (l m : Lowered) → IsLowering is l → IsLowering is m → l ≡ m }
{}

/// The bodies of the functions part the code.
pub fn bodies_part_the_code()
    ensures lowering { (is : List Item) (l : Lowered) → IsLowering is l → IsParted l }
    ensures kept { (l : Lowered) → IsLegalLowering l → IsParted l }
{}

/// Sections nest: what is open changes only at `acq` and `rel`, and nothing is open at the ends of a body.
pub fn sections_nest()
    ensures lowering { (is : List Item) (l : Lowered) → IsLowering is l → IsNested l }
    ensures kept { (l : Lowered) → IsLegalLowering l → IsNested l }
{}

/// The table of sections has each section of the code, and no other.
pub fn sections_are_listed()
    ensures lowering { (is : List Item) (l : Lowered) → IsLowering is l → HasSections l }
    ensures kept { (l : Lowered) → IsLegalLowering l → HasSections l }
{}

/// A `ret` ends each body, and stands nowhere else.
pub fn returns_stand_last()
    ensures lowering { (is : List Item) (l : Lowered) → IsLowering is l → ReturnsLast l }
    ensures kept { (l : Lowered) → IsLegalLowering l → ReturnsLast l }
{}

/// Control stays in its body, and in a section until its `rel`.
pub fn control_stays_inside()
    ensures lowering { (is : List Item) (l : Lowered) → IsLowering is l → StaysInside l }
    ensures kept { (l : Lowered) → IsLegalLowering l → StaysInside l }
{}

/// Sites and sections are numbered in the order of the code.
pub fn numbers_follow_the_code()
    ensures lowering { (is : List Item) (l : Lowered) → IsLowering is l → IsNumbered l }
    ensures kept { (l : Lowered) → IsLegalLowering l → IsNumbered l }
{}

/// What a bare function calls outside a section is bare; what is called in a section or by an inner function is inner.
pub fn calls_pass_on()
    ensures outside { (l : Lowered) (f pc g : ℕ) → IsBare l f → InBody l f pc → CallsAt l pc g → open_at l.code pc ≡ [] → IsBare l g }
    ensures inside { (l : Lowered) (pc g : ℕ) → CallsAt l pc g → open_at l.code pc ≢ [] → IsInner l g }
    ensures inner { (l : Lowered) (f pc g : ℕ) → IsInner l f → InBody l f pc → CallsAt l pc g → IsInner l g }
{}

/// Where no bare function has an access outside its sections, each access in the body of a bare function is in a section.
pub fn bare_accesses_are_in_sections()
    ensures { (l : Lowered) → ((g q : ℕ) → ¬ IsBareAccess l g q) → (f pc : ℕ) (i : Instr) → IsBare l f → InBody l f pc → slice_get l.code pc ≡ Some i → IsTrue (is_access i) → open_at l.code pc ≢ [] }
{}

/// What the instructions of a program that breaks no rule name is there.
pub fn operands_are_there()
    ensures lowering { (is : List Item) (l : Lowered) → IsParsed is → IsLowering is l → AreOperandsThere l }
    ensures kept { (l : Lowered) → IsLegalLowering l → AreOperandsThere l }
{}

/// A program that breaks no rule has few globals, functions, sections and parameters, and the table has its `main`.
pub fn limits_are_kept()
    ensures limits { (is : List Item) (l : Lowered) → IsParsed is → IsLowering is l → KeepsLimits l }
    ensures main { (is : List Item) (l : Lowered) → IsParsed is → IsLowering is l → HasMain l }
    ensures kept { (l : Lowered) → IsLegalLowering l → KeepsLimits l }
    ensures kept_main { (l : Lowered) → IsLegalLowering l → HasMain l }
{}

/// Where control continues from a region is a point of it, or its end. A section is entered at its first point, or at its
/// end; and where a section is open, the place is a point of the outermost one, or its end.
pub fn regions_are_left_at_their_ends()
    ensures goes_on { (l : Lowered) → IsLegalLowering l → (r : Region) (f pc to : ℕ) (i : Instr) → IsIn l r f pc → slice_get l.code pc ≡ Some i → FlowsTo i pc to → IsIn l r f to ⊎ IsEnd l r to }
    ensures entered { (l : Lowered) → IsLegalLowering l → (n : ℕ) (s : Section) → slice_get l.sections n ≡ Some s → IsIn l (Inside n) s.function (suc s.acquire) ⊎ IsEnd l (Inside n) (suc s.acquire) }
    ensures outermost { (l : Lowered) → IsLegalLowering l → (f pc n : ℕ) → InBody l f pc → outermost (open_at l.code pc) ≡ Some n → IsIn l (Inside n) f pc ⊎ IsEnd l (Inside n) pc }
{}

/// No section is open twice.
pub fn open_sections_are_distinct()
    ensures { (l : Lowered) → IsLegalLowering l → (pc : ℕ) → AreDistinct (open_at l.code pc) }
{}

/// After an `acq` its section is the innermost that is open. The outermost stays so with each step until its own `rel`,
/// after which nothing is open.
pub fn the_outermost_section_stays()
    ensures opened { (l : Lowered) (pc n : ℕ) → slice_get l.code pc ≡ Some (Instr.Acquire n) → open_at l.code (suc pc) ≡ n ∷ open_at l.code pc }
    ensures stays { (l : Lowered) → IsLegalLowering l → (pc to n : ℕ) (i : Instr) → slice_get l.code pc ≡ Some i → FlowsTo i pc to → outermost (open_at l.code pc) ≡ Some n → ¬ (release_of l n ≡ Some pc) → outermost (open_at l.code to) ≡ Some n }
    ensures left { (l : Lowered) → IsLegalLowering l → (pc n : ℕ) → release_of l n ≡ Some pc → outermost (open_at l.code pc) ≡ Some n → open_at l.code (suc pc) ≡ [] }
{}
