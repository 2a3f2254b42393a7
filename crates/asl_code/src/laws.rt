//! Laws of verified images, as functions that do nothing: what each ensures is the law.
ghost use Rattle.std.specs.Prelude.{◌≡◌, ◌<◌, ◌≤◌, ◌⊎◌, ℕ, Some, length, slice_get};
ghost use Rattle.asl_code.specs.Bodies.{body_of, first_of, total_len};
ghost use Rattle.asl_code.specs.Fits.{LiesIn, FitsImage};
ghost use Rattle.asl_code.specs.Verified.{IsVerified, IsAnswer};
ghost use Rattle.asl_code.specs.Versions.{IsVersion, most_threads, version_for};
ghost use Rattle.asl_code.specs.declared.fault.VerifyFault.{VerifyFault};
ghost use Rattle.asl_code.specs.declared.image.Function.{Function};
ghost use Rattle.asl_code.specs.declared.image.Image.{Image};
ghost use Rattle.asl_code.specs.declared.instr.Instr.{Instr};

/// Each place lies in one body at the most, and the bodies of functions whose lengths add up to the code part it.
pub fn bodies_part_the_code()
    ensures body { (i : Image) (n pc : ℕ) (f : Function) → LiesIn i n pc f
        → body_of i pc ≡ Some (record { first = first_of i.functions n; function = f }) }
    ensures once { (i : Image) (n m pc : ℕ) (f g : Function) → LiesIn i n pc f → LiesIn i m pc g → n ≡ m }
    ensures somewhere { (i : Image) (pc : ℕ) → pc < total_len i.functions
        → (n : ℕ) × (f : Function) × LiesIn i n pc f }
    ensures inside { (i : Image) (n pc : ℕ) (f : Function) → LiesIn i n pc f → pc < total_len i.functions }
    ensures first { (i : Image) (n : ℕ) (f : Function) → slice_get i.functions n ≡ Some f → 0 < f.len
        → LiesIn i n (first_of i.functions n) f }
{}

/// The verified images are those that have all that they name, instruction by instruction. Each place of their code
/// lies in a body.
pub fn verified_images_fit()
    ensures facts { (i : Image) → IsVerified i → FitsImage i }
    ensures verified { (i : Image) → FitsImage i → IsVerified i }
    ensures lies { (i : Image) (pc : ℕ) → IsVerified i → pc < length i.code
        → (n : ℕ) × (f : Function) × LiesIn i n pc f }
    ensures instr { (i : Image) (n pc : ℕ) (f : Function) → IsVerified i → LiesIn i n pc f
        → (instr : Instr) × (slice_get i.code pc ≡ Some instr) }
{}

/// The verifier has no choice: an image that is not verified has exactly one answer, and a verified image has none.
pub fn images_have_one_answer()
    ensures some { (i : Image) → IsVerified i ⊎ ((f : VerifyFault) × IsAnswer i f) }
    ensures one { (i : Image) (f g : VerifyFault) → IsAnswer i f → IsAnswer i g → f ≡ g }
    ensures none { (i : Image) (f : VerifyFault) → IsVerified i → ¬ IsAnswer i f }
{}

/// The version for a number of threads is there, and where some version has so many threads, it is the first that has.
pub fn the_first_version_has_the_threads()
    ensures there { (threads : ℕ) → IsVersion (version_for threads) }
    ensures enough { (threads version : ℕ) → IsVersion version → threads ≤ most_threads version → threads ≤ most_threads (version_for threads) }
    ensures first { (threads version : ℕ) → IsVersion version → threads ≤ most_threads version → version_for threads ≤ version }
{}
