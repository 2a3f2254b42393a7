//! The laws of atomicity, as contracts of functions that do nothing.
ghost use Rattle.std.specs.Prelude.{ℕ};
ghost use Rattle.asl_code.specs.declared.image.Image.{Image};
ghost use Rattle.asl_code.specs.Fits.{FitsImage};
ghost use Rattle.asl_atomicity.specs.Serial.{HasSerialRuns, IsGuarded};
ghost use Rattle.asl_atomicity.specs.Renamed.{HasSerialRunsUpTo};

/// Where each entry of a section covers what its list reads, any run in which no step inside a section is a `new` has a serial
/// one: in it each step inside a section directly follows one of its own thread, each thread is told the same, and the last
/// state is the same (`docs/ATOMICITY.md`).
pub fn runs_have_serial_ones()
    ensures { (image : Image) (count : ℕ) → FitsImage image → IsGuarded image count → HasSerialRuns image count }
{}

/// In such an image each run in which no section runs out of objects has a serial one that ends in the same state, and tells
/// each thread the same, but for the numbers of the objects that are no globals (`docs/ATOMICITY.md`).
pub fn runs_have_serial_ones_up_to_numbers()
    ensures { (image : Image) (count : ℕ) → FitsImage image → IsGuarded image count → HasSerialRunsUpTo image count }
{}
