//! Programs: the images that are verified.

ghost use Rattle.std.specs.Prelude.{◌≡◌, OnOk, IfOk, IfErr};

use crate::fault::VerifyFault;
use crate::image::{Function, Image};
use crate::image_limits::{Limits, limits_of};
use crate::instr::Instr;
use crate::items::Items;
use crate::lock::Lock;
use crate::verify::first_fault;
use std::marker::Model;

/// A verified image. Contracts see the image.
#[derive(Drop)]
pub struct Program {
    image: Image,
}

impl Model for Program {
    ghost use Rattle.asl_code.specs.declared.image.Image.{Image};
    ghost use Rattle.asl_code.specs.Verified.{IsVerified};

    ghost Value = { Image };

    ghost view = { λ p. p.image };

    ghost invariant = { λ p. IsVerified p.image };
}

impl Program {
    ghost use Rattle.asl_code.specs.Verified.{IsVerified, IsAnswer};
    ghost use Rattle.asl_code.specs.Versions.{most_threads, most_locks, has_fresh};

    /// The program of the image.
    ///
    /// # Errors
    ///
    /// An image that is not verified is handed back, with the fault of the earliest line that applies, at its lowest place.
    pub fn verify(image: Image) -> Result<Program, (VerifyFault, Image)>
        ensures verified { OnOk result (IsVerified image) }
        ensures program { IfOk result (λ program. program ≡ image) }
        ensures fault { IfErr result (λ refused. IsAnswer image refused.0) }
        ensures image_returned { IfErr result (λ refused. refused.1 ≡ image) }
    {
        match first_fault(&image) {
            Some(fault) => Err((fault, image)),
            None => Ok(Program { image }),
        }
    }

    /// The whole image.
    pub fn image(&self) -> &Image
        ensures image { result.now ≡ self.now }
        ensures verified { IsVerified self.now }
    {
        &self.image
    }

    /// The image, which the program gives up.
    pub fn into_image(self) -> Image
        ensures image { result ≡ self }
        ensures verified { IsVerified self }
    {
        let Program { image } = self;
        image
    }

    /// The version of the format.
    pub fn version(&self) -> u32
        ensures version { result ≡ self.now.version }
        ensures verified { IsVerified self.now }
    {
        self.image.version
    }

    /// What the version sets.
    pub fn limits(&self) -> Limits
        ensures threads { result.threads ≡ most_threads self.now.version }
        ensures locks { result.locks ≡ most_locks self.now.version }
        ensures fresh { result.fresh ≡ has_fresh self.now.version }
        ensures verified { IsVerified self.now }
    {
        match limits_of(self.image.version) {
            Some(limits) => limits,
            None => unreachable!(),
        }
    }

    /// How many classes there are.
    pub fn classes(&self) -> u32
        ensures classes { result ≡ self.now.classes }
        ensures verified { IsVerified self.now }
    {
        self.image.classes
    }

    /// The class of each global.
    pub fn globals(&self) -> &[u16]
        ensures globals { result.now ≡ self.now.globals }
        ensures verified { IsVerified self.now }
    {
        self.image.globals.as_slice()
    }

    /// The functions; their bodies lie one after the other in the code.
    pub fn functions(&self) -> &[Function]
        ensures functions { result.now ≡ self.now.functions }
        ensures verified { IsVerified self.now }
    {
        self.image.functions.as_slice()
    }

    /// The number of the entry function.
    pub fn start(&self) -> u16
        ensures start { result ≡ self.now.start }
        ensures verified { IsVerified self.now }
    {
        self.image.start
    }

    /// All instructions.
    pub fn code(&self) -> &[Instr]
        ensures code { result.now ≡ self.now.code }
        ensures verified { IsVerified self.now }
    {
        self.image.code.as_slice()
    }

    /// The lock lists that `acq` names.
    pub fn lists(&self) -> &[Items<Lock>]
        ensures lists { result.now ≡ self.now.lists }
        ensures verified { IsVerified self.now }
    {
        self.image.lists.as_slice()
    }
}
