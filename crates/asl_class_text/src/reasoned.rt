//! From a source to why the members of each of its classes share it.
ghost use Rattle.std.specs.Prelude.{◌≡◌, ◌++◌, IfOk, IfErr, OnOk, string_bytes};
ghost use Rattle.asl_map.specs.Mapped.{IsMapped, IsRefusedMapping};
ghost use Rattle.asl_class_text.specs.Texts.{reasons_block};
ghost use Rattle.asl_class_text.specs.Classes.{IsToldClass};
ghost use Rattle.asl_class_text.specs.Reasoned.{IsReasoned};

use crate::facts::{Known, known_with};
use crate::lines::push_reasons;
use crate::making::told_class;
use crate::told::ToldClass;
use asl_class_reasons::{Following, Reasons, reasons_of};
use asl_map::{Map, MapFault, map_of};
use std::alloc::{AllocError, Global};
use std::marker::Model;

/// A source with its classes, and the reasons why their members share them.
#[derive(Drop)]
pub struct Reasoned<'s> {
    pub(crate) known: Known<'s>,
    pub(crate) reasons: Reasons,
    pub(crate) following: Following,
}

impl<'s> Model for Reasoned<'s> {
    ghost use Rattle.std.specs.Prelude.{◌<◌, ◌^◌, length};
    ghost use Rattle.asl_class_reasons.specs.Reasons.{AreReasonsOf};
    ghost use Rattle.asl_class_reasons.specs.Following.{AreFollowing};
    ghost use Rattle.asl_class_text.specs.Made.{AreClassesJoined};
    ghost use Rattle.asl_class_text.specs.Reasoned.{Reasoned as ReasonedValue};

    ghost Value = { ReasonedValue };

    ghost view = { λ r. record { known = r.known; steps = r.reasons.steps } };

    ghost invariant = { λ r. (length r.known.facts.classes.items < 2 ^ 20) × AreReasonsOf r.known.facts.lowering r.reasons × AreFollowing r.known.facts.lowering r.reasons.steps r.following × AreClassesJoined r.reasons.steps r.known.facts.classes.items };
}

/// A source with this map, and the reasons.
pub(crate) fn reasoned_with<'s>(
    alloc: Global,
    source: &'s [u8],
    map: Map,
) -> Result<Reasoned<'s>, AllocError>
    requires { IsMapped source.now map }
    ensures { IfOk result (IsReasoned source.entry.now) }
{
    let known = known_with(alloc, source, map)?;
    let reasons = reasons_of(alloc, &known.facts.lowering)?;
    let following = reasons.following(alloc, &known.facts.lowering)?;
    Ok(Reasoned {
        known,
        reasons,
        following,
    })
}

/// A source with its classes, and the reasons why their members share them.
///
/// # Errors
///
/// The first fault of the text, of its lowering and of its classes, in this order; `OutOfMemory` where an allocation failed.
pub fn reasoned_source<'s>(alloc: Global, source: &'s [u8]) -> Result<Reasoned<'s>, MapFault>
    ensures reasoned { IfOk result (IsReasoned source.entry.now) }
    ensures refused { IfErr result (IsRefusedMapping source.entry.now) }
{
    let map = map_of(alloc, source)?;
    match reasoned_with(alloc, source, map) {
        Ok(reasoned) => Ok(reasoned),
        Err(_) => Err(MapFault::OutOfMemory),
    }
}

impl Reasoned<'_> {
    /// What is known of the source.
    pub fn known(&self) -> &Known<'_>
        ensures { result.now ≡ self.now.known }
    {
        &self.known
    }

    /// What is told of a class, of all its members or of the first. Instructions are left out in trials to find one that parts two
    /// members, as long as some trials are left; those that are made are taken away.
    pub fn class(
        &self,
        alloc: Global,
        trials: &mut u32,
        all: bool,
        class: u16,
    ) -> Result<ToldClass, AllocError>
        ensures { IfOk result (IsToldClass self.now.known.facts.lowering self.now.known.facts.classes.items self.now.steps all class) }
    {
        told_class(
            alloc,
            &self.known.facts,
            &self.reasons,
            &self.following,
            trials,
            all,
            class,
        )
    }

    /// Adds why the members of a class share it: nothing of a class with one member.
    pub fn push_reasons(
        &self,
        text: &mut String,
        alloc: Global,
        all: bool,
        told: &ToldClass,
    ) -> Result<(), AllocError>
        ensures { OnOk result (string_bytes text.new ≡ string_bytes text.old ++ reasons_block self.now.known.facts all told.now) }
    {
        push_reasons(text, alloc, &self.known.facts, all, told)
    }
}
