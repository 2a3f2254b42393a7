//! What is told of the classes of a program: their members, and for each member beside the first a chain of reasons.

use asl_class_reasons::{Place, Step};

/// A step of a chain, and which way the chain goes over it.
#[derive(Clone, Copy)]
pub struct ToldStep {
    /// Its number in the list of steps by which its chain was sought.
    pub number: usize,
    /// The step.
    pub step: Step,
    /// Whether the chain goes from the place into which the step leads to the one from which it leads.
    pub back: bool,
}

/// Two members of a class, and why they share it.
#[derive(Drop)]
pub struct ToldPair {
    /// The first member, at which the chain begins.
    pub first: u32,
    /// The other member, at which it ends.
    pub second: u32,
    /// The chain, which is no circle: no step of it rests on what it is to show.
    pub chain: Vec<ToldStep>,
    /// An instruction without which the two members would not share a class, if one was found.
    pub without: Option<u16>,
}

/// Two places by which steps of a chain come to the same cells, one after the other, and why they point to one class.
#[derive(Drop)]
pub struct ToldGround {
    /// The place by which the first of the two steps comes there, at which the chain begins.
    pub one: Place,
    /// The place by which the other does, at which it ends.
    pub other: Place,
    /// The chain, which is no circle.
    pub chain: Vec<ToldStep>,
}

/// What the chains of a class rest on.
#[derive(Drop)]
pub struct ToldGrounds {
    /// The grounds, those of the pairs' chains first, then those of the grounds' own.
    pub items: Vec<ToldGround>,
    /// Whether there are more.
    pub more: bool,
}

/// A class, and why its members share it.
#[derive(Drop)]
pub struct ToldClass {
    /// Its number.
    pub class: u16,
    /// Its members, rising.
    pub members: Vec<u32>,
    /// The first member with each of the others that are told.
    pub pairs: Vec<ToldPair>,
    /// Why steps of the chains come to the same cells.
    pub grounds: ToldGrounds,
}
