//! The classes on the way: which members share one, and where registers and cells point.

ghost use Rattle.std.specs.Prelude.{◌≡◌, ◌≢◌, ◌<◌, ◌≤◌, ◌⊎◌, ◌+◌, ℕ, false, IsTrue, IfOk, IfSome, is_some, if◌then◌else◌, length, replicate};
ghost use Rattle.std.specs.List.{range_with_len};
ghost use Rattle.asl_points_to.specs.declared.value_flow.Place.{Place as PlaceValue};
ghost use Rattle.asl_points_to.specs.Classes.{Classed, inside};
ghost use Rattle.asl_points_to.specs.Draft.{class_in, at, entry, pointed, inner, first, filled, Holds, IsThere, IsDraft, IsForced, Keeps, PointsTo, CellsPointTo, HasFlowed, IsIdle, IsTakenOver, IsMerged, IsForcedMerge};

use crate::sets::DisjointSets;
use crate::value_flow::{Flow, Place};
use crate::waiting::{Lacking, Waiting};
use std::alloc::{AllocError, Global};

/// The registers of a function, each with a member to whose class it points.
pub type Row = [Option<u32>; 256];

/// Classes on the way. A register, and the cells of a class, point to the class of the member that is kept for them; what
/// is kept for the cells of a class stands at its first member.
#[derive(Drop)]
pub struct ClassDraft {
    pub sets: DisjointSets,
    pub registers: Vec<Row>,
    pub cells: Vec<Option<u32>>,
}

/// The member to whose class a register points.
fn pointed(registers: &[Row], place: Place) -> Option<u32>
    requires { place.function < length registers.now }
    ensures { result ≡ entry registers.now place }
{
    registers[usize::from(place.function)][usize::from(place.register)]
}

/// Lets a register point to the class of a member.
fn set_pointed(registers: &mut [Row], place: Place, member: u32)
    requires { place.function < length registers.old }
    ensures here { entry registers.new place ≡ Some member }
    ensures others { (p : PlaceValue) → p ≢ place → entry registers.new p ≡ entry registers.old p }
    ensures len { length registers.new ≡ length registers.old }
{
    registers[usize::from(place.function)][usize::from(place.register)] = Some(member);
}

/// So many functions, whose registers point nowhere.
fn empty_rows(alloc: Global, functions: usize) -> Result<Vec<Row>, AllocError>
    ensures len { IfOk result (λ rows. length rows.items ≡ functions) }
    ensures empty { IfOk result (λ rows. (p : PlaceValue) → entry rows.items p ≡ None) }
{
    let mut rows = Vec::with_capacity(alloc, functions)?;
    for _ in 0..functions {
        rows.push([None; 256])?;
    }
    Ok(rows)
}

/// Takes what is kept for the cells of `gone` over to `kept`. Where something is kept for both, answers the two.
fn take_over(cells: &mut [Option<u32>], kept: u32, gone: u32) -> Option<(u32, u32)>
    requires different { kept ≢ gone }
    requires kept_there { kept < length cells.old }
    requires gone_there { gone < length cells.old }
    ensures { IsTakenOver cells.old cells.new kept gone result }
{
    let taken = cells[gone as usize];
    cells[gone as usize] = None;
    match (cells[kept as usize], taken) {
        (Some(stays), Some(goes)) => Some((stays, goes)),
        (Some(_), None) => None,
        (None, _) => {
            cells[kept as usize] = taken;
            None
        }
    }
}

impl ClassDraft {
    /// Each member in a class of its own, and nothing points anywhere.
    pub fn new(alloc: Global, members: u32, functions: usize) -> Result<ClassDraft, AllocError>
        ensures sets { IfOk result (λ s. s.sets ≡ range_with_len 0 members) }
        ensures functions { IfOk result (λ s. length s.registers.items ≡ functions) }
        ensures nothing { IfOk result (λ s. (p : PlaceValue) → pointed s p ≡ None) }
        ensures cells { IfOk result (λ s. s.cells.items ≡ replicate members None) }
    {
        Ok(ClassDraft {
            sets: DisjointSets::new(alloc, members)?,
            registers: empty_rows(alloc, functions)?,
            cells: vec![in alloc; None; members as usize]?,
        })
    }

    /// Merges the classes of two members. Where the cells of both point somewhere, answers the members whose classes are
    /// to be merged next.
    fn merge(&mut self, waiting: &mut Waiting, left: u32, right: u32) -> Option<(u32, u32)>
        requires draft { IsDraft self.old }
        requires left { left < length self.old.sets }
        requires right { right < length self.old.sets }
        ensures draft { IsDraft self.new }
        ensures merged { IsMerged self.old self.new left right result }
        ensures forced { (c : Classed) → IsForced c self.old → class_in c left ≡ class_in c right → IsForcedMerge c self.new result }
        ensures fewer { filled self.new.cells.items + (if is_some result then 1 else 0) ≤ filled self.old.cells.items }
    {
        let left = self.sets.first(left);
        let right = self.sets.first(right);
        if left == right {
            return None;
        }
        let kept = left.min(right);
        let gone = left.max(right);
        waiting.merged(&self.cells, kept, gone);
        self.sets.join(kept, gone);
        take_over(&mut self.cells, kept, gone)
    }

    /// Merges the classes of two members, and then those to which the cells of these point, and so on.
    fn unify(&mut self, waiting: &mut Waiting, left: u32, right: u32)
        requires draft { IsDraft self.old }
        requires left { left < length self.old.sets }
        requires right { right < length self.old.sets }
        ensures draft { IsDraft self.new }
        ensures keeps { Keeps self.old self.new }
        ensures joined { first self.new left ≡ first self.new right }
        ensures forced { (c : Classed) → IsForced c self.old → class_in c left ≡ class_in c right → IsForced c self.new }
    {
        let mut next = self.merge(waiting, left, right);
        while let Some((left, right)) = next {
            next = self.merge(waiting, left, right);
        }
    }

    /// Lets a register point to the class of a member.
    fn point(&mut self, waiting: &mut Waiting, place: Place, member: u32)
        requires draft { IsDraft self.old }
        requires place { place.function < length self.old.registers.items }
        requires member { member < length self.old.sets }
        ensures draft { IsDraft self.new }
        ensures keeps { Keeps self.old self.new }
        ensures into { PointsTo self.new place member }
        ensures forced { (c : Classed) → IsForced c self.old → at c place ≡ Some (class_in c member) → IsForced c self.new }
    {
        match pointed(&self.registers, place) {
            Some(other) => self.unify(waiting, other, member),
            None => {
                waiting.pointed(place);
                set_pointed(&mut self.registers, place, member)
            }
        }
    }

    /// Lets the cells of a member's class point to the class of another member.
    fn point_cells(&mut self, waiting: &mut Waiting, address: u32, member: u32)
        requires draft { IsDraft self.old }
        requires address { address < length self.old.sets }
        requires member { member < length self.old.sets }
        ensures draft { IsDraft self.new }
        ensures keeps { Keeps self.old self.new }
        ensures into { CellsPointTo self.new address member }
        ensures forced { (c : Classed) → IsForced c self.old → inside c (class_in c address) ≡ Some (class_in c member) → IsForced c self.new }
    {
        let first = self.sets.first(address);
        match self.cells[first as usize] {
            Some(inside) => self.unify(waiting, inside, member),
            None => {
                waiting.filled(first);
                self.cells[first as usize] = Some(member)
            }
        }
    }

    /// The member to whose class the cells of an address point.
    fn loaded(&mut self, address: Place) -> Option<u32>
        requires draft { IsDraft self.old }
        requires address { address.function < length self.old.registers.items }
        ensures same { self.new ≡ self.old }
        ensures none { result ≡ None → IsIdle self.old (Flow.Load address address) }
        ensures some { IfSome result (λ m. (a : ℕ) × (pointed self.old address ≡ Some a) × (inner self.old a ≡ Some m)) }
    {
        let address = pointed(&self.registers, address)?;
        let first = self.sets.first(address);
        self.cells[first as usize]
    }

    /// Lets a register point to the class of a member, if there is one, and says whether there is.
    fn copy(&mut self, waiting: &mut Waiting, source: Option<u32>, into: Place) -> bool
        requires draft { IsDraft self.old }
        requires into { into.function < length self.old.registers.items }
        requires source { IfSome source (λ m. m < length self.old.sets) }
        ensures draft { IsDraft self.new }
        ensures keeps { Keeps self.old self.new }
        ensures flowed { IsTrue result → (m : ℕ) × (source ≡ Some m) × PointsTo self.new into m }
        ensures idle { result ≡ false → (source ≡ None) × (self.new ≡ self.old) }
        ensures forced { (c : Classed) → IsForced c self.old → ((m : ℕ) → source ≡ Some m → at c into ≡ Some (class_in c m)) → IsForced c self.new }
    {
        match source {
            Some(member) => {
                self.point(waiting, into, member);
                true
            }
            None => false,
        }
    }

    /// Lets the cells of a member's class point to the class of another, if there are the two, and says whether there are.
    fn store(&mut self, waiting: &mut Waiting, address: Option<u32>, source: Option<u32>) -> bool
        requires draft { IsDraft self.old }
        requires address { IfSome address (λ m. m < length self.old.sets) }
        requires source { IfSome source (λ m. m < length self.old.sets) }
        ensures draft { IsDraft self.new }
        ensures keeps { Keeps self.old self.new }
        ensures flowed { IsTrue result → (a m : ℕ) × (address ≡ Some a) × (source ≡ Some m) × CellsPointTo self.new a m }
        ensures idle { result ≡ false → ((address ≡ None) ⊎ (source ≡ None)) × (self.new ≡ self.old) }
        ensures forced { (c : Classed) → IsForced c self.old → ((a m : ℕ) → address ≡ Some a → source ≡ Some m → inside c (class_in c a) ≡ Some (class_in c m)) → IsForced c self.new }
    {
        match (address, source) {
            (Some(address), Some(member)) => {
                self.point_cells(waiting, address, member);
                true
            }
            _ => false,
        }
    }

    /// Lets a flow flow, if there is something to flow, and says whether there was. Wakes flows that wait for what comes to point
    /// somewhere.
    pub fn flow(&mut self, waiting: &mut Waiting, flow: Flow) -> bool
        requires draft { IsDraft self.old }
        requires there { IsThere (length self.old.registers.items) (length self.old.sets) flow }
        ensures draft { IsDraft self.new }
        ensures keeps { Keeps self.old self.new }
        ensures flowed { IsTrue result → HasFlowed self.new flow }
        ensures idle { result ≡ false → IsIdle self.old flow }
        ensures same { result ≡ false → self.new ≡ self.old }
        ensures forced { (c : Classed) → IsForced c self.old → Holds c flow → IsForced c self.new }
    {
        match flow {
            Flow::Member { member, into } => {
                self.point(waiting, into, member);
                true
            }
            Flow::Copy { from, into } => {
                let source = pointed(&self.registers, from);
                self.copy(waiting, source, into)
            }
            Flow::Load { address, into } => {
                let source = self.loaded(address);
                self.copy(waiting, source, into)
            }
            Flow::Store { address, from } => {
                let address = pointed(&self.registers, address);
                let source = pointed(&self.registers, from);
                self.store(waiting, address, source)
            }
        }
    }

    /// What a flow waits for that has nothing to flow.
    pub fn lacking(&mut self, flow: Flow) -> Lacking
        requires draft { IsDraft self.old }
        requires there { IsThere (length self.old.registers.items) (length self.old.sets) flow }
        ensures same { self.new ≡ self.old }
    {
        match flow {
            Flow::Member { .. } => Lacking::Nothing,
            Flow::Copy { from, .. } => Lacking::Register(from),
            Flow::Load { address, .. } => match pointed(&self.registers, address) {
                Some(member) => Lacking::Cells(self.sets.first(member)),
                None => Lacking::Register(address),
            },
            Flow::Store { address, from } => match pointed(&self.registers, address) {
                Some(_) => Lacking::Register(from),
                None => Lacking::Register(address),
            },
        }
    }
}
