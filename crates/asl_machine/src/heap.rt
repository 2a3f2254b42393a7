//! The objects of a machine and what their cells hold.
ghost use Rattle.std.specs.Prelude.{◌≡◌, ◌<◌, ◌++◌, ◌∷◌, [], IfOk, OnOk, OnErr, Some, length, slice_get, map, replicate, pos, IsSome};

use crate::packed_value::PackedValue;
use asl_code::{Cell, Value};
use asl_expression::HeapView;
use std::alloc::{AllocError, Global};
use std::marker::Model;

/// An object: its class, and what its cells hold.
#[derive(Drop)]
struct Object {
    class: u16,
    cells: Vec<PackedValue>,
}

impl Model for Object {
    ghost use Rattle.asl_machine.specs.State.{Object};

    ghost Value = { Object };

    ghost view = { λ o. record { class = o.class; cells = o.cells.items } };

    ghost use Rattle.std.specs.Prelude.{◌<◌, length};

    ghost invariant = { λ o. length o.cells.items < 256 };
}

impl Object {
    ghost use Rattle.asl_machine.specs.State.{with_cell, new_object};
    ghost use Rattle.asl_machine.specs.Run.{global_object};

    /// The object of a global.
    fn of_global(alloc: Global, class: u16) -> Result<Object, AllocError>
        ensures { IfOk result (λ object. object ≡ global_object class) }
    {
        Object::new(alloc, 1, class)
    }

    /// A new object of the class, with so many cells.
    fn new(alloc: Global, cells: u8, class: u16) -> Result<Object, AllocError>
        ensures { IfOk result (λ object. object ≡ new_object class cells) }
    {
        Ok(Object {
            class,
            cells: zeros(alloc, cells)?,
        })
    }

    /// An equal object.
    fn try_copy(&self, alloc: Global) -> Result<Object, AllocError>
        ensures { IfOk result (λ object. object ≡ self.now) }
    {
        Ok(Object {
            class: self.class,
            cells: self.cells.as_slice().to_vec(alloc)?,
        })
    }

    /// The class of the object.
    fn class(&self) -> u16
        ensures { result ≡ self.now.class }
    {
        self.class
    }

    /// How many cells the object has.
    fn size(&self) -> u8
        ensures { result ≡ length self.now.cells }
    {
        self.cells.len() as u8
    }

    /// What its cell at the offset holds, if it has that cell.
    fn cell(&self, offset: usize) -> Option<PackedValue>
        ensures { result ≡ slice_get self.now.cells offset }
    {
        self.cells.get(offset).copied()
    }

    /// Stores a value in the cell at the offset.
    fn write(&mut self, offset: usize, value: PackedValue)
        requires { offset < length self.old.cells }
        ensures { self.new ≡ with_cell self.old offset value }
    {
        self.cells[offset] = value;
    }
}

/// So many cells that hold 0.
fn zeros(alloc: Global, count: u8) -> Result<Vec<PackedValue>, AllocError>
    ensures { IfOk result (λ cells. cells.items ≡ replicate count (Value.Int (pos 0))) }
{
    let mut cells = Vec::with_capacity(alloc, usize::from(count))?;
    cells.resize(usize::from(count), PackedValue::of(Value::Int(0)))?;
    Ok(cells)
}

/// All objects, by their numbers. Contracts see the list of them.
#[derive(Drop)]
pub struct Heap {
    objects: Vec<Object>,
}

impl Model for Heap {
    ghost use Rattle.std.specs.Prelude.{List};
    ghost use Rattle.asl_machine.specs.State.{Object};

    ghost Value = { List Object };

    ghost view = { λ h. h.objects.items };
}

impl Heap {
    ghost use Rattle.asl_machine.specs.State.{cell_at, size_of, class_of, written, new_object};
    ghost use Rattle.asl_machine.specs.Run.{global_object};

    /// The objects of the globals of these classes.
    pub fn of_globals(alloc: Global, classes: &[u16]) -> Result<Heap, AllocError>
        ensures { IfOk result (λ heap. heap ≡ map global_object classes.now) }
    {
        let mut objects = Vec::new(alloc);
        for class in classes {
            objects.push(Object::of_global(alloc, *class)?)?;
        }
        Ok(Heap { objects })
    }

    /// A heap of equal objects.
    pub fn try_copy(&self, alloc: Global) -> Result<Heap, AllocError>
        ensures { IfOk result (λ heap. heap ≡ self.now) }
    {
        let mut objects = Vec::new(alloc);
        for object in &self.objects {
            objects.push(object.try_copy(alloc)?)?;
        }
        Ok(Heap { objects })
    }

    /// How many objects there are.
    pub fn len(&self) -> usize
        ensures { result ≡ length self.now }
    {
        self.objects.len()
    }

    /// How many cells the object has, if it is there.
    pub fn size(&self, number: usize) -> Option<u8>
        ensures { result ≡ size_of self.now number }
    {
        Some(self.objects.get(number)?.size())
    }

    /// The class of the object, if it is there.
    pub fn class(&self, number: usize) -> Option<u16>
        ensures { result ≡ class_of self.now number }
    {
        Some(self.objects.get(number)?.class())
    }

    /// What the cell holds, if it is there.
    pub fn cell(&self, cell: Cell) -> Option<PackedValue>
        ensures { result ≡ cell_at self.now cell }
    {
        let object = self.objects.get(usize::from(cell.object))?;
        object.cell(usize::from(cell.offset))
    }

    /// What a cell that is there holds.
    pub fn read(&self, cell: Cell) -> PackedValue
        requires { IsSome (cell_at self.now cell) }
        ensures { cell_at self.now cell ≡ Some result }
    {
        self.cell(cell).unwrap()
    }

    /// Makes an object of the class with so many cells, and answers its number.
    pub fn make(&mut self, alloc: Global, cells: u8, class: u16) -> Result<u16, AllocError>
        requires { length self.old < 65536 }
        ensures number { IfOk result (λ number. number ≡ length self.old) }
        ensures objects { OnOk result (self.new ≡ self.old ++ new_object class cells ∷ []) }
        ensures err { OnErr result (self.new ≡ self.old) }
    {
        let number = self.objects.len() as u16;
        let object = Object::new(alloc, cells, class)?;
        self.objects.push(object)?;
        Ok(number)
    }

    /// Puts the value into the cell.
    pub fn write(&mut self, cell: Cell, value: PackedValue)
        requires { IsSome (cell_at self.old cell) }
        ensures { self.new ≡ written self.old cell value }
    {
        let object = &mut self.objects[usize::from(cell.object)];
        object.write(usize::from(cell.offset), value);
    }
}

impl HeapView for Heap {
    ghost use Rattle.asl_machine.specs.Request.{heap_of};

    ghost seen = { heap_of };

    fn cell(&self, cell: Cell) -> Option<Value> {
        Some(self.cell(cell)?.value())
    }

    fn size(&self, object: u16) -> Option<u8> {
        self.size(usize::from(object))
    }
}
