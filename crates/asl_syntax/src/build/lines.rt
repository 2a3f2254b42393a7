//! The statements that lines mean, added to what has been built.
ghost use Rattle.std.specs.Prelude.{◌≡◌, IfOk};
ghost use Rattle.asl_grammar.specs.ControlView.{line_of, right_of};
ghost use Rattle.asl_syntax.specs.Tree.{AssignStatement, StoreStatement, OutStatement, LocalValue, BinaryValue};
ghost use Rattle.asl_syntax.specs.Spelled.{right_meaning, line_meaning};
ghost use Rattle.asl_syntax.specs.Fits.{NameFits, RightFits, LineFits};
ghost use Rattle.asl_syntax.specs.Built.{put};

use crate::build::Builder;
use crate::ident::Ident;
use crate::right_side::value;
use crate::tree::{Statement, Value};
use asl_grammar::control::{Line, Operator, Right};
use std::alloc::AllocError;

impl<'t> Builder<'t> {
    ghost use Rattle.asl_syntax.specs.BuilderView.{stack_of};

    /// Adds the assignment of an operator's value.
    #[inline(never)]
    fn put_binary(
        &mut self,
        name: &'t [u8],
        left: &'t [u8],
        operator: Operator,
        right: &'t [u8],
    ) -> Result<(), AllocError>
        requires name { NameFits name.now }
        requires left { NameFits left.now }
        requires right { NameFits right.now }
        ensures { IfOk result (λ _. stack_of self.new ≡ put (AssignStatement name.now (BinaryValue left.now operator right.now)) (stack_of self.old)) }
    {
        self.put(Statement::Assign(
            Ident::new(name),
            Value::Binary(Ident::new(left), operator, Ident::new(right)),
        ))
    }

    /// Adds the assignment of a local.
    #[inline(never)]
    fn put_copy(&mut self, name: &'t [u8], from: &'t [u8]) -> Result<(), AllocError>
        requires name { NameFits name.now }
        requires from { NameFits from.now }
        ensures { IfOk result (λ _. stack_of self.new ≡ put (AssignStatement name.now (LocalValue from.now)) (stack_of self.old)) }
    {
        self.put(Statement::Assign(Ident::new(name), Value::Local(Ident::new(from))))
    }

    /// Adds the assignment of what any right side means.
    #[inline(never)]
    fn put_assignment(&mut self, name: &'t [u8], right: Right<'t>) -> Result<(), AllocError>
        requires name { NameFits name.now }
        requires right { RightFits (right_of right) }
        ensures { IfOk result (λ _. stack_of self.new ≡ put (AssignStatement name.now (right_meaning (right_of right.entry))) (stack_of self.old)) }
    {
        self.put(Statement::Assign(Ident::new(name), value(right)))
    }

    /// Adds a store.
    #[inline(never)]
    fn put_store(&mut self, address: &'t [u8], from: &'t [u8]) -> Result<(), AllocError>
        requires address { NameFits address.now }
        requires from { NameFits from.now }
        ensures { IfOk result (λ _. stack_of self.new ≡ put (StoreStatement address.now from.now) (stack_of self.old)) }
    {
        self.put(Statement::Store(Ident::new(address), Ident::new(from)))
    }

    /// Adds an `out`.
    #[inline(never)]
    fn put_out(&mut self, name: &'t [u8]) -> Result<(), AllocError>
        requires { NameFits name.now }
        ensures { IfOk result (λ _. stack_of self.new ≡ put (OutStatement name.now) (stack_of self.old)) }
    {
        self.put(Statement::Out(Ident::new(name)))
    }

    /// Adds the statement that a line means. Each frequent kind has a function of its own: a function first clears the places of
    /// all the names that it may make.
    #[inline(always)]
    pub(crate) fn emit(&mut self, line: Line<'t>) -> Result<(), AllocError>
        requires { LineFits (line_of line) }
        ensures { IfOk result (λ _. stack_of self.new ≡ put (line_meaning (line_of line.entry)) (stack_of self.old)) }
    {
        match line {
            Line::Assigns(x, Right::Binary(y, operator, z)) => self.put_binary(x, y, operator, z),
            Line::Assigns(x, Right::Copied(y)) => self.put_copy(x, y),
            Line::Assigns(x, right) => self.put_assignment(x, right),
            Line::Stores(x, y) => self.put_store(x, y),
            Line::Shows(x) => self.put_out(x),
        }
    }
}
