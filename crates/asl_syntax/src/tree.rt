//! The tree of a program: its globals and functions in the order of the text. Its names are lent by the text.

use crate::ident::Ident;
pub use asl_grammar::control::Operator;

/// What stands at the right of `=`.
#[derive(Drop)]
pub enum Value<'t> {
    /// A number.
    Number(i32),
    /// `null`.
    Null,
    /// The value of a local.
    Local(Ident<'t>),
    /// An operator between two locals.
    Binary(Ident<'t>, Operator, Ident<'t>),
    /// `&g`: the address of a global.
    Global(Ident<'t>),
    /// `&y[i]`: the address in a local, moved by some cells.
    Field(Ident<'t>, u8),
    /// `*y`: the cell at the address in a local.
    Load(Ident<'t>),
    /// `new n`: the address of a new object of so many cells.
    New(u8),
    /// A call of a function, with its arguments.
    Call(Ident<'t>, Vec<Ident<'t>>),
}

/// A statement.
#[derive(Drop)]
pub enum Statement<'t> {
    /// `x = value;`
    Assign(Ident<'t>, Value<'t>),
    /// `*x = y;`
    Store(Ident<'t>, Ident<'t>),
    /// `out x;`
    Out(Ident<'t>),
    /// `if x { .. } else { .. }`; an empty `else` is as none.
    If(Ident<'t>, Vec<Statement<'t>>, Vec<Statement<'t>>),
    /// `while x { .. }`
    While(Ident<'t>, Vec<Statement<'t>>),
    /// `atomic { .. }`
    Atomic(Vec<Statement<'t>>),
}

/// A function.
#[derive(Drop)]
pub struct Function<'t> {
    /// Its name.
    pub name: Ident<'t>,
    /// Its parameters in order.
    pub parameters: Vec<Ident<'t>>,
    /// Its statements, without the last line.
    pub body: Vec<Statement<'t>>,
    /// The local that its last line returns.
    pub returned: Ident<'t>,
}

/// A global or a function.
#[derive(Drop)]
pub enum Item<'t> {
    /// `global g;`
    Global(Ident<'t>),
    /// `fn f(..) { .. }`
    Function(Function<'t>),
}
