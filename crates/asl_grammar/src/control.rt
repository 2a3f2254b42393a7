//! What a reader of tokens remembers of the line that it is in, and what it does at a token.

/// An operator between two names.
#[derive(Clone, Copy)]
pub enum Operator {
    Add,
    Subtract,
    IsLess,
    IsEqual,
}

/// What the innermost open block is: the body of a function, the block of an `if`, or another. The default fills the places
/// of an `ArrayVec` that no kind stands in.
#[derive(Clone, Copy, Default)]
pub enum Kind {
    #[default]
    Body,
    Then,
    Inner,
}

/// What stands at the right of `=`, but for a call; a number has a minus before it or not.
#[derive(Clone, Copy)]
pub enum Right<'t> {
    Literal(bool, &'t [u8]),
    NullValue,
    Copied(&'t [u8]),
    Binary(&'t [u8], Operator, &'t [u8]),
    GlobalAddress(&'t [u8]),
    FieldAddress(&'t [u8], &'t [u8]),
    Loaded(&'t [u8]),
    Created(&'t [u8]),
}

/// A statement without blocks, but for a call.
#[derive(Clone, Copy)]
pub enum Line<'t> {
    Assigns(&'t [u8], Right<'t>),
    Stores(&'t [u8], &'t [u8]),
    Shows(&'t [u8]),
}

/// Whose block the next brace opens.
#[derive(Clone, Copy)]
pub enum Opening<'t> {
    OfIf(&'t [u8]),
    OfElse,
    OfWhile(&'t [u8]),
    OfAtomic,
}

/// What has been read of the present line.
#[derive(Clone, Copy)]
pub enum Control<'t> {
    ItemStart,
    AfterGlobal,
    GlobalNamed(&'t [u8]),
    AfterFn,
    FunctionNamed(&'t [u8]),
    FirstParameter,
    AfterParameter,
    NextParameter,
    BodyStart,
    StatementStart,
    AfterThen,
    Target(&'t [u8]),
    AfterBecomes(&'t [u8]),
    AfterMinus(&'t [u8]),
    AfterValue(&'t [u8], &'t [u8]),
    AfterOperator(&'t [u8], &'t [u8], Operator),
    AfterAmpersand(&'t [u8]),
    AfterAddress(&'t [u8], &'t [u8]),
    AfterBracket(&'t [u8], &'t [u8]),
    AfterIndex(&'t [u8], &'t [u8], &'t [u8]),
    AfterStar(&'t [u8]),
    AfterNew(&'t [u8]),
    FirstArgument(&'t [u8], &'t [u8]),
    AfterArgument(&'t [u8], &'t [u8]),
    NextArgument(&'t [u8], &'t [u8]),
    CallEnd(&'t [u8], &'t [u8]),
    LineEnd(Line<'t>),
    StoreStart,
    StoreTarget(&'t [u8]),
    StoreValue(&'t [u8]),
    AfterOut,
    AfterIf,
    AfterWhile,
    AfterHeader(Opening<'t>),
    AfterReturn,
    Returned(&'t [u8]),
    BodyEnd(&'t [u8]),
}

/// What a token completes.
#[derive(Clone, Copy)]
pub enum Act<'t> {
    Keep,
    Declare(&'t [u8]),
    Start(&'t [u8]),
    Parameter(&'t [u8]),
    Argument(&'t [u8]),
    Emit(Line<'t>),
    EmitCall(&'t [u8], &'t [u8]),
    Begin(Opening<'t>),
    Close,
    Finish(&'t [u8]),
}

/// The control after a token, and what the token completes.
#[derive(Clone, Copy)]
pub struct Transition<'t> {
    pub control: Control<'t>,
    pub act: Act<'t>,
}
