//! Building the tree of a text, as far as the grammar and the limits allow it.
ghost use Rattle.std.specs.Prelude.{◌≡◌, IfOk, MatchOption};
ghost use Rattle.asl_grammar.specs.Automaton.{EmitCall, Begin, Close, Finish};
ghost use Rattle.asl_grammar.specs.View.{token_of};
ghost use Rattle.asl_grammar.specs.ControlView.{control_of, act_of, opening_of};
ghost use Rattle.asl_syntax.specs.View.{statement_of, items_of};
ghost use Rattle.std.specs.Option.{option_map};
ghost use Rattle.asl_syntax.specs.Fits.{OpeningFits, ActFits, NextFits};
ghost use Rattle.asl_syntax.specs.Built.{no_stack, put, apply, kind_of, ready, next, whole_at};
ghost use Rattle.asl_syntax.specs.Parsed.{IsSpelled};
ghost use Rattle.asl_syntax.specs.Checked.{IsWritten};

mod lines;

use crate::ident::Ident;
use crate::open_block::{Frame, Header, Part, make_header, no_part, push, settle, shut};
use crate::source_limits::{Counts, MAX_BYTES};
use crate::tree::{Function, Item, Statement, Value};
use asl_grammar::control::{Act, Control, Kind, Opening};
use asl_grammar::control_step::{settled, step};
use asl_grammar::lexer::{Found, Tokens};
use asl_grammar::token::{Mark, Token};
use std::alloc::{AllocError, Global};
use std::mem;

/// For how many statements a function begins with capacity at the most.
const LIKELY_LEN: usize = 256;

/// What has been built.
#[derive(Drop)]
struct Builder<'t> {
    alloc: Global,
    items: Vec<Item<'t>>,
    name: Ident<'t>,
    parameters: Vec<Ident<'t>>,
    arguments: Vec<Ident<'t>>,
    top: Part<'t>,
    frames: Vec<Frame<'t>>,
}

impl<'t> Builder<'t> {
    ghost use Rattle.asl_syntax.specs.BuilderView.{stack_of, state_in};

    /// Nothing yet.
    fn new(alloc: Global) -> Builder<'t>
        ensures { stack_of result ≡ no_stack }
    {
        Builder {
            alloc,
            items: Vec::new(alloc),
            name: Ident::new(&[]),
            parameters: Vec::new(alloc),
            arguments: Vec::new(alloc),
            top: no_part(alloc),
            frames: Vec::new(alloc),
        }
    }

    /// The kind of the innermost open block.
    fn kind(&self) -> Kind
        ensures { result ≡ kind_of (stack_of self.now).frames }
    {
        match self.frames.last() {
            None => Kind::Body,
            Some(frame) => match frame.header {
                Header::Then(_) => Kind::Then,
                _ => Kind::Inner,
            },
        }
    }

    /// After the block of an `if` any token but `else` begins a new statement.
    fn get_ready(&mut self, control: Control<'_>, token: Token<'_>) -> Result<(), AllocError>
        ensures { IfOk result (λ _. stack_of self.new ≡ ready (control_of control.entry) (token_of token.entry) (stack_of self.old)) }
    {
        match (control, token) {
            (Control::AfterThen, Token::Fixed(Mark::Else)) => {}
            (Control::AfterThen, _) => settle(self.alloc, &mut self.top)?,
            _ => {}
        }
        Ok(())
    }

    /// Adds a statement to the innermost block.
    #[inline(always)]
    fn put(&mut self, statement: Statement<'t>) -> Result<(), AllocError>
        ensures { IfOk result (λ _. stack_of self.new ≡ put (statement_of statement.entry) (stack_of self.old)) }
    {
        push(&mut self.top.done, statement)
    }

    /// Opens a block.
    fn open(&mut self, opening: Opening<'t>) -> Result<(), AllocError>
        requires { OpeningFits (opening_of opening) }
        ensures { IfOk result (λ _. stack_of self.new ≡ apply (Begin (opening_of opening.entry)) (stack_of self.old)) }
    {
        let Part { done, pending } = mem::replace(&mut self.top, no_part(self.alloc));
        let header = make_header(self.alloc, opening, pending);
        self.frames.push(Frame {
            header,
            outer: done,
        })?;
        Ok(())
    }

    /// Closes the innermost block.
    fn close(&mut self) -> Result<(), AllocError>
        ensures { IfOk result (λ _. stack_of self.new ≡ apply Close (stack_of self.old)) }
    {
        if let Some(frame) = self.frames.pop() {
            let Part { done, pending: _ } = mem::replace(&mut self.top, no_part(self.alloc));
            self.top = shut(frame, done)?;
        }
        Ok(())
    }

    /// Ends the present function. The next one is likely to be as long, so it begins with capacity for that, if there is memory.
    fn finish(&mut self, returned: Ident<'t>) -> Result<(), AllocError>
        ensures { IfOk result (λ _. stack_of self.new ≡ apply (Finish returned.entry) (stack_of self.old)) }
    {
        let Part { done, pending: _ } = mem::replace(&mut self.top, no_part(self.alloc));
        let _ = self.top.done.reserve(done.len().min(LIKELY_LEN));
        self.items.push(Item::Function(Function {
            name: mem::replace(&mut self.name, Ident::new(&[])),
            parameters: mem::replace(&mut self.parameters, Vec::new(self.alloc)),
            body: done,
            returned,
        }))?;
        Ok(())
    }

    /// Ends a call, with the arguments so far.
    fn call(&mut self, target: Ident<'t>, function: Ident<'t>) -> Result<(), AllocError>
        ensures { IfOk result (λ _. stack_of self.new ≡ apply (EmitCall target.entry function.entry) (stack_of self.old)) }
    {
        let arguments = mem::replace(&mut self.arguments, Vec::new(self.alloc));
        self.put(Statement::Assign(target, Value::Call(function, arguments)))
    }

    /// Builds what a token completes.
    #[inline(never)]
    fn apply(&mut self, act: Act<'t>) -> Result<(), AllocError>
        requires { ActFits (act_of act) }
        ensures { IfOk result (λ _. stack_of self.new ≡ apply (act_of act.entry) (stack_of self.old)) }
    {
        match act {
            Act::Keep => {}
            Act::Declare(x) => self.items.push(Item::Global(Ident::new(x)))?,
            Act::Start(x) => {
                self.name = Ident::new(x);
                self.parameters.clear();
            }
            Act::Parameter(x) => self.parameters.push(Ident::new(x))?,
            Act::Argument(x) => self.arguments.push(Ident::new(x))?,
            Act::Emit(line) => self.emit(line)?,
            Act::EmitCall(x, f) => self.call(Ident::new(x), Ident::new(f))?,
            Act::Begin(opening) => self.open(opening)?,
            Act::Close => self.close()?,
            Act::Finish(x) => self.finish(Ident::new(x))?,
        }
        Ok(())
    }

    /// Reads one token: the control after it, or nothing where it may not stand.
    fn advance(
        &mut self,
        control: Control<'t>,
        token: Token<'t>,
    ) -> Result<Option<Control<'t>>, AllocError>
        requires { NextFits (control_of control) (stack_of self.old) (token_of token) }
        ensures { IfOk result (λ o. option_map (λ c. state_in c self.new) o
            ≡ next (control_of control.entry) (stack_of self.old) (token_of token.entry)) }
    {
        self.get_ready(control, token)?;
        match step(settled(control, token), self.kind(), token) {
            None => Ok(None),
            Some(transition) => {
                match transition.act {
                    Act::Keep => {}
                    Act::Emit(line) => self.emit(line)?,
                    act => self.apply(act)?,
                }
                Ok(Some(transition.control))
            }
        }
    }

    /// The items, where a program may end.
    fn into_items(self, control: Control<'_>) -> Option<Vec<Item<'t>>>
        ensures { option_map items_of result ≡ whole_at (control_of control.entry) (stack_of self.entry) }
    {
        match control {
            Control::ItemStart => Some(self.items),
            _ => None,
        }
    }
}

/// The items of a text, or nothing where it is not a program within the limits. Its tokens are read once.
pub fn build(alloc: Global, text: &[u8]) -> Result<Option<Vec<Item<'_>>>, AllocError>
    ensures { IfOk result (λ items. MatchOption items (IsWritten text.now → ⊥) (λ v. IsSpelled text.now (items_of v))) }
{
    if text.len() > MAX_BYTES {
        return Ok(None);
    }
    let mut tokens = Tokens::new(text);
    let mut counts = Counts::new();
    let mut builder = Builder::new(alloc);
    let mut control = Control::ItemStart;
    'reading: loop {
        match tokens.next() {
            Found::Token(spot) => {
                if counts.is_over(spot.token) {
                    return Ok(None);
                }
                match builder.advance(control, spot.token)? {
                    None => return Ok(None),
                    Some(next) => control = next,
                }
                counts.note(spot.token);
            }
            Found::End => return Ok(builder.into_items(control)),
            Found::Bad(_) => return Ok(None),
        }
    }
}
