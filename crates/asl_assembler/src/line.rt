//! What a line says by itself: its keyword, and the operands after it.

ghost use Rattle.std.specs.Prelude.{◌≡◌, []};
ghost use Rattle.asl_assembler.specs.Words.{words_of};
ghost use Rattle.asl_assembler.specs.Reading.{instr_of, with_numbers_of, expr_of, path_of, line_of, meaning_of, lock_with};

use crate::keyword::{Keyword, find_keyword};
use crate::line_words::{next_word, no_word_in};
use crate::operand::{
    base, effect, one_effect, one_register, one_short, operation, register_and_global,
    register_and_integer, register_and_short, register_byte_and_short, short_and_effect,
    three_registers, two_bytes, two_registers, two_registers_and_byte, two_registers_and_short,
};
use asl_code::{Base, Expr, Instr, Lock, Path, is_version};

/// What a line says by itself.
#[derive(Drop)]
pub(crate) enum Line {
    /// `version`: the version of the format.
    Version(u16),
    /// `classes`: how many classes there are.
    Classes(u16),
    /// `global`: the class of one more global.
    Global(u16),
    /// `entry`: the number of the entry function.
    Entry(u16),
    /// `fn`: a function begins.
    Function { params: u8, regs: u8 },
    /// An instruction of the function.
    Instruction(Instr),
    /// `list`: a lock list begins.
    List,
    /// A lock of the list.
    Lock(Lock),
}

/// The instruction of a keyword and of the words after it.
#[tactic(auto, unfolding(crate::specs::Reading::instr_of))]
pub(crate) fn instruction(name: Keyword, rest: &[u8]) -> Option<Instr>
    ensures { result ≡ instr_of name (words_of rest.now) }
{
    match name {
        Keyword::Int => {
            register_and_integer(rest).map(|(to, value)| Instr::SetInt { to, value })
        }
        Keyword::Null => one_register(rest).map(|to| Instr::SetNull { to }),
        Keyword::Mov => two_registers(rest).map(|(to, from)| Instr::Move { to, from }),
        Keyword::Add => {
            three_registers(rest).map(|(to, left, right)| Instr::Add { to, left, right })
        }
        Keyword::Sub => {
            three_registers(rest).map(|(to, left, right)| Instr::Subtract { to, left, right })
        }
        Keyword::Lt => {
            three_registers(rest).map(|(to, left, right)| Instr::LessThan { to, left, right })
        }
        Keyword::Eq => {
            three_registers(rest).map(|(to, left, right)| Instr::Equals { to, left, right })
        }
        Keyword::Load => two_registers(rest).map(|(to, address)| Instr::Load { to, address }),
        Keyword::Store => {
            two_registers(rest).map(|(address, from)| Instr::Store { address, from })
        }
        Keyword::Ret => one_register(rest).map(|from| Instr::Return { from }),
        Keyword::Out => one_register(rest).map(|from| Instr::Output { from }),
        _ => with_numbers(name, rest),
    }
}

/// The same of the instructions that have an operand that is not a register, and of `rel`.
#[tactic(auto, unfolding(crate::specs::Reading::with_numbers_of))]
fn with_numbers(name: Keyword, rest: &[u8]) -> Option<Instr>
    ensures { result ≡ with_numbers_of name (words_of rest.now) }
{
    match name {
        Keyword::Glob => {
            register_and_global(rest).map(|(to, global)| Instr::GlobalAddress { to, global })
        }
        Keyword::Field => two_registers_and_byte(rest).map(|(
            to,
            from,
            offset,
        )| Instr::FieldAddress { to, from, offset }),
        Keyword::New => {
            register_byte_and_short(rest).map(|(to, cells, class)| Instr::New { to, cells, class })
        }
        Keyword::Jmp => one_short(rest).map(|target| Instr::Jump { target }),
        Keyword::Jz => {
            register_and_short(rest).map(|(test, target)| Instr::JumpIfZero { test, target })
        }
        Keyword::Call => two_registers_and_short(rest).map(|(to, first, function)| Instr::Call {
            to,
            first,
            function,
        }),
        Keyword::Acq => one_short(rest).map(|list| Instr::Acquire { list }),
        Keyword::Rel => no_word_in(rest).map(|_| Instr::Release),
        _ => None,
    }
}

/// The lock on an expression, of the words after `expr`.
#[tactic(auto, unfolding(crate::specs::Reading::expr_of))]
fn expression(line: &[u8]) -> Option<Lock>
    ensures { result ≡ expr_of (words_of line.now) }
{
    let (word, rest) = next_word(line)?;
    with_path(base(word)?, rest)
}

/// The lock on the expression with this base, of the words after it.
fn with_path(base: Base, line: &[u8]) -> Option<Lock>
    ensures { result ≡ lock_with base (path_of [] (words_of line.now)) }
{
    let mut path = Path::new();
    let mut rest = line;
    while let Some((word, after)) = next_word(rest) {
        match operation(word) {
            Some(op) => {
                if path.len() == Path::MAX_LEN {
                    return None;
                }
                path.push(op);
            }
            None => {
                no_word_in(after)?;
                let effect = effect(word)?;
                return Some(Lock::Expr(Expr { base, path }, effect));
            }
        }
        rest = after;
    }
    None
}

/// The line of a keyword and of the words after it.
#[tactic(auto, unfolding(crate::specs::Reading::line_of))]
fn line_named(name: Keyword, rest: &[u8]) -> Option<Line>
    ensures { result ≡ line_of name (words_of rest.now) }
{
    match name {
        Keyword::Version => {
            let version = one_short(rest)?;
            if is_version(u32::from(version)) {
                Some(Line::Version(version))
            } else {
                None
            }
        }
        Keyword::Classes => one_short(rest).map(Line::Classes),
        Keyword::Global => one_short(rest).map(Line::Global),
        Keyword::Entry => one_short(rest).map(Line::Entry),
        Keyword::Function => two_bytes(rest).map(|(params, regs)| Line::Function { params, regs }),
        Keyword::List => no_word_in(rest).map(|_| Line::List),
        Keyword::Root => one_effect(rest).map(|effect| Line::Lock(Lock::Root(effect))),
        Keyword::Class => short_and_effect(rest).map(|(class, effect)| Line::Lock(Lock::Class(
            class, effect,
        ))),
        Keyword::Expr => expression(rest).map(Line::Lock),
        _ => instruction(name, rest).map(Line::Instruction),
    }
}

/// What the line says, if it says something by itself. A blank line says nothing.
#[inline(always)]
#[tactic(auto, unfolding(crate::specs::Reading::meaning_of))]
pub(crate) fn meaning(line: &[u8]) -> Option<Line>
    ensures { result ≡ meaning_of (words_of line.now) }
{
    let (word, rest) = next_word(line)?;
    line_named(find_keyword(word)?, rest)
}
