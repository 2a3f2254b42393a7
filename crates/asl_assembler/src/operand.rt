//! The operands of a line: registers, globals, numbers, effects and the parts of lock expressions.

ghost use Rattle.std.specs.Prelude.{◌≡◌};
ghost use Rattle.asl_assembler.specs.Words.{words_of};
ghost use Rattle.asl_assembler.specs.Reading.{one, two, three, number_of, register_of, global_of, integer_of, effect_of, base_of, op_of, registers_2, registers_3};

use crate::keyword::{Keyword, find_keyword};
use crate::line_words::{one_word_in, three_words_in, two_words_in};
use crate::word_number::{byte, integer, marked_byte, marked_short, short};
use asl_code::{Base, Effect, Op};

/// A register, as `r0`.
#[inline(always)]
pub(crate) fn register(word: &[u8]) -> Option<u8>
    ensures { result ≡ register_of word.now }
{
    marked_byte(b'r', word)
}

/// A global, as `g0`.
pub(crate) fn global(word: &[u8]) -> Option<u16>
    ensures { result ≡ global_of word.now }
{
    marked_short(b'g', word)
}

/// `read` or `write`.
#[tactic(auto, unfolding(crate::specs::Reading::effect_of))]
pub(crate) fn effect(word: &[u8]) -> Option<Effect>
    ensures { result ≡ effect_of word.now }
{
    match find_keyword(word)? {
        Keyword::Read => Some(Effect::Read),
        Keyword::Write => Some(Effect::Write),
        _ => None,
    }
}

/// Where an expression begins: a register or a global.
#[tactic(auto, unfolding(crate::specs::Reading::base_of))]
pub(crate) fn base(word: &[u8]) -> Option<Base>
    ensures { result ≡ base_of word.now }
{
    match register(word) {
        Some(number) => Some(Base::Reg(number)),
        None => match global(word) {
            Some(number) => Some(Base::Global(number)),
            None => None,
        },
    }
}

/// `*`, or an offset as `.0`.
#[tactic(auto, unfolding(crate::specs::Reading::op_of))]
pub(crate) fn operation(word: &[u8]) -> Option<Op>
    ensures { result ≡ op_of word.now }
{
    if word == b"*".as_slice() {
        return Some(Op::Deref);
    }
    marked_byte(b'.', word).map(Op::Off)
}

/// Of a line the only word as a register, if it is so.
pub(crate) fn one_register(line: &[u8]) -> Option<u8>
    ensures { result ≡ one register_of (words_of line.now) }
{
    register(one_word_in(line)?)
}

/// Of a line the only word as a number below 65,536, if it is so.
pub(crate) fn one_short(line: &[u8]) -> Option<u16>
    ensures { result ≡ one (number_of 65536) (words_of line.now) }
{
    short(one_word_in(line)?)
}

/// Of a line the only word as an effect, if it is so.
pub(crate) fn one_effect(line: &[u8]) -> Option<Effect>
    ensures { result ≡ one effect_of (words_of line.now) }
{
    effect(one_word_in(line)?)
}

/// Of a line its two words as registers, if it is so.
#[inline(always)]
pub(crate) fn two_registers(line: &[u8]) -> Option<(u8, u8)>
    ensures { result ≡ registers_2 (words_of line.now) }
{
    let (first, second) = two_words_in(line)?;
    Some((register(first)?, register(second)?))
}

/// Of a line its two words as numbers below 256, if it is so.
pub(crate) fn two_bytes(line: &[u8]) -> Option<(u8, u8)>
    ensures { result ≡ two (number_of 256) (number_of 256) (words_of line.now) }
{
    let (first, second) = two_words_in(line)?;
    Some((byte(first)?, byte(second)?))
}

/// Of a line its two words as a register and an integer, if it is so.
pub(crate) fn register_and_integer(line: &[u8]) -> Option<(u8, i32)>
    ensures { result ≡ two register_of integer_of (words_of line.now) }
{
    let (first, second) = two_words_in(line)?;
    Some((register(first)?, integer(second)?))
}

/// Of a line its two words as a register and a global, if it is so.
pub(crate) fn register_and_global(line: &[u8]) -> Option<(u8, u16)>
    ensures { result ≡ two register_of global_of (words_of line.now) }
{
    let (first, second) = two_words_in(line)?;
    Some((register(first)?, global(second)?))
}

/// Of a line its two words as a register and a number below 65,536, if it is so.
pub(crate) fn register_and_short(line: &[u8]) -> Option<(u8, u16)>
    ensures { result ≡ two register_of (number_of 65536) (words_of line.now) }
{
    let (first, second) = two_words_in(line)?;
    Some((register(first)?, short(second)?))
}

/// Of a line its two words as a number below 65,536 and an effect, if it is so.
pub(crate) fn short_and_effect(line: &[u8]) -> Option<(u16, Effect)>
    ensures { result ≡ two (number_of 65536) effect_of (words_of line.now) }
{
    let (first, second) = two_words_in(line)?;
    Some((short(first)?, effect(second)?))
}

/// Of a line its three words as registers, if it is so.
#[inline(always)]
pub(crate) fn three_registers(line: &[u8]) -> Option<(u8, u8, u8)>
    ensures { result ≡ registers_3 (words_of line.now) }
{
    let (first, second, third) = three_words_in(line)?;
    Some((register(first)?, register(second)?, register(third)?))
}

/// Of a line its three words as two registers and a number below 256, if it is so.
pub(crate) fn two_registers_and_byte(line: &[u8]) -> Option<(u8, u8, u8)>
    ensures { result ≡ three register_of register_of (number_of 256) (words_of line.now) }
{
    let (first, second, third) = three_words_in(line)?;
    Some((register(first)?, register(second)?, byte(third)?))
}

/// Of a line its three words as two registers and a number below 65,536, if it is so.
pub(crate) fn two_registers_and_short(line: &[u8]) -> Option<(u8, u8, u16)>
    ensures { result ≡ three register_of register_of (number_of 65536) (words_of line.now) }
{
    let (first, second, third) = three_words_in(line)?;
    Some((register(first)?, register(second)?, short(third)?))
}

/// Of a line its three words as a register, a number below 256 and one below 65,536, if it is so.
pub(crate) fn register_byte_and_short(line: &[u8]) -> Option<(u8, u8, u16)>
    ensures { result ≡ three register_of (number_of 256) (number_of 65536) (words_of line.now) }
{
    let (first, second, third) = three_words_in(line)?;
    Some((register(first)?, byte(second)?, short(third)?))
}
