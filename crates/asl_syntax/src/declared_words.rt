//! Whether a word of a text declares a name, and in which name space.
ghost use Rattle.std.specs.Prelude.{◌≡◌, take};
ghost use Rattle.asl_syntax.specs.Rules.{names_in};
ghost use Rattle.asl_syntax.specs.TokenNames.{mention_name};
ghost use Rattle.asl_syntax.specs.Heard.{is_function, declares, own_part};
ghost use Rattle.asl_syntax.specs.WordView.{word_of, words_left};
ghost use Rattle.asl_syntax.specs.declared.names.Space.TheVariants.{Locals};

use crate::names::Space;
use crate::words::{Word, Words};

/// Whether a word declares a function.
fn is_function(word: Word<'_>) -> bool
    ensures { result ≡ is_function (word_of word.entry) }
{
    match word {
        Word::Function(_) => true,
        _ => false,
    }
}

/// The bytes of a word.
pub(crate) fn name_of<'t>(word: Word<'t>) -> &'t [u8]
    ensures { result.now ≡ mention_name (word_of word.entry) }
{
    match word {
        Word::Global(x) => x,
        Word::Function(x) => x,
        Word::Parameter(x) => x,
        Word::Assigned(x) => x,
        Word::Local(x) => x,
        Word::GlobalUse(x) => x,
        Word::Call(x, _) => x,
    }
}

/// Whether a word declares the name in a name space.
pub(crate) fn declares(space: Space, word: Word<'_>, name: &[u8]) -> bool
    ensures { result ≡ declares space (word_of word.entry) name.now }
{
    match (space, word) {
        (Space::Globals, Word::Global(x)) => x == name,
        (Space::Functions, Word::Function(x)) => x == name,
        (Space::Locals, Word::Parameter(x)) => x == name,
        (Space::Locals, Word::Assigned(x)) => x == name,
        (Space::Parameters, Word::Parameter(x)) => x == name,
        _ => false,
    }
}

/// Whether one of the next `count` words declares the name.
pub(crate) fn is_declared(mut words: Words<'_>, count: usize, space: Space, name: &[u8]) -> bool
    ensures { result ≡ names_in space (take count (words_left words.entry)) name.now }
{
    let mut left = count;
    'reading: while left > 0 {
        left -= 1;
        match words.next() {
            None => return false,
            Some(word) => if declares(space, word, name) {
                return true;
            },
        }
    }
    false
}

/// Whether any further word declares the name.
pub(crate) fn is_anywhere(mut words: Words<'_>, space: Space, name: &[u8]) -> bool
    ensures { result ≡ names_in space (words_left words.entry) name.now }
{
    'reading: loop {
        match words.next() {
            None => return false,
            Some(word) => if declares(space, word, name) {
                return true;
            },
        }
    }
}

/// Whether the name is a local of the function whose words are next.
pub(crate) fn is_local(mut own: Words<'_>, name: &[u8]) -> bool
    ensures { result ≡ names_in Locals (own_part (words_left own.entry)) name.now }
{
    'reading: loop {
        match own.next() {
            None => return false,
            Some(word) => {
                if is_function(word) {
                    return false;
                }
                if declares(Space::Locals, word, name) {
                    return true;
                }
            }
        }
    }
}
