//! The rules of names, judged over the names of a text with no memory: each question reads the text again.
ghost use Rattle.std.specs.Prelude.{◌≡◌, ◌<◌, ◌^◌, take};
ghost use Rattle.std.specs.Option.{option_copied};
ghost use Rattle.asl_grammar.specs.Grammar.{bare};
ghost use Rattle.asl_grammar.specs.Lex.{tokens_of};
ghost use Rattle.asl_syntax.specs.Rules.{no_name, first_twice, is_wrong_call, wrong_call_from, name_places};
ghost use Rattle.asl_syntax.specs.Heard.{heard, is_repeated, IsOwnAfter, is_unheard, own_after, first_unheard, parameters_first, heard_count, heard_main};
ghost use Rattle.asl_syntax.specs.WordView.{word_of, words_left};
ghost use Rattle.asl_syntax.specs.declared.words.Before.TheVariants.{Plain};

use crate::declared_words::{declares, is_anywhere, is_declared, is_local, name_of};
use crate::names::{Space, next_name};
use crate::words::{Word, Words};
use asl_grammar::lexer::Tokens;

/// The words of a function, and how many of them are read.
#[derive(Clone, Copy)]
struct Own<'t> {
    words: Words<'t>,
    count: usize,
}

/// The same after one more word.
fn own_with<'t>(own: Own<'t>, word: Word<'_>, rest: Words<'t>) -> Own<'t>
    requires { own.count < 2 ^ 63 }
    ensures { IsOwnAfter (word_of word.entry) (words_left rest.entry) (words_left own.entry.words) own.entry.count (words_left result.words) result.count }
{
    match word {
        Word::Function(_) => Own {
            words: rest,
            count: 0,
        },
        _ => Own {
            words: own.words,
            count: own.count + 1,
        },
    }
}

/// Whether a word, the one after `count` of all, declares a name that is declared before.
fn is_repeated(all: Words<'_>, count: usize, own: Own<'_>, word: Word<'_>) -> bool
    ensures { result ≡ is_repeated (take count (words_left all.entry)) (take own.entry.count (words_left own.entry.words)) (word_of word.entry) }
{
    match word {
        Word::Global(x) => is_declared(all, count, Space::Globals, x),
        Word::Function(x) => is_declared(all, count, Space::Functions, x),
        Word::Parameter(x) => is_declared(own.words, own.count, Space::Parameters, x),
        _ => false,
    }
}

/// The first name that is declared a second time: of globals, of functions, or of the parameters of one function.
pub fn first_twice(text: &[u8]) -> Option<&[u8]>
    ensures { option_copied result ≡ first_twice no_name no_name no_name (heard Plain (bare (tokens_of text.now))) }
{
    let all = Words::new(text);
    let mut here = all;
    let mut own = Own {
        words: all,
        count: 0,
    };
    let mut count = 0usize;
    'reading: loop {
        match here.next() {
            None => return None,
            Some(word) => {
                if is_repeated(all, count, own, word) {
                    return Some(name_of(word));
                }
                own = own_with(own, word, here);
                count += 1;
            }
        }
    }
}

/// The name, where a word uses one that its name space does not have. `own` are the words of its function, and `all` those of
/// the text.
fn missing<'t>(all: Words<'_>, own: Words<'_>, word: Word<'t>) -> Option<&'t [u8]>
    ensures { option_copied result ≡ is_unheard (words_left all.entry) (words_left own.entry) (word_of word.entry) }
{
    match word {
        Word::Local(x) => if is_local(own, x) { None } else { Some(x) },
        Word::GlobalUse(x) => if is_anywhere(all, Space::Globals, x) {
            None
        } else {
            Some(x)
        },
        Word::Call(x, _) => if is_anywhere(all, Space::Functions, x) {
            None
        } else {
            Some(x)
        },
        _ => None,
    }
}

/// The words of the present function after one more.
fn own_after<'t>(word: Word<'_>, own: Words<'t>, rest: Words<'t>) -> Words<'t>
    ensures { words_left result ≡ own_after (word_of word.entry) (words_left own.entry) (words_left rest.entry) }
{
    match word {
        Word::Function(_) => rest,
        _ => own,
    }
}

/// The first name that is used and nowhere declared.
pub fn unknown(text: &[u8]) -> Option<&[u8]>
    ensures { option_copied result ≡ first_unheard (heard Plain (bare (tokens_of text.now))) (heard Plain (bare (tokens_of text.now))) (heard Plain (bare (tokens_of text.now))) }
{
    let all = Words::new(text);
    let mut here = all;
    let mut own = all;
    'reading: loop {
        match here.next() {
            None => return None,
            Some(word) => {
                if let Some(x) = missing(all, own, word) {
                    return Some(x);
                }
                own = own_after(word, own, here);
            }
        }
    }
}

/// How many parameters stand next.
fn parameters_first(mut own: Words<'_>) -> usize
    ensures { result ≡ parameters_first (words_left own.entry) }
{
    let mut count = 0usize;
    'reading: loop {
        match own.next() {
            Some(Word::Parameter(_)) => count += 1,
            _ => return count,
        }
    }
}

/// How many parameters the function of this name has.
fn parameter_count(mut words: Words<'_>, name: &[u8]) -> Option<usize>
    ensures { result ≡ heard_count (words_left words.entry) name.now }
{
    'reading: loop {
        match words.next() {
            None => return None,
            Some(word) => if declares(Space::Functions, word, name) {
                return Some(parameters_first(words));
            },
        }
    }
}

/// Whether a word is a call with too many or too few arguments.
fn is_wrong_call(all: Words<'_>, word: Word<'_>) -> bool
    ensures { result ≡ is_wrong_call (heard_count (words_left all.entry)) (word_of word.entry) }
{
    match word {
        Word::Call(f, n) => match parameter_count(all, f) {
            None => false,
            Some(k) => k != n,
        },
        _ => false,
    }
}

/// The place of the first wrong call.
pub fn wrong_call(text: &[u8]) -> Option<usize>
    ensures { result ≡ wrong_call_from (heard_count (heard Plain (bare (tokens_of text.now)))) (heard Plain (bare (tokens_of text.now))) (name_places (tokens_of text.now)) }
{
    let all = Words::new(text);
    let mut here = all;
    let mut tokens = Tokens::new(text);
    'reading: loop {
        match here.next() {
            None => return None,
            Some(word) => {
                let at = next_name(&mut tokens)?;
                if is_wrong_call(all, word) {
                    return Some(at);
                }
            }
        }
    }
}

/// Whether there is a function `main` of one parameter.
pub fn has_main(text: &[u8]) -> bool
    ensures { result ≡ heard_main (heard Plain (bare (tokens_of text.now))) }
{
    let mut words = Words::new(text);
    'reading: loop {
        match words.next() {
            None => return false,
            Some(word) => if declares(Space::Functions, word, b"main".as_slice()) {
                if parameters_first(words) == 1 {
                    return true;
                }
            },
        }
    }
}
