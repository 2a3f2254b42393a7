//! Pairs of a function of a source and of a C function as words: `F=NAME`.
ghost use Rattle.std.specs.Prelude.{◌≡◌, ◌++◌, ◌∷◌, [], List, length, map, string_bytes, take, IfOk, IfErr, MatchOption};
ghost use Rattle.std.specs.List.{list_all};
ghost use Rattle.std.specs.Str.{bytes_eq};
ghost use Rattle.std.specs.Char.{is_ascii_digit};
ghost use Rattle.clap.specs.Words.{Text};
ghost use Rattle.clap.specs.Walk.{texts};
ghost use Rattle.asl_command_line.specs.HeldTexts.{Hold};
ghost use Rattle.asl_command_line.specs.Externs.{AreExterns, IsExternsFault, IsWrong, function_in, is_among, is_decimal, is_register, is_taken, c_name_in, why_text};

use crate::command::Replacement;
use crate::entry_words::is_name;
use std::alloc::{AllocError, Global};
use std::collections::BTreeMap;

/// Why a word is no such pair.
#[derive(Clone, Copy)]
pub enum WhyNot {
    /// No name stands before the first `=`, or none behind it.
    NoPair,
    /// The function is `main`.
    IsMain,
    /// The C function's name is a word of C.
    IsKeyword,
    /// The C function's name is one of the printed text, of the runtime or of the library.
    IsTaken,
    /// A word before it names the function.
    FunctionTwice,
    /// A word before it names the C function.
    NameTwice,
}

/// Why an argument's words are no such pairs.
pub enum ExternsFault<'a> {
    /// This one is none, for this reason.
    NoExtern(&'a str, WhyNot),
    /// Memory ran out.
    OutOfMemory,
}

/// The words of C, and those that its compilers or the headers of the runtime take for one.
pub(crate) static KEYWORDS: [&str; 61] = [
    "alignas",
    "alignof",
    "asm",
    "auto",
    "bool",
    "break",
    "case",
    "char",
    "const",
    "constexpr",
    "continue",
    "default",
    "do",
    "double",
    "else",
    "enum",
    "extern",
    "false",
    "float",
    "for",
    "goto",
    "if",
    "inline",
    "int",
    "long",
    "nullptr",
    "register",
    "restrict",
    "return",
    "setjmp",
    "short",
    "signed",
    "sizeof",
    "static",
    "static_assert",
    "struct",
    "switch",
    "thread_local",
    "true",
    "typedef",
    "typeof",
    "typeof_unqual",
    "union",
    "unsigned",
    "void",
    "volatile",
    "while",
    "_Alignas",
    "_Alignof",
    "_Atomic",
    "_Bool",
    "_Complex",
    "_Generic",
    "_Imaginary",
    "_Noreturn",
    "_Static_assert",
    "_Thread_local",
    "NULL",
    "jmp_buf",
    "linux",
    "unix",
];

/// What stands before the first `=` of a word, and behind it; the word and nothing, where it has none.
fn halves(word: &str) -> (&str, &str)
    ensures function { result.0.now ≡ function_in word.now }
    ensures name { result.1.now ≡ c_name_in word.now }
{
    match word.split_once('=') {
        Some(halves) => halves,
        None => (word, ""),
    }
}

/// Whether two texts are one.
fn is_same(one: &str, other: &str) -> bool
    ensures { result ≡ bytes_eq one.now other.now }
{
    one == other
}

/// Whether the name is among the words.
fn is_among(words: &[&str], name: &str) -> bool
    ensures { result ≡ is_among (texts words.now) name.now }
{
    words.iter().any(|word| is_same(word, name))
}

/// Whether a digit follows another to the end.
fn are_digits(bytes: &[u8]) -> bool
    ensures { result ≡ list_all is_ascii_digit bytes.now }
{
    bytes.iter().all(|byte| byte.is_ascii_digit())
}

/// Whether all of the bytes are digits, and there are some.
fn is_decimal(bytes: &[u8]) -> bool
    ensures { result ≡ is_decimal bytes.now }
{
    match bytes.split_first() {
        Some((first, rest)) => first.is_ascii_digit() && are_digits(rest),
        None => false,
    }
}

/// Whether the bytes are `r` and a number.
fn is_register(bytes: &[u8]) -> bool
    ensures { result ≡ is_register bytes.now }
{
    match bytes.split_first() {
        Some((first, digits)) => *first == b'r' && is_decimal(digits),
        None => false,
    }
}

/// Whether the text begins with another.
fn begins(text: &str, start: &str) -> bool
    ensures { result ≡ bytes_eq (take (length start.now) text.now) start.now }
{
    text.as_bytes().starts_with(start.as_bytes())
}

/// Whether a C function's name is one of the printed text, of the runtime or of the library.
fn is_taken(name: &str) -> bool
    ensures { result ≡ is_taken name.now }
{
    is_same(name, "main")
        || is_same(name, "t")
        || begins(name, "asl_")
        || begins(name, "aslr_")
        || is_register(name.as_bytes())
}

/// Adds a text to these.
fn add_text<'a>(held: &mut BTreeMap<&'a str, ()>, text: &'a str) -> Result<(), AllocError>
    ensures { IfOk result (λ _. (all : List Text) → Hold held.old all → Hold held.new (all ++ text.now ∷ [])) }
{
    held.insert(text, ())?;
    Ok(())
}

/// Adds the function and the C function that a word names to these.
fn add_word<'a>(
    functions: &mut BTreeMap<&'a str, ()>,
    names: &mut BTreeMap<&'a str, ()>,
    word: &'a str,
) -> Result<(), AllocError>
    ensures functions { IfOk result (λ _. (all : List Text) → Hold functions.old all → Hold functions.new (all ++ function_in word.now ∷ [])) }
    ensures names { IfOk result (λ _. (all : List Text) → Hold names.old all → Hold names.new (all ++ c_name_in word.now ∷ [])) }
{
    let (function, name) = halves(word);
    add_text(functions, function)?;
    add_text(names, name)
}

/// What is wrong with a word, after words that name these functions and these C functions.
fn wrong(functions: &BTreeMap<&str, ()>, names: &BTreeMap<&str, ()>, word: &str) -> Option<WhyNot>
    ensures { (before : List Text) → Hold functions.now (map function_in before) → Hold names.now (map c_name_in before)
        → MatchOption result ((why : WhyNot) → ¬ IsWrong before word.now why) (IsWrong before word.now) }
{
    let (function, name) = halves(word);
    if !is_name(function) || !is_name(name) {
        return Some(WhyNot::NoPair);
    }
    if is_same(function, "main") {
        return Some(WhyNot::IsMain);
    }
    if is_among(&KEYWORDS, name) {
        return Some(WhyNot::IsKeyword);
    }
    if is_taken(name) {
        return Some(WhyNot::IsTaken);
    }
    if functions.contains_key(function) {
        return Some(WhyNot::FunctionTwice);
    }
    if names.contains_key(name) {
        return Some(WhyNot::NameTwice);
    }
    None
}

/// The pair that a word is.
fn pair_of(alloc: Global, word: &str) -> Result<Replacement, AllocError>
    ensures function { IfOk result (λ pair. string_bytes pair.function ≡ function_in word.now) }
    ensures name { IfOk result (λ pair. string_bytes pair.name ≡ c_name_in word.now) }
{
    let (function, name) = halves(word);
    Ok(Replacement {
        function: String::from_str(alloc, function)?,
        name: String::from_str(alloc, name)?,
    })
}

/// The pairs that are these words.
pub fn externs<'a>(alloc: Global, words: &[&'a str]) -> Result<Vec<Replacement>, ExternsFault<'a>>
    ensures ok { IfOk result (λ pairs. AreExterns (texts words.now) pairs.items) }
    ensures err { IfErr result (IsExternsFault (texts words.now)) }
{
    let mut pairs = Vec::new(alloc);
    let mut functions = BTreeMap::new(alloc);
    let mut names = BTreeMap::new(alloc);
    for word in words {
        if let Some(why) = wrong(&functions, &names, word) {
            return Err(ExternsFault::NoExtern(word, why));
        }
        let Ok(pair) = pair_of(alloc, word) else {
            return Err(ExternsFault::OutOfMemory);
        };
        if pairs.push(pair).is_err() {
            return Err(ExternsFault::OutOfMemory);
        }
        let Ok(()) = add_word(&mut functions, &mut names, word) else {
            return Err(ExternsFault::OutOfMemory);
        };
    }
    Ok(pairs)
}

/// What is told of a word that is no such pair.
pub fn why_text(why: WhyNot) -> &'static str
    ensures { result.now ≡ why_text why }
{
    match why {
        WhyNot::NoPair => "not F=NAME with the name of a function and that of a C function",
        WhyNot::IsMain => "no C function is called in place of main",
        WhyNot::IsKeyword => "a C function cannot have the name of a word of C",
        WhyNot::IsTaken => "the printed program has that name itself",
        WhyNot::FunctionTwice => "a C function is called in place of the function already",
        WhyNot::NameTwice => "the C function is called in place of another function already",
    }
}
