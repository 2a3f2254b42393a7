//! The words that have a meaning of their own.

ghost use Rattle.std.specs.Prelude.{◌≡◌};
ghost use Rattle.asl_assembler.specs.Reading.{keyword_of, first_named, directives, setters, others};

/// A word with a meaning of its own.
#[derive(Clone, Copy)]
pub(crate) enum Keyword {
    Version,
    Classes,
    Global,
    Entry,
    Function,
    List,
    Root,
    Class,
    Expr,
    Int,
    Null,
    Mov,
    Add,
    Sub,
    Lt,
    Eq,
    Glob,
    Field,
    Load,
    Store,
    New,
    Jmp,
    Jz,
    Call,
    Ret,
    Out,
    Acq,
    Rel,
    Read,
    Write,
}

/// The keyword that the word is, if it is one.
#[inline(always)]
#[tactic(auto, unfolding(crate::specs::Reading::keyword_of))]
pub(crate) fn find_keyword(word: &[u8]) -> Option<Keyword>
    ensures { result ≡ keyword_of word.now }
{
    match find_other(word) {
        Some(found) => Some(found),
        None => match find_setter(word) {
            Some(found) => Some(found),
            None => find_directive(word),
        },
    }
}

/// The same of the keywords of lines that are no instruction, and of effects.
fn find_directive(word: &[u8]) -> Option<Keyword>
    ensures { result ≡ first_named directives word.now }
{
    if word == b"version".as_slice() {
        return Some(Keyword::Version);
    }
    if word == b"classes".as_slice() {
        return Some(Keyword::Classes);
    }
    if word == b"global".as_slice() {
        return Some(Keyword::Global);
    }
    if word == b"entry".as_slice() {
        return Some(Keyword::Entry);
    }
    if word == b"fn".as_slice() {
        return Some(Keyword::Function);
    }
    if word == b"list".as_slice() {
        return Some(Keyword::List);
    }
    if word == b"root".as_slice() {
        return Some(Keyword::Root);
    }
    if word == b"class".as_slice() {
        return Some(Keyword::Class);
    }
    if word == b"expr".as_slice() {
        return Some(Keyword::Expr);
    }
    if word == b"read".as_slice() {
        return Some(Keyword::Read);
    }
    if word == b"write".as_slice() {
        return Some(Keyword::Write);
    }
    None
}

/// The same of the instructions that set a register and touch no cell.
#[inline(always)]
fn find_setter(word: &[u8]) -> Option<Keyword>
    ensures { result ≡ first_named setters word.now }
{
    match word {
        b"int" => Some(Keyword::Int),
        b"null" => Some(Keyword::Null),
        b"mov" => Some(Keyword::Mov),
        b"add" => Some(Keyword::Add),
        b"sub" => Some(Keyword::Sub),
        b"lt" => Some(Keyword::Lt),
        b"eq" => Some(Keyword::Eq),
        b"glob" => Some(Keyword::Glob),
        b"field" => Some(Keyword::Field),
        _ => None,
    }
}

/// The same of the other instructions.
#[inline(always)]
fn find_other(word: &[u8]) -> Option<Keyword>
    ensures { result ≡ first_named others word.now }
{
    match word {
        b"load" => Some(Keyword::Load),
        b"store" => Some(Keyword::Store),
        b"new" => Some(Keyword::New),
        b"jmp" => Some(Keyword::Jmp),
        b"jz" => Some(Keyword::Jz),
        b"call" => Some(Keyword::Call),
        b"ret" => Some(Keyword::Ret),
        b"out" => Some(Keyword::Out),
        b"acq" => Some(Keyword::Acq),
        b"rel" => Some(Keyword::Rel),
        _ => None,
    }
}
