//! Sources, with `\n`, `\r`, `\t` and `\v` in them: `tokens TEXT` (a sign and a place each), `first_bad TEXT`, `first_fault TEXT`,
//! `parse TEXT`, `parse_once TEXT` (not made again where memory is refused), `reprint TEXT`, `items TEXT`, and
//! `reparse TEXT`, of what is printed.
use asl_grammar::lexer::{Found, Tokens, first_bad};
use asl_grammar::recognizer::first_fault;
use asl_grammar::token::{Mark, Token};
use asl_probe_text::{put_bad, put_escaped, put_line, put_word, unescaped};
use asl_syntax::{Ast, SyntaxFault, parse, print};
use std::alloc::{AllocError, Global};

pub fn answer(alloc: Global, calls: &str, out: &mut String) -> Result<(), AllocError> {
    for line in calls.lines() {
        let (call, rest) = line.split_once(' ').unwrap_or((line, ""));
        let text = unescaped(alloc, rest)?;
        match call {
            "tokens" => put_tokens(text.as_bytes(), out)?,
            "first_bad" => put_place(first_bad(text.as_bytes()), out)?,
            "first_fault" => put_place(first_fault(alloc, text.as_bytes()), out)?,
            "parse_once" => put_outcome(parse(alloc, text.as_bytes()), out)?,
            _ => answer_parsed(alloc, call, text.as_bytes(), out)?,
        }
    }
    Ok(())
}

/// A sign for a token: `S` for `==`, `f` for `fn`, `n` for a name, `#` for a number, `.` for most words and symbols.
fn sign(token: Token<'_>) -> char {
    match token {
        Token::Fixed(Mark::Becomes) => '=',
        Token::Fixed(Mark::Same) => 'S',
        Token::Fixed(Mark::Fn) => 'f',
        Token::Fixed(_) => '.',
        Token::Name(_) => 'n',
        Token::Number(_) => '#',
    }
}

/// The tokens of a text, each as its sign and its place.
fn put_tokens(text: &[u8], out: &mut String) -> Result<(), AllocError> {
    let mut tokens = Tokens::new(text);
    for _ in text {
        if let Found::Token(spot) = tokens.next() {
            put_word("", out)?;
            write!(out, "{}{}", sign(spot.token), spot.at)?;
        }
    }
    out.push('\n')
}

fn put_place(place: Option<usize>, out: &mut String) -> Result<(), AllocError> {
    match place {
        Some(place) => write!(out, "{place}\n"),
        None => put_line("none", out),
    }
}

fn put_outcome(outcome: Result<Ast<'_>, SyntaxFault>, out: &mut String) -> Result<(), AllocError> {
    match outcome {
        Ok(_ast) => put_line("ok", out),
        Err(fault) => write!(out, "{fault}\n"),
    }
}

/// What `parse` answers, at the second call if the first gets no memory.
pub fn parse_again(alloc: Global, text: &[u8]) -> Result<Ast<'_>, SyntaxFault> {
    match parse(alloc, text) {
        Err(SyntaxFault::OutOfMemory) => parse(alloc, text),
        answer => answer,
    }
}

/// What `print` answers, at the second call if the first gets no memory.
fn print_again(alloc: Global, ast: &Ast<'_>) -> Result<Vec<u8>, AllocError> {
    match print(alloc, ast) {
        Err(_refused) => print(alloc, ast),
        text => text,
    }
}

fn answer_parsed(
    alloc: Global,
    call: &str,
    text: &[u8],
    out: &mut String,
) -> Result<(), AllocError> {
    match (call, parse_again(alloc, text)) {
        (_, Err(fault)) => write!(out, "{fault}\n"),
        ("parse", Ok(_)) => put_line("ok", out),
        ("reprint", Ok(ast)) => put_text(print_again(alloc, &ast)?.as_slice(), out),
        ("reparse", Ok(ast)) => {
            put_outcome(
                parse_again(alloc, print_again(alloc, &ast)?.as_slice()),
                out,
            )
        }
        ("items", Ok(ast)) => put_items(alloc, &ast, out),
        _ => put_bad(call, out),
    }
}

fn put_text(text: &[u8], out: &mut String) -> Result<(), AllocError> {
    match str::from_utf8(text) {
        Ok(text) => put_escaped(text, out),
        Err(_) => put_line("no text", out),
    }
}

/// How many items a tree has, and the names of its globals and functions.
fn put_items(alloc: Global, ast: &Ast<'_>, out: &mut String) -> Result<(), AllocError> {
    write!(out, "items {} globals", ast.items().len())?;
    put_globals(alloc, ast, out)?;
    out.push_str(" functions")?;
    put_functions(alloc, ast, out)?;
    out.push('\n')
}

fn put_globals(alloc: Global, ast: &Ast<'_>, out: &mut String) -> Result<(), AllocError> {
    let globals = match ast.globals(alloc) {
        Err(_refused) => ast.globals(alloc)?,
        Ok(globals) => globals,
    };
    for name in globals.as_slice() {
        put_word(str::from_utf8(name.as_slice()).unwrap_or("?"), out)?;
    }
    Ok(())
}

fn put_functions(alloc: Global, ast: &Ast<'_>, out: &mut String) -> Result<(), AllocError> {
    let functions = match ast.functions(alloc) {
        Err(_refused) => ast.functions(alloc)?,
        Ok(functions) => functions,
    };
    for function in functions {
        put_word(str::from_utf8(function.name.as_slice()).unwrap_or("?"), out)?;
    }
    Ok(())
}
