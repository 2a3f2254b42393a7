//! The assignments and the stores of a region, by the tokens of a text: that of a section, or the body of a function.

ghost use Rattle.std.specs.Prelude.{IfSome};
ghost use Rattle.asl_diagnose.specs.InferPlaces.{IsRegionPlace};

use asl_backward_flow::Region;
use asl_diagnose_text::{Word, numbered};
use asl_grammar::lexer::{Found, Tokens};
use asl_grammar::token::{Mark, Spot, Token};
use std::alloc::{AllocError, Global};

/// An assignment or a store.
#[derive(Clone, Copy)]
pub struct Line {
    /// The place of its first byte.
    pub start: usize,
    /// The place after its semicolon.
    pub end: usize,
    /// The place after the `=` of an assignment, that of the `*` of a store.
    pub value: usize,
    pub is_store: bool,
}

/// Where a reader of a region is.
#[derive(Clone, Copy)]
struct Scan {
    /// How many braces of the region are open.
    depth: usize,
    /// Whether a statement begins with the next token.
    is_start: bool,
    /// What was begun.
    line: Option<Line>,
}

impl Scan {
    /// Before the first token of a region.
    fn new() -> Scan {
        Scan {
            depth: 0,
            is_start: false,
            line: None,
        }
    }

    /// Goes past a token. Answers what it completes.
    fn pass(&mut self, spot: Spot<'_>) -> Option<Line> {
        let is_start = self.is_start;
        self.is_start = false;
        match spot.token {
            Token::Fixed(Mark::OpenBrace) => self.open(),
            Token::Fixed(Mark::CloseBrace) => self.close(),
            Token::Fixed(Mark::Semicolon) => return self.complete(spot.at),
            Token::Fixed(Mark::Becomes) => self.note_value(spot.at),
            Token::Fixed(Mark::Star) if is_start => self.begin(spot.at, true),
            Token::Name(_) if is_start => self.begin(spot.at, false),
            _ => {}
        }
        None
    }

    /// Goes into a block.
    fn open(&mut self) {
        self.depth = self.depth.saturating_add(1);
        self.is_start = true;
    }

    /// Leaves a block.
    fn close(&mut self) {
        self.depth = self.depth.saturating_sub(1);
        self.is_start = true;
    }

    /// Begins an assignment or a store.
    fn begin(&mut self, at: usize, is_store: bool) {
        self.line = Some(Line {
            start: at,
            end: at,
            value: at,
            is_store,
        });
    }

    /// Notes the `=` of an assignment.
    fn note_value(&mut self, at: usize) {
        if let Some(line) = &mut self.line {
            if !line.is_store {
                line.value = at.saturating_add(1);
            }
        }
    }

    /// Ends what was begun, at a semicolon.
    fn complete(&mut self, at: usize) -> Option<Line> {
        self.is_start = true;
        let mut line = self.line.take()?;
        line.end = at.saturating_add(1);
        Some(line)
    }
}

/// The place of the word that a region begins with.
pub fn region_start(text: &[u8], region: Region) -> Option<usize>
    ensures { IfSome result (IsRegionPlace text.now region) }
{
    match region {
        Region::Section(section) => numbered(text, Word::Atomic, usize::from(section)),
        Region::Body(function) => numbered(text, Word::Fn, usize::from(function)),
    }
}

/// The assignments and the stores of a region, in the order of the text.
pub fn region_lines(alloc: Global, text: &[u8], region: Region) -> Result<Vec<Line>, AllocError> {
    let mut lines = Vec::new(alloc);
    let start = region_start(text, region).unwrap_or(text.len());
    let mut scan = Scan::new();
    let mut tokens = Tokens::new(text);
    'reading: while let Found::Token(spot) = tokens.next() {
        if spot.at >= start {
            let was_open = scan.depth > 0;
            if let Some(line) = scan.pass(spot) {
                lines.push(line)?;
            }
            if was_open && scan.depth == 0 {
                return Ok(lines);
            }
        }
    }
    Ok(lines)
}
