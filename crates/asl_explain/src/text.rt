//! The words of an explanation: sections, locks, and the lines of chains.
ghost use Rattle.std.specs.Prelude.{◌≡◌, ◌∷◌, [], ◌++◌, Some, IfOk, OnOk, string_bytes};
ghost use Rattle.std.specs.List.{flat_map};
ghost use Rattle.asl_class_text.specs.Texts.{place_columns};
ghost use Rattle.asl_explain.specs.Told.{Note, has_line_end, words_in, section_in, function_of, never_words, place_words, plural_words, between_words, made_by, made_words, new_line, ending_lines, ended_line, ended_lines};
ghost use Rattle.asl_explain.specs.Telling.{Tells, given};

mod chains;
mod classes;
mod lists;
mod members;

use crate::class_reasons::ClassTold;
use crate::explain_analysis::ExplainAnalysis;
use crate::explained_value::{Ended, Ending, Listed, Lists};
use crate::source_places::Places;
use asl_backward_flow::Region;
use asl_class_text::{Facts, push_padded};
use asl_code::{Base, Lock};
use asl_lock_words::lock_words;
use asl_lower::Section;
use std::alloc::{AllocError, Global};
use std::fmt::Write;

/// The most members of a class, or statements, that are named where not all are to be.
pub(crate) const MAX_NAMED: usize = 8;

/// Of how many locks under another the statements are named where not all are to be.
const MAX_CONTAINED: usize = 6;

/// The most steps that a chain may have to be told whole where not all are to be.
const MAX_STEPS: usize = 40;

/// How many steps are told at each end of a longer one.
const AT_END: usize = 16;

/// What stands in place of the line and the statement of an instruction.
const NO_PLACE: &str = "                                       ";

/// What an explanation is written from: the analysis of a source with its names and places, and how much is told.
#[derive(Clone, Copy)]
pub struct Teller<'a> {
    pub alloc: Global,
    pub analysis: &'a ExplainAnalysis,
    pub places: &'a Places<'a>,
    /// The lists with paths of at most 0 to 8 operations.
    pub by_length: &'a [Lists],
    /// What is told of each class.
    pub told: &'a [Option<ClassTold>],
    /// Whether every chain is told.
    pub all: bool,
}

/// Of how many locks under another statements are told where not all are to be: of one a chain, and of the others the statements alone.
pub const MAX_EXPLAINED: usize = MAX_CONTAINED + 1;

/// A number of a table, each of which has at most 65,536.
fn narrow(number: usize) -> u16 {
    if number < 65536 { number as u16 } else { 0 }
}

/// The letter of a plural.
fn plural(count: usize) -> &'static str {
    if count == 1 { "" } else { "s" }
}

/// Adds what parts one from those before it.
pub fn push_between(text: &mut String, number: usize) -> Result<(), AllocError>
    ensures { OnOk result (string_bytes text.new ≡ string_bytes text.old ++ between_words number) }
{
    let between = if number > 0 { "\n" } else { "" };
    text.push_str(between)
}

/// Adds the end of the first line of a section.
pub fn push_plural(text: &mut String, count: usize) -> Result<(), AllocError>
    ensures { OnOk result (string_bytes text.new ≡ string_bytes text.old ++ plural_words count) }
{
    if count == 1 {
        text.push_str("\n")
    } else {
        text.push_str("s\n")
    }
}

impl Teller<'_> {
    /// What is known of the source.
    fn facts(&self) -> &Facts<'_>
        ensures { result.now ≡ (given self.now).facts }
    {
        self.places.facts()
    }

    /// The words of a lock, by the function's names.
    fn words(&self, function: u16, lock: &Lock) -> Result<String, AllocError>
        ensures { IfOk result (λ text. string_bytes text ≡ words_in (given self.now).facts function lock.now) }
    {
        lock_words(self.alloc, self.places.map(), function, lock)
    }

    /// Adds the words of a lock, by the function's names.
    fn push_lock_words(
        &self,
        text: &mut String,
        function: u16,
        lock: &Lock,
    ) -> Result<(), AllocError>
        ensures { OnOk result (string_bytes text.new ≡ string_bytes text.old ++ words_in (given self.now).facts function lock.now) }
    {
        text.push_str(self.words(function, lock)?.as_str())
    }

    /// The section of a number.
    pub fn section(&self, number: usize) -> Section
        ensures { result ≡ section_in (given self.now).facts number }
    {
        match self.facts().lowering.sections().get(number) {
            Some(section) => *section,
            None => Section {
                function: 0,
                acquire: 0,
                release: 0,
            },
        }
    }

    /// The function of a region.
    pub fn function_of(&self, region: Region) -> u16
        ensures { result ≡ function_of (given self.now).facts region }
    {
        match region {
            Region::Body(function) => function,
            Region::Section(section) => self.section(usize::from(section)).function,
        }
    }

    /// That `main` never reaches a function, if it does not.
    fn never_words(&self, function: u16) -> &'static str
        ensures { result.now ≡ never_words (given self.now).facts.map function }
    {
        if self.places.is_reached(function) {
            ""
        } else {
            ", which main never reaches"
        }
    }

    /// Adds where a section stands, and how long paths are.
    pub fn push_place_of_section(
        &self,
        text: &mut String,
        section: Section,
    ) -> Result<(), AllocError>
        ensures { OnOk result (string_bytes text.new ≡ string_bytes text.old ++ place_words (given self.now).facts (given self.now).k_limit section) }
    {
        let line = self.places.line(section.acquire);
        let name = self.places.function(section.function)?;
        let k = self.analysis.k_limit;
        let never = self.never_words(section.function);
        write!(text, "line {line}, in {name}{never}, k {k}")
    }

    /// Adds the locks that end at a `new` of a section of the function.
    pub fn push_ended(
        &self,
        text: &mut String,
        function: u16,
        ended: &[Ended],
    ) -> Result<(), AllocError>
        ensures { OnOk result (Tells (flat_map (ended_lines (given self.now).all (given self.now).facts function) ended.now) (string_bytes text.old) (string_bytes text.new)) }
    {
        for end in ended {
            self.push_end(text, function, end)?;
        }
        Ok(())
    }

    /// Adds a lock that ends at a `new` of a section of the function.
    fn push_end(&self, text: &mut String, function: u16, end: &Ended) -> Result<(), AllocError>
        ensures { OnOk result (Tells (ended_lines (given self.now).all (given self.now).facts function end.now) (string_bytes text.old) (string_bytes text.new)) }
    {
        self.push_end_line(text, function, &end.lock)?;
        self.push_ending(text, end)?;
        Ok(())
    }

    /// Adds the line of a lock that ends at a `new` of a section of the function.
    fn push_end_line(&self, text: &mut String, function: u16, lock: &Lock) -> Result<(), AllocError>
        ensures { OnOk result (string_bytes text.new ≡ string_bytes text.old ++ ended_line (given self.now).facts function lock.now) }
    {
        let words = self.words(function, lock)?;
        let made = self.made(function, lock)?;
        write!(text, "\n  no lock for {words}   ({made} is new)\n")
    }

    /// Adds the chain of a lock that ends at a `new`, if it is told.
    fn push_ending(&self, text: &mut String, end: &Ended) -> Result<(), AllocError>
        ensures { OnOk result (Tells (ending_lines (given self.now).all (given self.now).facts end.now.ending) (string_bytes text.old) (string_bytes text.new)) }
    {
        match &end.ending {
            Some(ending) => self.push_told_ending(text, ending),
            None => Ok(()),
        }
    }

    /// Adds a chain that ends at a `new`, and the line of the `new`.
    fn push_told_ending(&self, text: &mut String, ending: &Ending) -> Result<(), AllocError>
        ensures { OnOk result (Tells (ending_lines (given self.now).all (given self.now).facts (Some ending.now)) (string_bytes text.old) (string_bytes text.new)) }
    {
        self.push_chain(text, &ending.chain)?;
        self.push_new(text, ending.pc)?;
        Ok(())
    }

    /// Adds the line of the `new` at a pc.
    fn push_new(&self, text: &mut String, pc: u16) -> Result<(), AllocError>
        ensures { OnOk result (string_bytes text.new ≡ string_bytes text.old ++ new_line (given self.now).facts pc) }
    {
        self.push_place(text, pc)?;
        push_padded(text, "ends", 8)?;
        text.push_str("the object is new here: no lock\n")
    }

    /// The name of the register on which a lock of a function begins.
    fn made(&self, function: u16, lock: &Lock) -> Result<String, AllocError>
        ensures { IfOk result (λ text. string_bytes text ≡ made_words (given self.now).facts.map function lock.now) }
    {
        match lock {
            Lock::Expr(expr, _) => self.made_by(function, expr.base),
            Lock::Class(_, _) => Ok(String::new(self.alloc)),
            Lock::Root(_) => Ok(String::new(self.alloc)),
        }
    }

    /// The name of a register.
    fn made_by(&self, function: u16, base: Base) -> Result<String, AllocError>
        ensures { IfOk result (λ text. string_bytes text ≡ made_by (given self.now).facts.map function base) }
    {
        match base {
            Base::Reg(register) => self.places.register(function, register),
            Base::Global(_) => Ok(String::new(self.alloc)),
        }
    }

    /// Where a statement stands, and its text.
    fn place(&self, pc: u16) -> Result<String, AllocError> {
        let line = self.places.line(pc);
        let statement = self.places.statement(pc)?;
        format!(in self.alloc; "line {line} `{statement}`")
    }

    /// Adds the line and the statement of an instruction, in columns.
    #[tactic(auto, unfolding(asl_class_text::specs::Texts::place_columns))]
    fn push_place(&self, text: &mut String, pc: u16) -> Result<(), AllocError>
        ensures { OnOk result (string_bytes text.new ≡ string_bytes text.old ++ place_columns (given self.now).facts pc) }
    {
        let line = self.places.line(pc);
        let line = format!(in self.alloc; "{line}")?;
        let statement = self.places.statement(pc)?;
        text.push_str("      line ")?;
        push_padded(text, line.as_str(), 4)?;
        push_padded(text, statement.as_str(), 22)
    }
}

/// Whether a line ends in a text.
fn has_line_end(text: &str) -> bool
    ensures { result ≡ has_line_end text.now }
{
    for byte in text.as_bytes() {
        if *byte == b'\n' {
            return true;
        }
    }
    false
}

/// Adds a note, if there is one. It stays in its line.
fn push_note(text: &mut String, note: &str) -> Result<(), AllocError>
    ensures { OnOk result (Tells (Note ∷ []) (string_bytes text.old) (string_bytes text.new)) }
{
    if note.is_empty() || has_line_end(note) {
        return Ok(());
    }
    write!(text, "   {note}")
}
