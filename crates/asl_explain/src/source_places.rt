//! The names of a source, and its statements by their instructions.
ghost use Rattle.std.specs.Prelude.{◌≡◌, true, IfOk, string_bytes, slice_get};
ghost use Rattle.std.specs.Option.{option_copied};
ghost use Rattle.asl_code.specs.declared.lock.Base.TheVariants.{Reg};
ghost use Rattle.asl_map.specs.Text.{is_marked};
ghost use Rattle.asl_lock_words.specs.Words.{name_or, base_name, function_words};
ghost use Rattle.asl_class_text.specs.Places.{area_of_site, line_at, stretch};
ghost use Rattle.asl_explain.specs.Gaps.{are_gaps};
ghost use Rattle.asl_class_text.specs.Texts.{name_words, global_words, site_words, member_words, one_line, statement_at};

use crate::gaps::{Gap, find_gaps, one_line};
use asl_class_text::{Facts, Reasoned, line_of};
use asl_code::Base;
use asl_lock_words::base_name;
use asl_map::{Area, Map};
use asl_syntax::Name;
use std::alloc::{AllocError, Global};

/// The names and places of a source.
#[derive(Drop)]
pub struct Places<'a> {
    alloc: Global,
    /// The source with its map and its classes.
    pub reasoned: &'a Reasoned<'a>,
    /// The stretches of many blanks, in order.
    gaps: Vec<Gap>,
    ghost blank: { are_gaps reasoned.now.known.facts.source.now gaps.items ≡ true },
}

/// The names and places of a source with its classes.
pub fn places_of<'a>(alloc: Global, reasoned: &'a Reasoned<'a>) -> Result<Places<'a>, AllocError>
    ensures { IfOk result (λ p. p.reasoned.now ≡ reasoned.entry.now) }
{
    let gaps = find_gaps(alloc, reasoned.known().facts.source)?;
    Ok(Places {
        alloc,
        reasoned,
        gaps,
    })
}

/// A name, or a letter and a number where there is none.
fn name_or(
    alloc: Global,
    name: Option<&Name>,
    letter: &str,
    number: u16,
) -> Result<String, AllocError>
    ensures { IfOk result (λ text. string_bytes text ≡ name_or (option_copied name.entry) letter.now number) }
{
    match name {
        Some(name) => format!(in alloc; "{name}"),
        None => format!(in alloc; "{letter}{number}"),
    }
}

/// A name as a text, which is empty where there is none.
fn name_words(alloc: Global, name: Option<&Name>) -> Result<String, AllocError>
    ensures { IfOk result (λ text. string_bytes text ≡ name_words (option_copied name.entry)) }
{
    match name {
        Some(name) => format!(in alloc; "{name}"),
        None => Ok(String::new(alloc)),
    }
}

/// Whether a number has a mark.
fn is_marked(marks: &[bool], number: usize) -> bool
    ensures { result ≡ is_marked marks.now number }
{
    marks.get(number).copied().unwrap_or(false)
}

impl Places<'_> {
    /// What is known of the source.
    pub fn facts(&self) -> &Facts<'_>
        ensures { result.now ≡ self.now.reasoned.now.known.facts }
    {
        &self.reasoned.known().facts
    }

    /// The map of the source.
    pub fn map(&self) -> &Map
        ensures { result.now ≡ self.now.reasoned.now.known.facts.map }
    {
        &self.facts().map
    }

    /// The name of a register of a function; an argument's register has none, and is told by its number.
    pub fn register(&self, function: u16, register: u8) -> Result<String, AllocError>
        ensures { IfOk result (λ text. string_bytes text ≡ base_name self.now.reasoned.now.known.facts.map function (Reg register)) }
    {
        base_name(self.alloc, self.map(), function, Base::Reg(register))
    }

    /// The name of a function.
    pub fn function(&self, function: u16) -> Result<String, AllocError>
        ensures { IfOk result (λ text. string_bytes text ≡ function_words self.now.reasoned.now.known.facts.map function) }
    {
        name_or(
            self.alloc,
            self.map().function_name(function),
            "f",
            function,
        )
    }

    /// Whether `main` reaches a function, itself or through others.
    pub fn is_reached(&self, function: u16) -> bool
        ensures { result ≡ is_marked self.now.reasoned.now.known.facts.map.reached function }
    {
        is_marked(&self.map().reached, usize::from(function))
    }

    /// The line of the statement of an instruction, from 1.
    pub fn line(&self, pc: u16) -> usize
        ensures { result ≡ line_at self.now.reasoned.now.known.facts pc }
    {
        match self.map().place(pc) {
            Some(piece) => line_of(self.facts(), piece.from),
            None => 0,
        }
    }

    /// The text of the statement of an instruction, in one line, without what ends it.
    pub fn statement(&self, pc: u16) -> Result<String, AllocError>
        ensures { IfOk result (λ text. string_bytes text ≡ statement_at self.now.reasoned.now.known.facts pc) }
    {
        match self.map().place(pc) {
            Some(piece) => self.stretch(piece.from, piece.to),
            None => Ok(String::new(self.alloc)),
        }
    }

    /// The bytes from a place up to the last one before another, in one line.
    fn stretch(&self, from: usize, to: usize) -> Result<String, AllocError>
        ensures { IfOk result (λ text. string_bytes text ≡ one_line (stretch self.now.reasoned.now.known.facts.source.now from to)) }
    {
        one_line(self.alloc, self.facts().source, &self.gaps, from, to)
    }

    /// A member of a class, a global or a site.
    pub fn member(&self, member: u32) -> Result<String, AllocError>
        ensures { IfOk result (λ text. string_bytes text ≡ member_words self.now.reasoned.now.known.facts member) }
    {
        let member = member as usize;
        let globals = usize::from(self.facts().lowering.globals());
        if member < globals {
            self.global(member)
        } else {
            self.site(member - globals)
        }
    }

    /// A global: `` `queue` ``.
    fn global(&self, global: usize) -> Result<String, AllocError>
        ensures { IfOk result (λ text. string_bytes text ≡ global_words self.now.reasoned.now.known.facts global) }
    {
        let name = name_words(self.alloc, self.map().globals.get(global))?;
        format!(in self.alloc; "`{name}`")
    }

    /// A site, by its line and its statement: ``line 8 `n = new 2` ``.
    fn site(&self, site: usize) -> Result<String, AllocError>
        ensures { IfOk result (λ text. string_bytes text ≡ site_words self.now.reasoned.now.known.facts site) }
    {
        let area = self.area(site);
        let line = line_of(self.facts(), area.from);
        let statement = self.stretch(area.from, area.to)?;
        format!(in self.alloc; "line {line} `{statement}`")
    }

    /// Where a site stands.
    fn area(&self, site: usize) -> Area
        ensures { result ≡ area_of_site self.now.reasoned.now.known.facts site }
    {
        match self.map().sites.get(site) {
            Some(area) => *area,
            None => Area {
                function: 0,
                from: 0,
                to: 0,
            },
        }
    }
}
