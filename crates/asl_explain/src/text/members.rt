//! The line of a lock of a list, and the members of a class in it.
ghost use Rattle.std.specs.Prelude.{◌≡◌, ◌-◌, ◌++◌, OnOk, codes, string_bytes, length};
ghost use Rattle.asl_class_text.specs.Numbered.{numbered};
ghost use Rattle.asl_class_text.specs.Texts.{listed_words, padded, shown};
ghost use Rattle.asl_lock_words.specs.Assembly.{spell};
ghost use Rattle.asl_explain.specs.Told.{words_in, more_words, shown_words, members_words, lock_line};
ghost use Rattle.asl_explain.specs.Telling.{given};

use crate::text::{MAX_NAMED, Teller};
use asl_class_text::push_padded;
use asl_code::Lock;
use asl_lock_words::{assembly_words, push_assembly};
use std::alloc::AllocError;
use std::fmt::Write;

/// How many of so many members are shown.
fn shown(all: bool, count: usize) -> usize
    ensures { result ≡ shown all count }
{
    if all || count <= MAX_NAMED {
        count
    } else {
        MAX_NAMED - 1
    }
}

/// Adds how many members are not shown, if some are not.
fn push_hidden(text: &mut String, left: usize) -> Result<(), AllocError>
    ensures { OnOk result (string_bytes text.new ≡ string_bytes text.old ++ more_words left) }
{
    if left > 0 {
        write!(text, ", and {left} more")
    } else {
        Ok(())
    }
}

impl Teller<'_> {
    /// Adds the line of a lock of a list.
    pub fn push_lock_line(
        &self,
        text: &mut String,
        function: u16,
        lock: &Lock,
    ) -> Result<(), AllocError>
        ensures { OnOk result (string_bytes text.new ≡ string_bytes text.old ++ lock_line (given self.now) function lock.now) }
    {
        match lock {
            Lock::Expr(_, _) => self.push_expression_line(text, function, lock),
            Lock::Class(class, _) => self.push_class_line(text, lock, *class),
            Lock::Root(_) => self.push_root_line(text, lock),
        }
    }

    /// Adds the line of an expression: in the words of the source, and as an assembly text has it.
    fn push_expression_line(
        &self,
        text: &mut String,
        function: u16,
        lock: &Lock,
    ) -> Result<(), AllocError>
        ensures { OnOk result (string_bytes text.new ≡ string_bytes text.old ++ (codes "\n  " ++ (padded 22 (words_in (given self.now).facts function lock.now) ++ (spell lock.now ++ codes "\n")))) }
    {
        let words = self.words(function, lock)?;
        text.push_str("\n  ")?;
        push_padded(text, words.as_str(), 22)?;
        push_assembly(text, lock)?;
        text.push_str("\n")
    }

    /// Adds a lock as an assembly text has it, in a column.
    fn push_spelled(&self, text: &mut String, lock: &Lock) -> Result<(), AllocError>
        ensures { OnOk result (string_bytes text.new ≡ string_bytes text.old ++ padded 22 (spell lock.now)) }
    {
        let words = assembly_words(self.alloc, lock)?;
        push_padded(text, words.as_str(), 22)
    }

    /// Adds the line of a lock on a class.
    fn push_class_line(&self, text: &mut String, lock: &Lock, class: u16) -> Result<(), AllocError>
        ensures { OnOk result (string_bytes text.new ≡ string_bytes text.old ++ (codes "\n  " ++ (padded 22 (spell lock.now) ++ (members_words (given self.now) class ++ codes "\n")))) }
    {
        text.push_str("\n  ")?;
        self.push_spelled(text, lock)?;
        self.push_members(text, class)?;
        text.push_str("\n")?;
        Ok(())
    }

    /// Adds the line of the root.
    fn push_root_line(&self, text: &mut String, lock: &Lock) -> Result<(), AllocError>
        ensures { OnOk result (string_bytes text.new ≡ string_bytes text.old ++ (codes "\n  " ++ (padded 22 (spell lock.now) ++ codes "everything\n"))) }
    {
        text.push_str("\n  ")?;
        self.push_spelled(text, lock)?;
        text.push_str("everything\n")?;
        Ok(())
    }

    /// Adds the members of a class.
    fn push_members(&self, text: &mut String, class: u16) -> Result<(), AllocError>
        ensures { OnOk result (string_bytes text.new ≡ string_bytes text.old ++ members_words (given self.now) class) }
    {
        match self.told.get(usize::from(class)) {
            Some(Some(told)) => self.push_shown(text, &told.told.members),
            _ => self.push_shown(text, &[]),
        }
    }

    /// Adds these members, all of them or the first.
    fn push_shown(&self, text: &mut String, members: &[u32]) -> Result<(), AllocError>
        ensures { OnOk result (string_bytes text.new ≡ string_bytes text.old ++ shown_words (given self.now).facts (given self.now).all members.now) }
    {
        let count = shown(self.all, members.len());
        text.push_str("{ ")?;
        self.push_each(text, &members[..count])?;
        push_hidden(text, members.len() - count)?;
        text.push_str(" }")
    }

    /// Adds members.
    fn push_each(&self, text: &mut String, members: &[u32]) -> Result<(), AllocError>
        ensures { OnOk result (string_bytes text.new ≡ string_bytes text.old ++ numbered (listed_words (given self.now).facts) 0 members.now) }
    {
        for (number, member) in members.iter().enumerate() {
            self.push_member(text, number, *member)?;
        }
        Ok(())
    }

    /// Adds the member with a number in a list.
    fn push_member(&self, text: &mut String, number: usize, member: u32) -> Result<(), AllocError>
        ensures { OnOk result (string_bytes text.new ≡ string_bytes text.old ++ listed_words (given self.now).facts number member) }
    {
        let between = if number > 0 { ", " } else { "" };
        let words = self.places.member(member)?;
        write!(text, "{between}{words}")
    }
}
