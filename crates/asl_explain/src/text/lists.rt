//! The lists with paths of each length, those that are the same in one line.
ghost use Rattle.std.specs.Prelude.{◌≡◌, ◌∷◌, [], ◌++◌, Some, IfOk, OnOk, IsTrue, codes, string_bytes, slice_get};
ghost use Rattle.std.specs.Option.{option_copied};
ghost use Rattle.asl_class_text.specs.Numbered.{numbered};
ghost use Rattle.asl_explain.specs.Told.{Table, region_words, entry_words, locks_words, list_words, range_words, own_words, row_words};
ghost use Rattle.asl_explain.specs.Telling.{Tells, given};
ghost use Rattle.asl_explain.specs.TellingLists.{list_at};

use crate::explained_value::Lists;
use crate::links::are_same as are_same_locks;
use crate::text::Teller;
use asl_backward_flow::Region;
use asl_class_text::push_padded;
use asl_code::{Items, Lock};
use std::alloc::{AllocError, Global};
use std::fmt::Write;

/// From which length of paths to which.
fn range_words(alloc: Global, first: usize, last: usize) -> Result<String, AllocError>
    ensures { IfOk result (λ text. string_bytes text ≡ range_words first last) }
{
    if first == last {
        format!(in alloc; "{first}")
    } else {
        format!(in alloc; "{first} to {last}")
    }
}

/// Whether both are the same list.
fn is_same_list(list: &[Lock], other: &[Lock]) -> bool
    ensures { IsTrue result → list.now ≡ other.now }
{
    if list.len() != other.len() {
        return false;
    }
    for (number, lock) in list.iter().enumerate() {
        if !are_same_locks(lock, &other[number]) {
            return false;
        }
    }
    true
}

/// Whether both have the same list of a section.
fn have_same(lists: &[Items<Lock>], others: &[Items<Lock>], number: usize) -> bool
    ensures { IsTrue result → slice_get lists.now number ≡ slice_get others.now number }
{
    match (lists.get(number), others.get(number)) {
        (Some(list), Some(other)) => is_same_list(list.as_slice(), other.as_slice()),
        (None, None) => true,
        _ => false,
    }
}

/// Whether both have the same list of a section, or the same region needs too many locks.
fn are_same(lists: &Lists, others: &Lists, number: usize) -> bool
    ensures { IsTrue result → list_at number lists.now ≡ list_at number others.now }
{
    match (lists, others) {
        (Lists::Inferred(lists), Lists::Inferred(others)) => {
            have_same(lists.as_slice(), others.as_slice(), number)
        }
        (Lists::TooManyLocks(region), Lists::TooManyLocks(other)) => *region == *other,
        _ => false,
    }
}

/// Adds a region.
fn push_region(text: &mut String, region: Region) -> Result<(), AllocError>
    ensures { OnOk result (string_bytes text.new ≡ string_bytes text.old ++ region_words region) }
{
    match region {
        Region::Body(function) => write!(text, "Body({function})"),
        Region::Section(section) => write!(text, "Section({section})"),
    }
}

/// Adds that a region needs too many locks.
fn push_too_many(text: &mut String, region: Region) -> Result<(), AllocError>
    ensures { OnOk result (string_bytes text.new ≡ string_bytes text.old ++ (codes "TooManyLocks(" ++ (region_words region ++ codes ")"))) }
{
    text.push_str("TooManyLocks(")?;
    push_region(text, region)?;
    text.push_str(")")?;
    Ok(())
}

impl Teller<'_> {
    /// Adds the lists with paths of each length, those that are the same in one line.
    pub(crate) fn push_lengths(&self, text: &mut String, number: usize) -> Result<(), AllocError>
        ensures { OnOk result (Tells (Table (given self.now) number ∷ []) (string_bytes text.old) (string_bytes text.new)) }
    {
        let lists = self.by_length;
        let mut first = 0;
        for length in 0..lists.len() {
            if length + 1 < lists.len() && are_same(&lists[length], &lists[length + 1], number) {
                continue;
            }
            self.push_lists(text, number, first, length, &lists[length])?;
            first = length + 1;
        }
        Ok(())
    }

    /// Adds the row of the lists with paths of a length up to another.
    fn push_lists(
        &self,
        text: &mut String,
        number: usize,
        first: usize,
        last: usize,
        lists: &Lists,
    ) -> Result<(), AllocError>
        ensures { OnOk result (string_bytes text.new ≡ string_bytes text.old ++ row_words (given self.now) number first last lists.now) }
    {
        let range = range_words(self.alloc, first, last)?;
        text.push_str("  k ")?;
        push_padded(text, range.as_str(), 7)?;
        self.push_list(text, number, lists)?;
        self.push_own(text, first, last)
    }

    /// Adds the end of a row of lists: `(this list)` where the analysis has one of their lengths.
    fn push_own(&self, text: &mut String, first: usize, last: usize) -> Result<(), AllocError>
        ensures { OnOk result (string_bytes text.new ≡ string_bytes text.old ++ own_words (given self.now).k_limit first last) }
    {
        let k = self.analysis.k_limit as usize;
        if k < first || last < k {
            text.push_str("\n")
        } else {
            text.push_str("   (this list)\n")
        }
    }

    /// Adds the list of a section, or why there is none.
    fn push_list(&self, text: &mut String, number: usize, lists: &Lists) -> Result<(), AllocError>
        ensures { OnOk result (string_bytes text.new ≡ string_bytes text.old ++ list_words (given self.now).facts number lists.now) }
    {
        let function = self.section(number).function;
        match lists {
            Lists::Inferred(lists) => self.push_own_list(
                text,
                function,
                lists.as_slice().get(number),
            ),
            Lists::TooManyLocks(region) => push_too_many(text, *region),
        }
    }

    /// Adds the locks of a list of a function, if it is there.
    fn push_own_list(
        &self,
        text: &mut String,
        function: u16,
        list: Option<&Items<Lock>>,
    ) -> Result<(), AllocError>
        ensures { OnOk result (string_bytes text.new ≡ string_bytes text.old ++ locks_words (given self.now).facts function (option_copied list.entry)) }
    {
        match list {
            Some(list) => self.push_listed(text, function, list.as_slice()),
            None => Ok(()),
        }
    }

    /// Adds the locks of a list of a function.
    fn push_listed(&self, text: &mut String, function: u16, list: &[Lock]) -> Result<(), AllocError>
        ensures { OnOk result (string_bytes text.new ≡ string_bytes text.old ++ locks_words (given self.now).facts function (Some list.now)) }
    {
        if list.len() == 0 {
            text.push_str("no locks")
        } else {
            self.push_some(text, function, list)
        }
    }

    /// Adds locks of a function.
    fn push_some(&self, text: &mut String, function: u16, list: &[Lock]) -> Result<(), AllocError>
        ensures { OnOk result (string_bytes text.new ≡ string_bytes text.old ++ numbered (entry_words (given self.now).facts function) 0 list.now) }
    {
        for (number, lock) in list.iter().enumerate() {
            self.push_entry(text, function, number, lock)?;
        }
        Ok(())
    }

    /// Adds a lock with its number in a list.
    fn push_entry(
        &self,
        text: &mut String,
        function: u16,
        number: usize,
        lock: &Lock,
    ) -> Result<(), AllocError>
        ensures { OnOk result (string_bytes text.new ≡ string_bytes text.old ++ entry_words (given self.now).facts function number lock.now) }
    {
        let between = if number > 0 { "; " } else { "" };
        let words = self.words(function, lock)?;
        write!(text, "{between}{words}")
    }
}
