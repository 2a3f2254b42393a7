//! Why expressions became classes, and the statements that are named in one line.

use crate::explained_value::Listed;
use crate::search::Statements;
use crate::text::{MAX_NAMED, Teller, narrow};
use asl_backward_flow::Region;
use asl_code::Lock;
use asl_emitter::{MAX_LOCKS, reduce};
use asl_lower::Section;
use std::alloc::AllocError;
use std::fmt::Write;

impl Teller<'_> {
    /// Why expressions became classes, if the list would be too long.
    pub(crate) fn coarse_words(
        &self,
        number: usize,
        section: Section,
        listed: &[Listed],
    ) -> Result<String, AllocError> {
        let mut text = String::new(self.alloc);
        let start = u32::from(section.acquire) + 1;
        let all = self
            .analysis
            .flow
            .at(self.alloc, Region::Section(narrow(number)), start)?;
        let reduced = reduce(self.alloc, &self.analysis.classes, section.function, &all)?;
        let count = reduced.len();
        if count > MAX_LOCKS {
            write!(
                text,
                "  {count} locks are more than {MAX_LOCKS}: expressions became their classes"
            )?;
            if let Some(
                Listed {
                    lock: Lock::Root(_),
                    ..
                },
            ) = listed.first()
            {
                text.push_str(", and those the root")?;
            }
            text.push_str(".\n")?;
        }
        Ok(text)
    }

    /// Adds the first of these statements, or all of them if they are few.
    pub(crate) fn push_statements(
        &self,
        text: &mut String,
        statements: &Statements,
    ) -> Result<(), AllocError> {
        let shown = self.count_shown(statements.count);
        for (place, pc) in statements.first.iter().enumerate() {
            if place >= shown {
                break;
            }
            text.push_str(between(place))?;
            text.push_str(self.place(*pc)?.as_str())?;
        }
        push_more(text, shown, statements.count)
    }

    /// How many of so many are shown.
    fn count_shown(&self, count: usize) -> usize {
        if count > MAX_NAMED && !self.all {
            MAX_NAMED - 1
        } else {
            count
        }
    }
}

/// What parts one of a list from those before it.
fn between(place: usize) -> &'static str {
    if place > 0 { ", " } else { "" }
}

/// Adds how many of a list are not shown.
fn push_more(text: &mut String, shown: usize, count: usize) -> Result<(), AllocError> {
    let more = count.saturating_sub(shown);
    if more == 0 {
        return Ok(());
    }
    write!(text, ", and {more} more")
}
