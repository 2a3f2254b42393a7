//! The sections with their lists, written one after the other: of each nothing but its text is kept.
ghost use Rattle.std.specs.Prelude.{◌≡◌, ◌<◌, ◌++◌, OnOk, string_bytes};
ghost use Rattle.asl_explain.specs.Opened.{section_count, IsReady, IsSearchOf};
ghost use Rattle.asl_lists.specs.Written.{comma_before, HasSection, HasSections};

use crate::facts::Facts;
use crate::json_pieces::push_value;
use crate::section_values::{section_area, section_value};
use asl_explain::{OpenedExplanation, SectionSearch};
use std::alloc::{AllocError, Global};

/// Adds the comma before a section, which the first has not.
fn push_comma(text: &mut String, section: usize) -> Result<(), AllocError>
    ensures { OnOk result (string_bytes text.new ≡ string_bytes text.old ++ comma_before section) }
{
    if section > 0 {
        text.push_str(",")?;
    }
    Ok(())
}

/// Adds the section of this number with its list, behind those before it.
fn push_section(
    alloc: Global,
    text: &mut String,
    facts: &Facts,
    opened: &OpenedExplanation,
    search: &mut SectionSearch,
    section: usize,
) -> Result<(), AllocError>
    requires ready { IsReady opened.now }
    requires there { section < section_count opened.now }
    requires search { IsSearchOf opened.now search.old }
    ensures search { OnOk result (IsSearchOf opened.now search.new) }
    ensures section { OnOk result (HasSection facts.now opened.now section (string_bytes text.old) (string_bytes text.new)) }
{
    let list = opened.section(alloc, search, section)?;
    let area = section_area(facts, section);
    let value = section_value(alloc, facts, &area, list.as_slice())?;
    push_comma(text, section)?;
    push_value(alloc, text, &value)
}

/// Adds all sections with their lists.
pub fn push_sections(
    alloc: Global,
    text: &mut String,
    facts: &Facts,
    opened: &OpenedExplanation,
) -> Result<(), AllocError>
    requires { IsReady opened.now }
    ensures { OnOk result (HasSections facts.now opened.now (section_count opened.now) (string_bytes text.old) (string_bytes text.new)) }
{
    let mut search = opened.search(alloc)?;
    for section in 0..opened.section_count() {
        push_section(alloc, text, facts, opened, &mut search, section)?;
    }
    Ok(())
}
