//! The document of the lists of a program, written piece by piece, so that no two of its sections are held at once.
ghost use Rattle.std.specs.Prelude.{◌≡◌, ◌++◌, IfOk, OnOk, string_bytes};
ghost use Rattle.asl_explain.specs.Opened.{IsReady};
ghost use Rattle.asl_lists.specs.Written.{before_sections, behind_sections, IsTextOf};

use crate::class_values::class_values;
use crate::facts::Facts;
use crate::function_values::function_values;
use crate::json_pieces::{push_key, push_list, push_number, push_words};
use crate::section_texts::push_sections;
use crate::warning_values::warning_values;
use asl_explain::OpenedExplanation;
use std::alloc::{AllocError, Global};

/// Adds what stands before the sections.
fn push_before(
    alloc: Global,
    text: &mut String,
    facts: &Facts,
    k: u32,
    added: &str,
) -> Result<(), AllocError>
    ensures { OnOk result (string_bytes text.new ≡ string_bytes text.old ++ before_sections facts.now k added.now) }
{
    let classes = class_values(alloc, facts, facts.map.classes)?;
    push_list(alloc, text, "{", "classes", classes)?;
    push_words(alloc, text, ",", "driver", added)?;
    let functions = function_values(alloc, facts, &facts.map.functions)?;
    push_list(alloc, text, ",", "functions", functions)?;
    push_number(alloc, text, ",", "k", k)?;
    push_key(alloc, text, ",", "sections")?;
    Ok(text.push_str("[")?)
}

/// Adds what stands behind the sections.
fn push_behind(alloc: Global, text: &mut String, facts: &Facts) -> Result<(), AllocError>
    ensures { OnOk result (string_bytes text.new ≡ string_bytes text.old ++ behind_sections facts.now) }
{
    push_number(alloc, text, "],", "version", 1)?;
    let warnings = warning_values(alloc, facts)?;
    push_list(alloc, text, ",", "warnings", warnings)?;
    Ok(text.push_str("}\n")?)
}

/// The document, on one line.
pub fn document_text(
    alloc: Global,
    facts: &Facts,
    k: u32,
    added: &str,
    opened: &OpenedExplanation,
) -> Result<String, AllocError>
    requires { IsReady opened.now }
    ensures { IfOk result (λ text. IsTextOf facts.now k added.now opened.now (string_bytes text)) }
{
    let mut text = String::new(alloc);
    push_before(alloc, &mut text, facts, k, added)?;
    push_sections(alloc, &mut text, facts, opened)?;
    push_behind(alloc, &mut text, facts)?;
    Ok(text)
}
