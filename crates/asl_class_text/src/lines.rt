//! The lines of a chain, and those around it.
ghost use Rattle.std.specs.Prelude.{◌≡◌, ◌++◌, OnOk, string_bytes, replicate};
ghost use Rattle.std.specs.List.{flat_map};
ghost use Rattle.asl_class_text.specs.Kinds.{is_passed, goes_through_parameters};
ghost use Rattle.asl_class_text.specs.Texts.{padded, place_columns, way_line, merge_line, step_line, head_line, parameters_line, without_line, pair_lines, ground_head, ground_lines, more_grounds, grounds_lines, pair_block, more_line, reasons_block};

use crate::facts::Facts;
use crate::kinds::{Kind, kind_of};
use crate::making::shown;
use crate::phrases::{merge_words, way_words};
use crate::statements::{line_at, statement_at};
use crate::told::{ToldClass, ToldGround, ToldGrounds, ToldPair, ToldStep};
use crate::words::{member_words, place_words};
use asl_class_reasons::Cause;
use std::alloc::{AllocError, Global};
use std::fmt::Write;

/// Adds so many blanks.
#[tactic(auto, using(crate::proofs::Lined::blank_more))]
fn push_blanks(text: &mut String, count: usize) -> Result<(), AllocError>
    ensures { OnOk result (string_bytes text.new ≡ string_bytes text.old ++ replicate count 32) }
{
    'blanks: for _number in 0..count {
        text.push_str(" ")?;
    }
    Ok(())
}

/// Adds words, with as many blanks as make both so wide, and one more.
#[tactic(auto, unfolding(crate::specs::Texts::padded))]
pub fn push_padded(text: &mut String, words: &str, width: usize) -> Result<(), AllocError>
    ensures { OnOk result (string_bytes text.new ≡ string_bytes text.old ++ padded width words.now) }
{
    text.push_str(words)?;
    push_blanks(text, width.saturating_sub(words.len()))?;
    text.push_str(" ")
}

/// Adds the line of the statement of an instruction, and the statement, in columns.
#[tactic(auto, unfolding(crate::specs::Texts::place_columns))]
pub fn push_place(
    text: &mut String,
    alloc: Global,
    facts: &Facts<'_>,
    pc: u16,
) -> Result<(), AllocError>
    ensures { OnOk result (string_bytes text.new ≡ string_bytes text.old ++ place_columns facts.now pc) }
{
    let line = line_at(facts, pc);
    let line = format!(in alloc; "{line}")?;
    let statement = statement_at(alloc, facts, pc)?;
    text.push_str("      line ")?;
    push_padded(text, line.as_str(), 4)?;
    push_padded(text, statement.as_str(), 22)
}

/// Adds the line of a step by the instruction at a pc: where its statement stands, the statement, and what it says.
fn push_way(
    text: &mut String,
    alloc: Global,
    facts: &Facts<'_>,
    pc: u16,
    told: ToldStep,
) -> Result<(), AllocError>
    ensures { OnOk result (string_bytes text.new ≡ string_bytes text.old ++ way_line facts.now pc told) }
{
    let words = way_words(alloc, facts, pc, told)?;
    push_place(text, alloc, facts, pc)?;
    text.push_str(words.as_str())?;
    text.push_str("\n")
}

/// Adds the line of a step that joins what the cells of two members hold.
fn push_merge(
    text: &mut String,
    alloc: Global,
    facts: &Facts<'_>,
    told: ToldStep,
) -> Result<(), AllocError>
    ensures { OnOk result (string_bytes text.new ≡ string_bytes text.old ++ merge_line facts.now told) }
{
    let words = merge_words(alloc, facts, told)?;
    write!(text, "      {words}\n")
}

/// Adds the line of a step.
fn push_step(
    text: &mut String,
    alloc: Global,
    facts: &Facts<'_>,
    told: ToldStep,
) -> Result<(), AllocError>
    ensures { OnOk result (string_bytes text.new ≡ string_bytes text.old ++ step_line facts.now told) }
{
    match told.step.cause {
        Cause::Instruction(pc) => push_way(text, alloc, facts, pc, told),
        Cause::SameClass => push_merge(text, alloc, facts, told),
    }
}

/// Adds the lines of a chain.
fn push_chain(
    text: &mut String,
    alloc: Global,
    facts: &Facts<'_>,
    chain: &[ToldStep],
) -> Result<(), AllocError>
    ensures { OnOk result (string_bytes text.new ≡ string_bytes text.old ++ flat_map (step_line facts.now) chain.now) }
{
    for told in chain {
        push_step(text, alloc, facts, *told)?;
    }
    Ok(())
}

/// Whether this step passes an argument to a parameter.
fn is_passed(facts: &Facts<'_>, told: &ToldStep) -> bool
    ensures { result ≡ is_passed facts.now told.now }
{
    match told.step.cause {
        Cause::Instruction(pc) => kind_of(facts, pc, &told.step) == Kind::Passed,
        Cause::SameClass => false,
    }
}

/// Whether some step of a chain passes an argument to a parameter.
fn goes_through_parameters(facts: &Facts<'_>, chain: &[ToldStep]) -> bool
    ensures { result ≡ goes_through_parameters facts.now chain.now }
{
    for told in chain {
        if is_passed(facts, told) {
            return true;
        }
    }
    false
}

/// Adds that a chain goes through parameters, if it does.
fn push_parameters(
    text: &mut String,
    facts: &Facts<'_>,
    chain: &[ToldStep],
) -> Result<(), AllocError>
    ensures { OnOk result (string_bytes text.new ≡ string_bytes text.old ++ parameters_line facts.now chain.now) }
{
    if goes_through_parameters(facts, chain) {
        text.push_str("    through parameters, which all calls of a function share\n")
    } else {
        Ok(())
    }
}

/// Adds the line of an instruction without which two members would be two, if one was found.
fn push_without(
    text: &mut String,
    facts: &Facts<'_>,
    without: Option<u16>,
) -> Result<(), AllocError>
    ensures { OnOk result (string_bytes text.new ≡ string_bytes text.old ++ without_line facts.now without) }
{
    match without {
        Some(pc) => {
            let line = line_at(facts, pc);
            write!(text, "    without line {line} they would be two\n")
        }
        None => Ok(()),
    }
}

/// Adds the line before a chain.
fn push_head(
    text: &mut String,
    alloc: Global,
    facts: &Facts<'_>,
    pair: &ToldPair,
) -> Result<(), AllocError>
    ensures { OnOk result (string_bytes text.new ≡ string_bytes text.old ++ head_line facts.now pair.now) }
{
    let first = member_words(alloc, facts, pair.first)?;
    let second = member_words(alloc, facts, pair.second)?;
    write!(text, "  {first} and {second} are one class, since\n")
}

/// Adds why two members share a class.
fn push_pair(
    text: &mut String,
    alloc: Global,
    facts: &Facts<'_>,
    pair: &ToldPair,
) -> Result<(), AllocError>
    ensures { OnOk result (string_bytes text.new ≡ string_bytes text.old ++ pair_lines facts.now pair.now) }
{
    push_head(text, alloc, facts, pair)?;
    push_chain(text, alloc, facts, &pair.chain)?;
    push_parameters(text, facts, &pair.chain)?;
    push_without(text, facts, pair.without)
}

/// Adds why the members of each of these pairs share a class.
pub(crate) fn push_pairs(
    text: &mut String,
    alloc: Global,
    facts: &Facts<'_>,
    pairs: &[ToldPair],
) -> Result<(), AllocError>
    ensures { OnOk result (string_bytes text.new ≡ string_bytes text.old ++ flat_map (pair_lines facts.now) pairs.now) }
{
    for pair in pairs {
        push_pair(text, alloc, facts, pair)?;
    }
    Ok(())
}

/// Adds the line before the chain of a ground.
fn push_ground_head(
    text: &mut String,
    alloc: Global,
    facts: &Facts<'_>,
    indent: &str,
    ground: &ToldGround,
) -> Result<(), AllocError>
    ensures { OnOk result (string_bytes text.new ≡ string_bytes text.old ++ ground_head facts.now indent.now ground.now) }
{
    let one = place_words(alloc, facts, ground.one)?;
    let other = place_words(alloc, facts, ground.other)?;
    write!(
        text,
        "{indent}{one} and {other} point to one class, since\n"
    )
}

/// Adds why two places point to one class.
fn push_ground(
    text: &mut String,
    alloc: Global,
    facts: &Facts<'_>,
    indent: &str,
    ground: &ToldGround,
) -> Result<(), AllocError>
    ensures { OnOk result (string_bytes text.new ≡ string_bytes text.old ++ ground_lines facts.now indent.now ground.now) }
{
    push_ground_head(text, alloc, facts, indent, ground)?;
    push_chain(text, alloc, facts, &ground.chain)?;
    push_parameters(text, facts, &ground.chain)
}

/// Adds why the places of each of these grounds point to one class.
fn push_each_ground(
    text: &mut String,
    alloc: Global,
    facts: &Facts<'_>,
    indent: &str,
    grounds: &[ToldGround],
) -> Result<(), AllocError>
    ensures { OnOk result (string_bytes text.new ≡ string_bytes text.old ++ flat_map (ground_lines facts.now indent.now) grounds.now) }
{
    for ground in grounds {
        push_ground(text, alloc, facts, indent, ground)?;
    }
    Ok(())
}

/// Adds that there are more grounds, if there are.
fn push_more_grounds(text: &mut String, indent: &str, more: bool) -> Result<(), AllocError>
    ensures { OnOk result (string_bytes text.new ≡ string_bytes text.old ++ more_grounds indent.now more) }
{
    if more {
        write!(text, "{indent}and more such reasons\n")
    } else {
        Ok(())
    }
}

/// Adds what the chains of a class rest on.
pub(crate) fn push_grounds(
    text: &mut String,
    alloc: Global,
    facts: &Facts<'_>,
    indent: &str,
    grounds: &ToldGrounds,
) -> Result<(), AllocError>
    ensures { OnOk result (string_bytes text.new ≡ string_bytes text.old ++ grounds_lines facts.now indent.now grounds.now) }
{
    push_each_ground(text, alloc, facts, indent, &grounds.items)?;
    push_more_grounds(text, indent, grounds.more)
}

/// Adds why two members share a class, two blanks further on.
fn push_pair_block(
    text: &mut String,
    alloc: Global,
    facts: &Facts<'_>,
    pair: &ToldPair,
) -> Result<(), AllocError>
    ensures { OnOk result (string_bytes text.new ≡ string_bytes text.old ++ pair_block facts.now pair.now) }
{
    text.push_str("  ")?;
    push_pair(text, alloc, facts, pair)
}

/// Adds why the members of each of these pairs share a class, two blanks further on.
fn push_pair_blocks(
    text: &mut String,
    alloc: Global,
    facts: &Facts<'_>,
    pairs: &[ToldPair],
) -> Result<(), AllocError>
    ensures { OnOk result (string_bytes text.new ≡ string_bytes text.old ++ flat_map (pair_block facts.now) pairs.now) }
{
    for pair in pairs {
        push_pair_block(text, alloc, facts, pair)?;
    }
    Ok(())
}

/// Adds how many members are left, if some are.
fn push_more(text: &mut String, left: usize) -> Result<(), AllocError>
    ensures { OnOk result (string_bytes text.new ≡ string_bytes text.old ++ more_line left) }
{
    if left > 0 {
        write!(text, "    and {left} more (--all tells why)\n")
    } else {
        Ok(())
    }
}

/// Adds why the members of a class share it, and what that rests on.
pub(crate) fn push_reasons(
    text: &mut String,
    alloc: Global,
    facts: &Facts<'_>,
    all: bool,
    told: &ToldClass,
) -> Result<(), AllocError>
    ensures { OnOk result (string_bytes text.new ≡ string_bytes text.old ++ reasons_block facts.now all told.now) }
{
    push_pair_blocks(text, alloc, facts, &told.pairs)?;
    push_more(text, told.members.len() - shown(all, told.members.len()))?;
    push_grounds(text, alloc, facts, "    ", &told.grounds)
}
