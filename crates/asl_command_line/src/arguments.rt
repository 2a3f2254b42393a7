//! The commands and their arguments, as `clap` is told them. Of help it is told nothing: the pages are the program's own.
ghost use Rattle.std.specs.Prelude.{◌≡◌, false, IfOk};
ghost use Rattle.clap.specs.Words.{app_of, new_app, rule_of, with_rule, with_subcommand};
ghost use Rattle.clap.specs.declared.builder.command.Command.TheViews.{out-Command};
ghost use Rattle.asl_command_line.specs.Arguments.{asl_app, asm_app, bare_app, c_app, check_app, compile_app, debug_app, diagnose_app, dis_app, explain_app, flag_rule, lists_app, log_app, map_app, needed_rule, replay_app, run_app, step_app, value_rule, values_rule, words_rule};
ghost use Rattle.asl_command_line.specs.Building.{IsBuilt, analyses_added, steps_added, texts_added};

use crate::help;
use clap::{Arg, ArgAction, Command};
use std::alloc::{AllocError, Global};

/// The program with its commands, in three steps, since a proof about all at once takes minutes.
pub fn program<'a>(alloc: Global) -> Result<Command<'a>, AllocError>
    ensures { IfOk result (λ command. IsBuilt command asl_app) }
{
    let command = bare_program(alloc)?;
    let command = with_analyses(alloc, command)?;
    let command = with_steps(alloc, command)?;
    with_texts(alloc, command)
}

/// The command, with those below it that say what a source needs and why.
#[inline(never)]
fn with_analyses<'a>(alloc: Global, command: Command<'a>) -> Result<Command<'a>, AllocError>
    requires { (out-Command command).has_globals ≡ false }
    ensures { IfOk result (λ new. IsBuilt new (analyses_added (app_of command.entry))) }
{
    let command = with_command(command, compile_command(alloc)?)?;
    let command = with_command(command, check_command(alloc)?)?;
    let command = with_command(command, map_command(alloc)?)?;
    let command = with_command(command, explain_command(alloc)?)?;
    with_command(command, diagnose_command(alloc)?)
}

/// The command, with those below it that assemble and step an image.
#[inline(never)]
fn with_steps<'a>(alloc: Global, command: Command<'a>) -> Result<Command<'a>, AllocError>
    requires { (out-Command command).has_globals ≡ false }
    ensures { IfOk result (λ new. IsBuilt new (steps_added (app_of command.entry))) }
{
    let command = with_command(command, asm_command(alloc)?)?;
    let command = with_command(command, dis_command(alloc)?)?;
    let command = with_command(command, step_command(alloc)?)?;
    let command = with_command(command, run_command(alloc)?)?;
    with_command(command, replay_command(alloc)?)
}

/// The command, with those below it that show a run, and print a source as C and as data.
#[inline(never)]
fn with_texts<'a>(alloc: Global, command: Command<'a>) -> Result<Command<'a>, AllocError>
    requires { (out-Command command).has_globals ≡ false }
    ensures { IfOk result (λ new. IsBuilt new (texts_added (app_of command.entry))) }
{
    let command = with_command(command, log_command(alloc)?)?;
    let command = with_command(command, debug_command(alloc)?)?;
    let command = with_command(command, c_command(alloc)?)?;
    with_command(command, lists_command(alloc)?)
}

/// The program, before it has its commands.
fn bare_program<'a>(alloc: Global) -> Result<Command<'a>, AllocError>
    ensures { IfOk result (λ command. IsBuilt command bare_app) }
{
    let command = named(alloc, "asl", "asl")?;
    Ok(
        command
            .version(help::VERSION)
            .no_binary_name(true)
            .subcommand_required(true)
            .disable_help_subcommand(true),
    )
}

/// What `asl compile` takes.
fn compile_command<'a>(alloc: Global) -> Result<Command<'a>, AllocError>
    ensures { IfOk result (λ command. IsBuilt command compile_app) }
{
    let command = named(alloc, "compile", "asl compile")?;
    let command = with_argument(command, value(alloc, "k", "K"))?;
    with_argument(command, flag(alloc, "text"))
}

/// What `asl check` takes.
fn check_command<'a>(alloc: Global) -> Result<Command<'a>, AllocError>
    ensures { IfOk result (λ command. IsBuilt command check_app) }
{
    let command = named(alloc, "check", "asl check")?;
    let command = with_argument(command, value(alloc, "k", "K"))?;
    with_argument(command, flag(alloc, "all"))
}

/// What `asl map` takes.
fn map_command<'a>(alloc: Global) -> Result<Command<'a>, AllocError>
    ensures { IfOk result (λ command. IsBuilt command map_app) }
{
    named(alloc, "map", "asl map")
}

/// What `asl explain` takes.
fn explain_command<'a>(alloc: Global) -> Result<Command<'a>, AllocError>
    ensures { IfOk result (λ command. IsBuilt command explain_app) }
{
    let command = named(alloc, "explain", "asl explain")?;
    let command = with_argument(command, value(alloc, "k", "K"))?;
    let command = with_argument(command, flag(alloc, "all"))?;
    with_argument(command, flag(alloc, "classes"))
}

/// What `asl lists` takes.
fn lists_command<'a>(alloc: Global) -> Result<Command<'a>, AllocError>
    ensures { IfOk result (λ command. IsBuilt command lists_app) }
{
    let command = named(alloc, "lists", "asl lists")?;
    let command = with_argument(command, value(alloc, "k", "K"))?;
    with_argument(command, values(alloc, "entry", "F"))
}

/// What `asl diagnose` takes.
fn diagnose_command<'a>(alloc: Global) -> Result<Command<'a>, AllocError>
    ensures { IfOk result (λ command. IsBuilt command diagnose_app) }
{
    let command = named(alloc, "diagnose", "asl diagnose")?;
    let command = with_argument(command, value(alloc, "k", "K"))?;
    let command = with_argument(command, flag(alloc, "asm"))?;
    with_argument(command, flag(alloc, "all"))
}

/// What `asl c` takes.
fn c_command<'a>(alloc: Global) -> Result<Command<'a>, AllocError>
    ensures { IfOk result (λ command. IsBuilt command c_app) }
{
    let command = named(alloc, "c", "asl c")?;
    let command = with_argument(command, value(alloc, "k", "K"))?;
    let command = with_argument(command, flag(alloc, "check"))?;
    let command = with_argument(command, values(alloc, "entry", "F"))?;
    with_argument(command, values(alloc, "extern", "F=NAME"))
}

/// What `asl asm` takes.
fn asm_command<'a>(alloc: Global) -> Result<Command<'a>, AllocError>
    ensures { IfOk result (λ command. IsBuilt command asm_app) }
{
    named(alloc, "asm", "asl asm")
}

/// What `asl dis` takes.
fn dis_command<'a>(alloc: Global) -> Result<Command<'a>, AllocError>
    ensures { IfOk result (λ command. IsBuilt command dis_app) }
{
    named(alloc, "dis", "asl dis")
}

/// What `asl replay` takes.
fn replay_command<'a>(alloc: Global) -> Result<Command<'a>, AllocError>
    ensures { IfOk result (λ command. IsBuilt command replay_app) }
{
    named(alloc, "replay", "asl replay")
}

/// What `asl step` takes.
fn step_command<'a>(alloc: Global) -> Result<Command<'a>, AllocError>
    ensures { IfOk result (λ command. IsBuilt command step_app) }
{
    let command = named(alloc, "step", "asl step")?;
    let command = with_argument(command, needed(alloc, "threads", "N"))?;
    let command = with_argument(command, flag(alloc, "record"))?;
    with_argument(command, words(alloc, "schedule", "T"))
}

/// What `asl run` takes.
fn run_command<'a>(alloc: Global) -> Result<Command<'a>, AllocError>
    ensures { IfOk result (λ command. IsBuilt command run_app) }
{
    let command = named(alloc, "run", "asl run")?;
    let command = with_argument(command, needed(alloc, "threads", "N"))?;
    let command = with_argument(command, needed(alloc, "workers", "W"))?;
    let command = with_argument(command, needed(alloc, "limit", "L"))?;
    with_argument(command, flag(alloc, "record"))
}

/// What `asl log` takes.
fn log_command<'a>(alloc: Global) -> Result<Command<'a>, AllocError>
    ensures { IfOk result (λ command. IsBuilt command log_app) }
{
    let command = named(alloc, "log", "asl log")?;
    with_argument(command, flag(alloc, "trace"))
}

/// What `asl debug` takes.
fn debug_command<'a>(alloc: Global) -> Result<Command<'a>, AllocError>
    ensures { IfOk result (λ command. IsBuilt command debug_app) }
{
    let command = named(alloc, "debug", "asl debug")?;
    with_argument(command, words(alloc, "words", "WORD"))
}

/// A command of this name that takes no more words.
fn named<'a>(alloc: Global, name: &'a str, whole_name: &'a str) -> Result<Command<'a>, AllocError>
    ensures { IfOk result (λ command. IsBuilt command (new_app name.entry.now)) }
{
    Command::new(alloc, name).bin_name(whole_name)
}

/// The command, with one more below it.
fn with_command<'a>(command: Command<'a>, sub: Command<'a>) -> Result<Command<'a>, AllocError>
    requires plain { (out-Command command).has_globals ≡ false }
    requires sub_plain { (out-Command sub).has_globals ≡ false }
    ensures { IfOk result (λ new. IsBuilt new (with_subcommand (app_of command.entry) (app_of sub.entry).top)) }
{
    command.subcommand(sub)
}

/// The command, with one more argument.
fn with_argument<'a>(command: Command<'a>, argument: Arg<'a>) -> Result<Command<'a>, AllocError>
    requires plain { (out-Command command).has_globals ≡ false }
    requires own { argument.global ≡ false }
    ensures { IfOk result (λ new. IsBuilt new (with_rule (app_of command.entry) (rule_of argument.entry))) }
{
    command.arg(argument)
}

/// `--NAME VALUE`.
fn value<'a>(alloc: Global, name: &'a str, value: &'a str) -> Arg<'a>
    ensures rule { rule_of result ≡ value_rule name.entry.now }
    ensures own { result.global ≡ false }
{
    Arg::new(alloc, name)
        .long(name)
        .value_name(value)
        .action(ArgAction::Set)
}

/// `--NAME VALUE`, any number of times.
fn values<'a>(alloc: Global, name: &'a str, value: &'a str) -> Arg<'a>
    ensures rule { rule_of result ≡ values_rule name.entry.now }
    ensures own { result.global ≡ false }
{
    Arg::new(alloc, name)
        .long(name)
        .value_name(value)
        .action(ArgAction::Append)
}

/// `--NAME VALUE`, which must be given.
fn needed<'a>(alloc: Global, name: &'a str, value: &'a str) -> Arg<'a>
    ensures rule { rule_of result ≡ needed_rule name.entry.now }
    ensures own { result.global ≡ false }
{
    Arg::new(alloc, name)
        .long(name)
        .value_name(value)
        .required(true)
        .action(ArgAction::Set)
}

/// `--NAME`.
fn flag<'a>(alloc: Global, name: &'a str) -> Arg<'a>
    ensures rule { rule_of result ≡ flag_rule name.entry.now }
    ensures own { result.global ≡ false }
{
    Arg::new(alloc, name).long(name).action(ArgAction::SetTrue)
}

/// Words of no option, one or more.
fn words<'a>(alloc: Global, name: &'a str, value: &'a str) -> Arg<'a>
    ensures rule { rule_of result ≡ words_rule name.entry.now }
    ensures own { result.global ≡ false }
{
    Arg::new(alloc, name)
        .value_name(value)
        .required(true)
        .num_args(1..)
        .action(ArgAction::Append)
}
