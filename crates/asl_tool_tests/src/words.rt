//! Which words parse, and as what.
use crate::outcomes::split;
use asl_command_line::{Command, DebugWord, Invocation, Move, PathLimit, RunArguments, read_words};
use std::alloc::Global;
use std::process::Abort;

/// What a word list must be read as.
enum Wanted {
    /// The threads, the schedule, and whether the run is recorded.
    Step(u32, &'static [u32], bool),
    /// The threads, the workers, the limit, and whether the run is recorded.
    Work(u32, u32, u32, bool),
    Replay,
    Log(bool),
    Compile(u32, bool),
    Check(u32, bool),
    Map,
    Explain(u32, bool, bool),
    Lists(Option<u32>, usize),
    Diagnose(bool, u32, bool),
    PrintC(Option<u32>, bool, usize, usize),
    Debug(&'static [DebugWord]),
    Assemble,
    Disassemble,
    Help,
    Version,
    WrongUsage,
}

/// Words, and what they must be read as.
type Row = (&'static str, Wanted);

/// The limit as a number, if there is one.
fn limit_of(k_limit: &Option<PathLimit>) -> Option<u32> {
    match k_limit {
        Some(k_limit) => Some(k_limit.operations()),
        None => None,
    }
}

/// Whether the command is the one that is wanted.
fn is_command(got: &Command, wanted: &Wanted) -> bool {
    match got {
        Command::Step {
            threads,
            schedule,
            record,
        } => {
            matches!(wanted, Wanted::Step(count, order, is_recorded) if threads == count && schedule.as_slice() == *order && record == is_recorded)
        }
        Command::Replay => matches!(wanted, Wanted::Replay),
        Command::Log { trace } => matches!(wanted, Wanted::Log(is_trace) if trace == is_trace),
        Command::Compile { k_limit, text } => {
            matches!(wanted, Wanted::Compile(k, is_text) if k_limit.operations() == *k && text == is_text)
        }
        Command::Check { k_limit, all } => {
            matches!(wanted, Wanted::Check(k, flag) if k_limit.operations() == *k && all == flag)
        }
        Command::Map => matches!(wanted, Wanted::Map),
        Command::Explain {
            k_limit,
            all,
            classes,
        } => {
            matches!(wanted, Wanted::Explain(k, flag, other) if k_limit.operations() == *k && all == flag && classes == other)
        }
        Command::Lists { k_limit, entries } => {
            matches!(wanted, Wanted::Lists(k, count) if limit_of(k_limit) == *k && entries.len() == *count)
        }
        Command::PrintC {
            k_limit,
            checks,
            entries,
            externs,
        } => {
            matches!(wanted, Wanted::PrintC(k, flag, count, more) if limit_of(k_limit) == *k && checks == flag && entries.len() == *count && externs.len() == *more)
        }
        Command::Diagnose {
            assembly,
            k_limit,
            all,
        } => {
            matches!(wanted, Wanted::Diagnose(is_assembly, k, flag) if assembly == is_assembly && k_limit.operations() == *k && all == flag)
        }
        Command::Debug { words } =>
            matches!(wanted, Wanted::Debug(all) if words.as_slice() == *all),
        Command::Assemble => matches!(wanted, Wanted::Assemble),
        Command::Disassemble => matches!(wanted, Wanted::Disassemble),
    }
}

/// Whether the run by workers is the one that is wanted.
fn is_team(team: &RunArguments, wanted: &Wanted) -> bool {
    if let Wanted::Work(threads, workers, limit, record) = wanted {
        team.threads == *threads
            && team.workers == *workers
            && team.limit == *limit
            && team.record == *record
    } else {
        false
    }
}

fn is_as_wanted(got: &Invocation, wanted: &Wanted) -> bool {
    match got {
        Invocation::Alone(command) => is_command(command, wanted),
        Invocation::Run(team) => is_team(team, wanted),
        Invocation::Help(text) => matches!(wanted, Wanted::Help) && !text.is_empty(),
        Invocation::Version => matches!(wanted, Wanted::Version),
        Invocation::WrongUsage(text) => matches!(wanted, Wanted::WrongUsage) && !text.is_empty(),
    }
}

/// Whether the words are read as they must be.
fn is_read(alloc: Global, line: &str, wanted: &Wanted) -> Option<bool> {
    let words = split(alloc, line).ok()?;
    let got = read_words(alloc, words.as_slice()).ok()?;
    Some(is_as_wanted(&got, wanted))
}

fn check(rt: &(impl Abort + AllocGlobal), rows: &[Row]) {
    for (line, wanted) in rows {
        assert!(rt; is_read(rt.alloc(), line, wanted) == Some(true), "{line}");
    }
}

static STEPPING: [Row; 12] = [
    (
        "step --threads 2 0 0 1 1",
        Wanted::Step(2, &[0, 0, 1, 1], false),
    ),
    ("step --threads=2 0", Wanted::Step(2, &[0], false)),
    ("step 0 1 --threads 3", Wanted::Step(3, &[0, 1], false)),
    ("step 0 --threads 3 1", Wanted::Step(3, &[0, 1], false)),
    ("step --threads 3 -- 0 1", Wanted::Step(3, &[0, 1], false)),
    ("step --threads 0 0", Wanted::Step(0, &[0], false)),
    ("step --threads 65 7", Wanted::Step(65, &[7], false)),
    (
        "step --threads 4294967295 4294967295",
        Wanted::Step(4294967295, &[4294967295], false),
    ),
    (
        "step --threads 0000000000002 0000000000000000000001",
        Wanted::Step(2, &[1], false),
    ),
    ("step --threads 1 9 9 9", Wanted::Step(1, &[9, 9, 9], false)),
    (
        "step --threads 2 --record 0 1",
        Wanted::Step(2, &[0, 1], true),
    ),
    (
        "step 0 1 --record --threads=2",
        Wanted::Step(2, &[0, 1], true),
    ),
];

#[test]
fn steps(rt: HostRuntime) {
    check(&rt, &STEPPING);
}

static TRANSLATIONS: [Row; 6] = [
    ("asm", Wanted::Assemble),
    ("dis", Wanted::Disassemble),
    ("map", Wanted::Map),
    ("replay", Wanted::Replay),
    ("log", Wanted::Log(false)),
    ("log --trace", Wanted::Log(true)),
];

#[test]
fn texts_and_images(rt: HostRuntime) {
    check(&rt, &TRANSLATIONS);
}

static HELPFUL: [Row; 12] = [
    ("--help", Wanted::Help),
    ("-h", Wanted::Help),
    ("step --help", Wanted::Help),
    ("step -h", Wanted::Help),
    ("asm --help", Wanted::Help),
    ("dis -h", Wanted::Help),
    ("replay --help", Wanted::Help),
    ("step --threads 2 --help", Wanted::Help),
    ("log --help", Wanted::Help),
    ("--version", Wanted::Version),
    ("-V", Wanted::Version),
    ("--version step", Wanted::Version),
];

#[test]
fn help(rt: HostRuntime) {
    check(&rt, &HELPFUL);
}

static NO_COMMANDS: [Row; 12] = [
    ("", Wanted::WrongUsage),
    ("help", Wanted::WrongUsage),
    ("Step --threads 1 0", Wanted::WrongUsage),
    ("ste --threads 1 0", Wanted::WrongUsage),
    ("steps --threads 1 0", Wanted::WrongUsage),
    ("asm asm", Wanted::WrongUsage),
    ("asm --threads 1", Wanted::WrongUsage),
    ("dis 0", Wanted::WrongUsage),
    ("asm -", Wanted::WrongUsage),
    ("--threads 1 step 0", Wanted::WrongUsage),
    ("asm --version", Wanted::WrongUsage),
    ("-- step --threads 1 0", Wanted::WrongUsage),
];

#[test]
fn wrong_commands(rt: HostRuntime) {
    check(&rt, &NO_COMMANDS);
}

static NO_WORDS: [Row; 17] = [
    ("step", Wanted::WrongUsage),
    ("step 0", Wanted::WrongUsage),
    ("step --threads", Wanted::WrongUsage),
    ("step --threads 1", Wanted::WrongUsage),
    ("step --threads= 0", Wanted::WrongUsage),
    ("step --thread 1 0", Wanted::WrongUsage),
    ("step -threads 1 0", Wanted::WrongUsage),
    ("step --threads 1 --threads 2 0", Wanted::WrongUsage),
    ("step --threads 1 --record --record 0", Wanted::WrongUsage),
    ("step --threads 1 --record=1 0", Wanted::WrongUsage),
    ("step --threads 1 --rec 0", Wanted::WrongUsage),
    ("replay 0", Wanted::WrongUsage),
    ("log 0", Wanted::WrongUsage),
    ("log --trace --trace", Wanted::WrongUsage),
    ("replay --threads 1", Wanted::WrongUsage),
    ("step --threads 1 --help=1 0", Wanted::WrongUsage),
    ("step -t 1 0", Wanted::WrongUsage),
];

#[test]
fn wrong_words(rt: HostRuntime) {
    check(&rt, &NO_WORDS);
}

static NO_NUMBERS: [Row; 14] = [
    ("step --threads x 0", Wanted::WrongUsage),
    ("step --threads -1 0", Wanted::WrongUsage),
    ("step --threads +1 0", Wanted::WrongUsage),
    ("step --threads 1.0 0", Wanted::WrongUsage),
    ("step --threads 4294967296 0", Wanted::WrongUsage),
    ("step --threads 1 4294967296", Wanted::WrongUsage),
    (
        "step --threads 1 99999999999999999999999999",
        Wanted::WrongUsage,
    ),
    ("step --threads 1 -- -1", Wanted::WrongUsage),
    ("step --threads 1 -1", Wanted::WrongUsage),
    ("step --threads 1 +1", Wanted::WrongUsage),
    ("step --threads 1 0x1", Wanted::WrongUsage),
    ("step --threads 1 0 1a", Wanted::WrongUsage),
    ("step --threads 1 0  1", Wanted::WrongUsage),
    ("step --threads 0x10 0", Wanted::WrongUsage),
];

#[test]
fn wrong_numbers(rt: HostRuntime) {
    check(&rt, &NO_NUMBERS);
}

static TEAMS: [Row; 13] = [
    (
        "run --threads 1 --workers 2 --limit 3",
        Wanted::Work(1, 2, 3, false),
    ),
    (
        "run --limit=0 --record --workers=99 --threads 0",
        Wanted::Work(0, 99, 0, true),
    ),
    (
        "run --threads 64 --workers 8 --limit 4294967295",
        Wanted::Work(64, 8, 4294967295, false),
    ),
    ("run --help", Wanted::Help),
    ("run", Wanted::WrongUsage),
    ("run --threads 1 --workers 1", Wanted::WrongUsage),
    ("run --threads 1 --limit 1", Wanted::WrongUsage),
    ("run --workers 1 --limit 1", Wanted::WrongUsage),
    ("run --threads 1 --workers 1 --limit x", Wanted::WrongUsage),
    ("run --threads x --workers 1 --limit 1", Wanted::WrongUsage),
    ("run --threads 1 --workers +1 --limit 1", Wanted::WrongUsage),
    (
        "run --threads 1 --workers 1 --limit 4294967296",
        Wanted::WrongUsage,
    ),
    (
        "run --threads 1 --workers 1 --limit 1 0",
        Wanted::WrongUsage,
    ),
];

#[test]
fn runs(rt: HostRuntime) {
    check(&rt, &TEAMS);
}

static COMPILATIONS: [Row; 14] = [
    ("compile", Wanted::Compile(3, false)),
    ("compile --text", Wanted::Compile(3, true)),
    ("compile --k 0", Wanted::Compile(0, false)),
    ("compile --text --k=8", Wanted::Compile(8, true)),
    ("compile --k 003", Wanted::Compile(3, false)),
    ("compile --help", Wanted::Help),
    ("compile --k 9", Wanted::WrongUsage),
    ("compile --k", Wanted::WrongUsage),
    ("compile --k x", Wanted::WrongUsage),
    ("compile --k -1", Wanted::WrongUsage),
    ("compile --k 1 --k 2", Wanted::WrongUsage),
    ("compile --text --text", Wanted::WrongUsage),
    ("compile 3", Wanted::WrongUsage),
    ("compile -k 3", Wanted::WrongUsage),
];

#[test]
fn compiling(rt: HostRuntime) {
    check(&rt, &COMPILATIONS);
}

static CHECKS: [Row; 38] = [
    ("check", Wanted::Check(3, false)),
    ("check --k 0", Wanted::Check(0, false)),
    ("check --k=8", Wanted::Check(8, false)),
    ("check --all", Wanted::Check(3, true)),
    ("check --all --k 1", Wanted::Check(1, true)),
    ("check --help", Wanted::Help),
    ("check --k 9", Wanted::WrongUsage),
    ("check --k", Wanted::WrongUsage),
    ("check --text", Wanted::WrongUsage),
    ("check 3", Wanted::WrongUsage),
    ("map --k 3", Wanted::WrongUsage),
    ("explain", Wanted::Explain(3, false, false)),
    ("explain --all --k 1", Wanted::Explain(1, true, false)),
    ("explain --classes", Wanted::Explain(3, false, true)),
    (
        "explain --classes --k 0 --all",
        Wanted::Explain(0, true, true),
    ),
    ("explain --k 9", Wanted::WrongUsage),
    ("explain --asm", Wanted::WrongUsage),
    ("lists", Wanted::Lists(Some(3), 0)),
    ("lists --k auto", Wanted::Lists(None, 0)),
    (
        "lists --entry f --k 8 --entry _g1",
        Wanted::Lists(Some(8), 2),
    ),
    ("lists --k 9", Wanted::WrongUsage),
    ("lists --k Auto", Wanted::WrongUsage),
    ("lists --entry 1f", Wanted::WrongUsage),
    ("lists f", Wanted::WrongUsage),
    ("c", Wanted::PrintC(Some(3), false, 0, 0)),
    ("c --check --k 0", Wanted::PrintC(Some(0), true, 0, 0)),
    (
        "c --entry f --k auto --entry _g1",
        Wanted::PrintC(None, false, 2, 0),
    ),
    (
        "c --extern f=g --extern _h=f",
        Wanted::PrintC(Some(3), false, 0, 2),
    ),
    ("c --extern f", Wanted::WrongUsage),
    ("c --k 9", Wanted::WrongUsage),
    ("c --entry 1f", Wanted::WrongUsage),
    ("c --text", Wanted::WrongUsage),
    ("diagnose", Wanted::Diagnose(false, 3, false)),
    ("diagnose --asm --k 0", Wanted::Diagnose(true, 0, false)),
    ("diagnose --k 4 --all", Wanted::Diagnose(false, 4, true)),
    ("diagnose --k 9", Wanted::WrongUsage),
    ("diagnose --all --asm", Wanted::WrongUsage),
    ("diagnose --classes", Wanted::WrongUsage),
];

#[test]
fn checking(rt: HostRuntime) {
    check(&rt, &CHECKS);
}

/// Each word of the debugger.
const ALL: &[DebugWord] = &[
    DebugWord::Move(Move::Goto(4)),
    DebugWord::Move(Move::Forward),
    DebugWord::Move(Move::Back),
    DebugWord::Move(Move::Next),
    DebugWord::Move(Move::Previous),
    DebugWord::Break(1),
    DebugWord::Clear(4294967295),
    DebugWord::View,
];

static TALKS: [Row; 14] = [
    (
        "debug goto 4 forward back next prev break 1 clear 4294967295 view",
        Wanted::Debug(ALL),
    ),
    ("debug view", Wanted::Debug(&[DebugWord::View])),
    ("debug break 00007", Wanted::Debug(&[DebugWord::Break(7)])),
    ("debug --help", Wanted::Help),
    ("debug", Wanted::WrongUsage),
    ("debug goto", Wanted::WrongUsage),
    ("debug goto x", Wanted::WrongUsage),
    ("debug goto view", Wanted::WrongUsage),
    ("debug 4", Wanted::WrongUsage),
    ("debug view 4", Wanted::WrongUsage),
    ("debug break 4294967296", Wanted::WrongUsage),
    ("debug Forward", Wanted::WrongUsage),
    ("debug previous", Wanted::WrongUsage),
    ("debug --goto 4", Wanted::WrongUsage),
];

#[test]
fn words_of_the_debugger(rt: HostRuntime) {
    check(&rt, &TALKS);
}
