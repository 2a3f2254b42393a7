//! What the words of a command line ask for.
use crate::debug_word::DebugWord;
use crate::path_limit::PathLimit;

/// A C function that is called in place of a function of the source.
#[derive(Drop)]
pub struct Replacement {
    /// The function of the source.
    pub function: String,
    /// The C function.
    pub name: String,
}

/// What is made of an input by one thread.
#[derive(Drop)]
pub enum Command {
    /// `step`: the lines of the replies of the input's program, or its run file.
    Step {
        /// How many threads the machine has.
        threads: u32,
        /// The thread of each step.
        schedule: Vec<u32>,
        /// Whether the run file is written, in place of the lines.
        record: bool,
    },
    /// `asm`: the image of the input, which is assembly text.
    Assemble,
    /// `dis`: the canonical text of the input, which is an image.
    Disassemble,
    /// `compile`: the program that is inferred for the input, which is a source.
    Compile {
        /// How many operations a path of an inferred lock has at most.
        k_limit: PathLimit,
        /// Whether the canonical text is written, in place of the image.
        text: bool,
    },
    /// `check`: whether the lists of a program are enough for its source. The input is the source, one byte 0, and the program.
    Check {
        /// How many operations a path of a needed lock has at most.
        k_limit: PathLimit,
        /// Whether all locks that lists lack are told, and not the first alone.
        all: bool,
    },
    /// `map`: what the numbers in the code of the input, a source, stand for, and where it comes from in the text.
    Map,
    /// `explain`: the lists of the input, a source, and for each lock why it is there.
    Explain {
        /// How many operations a lock's path has at most.
        k_limit: PathLimit,
        /// Whether all chains of links are told, or all members of classes.
        all: bool,
        /// Whether the classes are told in place of the lists.
        classes: bool,
    },
    /// `lists`: the lists of the input, a source, as one JSON document.
    Lists {
        /// How many operations a lock's path has at most; none: as many as they may be.
        k_limit: Option<PathLimit>,
        /// The functions that are called from outside, where the source has no `main`.
        entries: Vec<String>,
    },
    /// `diagnose`: why the input, a source or an assembly text, is refused, as a person reads it; nothing where it is not.
    Diagnose {
        /// Whether the input is an assembly text.
        assembly: bool,
        /// How many operations a path of a needed lock has at most.
        k_limit: PathLimit,
        /// Whether what the text of a source may lack is told, too. Of an assembly text there is nothing to tell.
        all: bool,
    },
    /// `c`: the C program of the program that is inferred for the input, which is a source.
    PrintC {
        /// How many operations a path of an inferred lock has at most; none: as many as they may be.
        k_limit: Option<PathLimit>,
        /// Whether the runtime looks at each access.
        checks: bool,
        /// The functions that are called from outside, where the source has no `main`.
        entries: Vec<String>,
        /// The C functions that are called in place of functions of the source.
        externs: Vec<Replacement>,
    },
    /// `replay`: whether the input, a run file, is a run of its program.
    Replay,
    /// `log`: the lines of the replies of the input, a run file, if it is a run of its program.
    Log {
        /// Whether each line also says where its thread was before the step.
        trace: bool,
    },
    /// `debug`: what a debugger over the input, a run file, answers to the words.
    Debug {
        /// What it is asked, one after the other.
        words: Vec<DebugWord>,
    },
}

/// What the command `run` is asked for: workers that step the input's program.
#[derive(Clone, Copy)]
pub struct RunArguments {
    /// How many threads the machine has.
    pub threads: u32,
    /// How many workers step them.
    pub workers: u32,
    /// How many steps they make at most.
    pub limit: u32,
    /// Whether the run file is written, in place of the lines.
    pub record: bool,
}

/// What the words of a command line ask for.
#[derive(Drop)]
pub enum Invocation {
    /// The words name a command that waits for nobody.
    Alone(Command),
    /// The words are those of the command `run`.
    Run(RunArguments),
    /// The words ask for help: the page to show.
    Help(&'static str),
    /// The words ask which version of the program this is.
    Version,
    /// The words are no legal use: the text that says why.
    WrongUsage(String),
}
