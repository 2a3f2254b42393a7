//! The pages of the program and of the commands over images, as `--help` shows them, and which page words ask for.
ghost use Rattle.std.specs.Prelude.{map, string_bytes};
ghost use Rattle.asl_command_line.specs.Pages.{IsPage, IsPageOf};

use crate::{compile_help, run_help};

/// What `--version` says after the program's name.
pub const VERSION: &str = "2, logic dac8208d650f15bf";

/// The page of the program without a command.
pub const PROGRAM: &str =
    "Infers locks of atomic sections, and runs programs step by step, back and forth\n\
        \n\
        Usage: asl <COMMAND>\n\
        \n\
        Commands:\n\
        \u{20} compile   Infers the locks of a source; no run faults for a missing lock\n\
        \u{20} check     Checks the lists of a program against its source\n\
        \u{20} map       Says what the numbers and instructions of a source's code stand for\n\
        \u{20} explain   Says why each lock is in its list, from the statement that needs it\n\
        \u{20} lists     Says all of a source's lists in JSON, for other programs to read\n\
        \u{20} diagnose  Says where and why a source or an assembly text is at fault\n\
        \u{20} c         Prints a source as a C program that runs natively under its locks\n\
        \u{20} asm       Assembles a program\n\
        \u{20} dis       Disassembles an image\n\
        \u{20} step      Steps the threads of a program in the given order\n\
        \u{20} run       Lets workers step a program side by side, to its end or a limit\n\
        \u{20} replay    Makes the steps of a recorded run again, and compares each reply\n\
        \u{20} log       Makes the steps of a recorded run again, and prints them\n\
        \u{20} debug     Goes back and forth in a recorded run\n\
        \n\
        Options:\n\
        \u{20} -h, --help     Print help\n\
        \u{20} -V, --version  Print version\n\
        \n\
        Each command reads standard input to its end and writes standard output.\n\
        \n\
        Examples, from the top of the repository:\n\
        \u{20} ./asl compile < examples/counter.asl | ./asl step --threads 2 0 0 1 1\n\
        \u{20} ./asl run --threads 2 --workers 2 --limit 1000 --record \\\n\
        \u{20}   < examples/counter.asm | ./asl replay\n\
        \n\
        Status: 0 done\n\
        \u{20}       1 refused, with one line 'asl: NAME' on standard error\n\
        \u{20}       2 wrong usage\n\
        \n\
        A command's --help lists the names of its refusals.\n\
        \n\
        asl 2, proved in the logic dac8208d650f15bf\n";

/// The page of the command `asm`.
pub const ASM: &str = "Assembles a program\n\
        \n\
        Usage: asl asm\n\
        \n\
        Options:\n\
        \u{20} -h, --help  Print help\n\
        \n\
        Input:  assembly text (docs/FORMATS.md)\n\
        Output: the image of its program (docs/FORMATS.md)\n\
        \n\
        Examples, from the top of the repository:\n\
        \u{20} ./asl asm < examples/counter.asm > counter.image\n\
        \u{20} ./asl asm < examples/push.asm | ./asl dis\n\
        \n\
        Status: 0 done\n\
        \u{20}       1 refused, with one line 'asl: NAME' on standard error\n\
        \u{20}       2 wrong usage\n\
        \n\
        Refusals, where several apply the first of them:\n\
        \u{20} Read          standard input failed\n\
        \u{20} TooLong       the input is longer than 268435456 bytes\n\
        \u{20} Line(n)       line n of the text is not as its place asks\n\
        \u{20} Verify(RULE)  the program breaks a rule of docs/FORMATS.md\n\
        \u{20} Write         standard output failed; a part may have been written\n\
        \u{20} OutOfMemory   memory ran out\n\
        \n\
        asl 2, proved in the logic dac8208d650f15bf\n";

/// The page of the command `dis`.
pub const DIS: &str = "Disassembles an image\n\
        \n\
        Usage: asl dis\n\
        \n\
        Options:\n\
        \u{20} -h, --help  Print help\n\
        \n\
        Input:  a program's image (docs/FORMATS.md)\n\
        Output: the canonical assembly text of its program (docs/FORMATS.md)\n\
        \n\
        Examples, from the top of the repository:\n\
        \u{20} ./asl compile < examples/counter.asl | ./asl dis\n\
        \u{20} ./asl asm < examples/sum.asm | ./asl dis\n\
        \n\
        Status: 0 done\n\
        \u{20}       1 refused, with one line 'asl: NAME' on standard error\n\
        \u{20}       2 wrong usage\n\
        \n\
        Refusals, where several apply the first of them:\n\
        \u{20} Read            standard input failed\n\
        \u{20} TooLong         the input is longer than 268435456 bytes\n\
        \u{20} Magic, Version  the image begins with other letters, or is of a version\n\
        \u{20}                 other than 1 and 2\n\
        \u{20} Truncated(n)    the image ends too early, at byte n\n\
        \u{20} BadField(n)     the field at byte n has a value that it cannot have\n\
        \u{20} Trailing(n)     there are bytes after the image, from byte n on\n\
        \u{20} Verify(RULE)    the image breaks a rule of docs/FORMATS.md\n\
        \u{20} Write           standard output failed; a part may have been written\n\
        \u{20} OutOfMemory     memory ran out\n\
        \n\
        asl 2, proved in the logic dac8208d650f15bf\n";

/// The page for which words ask that ask for help: that of the command that the first of them names, or else the program's.
pub fn page_of(words: &[String]) -> &'static str
    ensures { IsPageOf (map string_bytes words.now) result.now }
{
    if words.is_empty() {
        PROGRAM
    } else {
        page_named(words[0].as_str())
    }
}

/// The page of the command of this name, or else the program's.
fn page_named(name: &str) -> &'static str
    ensures { IsPage name.now result.now }
{
    match name {
        "compile" => compile_help::COMPILE,
        "check" => compile_help::CHECK,
        "map" => compile_help::MAP,
        "explain" => compile_help::EXPLAIN,
        "lists" => compile_help::LISTS,
        "diagnose" => compile_help::DIAGNOSE,
        "c" => compile_help::C,
        "asm" => ASM,
        "dis" => DIS,
        "step" => run_help::STEP,
        "run" => run_help::RUN,
        "replay" => run_help::REPLAY,
        "log" => run_help::LOG,
        "debug" => run_help::DEBUG,
        _ => PROGRAM,
    }
}
