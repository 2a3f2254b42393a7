//! The pages of the commands that step a program, as `--help` shows them.

/// The page of the command `step`.
pub const STEP: &str = "Steps the threads of a program in the given order\n\
        \n\
        Usage: asl step [OPTIONS] --threads <N> <T>...\n\
        \n\
        Arguments:\n\
        \u{20} <T>...  The thread of each step, from 0\n\
        \n\
        Options:\n\
        \u{20}     --threads <N>  How many threads the machine has: 1 to 64 for a program of\n\
        \u{20}                    version 1, 1 to 128 for one of version 2\n\
        \u{20}     --record       Writes the run file, the program and its journal,\n\
        \u{20}                    in place of the lines\n\
        \u{20} -h, --help         Print help\n\
        \n\
        Input:  a program: an image where it begins with ASLM, and else assembly text\n\
        Output: a line for each step, 'NUMBER THREAD REPLY',\n\
        \u{20}       or with --record the run file (docs/JOURNAL.md)\n\
        \n\
        Examples, from the top of the repository:\n\
        \u{20} ./asl step --threads 2 0 0 1 1 < examples/counter.asm\n\
        \u{20} ./asl step --threads 2 --record 0 0 1 1 < examples/counter.asm | ./asl replay\n\
        \n\
        Status: 0 done\n\
        \u{20}       1 refused, with one line 'asl: NAME' on standard error\n\
        \u{20}       2 wrong usage\n\
        \n\
        Refusals, where several apply the first of them:\n\
        \u{20} Read                  standard input failed\n\
        \u{20} TooLong               the input is longer than 268435456 bytes\n\
        \u{20} Line(n)               line n of the text is not as its place asks\n\
        \u{20} Magic .. Trailing(n)  what is wrong with an image: asl dis --help\n\
        \u{20} Verify(RULE)          the program breaks a rule of docs/FORMATS.md\n\
        \u{20} BadCount              the number of threads is 0, or above 64 for version 1\n\
        \u{20}                       or 128 for version 2\n\
        \u{20} BadThread             one of the first 16777216 steps is of a thread that\n\
        \u{20}                       is not there\n\
        \u{20} JournalFull           there are more than 16777216 steps\n\
        \u{20} Write                 standard output failed; a part may have been written\n\
        \u{20} OutOfMemory           memory ran out\n\
        \n\
        asl 2, proved in the logic dac8208d650f15bf\n";

/// The page of the command `run`.
pub const RUN: &str = "Lets workers step a program side by side, to its end or a limit\n\
        \n\
        Usage: asl run [OPTIONS] --threads <N> --workers <W> --limit <L>\n\
        \n\
        Options:\n\
        \u{20}     --threads <N>  How many threads the machine has: 1 to 64 for a program of\n\
        \u{20}                    version 1, 1 to 128 for one of version 2\n\
        \u{20}     --workers <W>  How many worker threads step them, 1 to 8: worker j steps\n\
        \u{20}                    the threads t with t mod W = j\n\
        \u{20}     --limit <L>    How many steps are made at most, 0 to 16777216\n\
        \u{20}     --record       Writes the run file, the program and its journal,\n\
        \u{20}                    in place of the lines\n\
        \u{20} -h, --help         Print help\n\
        \n\
        Input:  a program: an image where it begins with ASLM, and else assembly text\n\
        Output: a line for each step, 'NUMBER THREAD REPLY',\n\
        \u{20}       or with --record the run file (docs/JOURNAL.md)\n\
        \n\
        Examples, from the top of the repository:\n\
        \u{20} ./asl run --threads 1 --workers 1 --limit 10000 < examples/counter.asm\n\
        \u{20} ./asl run --threads 8 --workers 4 --limit 1000 --record \\\n\
        \u{20}   < examples/counter.asm | ./asl replay\n\
        \n\
        Status: 0 done\n\
        \u{20}       1 refused, with one line 'asl: NAME' on standard error\n\
        \u{20}       2 wrong usage\n\
        \n\
        Refusals, where several apply the first of them:\n\
        \u{20} Read                  standard input failed\n\
        \u{20} TooLong               the input is longer than 268435456 bytes\n\
        \u{20} Line(n)               line n of the text is not as its place asks\n\
        \u{20} Magic .. Trailing(n)  what is wrong with an image: asl dis --help\n\
        \u{20} Verify(RULE)          the program breaks a rule of docs/FORMATS.md\n\
        \u{20} BadCount              threads as for step, workers not 1 to 8,\n\
        \u{20}                       or the limit is above 16777216\n\
        \u{20} Receipt(w)            worker w's receipts disagree with the journal\n\
        \u{20}                       or with the machine\n\
        \u{20} Spawn                 the system did not start a worker's thread\n\
        \u{20} Write                 standard output failed; a part may have been written\n\
        \u{20} OutOfMemory           memory ran out\n\
        \n\
        asl 2, proved in the logic dac8208d650f15bf\n";

/// The page of the command `replay`.
pub const REPLAY: &str = "Makes the steps of a recorded run again, and compares each reply\n\
        \n\
        Usage: asl replay\n\
        \n\
        Options:\n\
        \u{20} -h, --help  Print help\n\
        \n\
        Input:  a run file (docs/JOURNAL.md)\n\
        Output: 'same M', where all M events came again\n\
        \n\
        Examples, from the top of the repository:\n\
        \u{20} ./asl replay < examples/counter.run\n\
        \u{20} ./asl step --threads 1 --record 0 0 0 < examples/push.asm | ./asl replay\n\
        \n\
        Status: 0 done\n\
        \u{20}       1 refused, with one line 'asl: NAME' on standard error\n\
        \u{20}       2 wrong usage\n\
        \n\
        Refusals, where several apply the first of them:\n\
        \u{20} Read           standard input failed\n\
        \u{20} TooLong        the input is longer than 268435456 bytes\n\
        \u{20} Truncated(n)   the run file, of n bytes, ends before its image does\n\
        \u{20} Image(NAME)    its image is refused: asl dis --help\n\
        \u{20} Journal(NAME)  its journal is refused: Magic, Version, Truncated(n),\n\
        \u{20}                BadField(n), Trailing(n)\n\
        \u{20} BadCount       the journal has more threads than the program's version sets\n\
        \u{20} Differs(n)     the journal does not belong to the program:\n\
        \u{20}                event n, from 0, is the first that differs\n\
        \u{20} Write          standard output failed; a part may have been written\n\
        \u{20} OutOfMemory    memory ran out\n\
        \n\
        asl 2, proved in the logic dac8208d650f15bf\n";

/// The page of the command `log`.
pub const LOG: &str = "Makes the steps of a recorded run again, and prints them\n\
        \n\
        Usage: asl log [OPTIONS]\n\
        \n\
        Options:\n\
        \u{20}     --trace  Says before each reply the thread's pc and depth before\n\
        \u{20}              the step, '-' for a thread that had ended\n\
        \u{20} -h, --help   Print help\n\
        \n\
        Input:  a run file (docs/JOURNAL.md)\n\
        Output: a line for each event, 'NUMBER THREAD REPLY', as step prints it;\n\
        \u{20}       with --trace 'NUMBER THREAD PC DEPTH REPLY'\n\
        \n\
        Examples, from the top of the repository:\n\
        \u{20} ./asl log < examples/counter.run\n\
        \u{20} ./asl run --threads 8 --workers 4 --limit 1000 --record \\\n\
        \u{20}   < examples/counter.asm | ./asl log --trace\n\
        \n\
        Status: 0 done\n\
        \u{20}       1 refused, with one line 'asl: NAME' on standard error\n\
        \u{20}       2 wrong usage\n\
        \n\
        Refusals, where several apply the first of them:\n\
        \u{20} Read           standard input failed\n\
        \u{20} TooLong        the input is longer than 268435456 bytes\n\
        \u{20} Truncated(n)   the run file, of n bytes, ends before its image does\n\
        \u{20} Image(NAME)    its image is refused: asl dis --help\n\
        \u{20} Journal(NAME)  its journal is refused: Magic, Version, Truncated(n),\n\
        \u{20}                BadField(n), Trailing(n)\n\
        \u{20} BadCount       the journal has more threads than the program's version sets\n\
        \u{20} Differs(n)     the journal does not belong to the program:\n\
        \u{20}                event n, from 0, is the first that differs\n\
        \u{20} Write          standard output failed; a part may have been written\n\
        \u{20} OutOfMemory    memory ran out\n\
        \n\
        asl 2, proved in the logic dac8208d650f15bf\n";

/// The page of the command `debug`.
pub const DEBUG: &str = "Goes back and forth in a recorded run\n\
        \n\
        Usage: asl debug <WORD>...\n\
        \n\
        Arguments:\n\
        \u{20} <WORD>...  What the debugger is asked\n\
        \n\
        Options:\n\
        \u{20} -h, --help  Print help\n\
        \n\
        Input:  a run file (docs/JOURNAL.md)\n\
        Output: for each word 'at K' or 'refused NAME'; for break P and clear P the\n\
        \u{20}       word; for the last four what they show\n\
        Words:  goto K, forward, back, next, prev (breakpoints), break P, clear P\n\
        \u{20}       (P: place in the code, from 0), view (the machine), asks (what threads\n\
        \u{20}       ask for, and who is in the way), stack (all frames), objects\n\
        \n\
        Examples, from the top of the repository:\n\
        \u{20} ./asl debug goto 4 back back view < examples/counter.run\n\
        \u{20} ./asl debug break 1 next next prev < examples/counter.run\n\
        \u{20} ./asl debug goto 4 asks stack < examples/counter.run\n\
        \n\
        Status: 0 done\n\
        \u{20}       1 refused, with one line 'asl: NAME' on standard error\n\
        \u{20}       2 wrong usage\n\
        \n\
        Refusals, where several apply the first of them:\n\
        \u{20} Read           standard input failed\n\
        \u{20} TooLong        the input is longer than 268435456 bytes\n\
        \u{20} Truncated(n)   the run file, of n bytes, ends before its image does\n\
        \u{20} Image(NAME)    its image is refused: asl dis --help\n\
        \u{20} Journal(NAME)  its journal is refused: Magic, Version, Truncated(n),\n\
        \u{20}                BadField(n), Trailing(n)\n\
        \u{20} BadCount       the journal has more threads than the program's version sets\n\
        \u{20} Differs(n)     the journal does not belong to the program:\n\
        \u{20}                event n, from 0, is the first that differs\n\
        \u{20} Write          standard output failed; a part may have been written\n\
        \u{20} OutOfMemory    memory ran out\n\
        \n\
        asl 2, proved in the logic dac8208d650f15bf\n";
