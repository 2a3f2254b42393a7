//! The pages of the commands over sources, as `--help` shows them.

/// The page of the command `compile`.
pub const COMPILE: &str = "Infers the locks of a source; no run faults for a missing lock\n\
        \n\
        Usage: asl compile [OPTIONS]\n\
        \n\
        Options:\n\
        \u{20}     --k <K>  The most operations of a lock's path, 0 to 8 [default: 3]\n\
        \u{20}     --text   Writes the canonical assembly text, in place of the image\n\
        \u{20} -h, --help   Print help\n\
        \n\
        Input:  a source (docs/SOURCE.md)\n\
        Output: the program's image, or with --text its assembly text\n\
        \n\
        Examples, from the top of the repository:\n\
        \u{20} ./asl compile --text < examples/counter.asl\n\
        \u{20} ./asl compile --k 0 < examples/bank.asl > bank.image\n\
        \n\
        Status: 0 done\n\
        \u{20}       1 refused, with one line 'asl: NAME' on standard error\n\
        \u{20}       2 wrong usage\n\
        \n\
        Refusals, where several apply the first of them:\n\
        \u{20} Read                   standard input failed\n\
        \u{20} TooLong                the input is longer than 268435456 bytes\n\
        \u{20} NotAscii(n), Token(n)  the byte at n is not ASCII, or begins no token\n\
        \u{20} Grammar(n)             the token at n does not continue any program\n\
        \u{20} Limit(n)               a limit of docs/SOURCE.md is passed at n\n\
        \u{20} Twice(x), Unknown(x)   the name x is declared twice, or not at all\n\
        \u{20} Arity(n)               the call at n has another number of arguments\n\
        \u{20} NoMain                 there is no function main of one parameter\n\
        \u{20} Registers(f)           function f needs more than 64 registers\n\
        \u{20} CodeSize               the program has more than 65535 instructions\n\
        \u{20} AccessOutsideSection(f, pc)\n\
        \u{20}                        function f may access a cell outside sections, at pc\n\
        \u{20} TooManyClasses         there are more than 1024 classes of objects\n\
        \u{20} TooManyLocks(r)        the section or body r, Section(s) or Body(f),\n\
        \u{20}                        needs more than 4096 locks\n\
        \u{20} Write                  standard output failed; a part may have been written\n\
        \u{20} OutOfMemory            memory ran out\n\
        \n\
        asl 2, proved in the logic dac8208d650f15bf\n";

/// The page of the command `check`.
pub const CHECK: &str = "Checks the lists of a program against its source\n\
        \n\
        Usage: asl check [OPTIONS]\n\
        \n\
        Options:\n\
        \u{20}     --k <K>  The most operations of a needed lock's path, 0 to 8 [default: 3]\n\
        \u{20}     --all    Tells all locks that lists lack, a line each, not only the first\n\
        \u{20} -h, --help   Print help\n\
        \n\
        Input:  a source (docs/SOURCE.md), one byte 0, and a program:\n\
        \u{20}       an image where it begins with ASLM, and else assembly text\n\
        Output: 'checked S sections', where each list is enough for what its section\n\
        \u{20}       needs and for what its own expressions read; then no run faults for a\n\
        \u{20}       missing lock\n\
        \n\
        Examples, from the top of the repository:\n\
        \u{20} ./asl compile --text < examples/counter.asl > counter.text\n\
        \u{20} (cat examples/counter.asl; printf '\\0'; cat counter.text) | ./asl check\n\
        \u{20} (cat examples/counter.asl; printf '\\0'; \\\n\
        \u{20}   sed 's/^expr .*/root write/' counter.text) | ./asl check\n\
        \u{20} (cat examples/counter.asl; printf '\\0'; \\\n\
        \u{20}   sed '/^expr/d' counter.text) | ./asl check --all\n\
        \n\
        Status: 0 done\n\
        \u{20}       1 refused, with one line 'asl: NAME' on standard error;\n\
        \u{20}         with --all one for each lock\n\
        \u{20}       2 wrong usage\n\
        \n\
        Refusals, where several apply the first of them:\n\
        \u{20} Read                   standard input failed\n\
        \u{20} TooLong                the input is longer than 268435456 bytes\n\
        \u{20} NoProgram              there is no byte 0\n\
        \u{20} NotAscii(n) .. NoMain  what is wrong with the source: asl compile --help\n\
        \u{20} Line(n)                line n of the text is not as its place asks\n\
        \u{20} Magic .. Trailing(n)   what is wrong with an image: asl dis --help\n\
        \u{20} Verify(RULE)           the program breaks a rule of docs/FORMATS.md\n\
        \u{20} Registers(f) .. TooManyLocks(r)\n\
        \u{20}                        no lists are inferred: asl compile --help\n\
        \u{20} OtherCode(pc): TEXT    the instruction at pc is not the source's, and TEXT\n\
        \u{20}                        says what both have; where a table is not the\n\
        \u{20}                        source's, pc is the number of instructions\n\
        \u{20} Uncovered(s, LOCK)     section s needs LOCK; no lock of its list covers it\n\
        \u{20} Unguarded(s, LOCK)     an expression of the list of section s reads the cell\n\
        \u{20}                        of LOCK, and no lock of the list covers it\n\
        \u{20} Write                  standard output failed; a part may have been written\n\
        \u{20} OutOfMemory            memory ran out\n\
        \n\
        asl 2, proved in the logic dac8208d650f15bf\n";

/// The page of the command `map`.
pub const MAP: &str = "Says what the numbers and instructions of a source's code stand for\n\
        \n\
        Usage: asl map\n\
        \n\
        Options:\n\
        \u{20} -h, --help  Print help\n\
        \n\
        Input:  a source (docs/SOURCE.md)\n\
        Output: a line for each function, register, global, class, section, site and\n\
        \u{20}       instruction (which piece of the text it is of), and one for each\n\
        \u{20}       function that `main` never calls, not even through others\n\
        \u{20}       (docs/SOURCE.md)\n\
        \n\
        Examples, from the top of the repository:\n\
        \u{20} ./asl map < examples/counter.asl\n\
        \u{20} ./asl map < examples/bank.asl | grep '^register'\n\
        \n\
        Status: 0 done\n\
        \u{20}       1 refused, with one line 'asl: NAME' on standard error\n\
        \u{20}       2 wrong usage\n\
        \n\
        Refusals, where several apply the first of them:\n\
        \u{20} Read                   standard input failed\n\
        \u{20} TooLong                the input is longer than 268435456 bytes\n\
        \u{20} NotAscii(n) .. NoMain  what is wrong with the source: asl compile --help\n\
        \u{20} Registers(f), CodeSize, AccessOutsideSection(f, pc), TooManyClasses\n\
        \u{20}                        as for asl compile\n\
        \u{20} Write                  standard output failed; a part may have been written\n\
        \u{20} OutOfMemory            memory ran out\n\
        \n\
        asl 2, proved in the logic dac8208d650f15bf\n";

/// The page of the command `explain`.
pub const EXPLAIN: &str = "Says why each lock is in its list, from the statement that needs it\n\
        \n\
        Usage: asl explain [OPTIONS]\n\
        \n\
        Options:\n\
        \u{20}     --k <K>    The most operations of a lock's path, 0 to 8 [default: 3]\n\
        \u{20}     --all      Tells every chain of links, also of locks that the list's lock\n\
        \u{20}                contains; with --classes every member\n\
        \u{20}     --classes  Tells, in place of the lists, which objects each class has,\n\
        \u{20}                and which statements join them\n\
        \u{20} -h, --help     Print help\n\
        \n\
        Input:  a source (docs/SOURCE.md)\n\
        Output: for each section its list, and below each lock the statements that need\n\
        \u{20}       it and the links by which it came to the section's start, in the\n\
        \u{20}       source's words (docs/ANALYSIS.md); then the lists of each k\n\
        \n\
        Examples, from the top of the repository:\n\
        \u{20} ./asl explain < examples/counter.asl\n\
        \u{20} ./asl explain --k 1 --all < examples/walk.asl\n\
        \u{20} ./asl explain --classes < examples/walk.asl\n\
        \n\
        Status: 0 done\n\
        \u{20}       1 refused, with one line 'asl: NAME' on standard error\n\
        \u{20}       2 wrong usage\n\
        \n\
        Refusals, where several apply the first of them:\n\
        \u{20} Read         standard input failed\n\
        \u{20} TooLong      the input is longer than 268435456 bytes\n\
        \u{20} NotAscii(n) .. TooManyLocks(r)\n\
        \u{20}              as for asl compile\n\
        \u{20} Write        standard output failed; a part may have been written\n\
        \u{20} OutOfMemory  memory ran out\n\
        \n\
        asl 2, proved in the logic dac8208d650f15bf\n";

/// The page of the command `lists`.
pub const LISTS: &str = "Says all of a source's lists in JSON, for other programs to read\n\
        \n\
        Usage: asl lists [OPTIONS]\n\
        \n\
        Options:\n\
        \u{20}     --k <K>      The most operations of a lock's path, 0 to 8, or auto:\n\
        \u{20}                  as many as are accepted [default: 3]\n\
        \u{20}     --entry <F>  A function called from outside, of a source without main;\n\
        \u{20}                  may be given more than once\n\
        \u{20} -h, --help       Print help\n\
        \n\
        Input:  a source (docs/SOURCE.md)\n\
        Output: a JSON document on one line: classes, functions, sections with their\n\
        \u{20}       locks, and warnings (docs/lists.schema.json)\n\
        \n\
        Examples, from the top of the repository:\n\
        \u{20} ./asl lists < examples/counter.asl\n\
        \u{20} ./asl lists --k auto < examples/bank.asl | python3 -m json.tool\n\
        \u{20} echo 'fn f(p) { atomic { x = *p; } return x; }' | ./asl lists --entry f\n\
        \n\
        Status: 0 done\n\
        \u{20}       1 refused, with one line 'asl: NAME' on standard error\n\
        \u{20}       2 wrong usage\n\
        \n\
        Refusals, where several apply the first of them:\n\
        \u{20} Read         standard input failed\n\
        \u{20} TooLong      the input is longer than 268435456 bytes\n\
        \u{20} NotAscii(n) .. TooManyLocks(r)\n\
        \u{20}              as for asl compile, of the source and what calls its entries\n\
        \u{20} Write        standard output failed; a part may have been written\n\
        \u{20} OutOfMemory  memory ran out\n\
        \n\
        asl 2, proved in the logic dac8208d650f15bf\n";

/// The page of the command `diagnose`.
pub const DIAGNOSE: &str = "Says where and why a source or an assembly text is at fault\n\
        \n\
        Usage: asl diagnose [OPTIONS]\n\
        \n\
        Options:\n\
        \u{20}     --k <K>  The most operations of a lock's path, 0 to 8 [default: 3]\n\
        \u{20}     --asm    Takes the input as an assembly text, in place of a source\n\
        \u{20}     --all    Tells what the text may lack, too: calls of functions, and what\n\
        \u{20}              fills pointers; not with --asm\n\
        \u{20} -h, --help   Print help\n\
        \n\
        Input:  a source (docs/SOURCE.md), or with --asm an assembly text\n\
        \u{20}       (docs/FORMATS.md)\n\
        Output: nothing where there is no fault; else line and column, both from 1, the\n\
        \u{20}       fault's name, a sentence, the line of the text with a mark below the\n\
        \u{20}       place, and how to go on; with --all then the functions that `main` does\n\
        \u{20}       not reach, and the loads and stores through a pointer of no class\n\
        \u{20}       (docs/ANALYSIS.md)\n\
        \n\
        Examples, from the top of the repository:\n\
        \u{20} ./asl diagnose < examples/counter.asl\n\
        \u{20} ./asl diagnose --all < examples/counter.asl\n\
        \u{20} ./asl diagnose --asm < examples/counter.asm\n\
        \u{20} echo 'fn main(t) { x = 1 + 1; return x; }' | ./asl diagnose\n\
        \n\
        Status: 0 done, also where the text is at fault\n\
        \u{20}       1 refused, with one line 'asl: NAME' on standard error\n\
        \u{20}       2 wrong usage\n\
        \n\
        Refusals, where several apply the first of them:\n\
        \u{20} Read         standard input failed\n\
        \u{20} TooLong      the input is longer than 268435456 bytes\n\
        \u{20} Write        standard output failed; a part may have been written\n\
        \u{20} OutOfMemory  memory ran out\n\
        \n\
        asl 2, proved in the logic dac8208d650f15bf\n";

/// The page of the command `c`.
pub const C: &str = "Prints a source as a C program that runs natively under its locks\n\
        \n\
        Usage: asl c [OPTIONS]\n\
        \n\
        Options:\n\
        \u{20}     --k <K>            The most operations of a lock's path, 0 to 8, or auto:\n\
        \u{20}                        as many as are accepted [default: 3]\n\
        \u{20}     --check            Has the runtime look at each access:\n\
        \u{20}                        whether it is covered or fresh\n\
        \u{20}     --entry <F>        A function that C calls, of a source without main;\n\
        \u{20}                        may be given more than once\n\
        \u{20}     --extern <F=NAME>  Calls the C function NAME in place of F, whose body\n\
        \u{20}                        says what it accesses; may be given more than once\n\
        \u{20} -h, --help             Print help\n\
        \n\
        Input:  a source (docs/SOURCE.md)\n\
        Output: a C program over runtime/asl_runtime.h, whose threads run under the\n\
        \u{20}       inferred locks (docs/PARALLEL.md)\n\
        \n\
        Examples, from the top of the repository:\n\
        \u{20} ./asl c < examples/bank.asl > bank.c\n\
        \u{20} ./asl c --k auto --check < examples/walk.asl > walk.c\n\
        \u{20} ./asl c --entry add --entry read --extern square=squared \\\n\
        \u{20}   --extern bump=bumped < examples/c/tally.asl > tally_text.c\n\
        \n\
        Status: 0 done\n\
        \u{20}       1 refused, with one line 'asl: NAME' on standard error\n\
        \u{20}       2 wrong usage\n\
        \n\
        Refusals, where several apply the first of them:\n\
        \u{20} Read         standard input failed\n\
        \u{20} TooLong      the input is longer than 268435456 bytes\n\
        \u{20} NotAscii(n) .. TooManyLocks(r)\n\
        \u{20}              as for asl compile, of the source and what calls its entries\n\
        \u{20} Unknown(x)   --extern replaces x, and the source has no function x\n\
        \u{20} Write        standard output failed; a part may have been written\n\
        \u{20} OutOfMemory  memory ran out\n\
        \n\
        asl 2, proved in the logic dac8208d650f15bf\n";
