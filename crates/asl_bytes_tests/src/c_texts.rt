//! The C texts of a program, as an emitter in another language prints them.
use asl_assembler::assemble;
use asl_parallel_c::{Extern, Options, put_program};
use std::alloc::{AllocError, Global};

static TEXT: &[u8] = b"version 2\n\
classes 2\n\
global 0\n\
global 1\n\
entry 0\n\
fn 1 3\n\
glob r1, g1\n\
acq 0\n\
load r2, r1\n\
jz r2, 6\n\
int r2, -5\n\
call r2, r2, 1\n\
store r1, r2\n\
rel\n\
new r2, 3, 1\n\
field r2, r2, 1\n\
acq 1\n\
rel\n\
ret r2\n\
fn 1 2\n\
out r0\n\
ret r0\n\
list\n\
root read\n\
class 1 write\n\
expr g1 read\n\
expr r1 .1 * write\n\
list\n";

/// With no option.
static PLAIN: &[u8] = b"/* Printed by `asl c`: a program over asl_runtime.h. */\n\
#define ASLR_EMITTED\n\
#include \"asl_runtime.h\"\n\
\n\
static const uint16_t aslr_classes[] = {\n\
\x20 0,\n\
\x20 1,\n\
\x20 0};\n\
\n\
static const aslr_lock aslr_list0[] = {\n\
\x20 {ASL_ROOT, ASL_S, ASLR_REGISTER, 0, {0}},\n\
\x20 {ASL_CLASS, ASL_X, ASLR_REGISTER, 1, {0}},\n\
\x20 {ASL_LEAF, ASL_S, ASLR_GLOBAL, 1, {0}},\n\
\x20 {ASL_LEAF, ASL_X, ASLR_REGISTER, 1, {2, 1, ASLR_FOLLOW}},\n\
\x20 {ASLR_END, 0, 0, 0, {0}}};\n\
\n\
static const aslr_lock aslr_list1[] = {\n\
\x20 {ASLR_END, 0, 0, 0, {0}}};\n\
\n\
static const aslr_lock *const aslr_lists[] = {\n\
\x20 aslr_list0,\n\
\x20 aslr_list1,\n\
\x20 NULL};\n\
\n\
static aslr_value aslr_f0(aslr_thread *t, aslr_value r0);\n\
static aslr_value aslr_f1(aslr_thread *t, aslr_value r0);\n\
\n\
static const aslr_program aslr_this = {2, 2, aslr_classes, aslr_lists, aslr_f0};\n\
\n\
static aslr_value aslr_f0(aslr_thread *t, aslr_value r0) {\n\
\x20 (void)t;\n\
\x20 (void)r0;\n\
\x20 aslr_value r1 = 0; (void)r1;\n\
\x20 aslr_value r2 = 0; (void)r2;\n\
L0: r1 = aslr_glob(t, 1);\n\
L1: { aslr_enter(t, 0, (const aslr_value[]){r0, r1, r2, 0}); }\n\
L2: r2 = aslr_load(t, r1);\n\
L3: if (aslr_jz(r2)) goto L6;\n\
L4: r2 = aslr_int(-5);\n\
L5: aslr_call(t); r2 = aslr_f1(t, r2); aslr_return(t);\n\
L6: aslr_store(t, r1, r2);\n\
L7: aslr_leave(t);\n\
L8: r2 = aslr_new(t, 3, 1);\n\
L9: r2 = aslr_field(t, r2, 1);\n\
L10: { aslr_enter(t, 1, (const aslr_value[]){r0, r1, r2, 0}); }\n\
L11: aslr_leave(t);\n\
L12: return r2;\n\
}\n\
\n\
static aslr_value aslr_f1(aslr_thread *t, aslr_value r0) {\n\
\x20 (void)t;\n\
\x20 (void)r0;\n\
\x20 aslr_value r1 = 0; (void)r1;\n\
L13: aslr_out(t, r0);\n\
L14: return r0;\n\
}\n\
\n\
#ifdef ASLR_NO_MAIN\n\
const aslr_program *const aslr_printed = &aslr_this;\n\
#else\n\
int main(int argc, char **argv) {\n\
\x20 return aslr_main(&aslr_this, argc, argv);\n\
}\n\
#endif\n";

/// With checks, a C function in place of function 1, a name by which C calls function 0, which the first of two is, and names: of functions
/// and of locals, some of which would end a comment.
static CHECKED: &[u8] = b"/* Printed by `asl c`: a program over asl_runtime.h. */\n\
#define ASLR_EMITTED\n\
#define ASLR_CHECKS\n\
#include \"asl_runtime.h\"\n\
\n\
static const uint16_t aslr_classes[] = {\n\
\x20 0,\n\
\x20 1,\n\
\x20 0};\n\
\n\
static const aslr_lock aslr_list0[] = {\n\
\x20 {ASL_ROOT, ASL_S, ASLR_REGISTER, 0, {0}},\n\
\x20 {ASL_CLASS, ASL_X, ASLR_REGISTER, 1, {0}},\n\
\x20 {ASL_LEAF, ASL_S, ASLR_GLOBAL, 1, {0}},\n\
\x20 {ASL_LEAF, ASL_X, ASLR_REGISTER, 1, {2, 1, ASLR_FOLLOW}},\n\
\x20 {ASLR_END, 0, 0, 0, {0}}};\n\
\n\
static const aslr_lock aslr_list1[] = {\n\
\x20 {ASLR_END, 0, 0, 0, {0}}};\n\
\n\
static const aslr_lock *const aslr_lists[] = {\n\
\x20 aslr_list0,\n\
\x20 aslr_list1,\n\
\x20 NULL};\n\
\n\
aslr_value begun(aslr_thread *t, aslr_value r0);\n\
aslr_value shown(aslr_thread *t, aslr_value r0);\n\
\n\
static const aslr_program aslr_this = {2, 2, aslr_classes, aslr_lists, begun};\n\
\n\
aslr_value begun(aslr_thread *t, aslr_value r0) { /* first_1 */\n\
\x20 (void)t;\n\
\x20 (void)r0; /* who */\n\
\x20 aslr_value r1 = 0; (void)r1;\n\
\x20 aslr_value r2 = 0; (void)r2; /* x_1 */\n\
L0: r1 = aslr_glob(t, 1);\n\
L1: { aslr_enter(t, 0, (const aslr_value[]){r0, r1, r2, 0}); }\n\
L2: r2 = aslr_load(t, r1);\n\
L3: if (aslr_jz(r2)) goto L6;\n\
L4: r2 = aslr_int(-5);\n\
L5: aslr_call(t); r2 = shown(t, r2); aslr_return(t);\n\
L6: aslr_store(t, r1, r2);\n\
L7: aslr_leave(t);\n\
L8: r2 = aslr_new(t, 3, 1);\n\
L9: r2 = aslr_field(t, r2, 1);\n\
L10: { aslr_enter(t, 1, (const aslr_value[]){r0, r1, r2, 0}); }\n\
L11: aslr_leave(t);\n\
L12: return r2;\n\
}\n\
\n\
#ifdef ASLR_NO_MAIN\n\
const aslr_program *const aslr_printed = &aslr_this;\n\
#else\n\
int main(int argc, char **argv) {\n\
\x20 return aslr_main(&aslr_this, argc, argv);\n\
}\n\
#endif\n";

/// Functions with their names in C.
fn externs(alloc: Global, named: &[(u16, &str)]) -> Result<Vec<Extern>, AllocError> {
    let mut externs = Vec::new(alloc);
    for (function, name) in named {
        let name = String::from_str(alloc, name)?;
        externs.push(Extern {
            function: *function,
            name,
        })?;
    }
    Ok(externs)
}

/// These texts.
fn words(alloc: Global, texts: &[&str]) -> Result<Vec<String>, AllocError> {
    let mut words = Vec::new(alloc);
    for text in texts {
        words.push(String::from_str(alloc, text)?)?;
    }
    Ok(words)
}

/// All options, or none.
fn options(alloc: Global, all: bool) -> Result<Options, AllocError> {
    let (externs, entries, names, locals) = match all {
        true => (
            externs(alloc, &[(1, "shown")])?,
            externs(alloc, &[(1, "taken"), (0, "begun"), (0, "again")])?,
            words(alloc, &["first_1", "*/"])?,
            vec![in alloc; words(alloc, &["who", "*/", "x_1", "more"])?]?,
        ),
        false => (
            Vec::new(alloc),
            Vec::new(alloc),
            Vec::new(alloc),
            Vec::new(alloc),
        ),
    };
    Ok(Options {
        checks: all,
        externs,
        entries,
        names,
        locals,
    })
}

/// Whether the program of the text is printed so.
fn is_printed(alloc: Global, all: bool, wanted: &[u8]) -> bool {
    let (Ok(program), Ok(options)) = (assemble(alloc, TEXT), options(alloc, all)) else {
        return false;
    };
    let mut text = Vec::new(alloc);
    put_program(alloc, &mut text, &program, &options).is_ok() && text.as_slice() == wanted
}

#[test]
fn a_program_is_printed_in_c(rt: HostRuntime) {
    assert!(rt; is_printed(rt.alloc(), false, PLAIN));
}

#[test]
fn a_program_is_printed_in_c_with_options(rt: HostRuntime) {
    assert!(rt; is_printed(rt.alloc(), true, CHECKED));
}
