//! The names of the faults of texts, images, sources and journals.
ghost use Rattle.std.specs.Prelude.{◌≡◌, ◌+◌, ◌<◌, ◌≤◌, ◌++◌, length, OnOk, OnErr, codes};
ghost use Rattle.asl_refusal_text.specs.FaultText.{around, pair, verify_text, asm_text, load_text, syntax_text, region_text, infer_text, lower_text, classes_text, map_text, lacking_text, check_text, journal_text, file_text, run_text};

use crate::difference_text::push_other_code;
use crate::line_text::{Line, push, push_around, push_number, push_numbered};
use crate::lock_text::push_lock;
use arrayvec::CapacityError;
use asl_assembler::AsmFault;
use asl_backward_flow::Region;
use asl_check::CheckFault;
use asl_code::{Lock, VerifyFault};
use asl_emitter::InferFault;
use asl_journal::{FileFault, JournalFault};
use asl_loader::LoadFault;
use asl_lower::LowerFault;
use asl_map::MapFault;
use asl_points_to::ClassesFault;
use asl_runner::RunFault;
use asl_syntax::SyntaxFault;

/// Adds the rule that an image breaks.
fn push_rule(line: &mut Line, cause: VerifyFault) -> Result<(), CapacityError>
    ensures text { OnOk result (line.new.items ≡ line.old.items ++ verify_text cause) }
    ensures adds { length line.new.items ≤ length line.old.items + 30 }
    ensures room { OnErr result (256 < length line.old.items + 30) }
{
    match cause {
        VerifyFault::Limit => push(line, "Limit"),
        VerifyFault::Table => push(line, "Table"),
        VerifyFault::NoEntry => push(line, "NoEntry"),
        VerifyFault::FunctionRange => push(line, "FunctionRange"),
        VerifyFault::FallsOut => push(line, "FallsOut"),
        VerifyFault::Target(pc) => push_numbered(line, "Target", pc as usize),
        VerifyFault::Register(pc) => push_numbered(line, "Register", pc as usize),
        VerifyFault::Operand(pc) => push_numbered(line, "Operand", pc as usize),
        VerifyFault::ListBase(pc) => push_numbered(line, "ListBase", pc as usize),
    }
}

/// Adds that an image breaks a rule.
fn push_verify(line: &mut Line, cause: VerifyFault) -> Result<(), CapacityError>
    ensures text { OnOk result (line.new.items ≡ line.old.items ++ around (codes "Verify") (verify_text cause)) }
    ensures adds { length line.new.items ≤ length line.old.items + 38 }
    ensures room { OnErr result (256 < length line.old.items + 38) }
{
    push(line, "Verify")?;
    push(line, "(")?;
    push_rule(line, cause)?;
    push(line, ")")
}

/// Adds the fault of an assembly text.
pub fn push_assembly(line: &mut Line, fault: AsmFault) -> Result<(), CapacityError>
    ensures text { OnOk result (line.new.items ≡ line.old.items ++ asm_text fault) }
    ensures adds { length line.new.items ≤ length line.old.items + 38 }
    ensures room { OnErr result (256 < length line.old.items + 38) }
{
    match fault {
        AsmFault::Line(number) => push_numbered(line, "Line", number),
        AsmFault::Verify(cause) => push_verify(line, cause),
        AsmFault::OutOfMemory => push(line, "OutOfMemory"),
    }
}

/// Adds the fault of an image.
pub fn push_image(line: &mut Line, fault: LoadFault) -> Result<(), CapacityError>
    ensures text { OnOk result (line.new.items ≡ line.old.items ++ load_text fault) }
    ensures adds { length line.new.items ≤ length line.old.items + 38 }
    ensures room { OnErr result (256 < length line.old.items + 38) }
{
    match fault {
        LoadFault::Magic => push(line, "Magic"),
        LoadFault::Version => push(line, "Version"),
        LoadFault::Truncated(size) => push_numbered(line, "Truncated", size),
        LoadFault::BadField(at) => push_numbered(line, "BadField", at),
        LoadFault::Trailing(at) => push_numbered(line, "Trailing", at),
        LoadFault::Verify(cause) => push_verify(line, cause),
        LoadFault::OutOfMemory => push(line, "OutOfMemory"),
    }
}

/// Adds the fault of a source.
pub fn push_source(line: &mut Line, fault: &SyntaxFault) -> Result<(), CapacityError>
    ensures text { OnOk result (line.new.items ≡ line.old.items ++ syntax_text fault.now) }
    ensures adds { length line.new.items ≤ length line.old.items + 73 }
    ensures room { OnErr result (256 < length line.old.items + 73) }
{
    match fault {
        SyntaxFault::NotAscii(at) => push_numbered(line, "NotAscii", *at),
        SyntaxFault::Token(at) => push_numbered(line, "Token", *at),
        SyntaxFault::Grammar(at) => push_numbered(line, "Grammar", *at),
        SyntaxFault::Limit(at) => push_numbered(line, "Limit", *at),
        SyntaxFault::Twice(name) => push_around(line, "Twice", name.as_slice()),
        SyntaxFault::Unknown(name) => push_around(line, "Unknown", name.as_slice()),
        SyntaxFault::Arity(at) => push_numbered(line, "Arity", *at),
        SyntaxFault::NoMain => push(line, "NoMain"),
        SyntaxFault::OutOfMemory => push(line, "OutOfMemory"),
    }
}

/// Adds a name with two numbers.
fn push_pair(line: &mut Line, name: &str, first: u16, second: u16) -> Result<(), CapacityError>
    ensures text { OnOk result (line.new.items ≡ line.old.items ++ pair name.now first second) }
    ensures adds { length line.new.items ≤ length line.old.items + length name.now + 44 }
    ensures room { OnErr result (256 < length line.old.items + length name.now + 44) }
{
    push(line, name)?;
    push(line, "(")?;
    push_number(line, usize::from(first))?;
    push(line, ", ")?;
    push_number(line, usize::from(second))?;
    push(line, ")")
}

/// Adds a region.
fn push_region(line: &mut Line, region: Region) -> Result<(), CapacityError>
    ensures text { OnOk result (line.new.items ≡ line.old.items ++ region_text region) }
    ensures adds { length line.new.items ≤ length line.old.items + 29 }
    ensures room { OnErr result (256 < length line.old.items + 29) }
{
    match region {
        Region::Body(function) => push_numbered(line, "Body", usize::from(function)),
        Region::Section(section) => push_numbered(line, "Section", usize::from(section)),
    }
}

/// Adds a name with a region.
fn push_of_region(line: &mut Line, name: &str, region: Region) -> Result<(), CapacityError>
    ensures text { OnOk result (line.new.items ≡ line.old.items ++ around name.now (region_text region)) }
    ensures adds { length line.new.items ≤ length line.old.items + length name.now + 31 }
    ensures room { OnErr result (256 < length line.old.items + length name.now + 31) }
{
    push(line, name)?;
    push(line, "(")?;
    push_region(line, region)?;
    push(line, ")")
}

/// Adds why no program is inferred.
pub fn push_infer(line: &mut Line, fault: InferFault) -> Result<(), CapacityError>
    ensures text { OnOk result (line.new.items ≡ line.old.items ++ infer_text fault) }
    ensures adds { length line.new.items ≤ length line.old.items + 64 }
    ensures room { OnErr result (256 < length line.old.items + 64) }
{
    match fault {
        InferFault::Registers(function) => {
            push_numbered(line, "Registers", usize::from(function))
        }
        InferFault::CodeSize => push(line, "CodeSize"),
        InferFault::AccessOutsideSection(function, pc) => {
            push_pair(line, "AccessOutsideSection", function, pc)
        }
        InferFault::TooManyClasses => push(line, "TooManyClasses"),
        InferFault::TooManyLocks(region) => push_of_region(line, "TooManyLocks", region),
        InferFault::OutOfMemory => push(line, "OutOfMemory"),
    }
}

/// Adds why a source has no code.
fn push_lower(line: &mut Line, fault: LowerFault) -> Result<(), CapacityError>
    ensures text { OnOk result (line.new.items ≡ line.old.items ++ lower_text fault) }
    ensures adds { length line.new.items ≤ length line.old.items + 64 }
    ensures room { OnErr result (256 < length line.old.items + 64) }
{
    match fault {
        LowerFault::Registers(function) => {
            push_numbered(line, "Registers", usize::from(function))
        }
        LowerFault::CodeSize => push(line, "CodeSize"),
        LowerFault::AccessOutsideSection(function, pc) => {
            push_pair(line, "AccessOutsideSection", function, pc)
        }
        LowerFault::OutOfMemory => push(line, "OutOfMemory"),
    }
}

/// Adds why a source has no classes.
fn push_classes(line: &mut Line, fault: ClassesFault) -> Result<(), CapacityError>
    ensures text { OnOk result (line.new.items ≡ line.old.items ++ classes_text fault) }
    ensures adds { length line.new.items ≤ length line.old.items + 14 }
    ensures room { OnErr result (256 < length line.old.items + 14) }
{
    match fault {
        ClassesFault::TooManyClasses => push(line, "TooManyClasses"),
        ClassesFault::OutOfMemory => push(line, "OutOfMemory"),
    }
}

/// Adds why a source has no map.
pub fn push_map(line: &mut Line, fault: &MapFault) -> Result<(), CapacityError>
    ensures text { OnOk result (line.new.items ≡ line.old.items ++ map_text fault.now) }
    ensures adds { length line.new.items ≤ length line.old.items + 73 }
    ensures room { OnErr result (256 < length line.old.items + 73) }
{
    match fault {
        MapFault::Source(cause) => push_source(line, cause),
        MapFault::Lower(cause) => push_lower(line, *cause),
        MapFault::Classes(cause) => push_classes(line, *cause),
        MapFault::OutOfMemory => push(line, "OutOfMemory"),
    }
}

/// Adds that the list of a section lacks a lock.
fn push_lacking(line: &mut Line, name: &str, section: u16, lock: &Lock) -> Result<(), CapacityError>
    ensures text { OnOk result (line.new.items ≡ line.old.items ++ lacking_text name.now section lock.now) }
    ensures adds { length line.new.items ≤ length line.old.items + length name.now + 232 }
    ensures room { OnErr result (256 < length line.old.items + length name.now + 232) }
{
    push(line, name)?;
    push(line, "(")?;
    push_number(line, usize::from(section))?;
    push(line, ", ")?;
    push_lock(line, lock)?;
    push(line, ")")
}

/// Adds why a program is not checked.
pub fn push_check(line: &mut Line, fault: &CheckFault) -> Result<(), CapacityError>
    ensures text { OnOk result (line.new.items ≡ line.old.items ++ check_text fault.now) }
    ensures adds { length line.new.items ≤ length line.old.items + 241 }
    ensures room { OnErr result (256 < length line.old.items + 241) }
{
    match fault {
        CheckFault::Infer(cause) => push_infer(line, *cause),
        CheckFault::OtherCode(difference) => push_other_code(line, difference),
        CheckFault::Uncovered(section, lock) => push_lacking(line, "Uncovered", *section, lock),
        CheckFault::Unguarded(section, lock) => push_lacking(line, "Unguarded", *section, lock),
    }
}

/// Adds the fault of a journal.
pub fn push_journal(line: &mut Line, fault: JournalFault) -> Result<(), CapacityError>
    ensures text { OnOk result (line.new.items ≡ line.old.items ++ journal_text fault) }
    ensures adds { length line.new.items ≤ length line.old.items + 31 }
    ensures room { OnErr result (256 < length line.old.items + 31) }
{
    match fault {
        JournalFault::JournalFull => push(line, "JournalFull"),
        JournalFault::BadCount => push(line, "BadCount"),
        JournalFault::BadThread => push(line, "BadThread"),
        JournalFault::Differs(at) => push_numbered(line, "Differs", at as usize),
        JournalFault::Magic => push(line, "Magic"),
        JournalFault::Version => push(line, "Version"),
        JournalFault::Truncated(size) => push_numbered(line, "Truncated", size),
        JournalFault::BadField(at) => push_numbered(line, "BadField", at),
        JournalFault::Trailing(at) => push_numbered(line, "Trailing", at),
        JournalFault::OutOfMemory => push(line, "OutOfMemory"),
    }
}

/// Adds that the image of a run file is refused.
fn push_file_image(line: &mut Line, cause: LoadFault) -> Result<(), CapacityError>
    ensures text { OnOk result (line.new.items ≡ line.old.items ++ around (codes "Image") (load_text cause)) }
    ensures adds { length line.new.items ≤ length line.old.items + 45 }
    ensures room { OnErr result (256 < length line.old.items + 45) }
{
    push(line, "Image")?;
    push(line, "(")?;
    push_image(line, cause)?;
    push(line, ")")
}

/// Adds that the journal of a run file is refused.
fn push_file_journal(line: &mut Line, cause: JournalFault) -> Result<(), CapacityError>
    ensures text { OnOk result (line.new.items ≡ line.old.items ++ around (codes "Journal") (journal_text cause)) }
    ensures adds { length line.new.items ≤ length line.old.items + 40 }
    ensures room { OnErr result (256 < length line.old.items + 40) }
{
    push(line, "Journal")?;
    push(line, "(")?;
    push_journal(line, cause)?;
    push(line, ")")
}

/// Adds the fault of a run file.
pub fn push_file(line: &mut Line, fault: &FileFault) -> Result<(), CapacityError>
    ensures text { OnOk result (line.new.items ≡ line.old.items ++ file_text fault.now) }
    ensures adds { length line.new.items ≤ length line.old.items + 45 }
    ensures room { OnErr result (256 < length line.old.items + 45) }
{
    match fault {
        FileFault::Truncated(size) => push_numbered(line, "Truncated", *size),
        FileFault::Image(cause) => push_file_image(line, *cause),
        FileFault::Journal(cause) => push_file_journal(line, *cause),
        FileFault::OutOfMemory => push(line, "OutOfMemory"),
    }
}

/// Adds the fault of a run by workers.
pub fn push_run(line: &mut Line, fault: RunFault) -> Result<(), CapacityError>
    ensures text { OnOk result (line.new.items ≡ line.old.items ++ run_text fault) }
    ensures adds { length line.new.items ≤ length line.old.items + 29 }
    ensures room { OnErr result (256 < length line.old.items + 29) }
{
    match fault {
        RunFault::BadCount => push(line, "BadCount"),
        RunFault::Receipt(worker) => push_numbered(line, "Receipt", usize::from(worker)),
        RunFault::Spawn => push(line, "Spawn"),
        RunFault::OutOfMemory => push(line, "OutOfMemory"),
    }
}
