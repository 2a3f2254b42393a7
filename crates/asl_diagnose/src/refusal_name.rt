//! The names of refusals.

ghost use Rattle.std.specs.Prelude.{◌≡◌};
ghost use Rattle.asl_diagnose.specs.Names.{refusal_name, syntax_name, infer_name, asm_name, verify_name};

use crate::diagnosis::Refusal;
use asl_assembler::AsmFault;
use asl_code::VerifyFault;
use asl_emitter::InferFault;
use asl_syntax::SyntaxFault;

/// The name of a refusal, as the program prints it, without places.
pub fn refusal_name(refusal: &Refusal) -> &'static str
    ensures { result.now ≡ refusal_name refusal.now }
{
    match refusal {
        Refusal::Syntax(fault) => syntax_name(fault),
        Refusal::Infer(fault) => infer_name(*fault),
        Refusal::Asm(fault) => asm_name(*fault),
    }
}

/// The name of a fault of the text.
fn syntax_name(fault: &SyntaxFault) -> &'static str
    ensures { result.now ≡ syntax_name fault.now }
{
    match fault {
        SyntaxFault::NotAscii(_) => "NotAscii",
        SyntaxFault::Token(_) => "Token",
        SyntaxFault::Grammar(_) => "Grammar",
        SyntaxFault::Limit(_) => "Limit",
        SyntaxFault::Twice(_) => "Twice",
        SyntaxFault::Unknown(_) => "Unknown",
        SyntaxFault::Arity(_) => "Arity",
        SyntaxFault::NoMain => "NoMain",
        SyntaxFault::OutOfMemory => "OutOfMemory",
    }
}

/// The name of a fault that the inference finds.
fn infer_name(fault: InferFault) -> &'static str
    ensures { result.now ≡ infer_name fault }
{
    match fault {
        InferFault::Registers(_) => "Registers",
        InferFault::CodeSize => "CodeSize",
        InferFault::AccessOutsideSection(_, _) => "AccessOutsideSection",
        InferFault::TooManyClasses => "TooManyClasses",
        InferFault::TooManyLocks(_) => "TooManyLocks",
        InferFault::OutOfMemory => "OutOfMemory",
    }
}

/// The name of a fault of an assembly text.
fn asm_name(fault: AsmFault) -> &'static str
    ensures { result.now ≡ asm_name fault }
{
    match fault {
        AsmFault::Line(_) => "Line",
        AsmFault::Verify(cause) => verify_name(cause),
        AsmFault::OutOfMemory => "OutOfMemory",
    }
}

/// The name of the rule that an image breaks.
fn verify_name(cause: VerifyFault) -> &'static str
    ensures { result.now ≡ verify_name cause }
{
    match cause {
        VerifyFault::Limit => "Verify(Limit)",
        VerifyFault::Table => "Verify(Table)",
        VerifyFault::NoEntry => "Verify(NoEntry)",
        VerifyFault::FunctionRange => "Verify(FunctionRange)",
        VerifyFault::FallsOut => "Verify(FallsOut)",
        VerifyFault::Target(_) => "Verify(Target)",
        VerifyFault::Register(_) => "Verify(Register)",
        VerifyFault::Operand(_) => "Verify(Operand)",
        VerifyFault::ListBase(_) => "Verify(ListBase)",
    }
}
