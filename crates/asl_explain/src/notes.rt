//! Why a lock changes at a step, in words.

use crate::explained_value::{Step, Why};
use crate::links::front_of;
use crate::text::Teller;
use asl_backward_flow::Region;
use asl_code::{Base, Expr, Instr, Lock, Op};
use asl_lock_expr::class_of;
use asl_lock_words::cell_words;
use std::alloc::AllocError;
use std::fmt::Write;

/// Why the lock of a step is needed where that of the step before is. Where there is nothing to say it is empty, and then the line may
/// have `round the loop` (`note_or_round` of text/chains.rt).
pub fn note_of(teller: &Teller<'_>, earlier: &Step, step: &Step) -> Result<String, AllocError> {
    let alloc = teller.alloc;
    let Some(instr) = teller.analysis.lowering.code().get(usize::from(step.pc)) else {
        return Ok(String::new(alloc));
    };
    match (step.why, instr) {
        (Why::Accessed, _) => Ok(String::new(alloc)),
        (Why::Dereferenced, _) => teller.note_of_read(earlier),
        (Why::Entered, _) => format!(in alloc; "called here"),
        (Why::Linked, Instr::Call { to, function, .. }) => {
            teller.note_of_call(*to, *function, earlier)
        }
        (Why::Linked, Instr::Store { address, .. }) => teller.note_of_store(
            *address, earlier, step,
        ),
        (Why::Linked, _) => teller.note_of_length(instr, earlier, step),
    }
}

impl Teller<'_> {
    /// The words of a cell, by the names of the region's function.
    fn name_of(&self, region: Region, base: Base, ops: &[Op]) -> Result<String, AllocError> {
        cell_words(
            self.alloc,
            self.places.map(),
            self.function_of(region),
            base,
            ops,
        )
    }

    /// On the way to which cell another is read.
    fn note_of_read(&self, earlier: &Step) -> Result<String, AllocError> {
        let Lock::Expr(expr, _) = &earlier.lock else {
            return Ok(String::new(self.alloc));
        };
        let cell = self.name_of(earlier.region, expr.base, expr.path.as_slice())?;
        format!(in self.alloc; "on the way to `{cell}`")
    }

    /// Which argument of a call stands for a parameter: `parameter` has the parameter's lock at the entry of the callee, `call` is
    /// the step at the call, and `step` the one before it, which sets the argument's register.
    pub fn note_of_argument(
        &self,
        parameter: &Step,
        call: &Step,
        step: &Step,
    ) -> Result<String, AllocError> {
        let alloc = self.alloc;
        let code = self.analysis.lowering.code();
        if let (
            Some(Instr::Call { function, .. }),
            Some(Instr::Move { from, .. }),
            Lock::Expr(expr, _),
        ) = (
            code.get(usize::from(call.pc)),
            code.get(usize::from(step.pc)),
            &parameter.lock,
        ) {
            if let Base::Reg(register) = expr.base {
                let name = self.places.register(*function, register)?;
                let callee = self.places.function(*function)?;
                let own = self.places.register(self.function_of(step.region), *from)?;
                return format!(in alloc; "`{name}` of {callee} is `{own}`");
            }
        }
        Ok(String::new(alloc))
    }

    /// Why a call makes an expression its class.
    fn note_of_call(&self, to: u8, callee: u16, earlier: &Step) -> Result<String, AllocError> {
        let alloc = self.alloc;
        let Lock::Expr(expr, _) = &earlier.lock else {
            return Ok(String::new(alloc));
        };
        let name = self.places.function(callee)?;
        let function = self.function_of(earlier.region);
        if expr.base == Base::Reg(to) {
            let result = self.places.register(function, to)?;
            return format!(in alloc; "{name} gives `{result}` any address of the class");
        }
        let ops = expr.path.as_slice();
        for (len, op) in ops.iter().enumerate() {
            if *op == Op::Deref {
                if let Some(class) = self.class_of_front(function, expr, len) {
                    if self.analysis.writes.has(callee, class) {
                        let front = self.name_of(earlier.region, expr.base, &ops[..len])?;
                        return format!(in alloc;
                            "{name} may store to class {class}, and `{front}` is read on the way"
                        );
                    }
                }
            }
        }
        Ok(String::new(alloc))
    }

    /// The class of the front of an expression.
    fn class_of_front(&self, function: u16, expr: &Expr, len: usize) -> Option<u16> {
        match front_of(expr, len) {
            Lock::Expr(front, _) => class_of(&self.analysis.classes, function, &front),
            _ => None,
        }
    }

    /// Why a store makes a lock needed.
    fn note_of_store(
        &self,
        address: u8,
        earlier: &Step,
        step: &Step,
    ) -> Result<String, AllocError> {
        let alloc = self.alloc;
        let (Lock::Expr(expr, _), Lock::Expr(new, _)) = (&earlier.lock, &step.lock) else {
            return Ok(String::new(alloc));
        };
        let function = self.function_of(earlier.region);
        let Some(hit) = self.analysis.classes.to(function, address) else {
            return Ok(String::new(alloc));
        };
        let ops = expr.path.as_slice();
        for (len, op) in ops.iter().enumerate() {
            if *op == Op::Deref
                && self.class_of_front(function, expr, len) == Some(hit)
                && &ops[len + 1..] == new.path.as_slice()
            {
                let front = self.name_of(earlier.region, expr.base, &ops[..len])?;
                if expr.base == Base::Reg(address) && len == 0 {
                    return format!(in alloc; "it has just set `{front}`");
                }
                return format!(in alloc; "it may set `{front}`: both are class {hit}");
            }
        }
        Ok(String::new(alloc))
    }

    /// Why a longer path makes an expression its class.
    fn note_of_length(
        &self,
        instr: &Instr,
        earlier: &Step,
        step: &Step,
    ) -> Result<String, AllocError> {
        let alloc = self.alloc;
        let (Lock::Expr(expr, _), Lock::Class(_, _)) = (&earlier.lock, &step.lock) else {
            return Ok(String::new(alloc));
        };
        let (base, front) = match *instr {
            Instr::FieldAddress { from, offset, .. } => (Base::Reg(from), Op::Off(offset)),
            Instr::Load { address, .. } => (Base::Reg(address), Op::Deref),
            _ => return Ok(String::new(alloc)),
        };
        let mut ops = Vec::new(alloc);
        ops.push(front)?;
        for op in expr.path.as_slice() {
            ops.push(*op)?;
        }
        let cell = self.name_of(earlier.region, base, &ops)?;
        let count = ops.len();
        let s = if count == 1 { "" } else { "s" };
        let k = self.analysis.k_limit;
        format!(in alloc; "`{cell}` has {count} operation{s}, k is {k}")
    }
}
