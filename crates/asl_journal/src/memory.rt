//! Where a run gets its memory.
ghost use Rattle.std.specs.Prelude.{◌≡◌, ◌<◌, ◌≤◌, ◌+◌, ◌⊎◌, ◌↔◌, length, vec_capacity, IfErr, IfOk, IsErrOf, IsOk, OnErr, OnOk};
ghost use Rattle.asl_code.specs.Versions.{most_threads};
ghost use Rattle.asl_machine.specs.Paused.{IsRestOf};
ghost use Rattle.asl_machine.specs.Run.{start_of};
ghost use Rattle.asl_machine.specs.Step.{Step};
ghost use Rattle.asl_machine.specs.WellFormed.{MayWantMemory};

use asl_code::Program;
use asl_machine::{Machine, MachineFault, Paused, Reply};
use std::alloc::{AllocError, Global};

/// Where a run gets its memory: a call for each thing that a run asks memory for. Where one of them is refused, `refused` holds.
/// Nothing else is known of a `Memory` that a call is given, so a call that says "want of memory only where `refused`" has asked, and
/// was refused.
pub trait Memory: Copy {
    /// Something was refused.
    ghost refused: { Self → Type 0 };

    /// The allocator behind it, for what is made empty.
    fn allocator(self) -> Global;

    /// `Machine::new` with this memory.
    ///
    /// # Errors
    ///
    /// As of `Machine::new`.
    fn new_machine<'p>(self, program: &'p Program, n: u32) -> Result<Machine<'p>, MachineFault>
        ensures image { IfOk result (λ machine. machine.image ≡ program.now) }
        ensures start { IfOk result (λ machine. machine.state ≡ start_of program.now n) }
        ensures count { IsErrOf result MachineFault.BadCount ↔ ((n ≡ 0) ⊎ (most_threads program.now.version < n)) }
        ensures other { IfErr result (λ fault. (fault ≡ MachineFault.BadCount) ⊎ (fault ≡ MachineFault.OutOfMemory)) }
        ensures growth { IsErrOf result MachineFault.OutOfMemory → refused self };

    /// A copy of the machine.
    ///
    /// # Errors
    ///
    /// `OutOfMemory` where an allocation failed.
    fn copy_machine<'p>(self, machine: &Machine<'p>) -> Result<Machine<'p>, MachineFault>
        ensures equal { IfOk result (λ copy. copy ≡ machine.now) }
        ensures other { IfErr result (λ fault. fault ≡ MachineFault.OutOfMemory) }
        ensures growth { OnErr result (refused self) };

    /// A copy of what is left of a machine.
    ///
    /// # Errors
    ///
    /// An allocation failed.
    fn copy_rest(self, rest: &Paused) -> Result<Paused, AllocError>
        ensures equal { IfOk result (λ copy. copy ≡ rest.now) }
        ensures growth { OnErr result (refused self) };

    /// `Machine::step` with this memory.
    ///
    /// # Errors
    ///
    /// As of `Machine::step`.
    fn step_machine(self, machine: &mut Machine<'_>, t: u32) -> Result<Reply, MachineFault>
        ensures step { IfOk result (λ reply. Step machine.old.image machine.old.state t reply machine.new.state) }
        ensures image { machine.new.image ≡ machine.old.image }
        ensures thread { IsErrOf result MachineFault.BadThread ↔ (length machine.old.state.threads ≤ t) }
        ensures memory { IsErrOf result MachineFault.OutOfMemory → MayWantMemory machine.old.image machine.old.state t }
        ensures growth { IsErrOf result MachineFault.OutOfMemory → refused self }
        ensures other { IfErr result (λ fault. (fault ≡ MachineFault.BadThread) ⊎ (fault ≡ MachineFault.OutOfMemory)) }
        ensures err { OnErr result (machine.new ≡ machine.old) };

    /// Makes capacity for so many more items.
    ///
    /// # Errors
    ///
    /// An allocation failed.
    fn reserve<T>(self, items: &mut Vec<T>, additional: usize) -> Result<(), AllocError>
        ensures items { items.new.items ≡ items.old.items }
        ensures ok { OnOk result (length items.new.items + additional ≤ vec_capacity items.new) }
        ensures capacity { vec_capacity items.old ≤ vec_capacity items.new }
        ensures succeeds { length items.old.items + additional ≤ vec_capacity items.old → IsOk result }
        ensures growth { OnErr result (refused self) };
}

/// The program's own: nothing is kept of what was refused.
impl Memory for Global {
    ghost refused = { λ _. Unit {0} };

    fn allocator(self) -> Global {
        self
    }

    fn new_machine<'p>(self, program: &'p Program, n: u32) -> Result<Machine<'p>, MachineFault> {
        Machine::new(self, program, n)
    }

    fn copy_machine<'p>(self, machine: &Machine<'p>) -> Result<Machine<'p>, MachineFault> {
        machine.try_copy(self)
    }

    fn copy_rest(self, rest: &Paused) -> Result<Paused, AllocError> {
        rest.try_copy(self)
    }

    fn step_machine(self, machine: &mut Machine<'_>, t: u32) -> Result<Reply, MachineFault> {
        machine.step(self, t)
    }

    fn reserve<T>(self, items: &mut Vec<T>, additional: usize) -> Result<(), AllocError> {
        items.reserve(additional)
    }
}
