//! Moves: the way to a position from the nearest copy of the machine before it.
ghost use Rattle.std.specs.Prelude.{◌≡◌, ◌<◌, ◌≤◌, length, IfErr, IfOk, IsOk, OnErr, OnOk};

use crate::checkpoints::{machine_between, machine_of};
use crate::debugger::Debugger;
use crate::fault::DebugFault;
use crate::trail::{keep_marks, last_mark, machine_by_marks};
use asl_journal::Memory;
use asl_machine::Machine;

impl<'p> Debugger<'p> {
    ghost use Rattle.asl_debugger.specs.Computed.{machine_before};
    ghost use Rattle.asl_debugger.specs.Session.{moved};

    /// Goes to position k; where it is there, nothing is done. A move back leaves marks on its way, and keeps no others than those between
    /// the checkpoint before k and k.
    pub(crate) fn show<M: Memory>(&mut self, memory: M, k: u32) -> Result<(), DebugFault>
        requires { k ≤ length self.old.log.events }
        ensures moves { OnOk result (self.new ≡ moved self.old k) }
        ensures here { k ≡ self.old.position → IsOk result }
        ensures memory { IfErr result (λ fault. fault ≡ DebugFault.OutOfMemory) }
        ensures growth { OnErr result (M.refused memory) }
        ensures err { OnErr result (self.new ≡ self.old) }
    {
        if k == self.position {
            return Ok(());
        }
        if k < self.position {
            return self.go_back(memory, k);
        }
        self.go_on(memory, k)
    }

    /// Goes to position k, from the nearest copy before it.
    fn go_on<M: Memory>(&mut self, memory: M, k: u32) -> Result<(), DebugFault>
        requires { k ≤ length self.old.log.events }
        ensures moves { OnOk result (self.new ≡ moved self.old k) }
        ensures memory { IfErr result (λ fault. fault ≡ DebugFault.OutOfMemory) }
        ensures growth { OnErr result (M.refused memory) }
        ensures err { OnErr result (self.new ≡ self.old) }
    {
        let (machine, here) = self.nearest(memory, k)?;
        let machine = machine_between(memory, machine, &self.journal, here as usize, k as usize)?;
        self.machine = machine;
        self.position = k;
        Ok(())
    }

    /// Goes back to position k.
    fn go_back<M: Memory>(&mut self, memory: M, k: u32) -> Result<(), DebugFault>
        requires { k < self.old.position }
        ensures moves { OnOk result (self.new ≡ moved self.old k) }
        ensures memory { IfErr result (λ fault. fault ≡ DebugFault.OutOfMemory) }
        ensures growth { OnErr result (M.refused memory) }
        ensures err { OnErr result (self.new ≡ self.old) }
    {
        let (machine, here) = self.nearest(memory, k)?;
        keep_marks(&mut self.marks, k - k % self.spacing, k);
        let machine = machine_by_marks(memory, machine, &self.journal, &mut self.marks, here, k)?;
        self.machine = machine;
        self.position = k;
        Ok(())
    }

    /// A copy of the machine at a position that is not past k, and this position: that of the machine that is shown, or of a mark, if
    /// one stands between the checkpoint before k and k, and else of this checkpoint.
    pub(crate) fn nearest<M: Memory>(
        &self,
        memory: M,
        k: u32,
    ) -> Result<(Machine<'p>, u32), DebugFault>
        requires { k ≤ length self.now.log.events }
        ensures machine { IfOk result (λ found. found.0 ≡ machine_before self.now.image self.now.log found.1) }
        ensures before { IfOk result (λ found. found.1 ≤ k) }
        ensures memory { IfErr result (λ fault. fault ≡ DebugFault.OutOfMemory) }
        ensures growth { OnErr result (M.refused memory) }
    {
        let number = k / self.spacing;
        let start = number * self.spacing;
        if start <= self.position && self.position <= k {
            let machine = memory.copy_machine(&self.machine)?;
            return Ok((machine, self.position));
        }
        let program = self.machine.program();
        match last_mark(self.marks.as_slice(), start, k) {
            Some(index) => {
                let mark = &self.marks[index];
                let machine = machine_of(memory, program, &mark.rest)?;
                Ok((machine, mark.position))
            }
            None => {
                let checkpoint = &self.checkpoints[number as usize];
                let machine = machine_of(memory, program, checkpoint)?;
                Ok((machine, start))
            }
        }
    }
}
