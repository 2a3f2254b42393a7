//! The search for stops, on copies of machines.
ghost use Rattle.std.specs.Prelude.{◌≡◌, ◌<◌, ◌≤◌, ◌*◌, length, IfErr, IfOk, OnErr};

use crate::checkpoints::make_event;
use crate::debugger::Debugger;
use crate::fault::DebugFault;
use crate::stops::is_at_break;
use asl_journal::Memory;
use asl_machine::Machine;

impl<'p> Debugger<'p> {
    ghost use Rattle.asl_debugger.specs.Search.{IsFound};
    ghost use Rattle.asl_debugger.specs.Halts.{IsNextHalt, IsLastHalt};
    ghost use Rattle.asl_debugger.specs.Computed.{machine_before};

    /// The least later stop, or the end, and the machine there.
    pub(crate) fn next_stop<M: Memory>(&self, memory: M) -> Result<(Machine<'p>, u32), DebugFault>
        requires { self.now.position < length self.now.log.events }
        ensures stop { IfOk result (λ found. IsNextHalt self.now found.1) }
        ensures machine { IfOk result (λ found. found.0 ≡ machine_before self.now.image self.now.log found.1) }
        ensures memory { IfErr result (λ fault. fault ≡ DebugFault.OutOfMemory) }
        ensures growth { OnErr result (M.refused memory) }
    {
        let mut machine = memory.copy_machine(&self.machine)?;
        match self.to_next_stop(memory, &mut machine) {
            Ok(position) => Ok((machine, position)),
            Err(fault) => Err(fault),
        }
    }

    /// Brings a copy of the machine to the least later stop, or to the end, and says where that is.
    fn to_next_stop<M: Memory>(
        &self,
        memory: M,
        machine: &mut Machine<'_>,
    ) -> Result<u32, DebugFault>
        requires before { self.now.position < length self.now.log.events }
        requires at { machine.old ≡ machine_before self.now.image self.now.log self.now.position }
        ensures stop { IfOk result (IsNextHalt self.now) }
        ensures machine { IfOk result (λ found. machine.new ≡ machine_before self.now.image self.now.log found) }
        ensures memory { IfErr result (λ fault. fault ≡ DebugFault.OutOfMemory) }
        ensures growth { OnErr result (M.refused memory) }
    {
        let events = self.journal.events();
        let mut position = self.position as usize;
        make_event(memory, machine, &self.journal, position)?;
        position += 1;
        while position < events.len() {
            if is_at_break(
                machine,
                events[position].thread,
                self.breakpoints.as_slice(),
            ) {
                break;
            }
            make_event(memory, machine, &self.journal, position)?;
            position += 1;
        }
        Ok(position as u32)
    }

    /// The greatest earlier stop, or the start: the stretches between checkpoints and marks are searched one by one, the last
    /// first.
    pub(crate) fn last_stop<M: Memory>(&self, memory: M) -> Result<u32, DebugFault>
        requires { 0 < self.now.position }
        ensures stop { IfOk result (λ found. IsLastHalt self.now found) }
        ensures memory { IfErr result (λ fault. fault ≡ DebugFault.OutOfMemory) }
        ensures growth { OnErr result (M.refused memory) }
    {
        let mut until = self.position;
        while until > 0 {
            let (from, start) = self.nearest(memory, until - 1)?;
            match self.last_within(memory, from, start, until)? {
                Some(stop) => return Ok(stop),
                None => until = start,
            }
        }
        Ok(0)
    }

    /// The greatest stop from `start` on and before `until`, if there is one. The machine is the one at `start`.
    fn last_within<M: Memory>(
        &self,
        memory: M,
        from: Machine<'p>,
        start: u32,
        until: u32,
    ) -> Result<Option<u32>, DebugFault>
        requires from { from ≡ machine_before self.now.image self.now.log start }
        requires order { start ≤ until }
        requires within { until ≤ length self.now.log.events }
        ensures stop { IfOk result (λ found. IsFound self.now start until found) }
        ensures memory { IfErr result (λ fault. fault ≡ DebugFault.OutOfMemory) }
        ensures growth { OnErr result (M.refused memory) }
    {
        let mut machine = from;
        self.search_within(memory, &mut machine, start, until)
    }

    /// The greatest stop from `start` on and before `until`, if there is one. The machine at `start` is brought to `until`.
    fn search_within<M: Memory>(
        &self,
        memory: M,
        machine: &mut Machine<'_>,
        start: u32,
        until: u32,
    ) -> Result<Option<u32>, DebugFault>
        requires from { machine.old ≡ machine_before self.now.image self.now.log start }
        requires order { start ≤ until }
        requires within { until ≤ length self.now.log.events }
        ensures stop { IfOk result (λ found. IsFound self.now start until found) }
        ensures memory { IfErr result (λ fault. fault ≡ DebugFault.OutOfMemory) }
        ensures growth { OnErr result (M.refused memory) }
    {
        let mut found = None;
        for k in start..until {
            let thread = self.journal.events()[k as usize].thread;
            if is_at_break(machine, thread, self.breakpoints.as_slice()) {
                found = Some(k);
            }
            make_event(memory, machine, &self.journal, k as usize)?;
        }
        Ok(found)
    }
}
