//! The machine at positions of a journal, and the checkpoints that a debugger keeps.
ghost use Rattle.std.specs.Prelude.{◌≡◌, ◌<◌, ◌≤◌, ◌+◌, ◌*◌, ◌^◌, [], ℕ, length, take, IfErr, IfOk, IsErrOf, OnErr, OnOk};
ghost use Rattle.asl_machine.specs.Paused.{IsRestOf};
ghost use Rattle.asl_machine.specs.Run.{IsThreadCount, start_of};
ghost use Rattle.asl_code.specs.Verified.{IsVerified};
ghost use Rattle.asl_journal.specs.Computed.{GoesBy};
ghost use Rattle.asl_journal.specs.Journal.{IsJournal, IsLog};
ghost use Rattle.asl_debugger.specs.Checkpoints.{AreCheckpoints, IsDebuggerState};
ghost use Rattle.asl_debugger.specs.Growing.{AreSoFar, HasOneMore};
ghost use Rattle.asl_debugger.specs.Opening.{IsOpenFault};
ghost use Rattle.asl_debugger.specs.Halts.{MayWantMemoryBefore};
ghost use Rattle.asl_debugger.specs.Computed.{machine_before, state_before};

use crate::fault::DebugFault;
use asl_code::Program;
use asl_journal::{Journal, JournalFault, Memory, run_on};
use asl_machine::{Machine, Paused};

/// The machine of which the checkpoint is left; the checkpoint stays.
pub fn machine_of<'p, M: Memory>(
    memory: M,
    program: &'p Program,
    checkpoint: &Paused,
) -> Result<Machine<'p>, DebugFault>
    requires { IsRestOf program.now checkpoint.now }
    ensures machine { IfOk result (λ machine. machine ≡ record { image = program.now; state = checkpoint.now.state }) }
    ensures memory { IfErr result (λ fault. fault ≡ DebugFault.OutOfMemory) }
    ensures growth { IsErrOf result DebugFault.OutOfMemory → M.refused memory }
{
    Ok(Machine::resume(program, memory.copy_rest(checkpoint)?))
}

/// The machine at position `end`, from the one at position `start`.
pub fn machine_between<'p, M: Memory>(
    memory: M,
    from: Machine<'p>,
    journal: &Journal,
    start: usize,
    end: usize,
) -> Result<Machine<'p>, DebugFault>
    requires from { from.state ≡ state_before from.image journal.now start }
    requires order { start ≤ end }
    requires within { end ≤ length journal.now.events }
    ensures machine { IfOk result (λ machine. machine ≡ machine_before from.entry.image journal.now end) }
    ensures goes { GoesBy from.entry.image (start_of from.entry.image journal.now.threads) (take start journal.now.events)
        → OnOk result (GoesBy from.entry.image (start_of from.entry.image journal.now.threads) (take end journal.now.events)) }
    ensures refused { IsVerified from.entry.image → IsThreadCount from.entry.image journal.now.threads
        → GoesBy from.entry.image (start_of from.entry.image journal.now.threads) (take start journal.now.events)
        → IfErr result (λ fault. IsOpenFault from.entry.image journal.now fault) }
    ensures only { IsJournal from.entry.image journal.now.threads journal.now.events
        → IfErr result (λ fault. fault ≡ DebugFault.OutOfMemory) }
    ensures growth { IsErrOf result DebugFault.OutOfMemory → M.refused memory }
{
    let events = journal.events();
    match run_on(memory, from, &events[start..end]) {
        Ok(machine) => Ok(machine),
        Err(JournalFault::Differs(index)) => Err(DebugFault::Differs(start as u32 + index)),
        Err(_) => Err(DebugFault::OutOfMemory),
    }
}

/// Makes the event at this position, from the machine there.
pub fn make_event<M: Memory>(
    memory: M,
    machine: &mut Machine<'_>,
    journal: &Journal,
    position: usize,
) -> Result<(), DebugFault>
    requires at { machine.old.state ≡ state_before machine.old.image journal.now position }
    requires there { position < length journal.now.events }
    ensures made { OnOk result (machine.new ≡ machine_before machine.old.image journal.now (position + 1)) }
    ensures memory { IfErr result (λ fault. fault ≡ DebugFault.OutOfMemory) }
    ensures wants { OnErr result (MayWantMemoryBefore machine.old.image journal.now position) }
    ensures err { OnErr result (machine.new ≡ machine.old) }
    ensures growth { OnErr result (M.refused memory) }
{
    let events = journal.events();
    memory.step_machine(machine, u32::from(events[position].thread))?;
    Ok(())
}

/// The checkpoints of the journal, and the machine at position 0, if the journal is one of the program.
pub fn prepared<'p, M: Memory>(
    memory: M,
    program: &'p Program,
    journal: &Journal,
    spacing: u32,
) -> Result<(Vec<Paused>, Machine<'p>), DebugFault>
    requires { 0 < spacing }
    ensures kept { IfOk result (λ parts. IsDebuggerState program.now journal.now spacing parts.0.items [] parts.1 0) }
    ensures refused { IfErr result (λ fault. IsOpenFault program.now journal.now fault) }
    ensures growth { IsErrOf result DebugFault.OutOfMemory → M.refused memory }
{
    let checkpoints = checkpoints_of(memory, program, journal, spacing)?;
    let machine = machine_of(memory, program, &checkpoints[0])?;
    Ok((checkpoints, machine))
}

/// The checkpoints of the journal, if it is one of the program: what is left of the machine at 0, the spacing, twice the spacing
/// and so on.
fn checkpoints_of<'p, M: Memory>(
    memory: M,
    program: &'p Program,
    journal: &Journal,
    spacing: u32,
) -> Result<Vec<Paused>, DebugFault>
    requires { 0 < spacing }
    ensures log { IsLog journal.now }
    ensures journal { OnOk result (IsJournal program.now journal.now.threads journal.now.events) }
    ensures each { IfOk result (λ checkpoints. AreCheckpoints program.now journal.now spacing checkpoints.items) }
    ensures enough { IfOk result (λ checkpoints. length journal.now.events < length checkpoints.items * spacing) }
    ensures none_past { IfOk result (λ checkpoints. length checkpoints.items * spacing ≤ length journal.now.events + spacing) }
    ensures refused { IfErr result (λ fault. IsOpenFault program.now journal.now fault) }
    ensures growth { IsErrOf result DebugFault.OutOfMemory → M.refused memory }
{
    let mut checkpoints = Vec::new(memory.allocator());
    match put_checkpoints(memory, program, journal, spacing, &mut checkpoints) {
        Ok(()) => Ok(checkpoints),
        Err(fault) => Err(fault),
    }
}

/// Follows the journal to its end, and puts its checkpoints into the empty list.
fn put_checkpoints<M: Memory>(
    memory: M,
    program: &Program,
    journal: &Journal,
    spacing: u32,
    checkpoints: &mut Vec<Paused>,
) -> Result<(), DebugFault>
    requires spaced { 0 < spacing }
    requires empty { checkpoints.old.items ≡ [] }
    ensures log { IsLog journal.now }
    ensures journal { OnOk result (IsJournal program.now journal.now.threads journal.now.events) }
    ensures each { OnOk result (AreCheckpoints program.now journal.now spacing checkpoints.new.items) }
    ensures enough { OnOk result (length journal.now.events < length checkpoints.new.items * spacing) }
    ensures none_past { OnOk result (length checkpoints.new.items * spacing ≤ length journal.now.events + spacing) }
    ensures refused { IfErr result (λ fault. IsOpenFault program.now journal.now fault) }
    ensures growth { IsErrOf result DebugFault.OutOfMemory → M.refused memory }
{
    let events = journal.events();
    let mut machine = first_checkpoint(memory, program, journal, checkpoints)?;
    let mut here = 0;
    while events.len() - here >= spacing as usize {
        machine = next_checkpoint(memory, machine, journal, here, spacing, checkpoints)?;
        here += spacing as usize;
    }
    let _end = machine_between(memory, machine, journal, here, events.len())?;
    Ok(())
}

/// The machine at position 0, if the program may start with so many threads, with the checkpoint there put into the empty list.
fn first_checkpoint<'p, M: Memory>(
    memory: M,
    program: &'p Program,
    journal: &Journal,
    checkpoints: &mut Vec<Paused>,
) -> Result<Machine<'p>, DebugFault>
    requires empty { checkpoints.old.items ≡ [] }
    ensures so_far { IfOk result (λ machine. (spacing : ℕ) → AreSoFar program.now journal.now spacing 0 machine checkpoints.new.items) }
    ensures verified { IsVerified program.now }
    ensures refused { IfErr result (λ fault. IsOpenFault program.now journal.now fault) }
    ensures growth { IsErrOf result DebugFault.OutOfMemory → M.refused memory }
{
    let machine = first_machine(memory, program, journal)?;
    put_checkpoint(memory, &machine, checkpoints)?;
    Ok(machine)
}

/// The machine at the next checkpoint after `here`, where the machine is, with this checkpoint put behind the others.
fn next_checkpoint<'p, M: Memory>(
    memory: M,
    from: Machine<'p>,
    journal: &Journal,
    here: usize,
    spacing: u32,
    checkpoints: &mut Vec<Paused>,
) -> Result<Machine<'p>, DebugFault>
    requires so_far { AreSoFar from.image journal.now spacing here from checkpoints.old.items }
    requires verified { IsVerified from.image }
    requires room { here + spacing ≤ length journal.now.events }
    requires fits { here + spacing < 2 ^ 64 }
    ensures so_far { IfOk result (λ machine. AreSoFar from.entry.image journal.now spacing (here + spacing) machine checkpoints.new.items) }
    ensures refused { IfErr result (λ fault. IsOpenFault from.entry.image journal.now fault) }
    ensures growth { IsErrOf result DebugFault.OutOfMemory → M.refused memory }
{
    let next = here + spacing as usize;
    let machine = machine_between(memory, from, journal, here, next)?;
    put_checkpoint(memory, &machine, checkpoints)?;
    Ok(machine)
}

/// Puts what is left of a copy of the machine behind the checkpoints.
fn put_checkpoint<M: Memory>(
    memory: M,
    machine: &Machine<'_>,
    checkpoints: &mut Vec<Paused>,
) -> Result<(), DebugFault>
    ensures put { OnOk result (HasOneMore machine.now checkpoints.old.items checkpoints.new.items) }
    ensures memory { IfErr result (λ fault. fault ≡ DebugFault.OutOfMemory) }
    ensures growth { OnErr result (M.refused memory) }
{
    let checkpoint = rest_of(memory, machine)?;
    memory.reserve(checkpoints, 1)?;
    checkpoints.push_reserved(checkpoint);
    Ok(())
}

/// What is left of a copy of the machine.
pub fn rest_of<M: Memory>(memory: M, machine: &Machine<'_>) -> Result<Paused, DebugFault>
    ensures fits { IfOk result (IsRestOf machine.now.image) }
    ensures state { IfOk result (λ checkpoint. checkpoint.state ≡ machine.now.state) }
    ensures memory { IfErr result (λ fault. fault ≡ DebugFault.OutOfMemory) }
    ensures growth { OnErr result (M.refused memory) }
{
    Ok(memory.copy_machine(machine)?.pause())
}

/// The machine at position 0, if the program may start with so many threads.
fn first_machine<'p, M: Memory>(
    memory: M,
    program: &'p Program,
    journal: &Journal,
) -> Result<Machine<'p>, DebugFault>
    ensures machine { IfOk result (λ machine. machine ≡ machine_before program.now journal.now 0) }
    ensures counted { OnOk result (IsThreadCount program.now journal.now.threads) }
    ensures verified { IsVerified program.now }
    ensures refused { IfErr result (λ fault. IsOpenFault program.now journal.now fault) }
    ensures growth { IsErrOf result DebugFault.OutOfMemory → M.refused memory }
{
    // A program is verified.
    program.version();
    Ok(memory.new_machine(program, journal.threads())?)
}
