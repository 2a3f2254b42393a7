//! The words of the command `debug`.

/// A move of the debugger.
#[derive(Clone, Copy, Debug, PartialEq, Eq)]
pub enum Move {
    /// `goto K`: to position K.
    Goto(u32),
    /// `forward`: to the next position.
    Forward,
    /// `back`: to the position before.
    Back,
    /// `next`: to the next stop.
    Next,
    /// `prev`: to the stop before.
    Previous,
}

/// What a word of the command `debug` asks for.
#[derive(Clone, Copy, Debug, PartialEq, Eq)]
pub enum DebugWord {
    /// A move.
    Move(Move),
    /// `break P`: makes the place P a breakpoint.
    Break(u32),
    /// `clear P`: makes it none.
    Clear(u32),
    /// `view`: shows the machine.
    View,
    /// `asks`: shows what threads ask for, and who is in their way.
    Asks,
    /// `stack`: shows the frames of the threads.
    Stack,
    /// `objects`: shows the objects.
    Objects,
}
