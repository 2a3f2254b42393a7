//! What a text is to be like, besides its program.

/// A function of the program that has a name of its own in C.
#[derive(Drop)]
pub struct Extern {
    /// The number of the program's function.
    pub function: u16,
    /// Its name in C.
    pub name: String,
}

/// What a text is to be like, besides its program.
#[derive(Drop)]
pub struct Options {
    /// Whether the runtime is asked at each access whether it is covered or fresh.
    pub checks: bool,
    /// The functions in whose place C functions are called, with the names of these.
    pub externs: Vec<Extern>,
    /// The functions that C may call, with the names by which it does.
    pub entries: Vec<Extern>,
    /// The names of the functions in the source, by number, as far as they are known.
    pub names: Vec<String>,
    /// The names of the locals of each function, in the order of their registers, as far as they are known.
    pub locals: Vec<Vec<String>>,
}
