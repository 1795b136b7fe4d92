//! What the commands work with.

ghost use Rattle.std.specs.Prelude.{◌≡◌, ◌||◌, ◌&&◌, not};

use std::env::Env;

/// The word for standard input in place of IN, and for standard output in place of OUT.
pub const STANDARD: &str = "-";

/// What the commands work with. The threads run workers and the files of a batch, and provide the memory and the clock.
#[derive_where(Clone, Copy)]
pub struct World<'a, S, T> {
    pub storage: &'a S,
    pub threads: &'a T,
    /// The most bytes of a graph file, a coefficient file or the IN of `profile`.
    pub most: u32,
    /// Whether standard error is a terminal.
    pub terminal: bool,
    /// Whether that terminal does not know escape sequences.
    pub dumb: bool,
    /// Whether diagnostics and reports are printed even if standard error is not a terminal.
    pub why: bool,
}

impl<S, T> World<'_, S, T> {
    /// Checks whether diagnostics and reports are printed, unless the command line says otherwise.
    pub fn is_verbose(&self) -> bool
        ensures { result ≡ (self.now.terminal || self.now.why) }
    {
        self.terminal || self.why
    }

    /// Checks whether standard error can show the progress of a run on one line.
    pub fn can_show_progress(&self) -> bool
        ensures { result ≡ (self.now.terminal && not self.now.dumb) }
    {
        self.terminal && !self.dumb
    }
}

/// Checks whether the variable `name` of the environment is set to `value`, a short one.
pub fn is_variable(environment: &impl Env, name: &str, value: &str) -> bool {
    let mut bytes = [0; 16];
    match environment.var(name, &mut bytes) {
        Ok(count) => &bytes[..count] == value.as_bytes(),
        Err(_) => false,
    }
}
