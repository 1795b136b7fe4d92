//! The keys of the rows, and their names.

ghost use Rattle.std.specs.Prelude.{◌≡◌, Some};
ghost use Rattle.sdf_kinds.specs.Keys.{key_name};

use std::fmt;

/// A key of an actor's table in a design file.
#[derive(Debug, Clone, Copy, PartialEq, Eq)]
pub enum Key {
    Channel,
    Block,
    Up,
    Down,
    Shift,
    Taps,
    Factor,
    Ways,
    Gain,
    Length,
    Offset,
    Values,
    Run,
    Least,
    Greatest,
    Value,
    Processor,
    Cost,
}

impl Key {
    /// Returns the key's name in design files.
    pub fn name(self) -> &'static str
        ensures { result.now ≡ key_name self }
    {
        match self {
            Key::Channel => "channel",
            Key::Block => "block",
            Key::Up => "up",
            Key::Down => "down",
            Key::Shift => "shift",
            Key::Taps => "taps",
            Key::Factor => "factor",
            Key::Ways => "ways",
            Key::Gain => "gain",
            Key::Length => "length",
            Key::Offset => "offset",
            Key::Values => "values",
            Key::Run => "run",
            Key::Least => "least",
            Key::Greatest => "greatest",
            Key::Value => "value",
            Key::Processor => "processor",
            Key::Cost => "cost",
        }
    }
}

impl fmt::Display for Key {
    ghost output = { λ key. Some (key_name key) };

    fn fmt<W: fmt::Write>(&self, f: &mut fmt::Formatter<W>) -> fmt::Result {
        f.write_str(self.name())
    }
}
