//! The words that the program was started with.

ghost use Rattle.std.specs.Prelude.{ℕ, IfOk, IfErr, IfSome};
ghost use Rattle.std.specs.Result.{IsErr};
ghost use Rattle.sdf_options.specs.Limits.{IsUsage};
ghost use Rattle.sdf_cli.specs.Limits.{IsWithinLimits};

use crate::command_line::words;
use crate::requests::Words;
use sdf_options::{WordFault, usage_error};
use std::alloc::Global;
use std::env::{Env, FillError};

/// The arguments that a program was started with.
#[derive(Drop)]
pub struct Arguments {
    /// The words, except those that are not UTF-8.
    pub words: Vec<String>,
    /// The number of the first word that is not UTF-8. The program's name has the number 0.
    pub unread: Option<usize>,
}

/// Returns the usage error for the word `number`, which is not UTF-8.
fn utf8_fault(alloc: Global, number: usize) -> WordFault
    ensures { IsUsage result }
{
    match format!(in alloc; "argument {number} is not UTF-8") {
        Ok(text) => usage_error(alloc, text.as_str()),
        Err(_) => WordFault::OutOfMemory,
    }
}

impl Arguments {
    /// Parses `line`, which has the words of `self`. A word that is not UTF-8 is a usage error.
    pub fn read<'a>(&self, alloc: Global, line: &'a [&'a str]) -> Result<Words<'a>, WordFault>
        ensures unread { IfSome self.now.unread (λ (number : ℕ). IsErr result) }
        ensures within { IfOk result IsWithinLimits }
        ensures usage { IfErr result IsUsage }
    {
        match self.unread {
            Some(number) => Err(utf8_fault(alloc, number)),
            None => words(alloc, line),
        }
    }
}

/// Returns the bytes of the argument `number`, if there is one. The buffer doubles until it is large enough.
fn argument(env: &impl Env, alloc: Global, number: usize) -> Result<Option<Vec<u8>>, WordFault> {
    let mut bytes = Vec::new(alloc);
    let mut room = 256usize;
    for _ in 0..usize::BITS {
        bytes.resize(room, 0)?;
        match env.arg(number, &mut bytes) {
            Ok(len) => {
                bytes.truncate(len);
                return Ok(Some(bytes));
            }
            Err(FillError::NotPresent) => return Ok(None),
            Err(FillError::TooLong) => room = room.saturating_mul(2),
        }
    }
    Err(WordFault::OutOfMemory)
}

/// Returns the words that the program was started with, its own name first.
pub fn read_arguments(env: &impl Env, alloc: Global) -> Result<Arguments, WordFault> {
    let mut arguments = Arguments {
        words: Vec::new(alloc),
        unread: None,
    };
    for number in 0..usize::MAX {
        let Some(bytes) = argument(env, alloc, number)? else {
            break;
        };
        match String::from_utf8(bytes) {
            Ok(word) => arguments.words.push(word)?,
            Err(_) if arguments.unread.is_none() => arguments.unread = Some(number),
            Err(_) => {}
        }
    }
    Ok(arguments)
}
