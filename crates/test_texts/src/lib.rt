//! Comparisons for tests: the text of what was made with the text that is wanted.
//!
//! It depends on std alone, and has no tests. The crates of tests use it, so that the comparison is proved once, and a
//! test holds no text of its own. Begin at `says`.
#![tactic(auto)]

ghost use Rattle.std.specs.Prelude.{◌≡◌, IfOk, string_bytes};
ghost use Rattle.std.specs.Result.{IsOkAnd};

use std::test::Fail;

/// Fails unless `told` is the text `wanted`.
pub fn says(told: Result<String, Fail>, wanted: &str) -> Result<(), Fail>
    ensures { IfOk result (λ _. IsOkAnd told (λ text. string_bytes text ≡ wanted.now)) }
{
    row_says("told", told, wanted)
}

/// Compares as `says` does, for the row `name` of a table. The message on a different text begins with `name`.
pub fn row_says(name: &str, told: Result<String, Fail>, wanted: &str) -> Result<(), Fail>
    ensures { IfOk result (λ _. IsOkAnd told (λ text. string_bytes text ≡ wanted.now)) }
{
    let text = told?;
    if text.as_str() == wanted {
        return Ok(());
    }
    Err(Fail::new(format_args!("{name}: {text:?} in place of {wanted:?}")))
}
