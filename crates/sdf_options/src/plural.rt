//! The plural of a noun behind a number.

ghost use Rattle.std.specs.Prelude.{◌≡◌, ◌==◌, [], codes, if◌then◌else◌};

/// Returns the ending of a noun for `count` things: empty for one, and `s` for any other number.
pub fn plural(count: u64) -> &'static str
    ensures { result.now ≡ if count == 1 then [] else codes "s" }
{
    if count == 1 { "" } else { "s" }
}
