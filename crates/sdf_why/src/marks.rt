//! The parts of a text before and behind a mark.

ghost use Rattle.std.specs.Prelude.{◌≡◌, ◌<◌};
ghost use Rattle.sdf_why.specs.Marks.{before, after_mark, has_mark};

/// Returns the part of `text` before the first `mark`, or all of it if there is none.
#[tactic(auto, using(std::proofs::lemmas::Str::Pattern::split_once_first), unfolding(crate::specs::Marks::before))]
pub(crate) fn before(text: &str, mark: char) -> &str
    requires { mark < 128 }
    ensures { result.now ≡ before mark text.now }
{
    match text.split_once(mark) {
        Some((front, _)) => front,
        None => text,
    }
}

/// Returns the part of `text` behind the first `mark`, or nothing if there is none.
#[tactic(auto, using(std::proofs::lemmas::Str::Pattern::split_once_first), unfolding(crate::specs::Marks::after_mark))]
pub(crate) fn after_mark(text: &str, mark: char) -> &str
    requires { mark < 128 }
    ensures { result.now ≡ after_mark mark text.now }
{
    match text.split_once(mark) {
        Some((_, rest)) => rest,
        None => "",
    }
}

/// Checks whether `text` has the `mark`.
#[tactic(auto, using(std::proofs::lemmas::Str::Pattern::split_once_first), unfolding(crate::specs::Marks::has_mark))]
pub(crate) fn has_mark(text: &str, mark: char) -> bool
    requires { mark < 128 }
    ensures { result ≡ has_mark mark text.now }
{
    text.split_once(mark).is_some()
}
