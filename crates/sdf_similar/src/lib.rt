//! The name that is most like a misspelled word.
//!
//! It depends on `strsim` alone, so that words of the command line and of graph files are compared by one measure.
//! Begin at `nearest`; the definitions are in `specs/Similar.antt`.
#![tactic(auto)]

ghost use Rattle.std.specs.Prelude.{◌≡◌, IfOk, map, option_map};
ghost use Rattle.sdf_similar.specs.Similar.{edit_bound, fewest_edits, first_within, nearest};

use std::alloc::{AllocError, Global};
use strsim::levenshtein;

/// Returns the number of edits from which on a name is not like `word`.
fn bound_of(word: &str) -> usize
    ensures { result ≡ edit_bound word.now }
{
    word.len() / 3 + 2
}

/// Returns the fewest edits that lead from `word` to one of `names`, or `bound` if that is fewer.
fn fewest_edits(
    alloc: Global,
    names: &[&str],
    word: &str,
    bound: usize,
) -> Result<usize, AllocError>
    ensures { IfOk result (λ n. n ≡ fewest_edits word.now bound (map (λ name. name.now) names.now)) }
{
    let mut fewest = bound;
    for name in names {
        fewest = fewest.min(levenshtein(alloc, word, name)?);
    }
    Ok(fewest)
}

/// Returns the first of `names` within `edits` edits of `word`.
fn first_within<'a>(
    alloc: Global,
    names: &[&'a str],
    word: &str,
    edits: usize,
) -> Result<Option<&'a str>, AllocError>
    ensures { IfOk result (λ near. option_map (λ name. name.now) near ≡
        first_within word.now edits (map (λ name. name.now) names.now)) }
{
    for name in names {
        if levenshtein(alloc, word, name)? <= edits {
            return Ok(Some(*name));
        }
    }
    Ok(None)
}

/// Returns the first of `names` with the fewest edits from `word`, or `None` if that takes `word.len() / 3 + 2` edits
/// or more. An edit inserts, deletes or changes one character.
#[tactic(auto, unfolding(crate::specs::Similar::nearest))]
pub fn nearest<'a>(
    alloc: Global,
    names: &[&'a str],
    word: &str,
) -> Result<Option<&'a str>, AllocError>
    ensures { IfOk result (λ near. option_map (λ name. name.now) near ≡
        nearest word.now (map (λ name. name.now) names.now)) }
{
    let bound = bound_of(word);
    let edits = fewest_edits(alloc, names, word, bound)?;
    if edits < bound {
        first_within(alloc, names, word, edits)
    } else {
        Ok(None)
    }
}
