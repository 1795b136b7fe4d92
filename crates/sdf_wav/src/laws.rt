//! Laws of the definitions, beyond the contracts of the crate's calls.

ghost use Rattle.sdf_wav.specs.Laws.{CanonicalIsWav, FilesAreCanonical, PutsJoin, FilesOpen, FilesOpenAs, PiecesGoOn};
ghost use Rattle.sdf_wav.specs.Laws.{FewEnd, PiecesEnd, PiecesFall, SomeOutcome, OneSound, OneFault, NotBoth};

/// States that the canonical file of a sound is a file of that sound, with nothing behind it.
pub fn canonical_is_wav()
    ensures { CanonicalIsWav }
{}

/// States that the canonical file of whole frames is the file of a sound, whatever numbers its samples are.
pub fn files_are_canonical()
    ensures { FilesAreCanonical }
{}

/// States that samples written in turn are written as one list, so the pieces behind a header are a file.
pub fn puts_join()
    ensures { PutsJoin }
{}

/// States that a file opens with its sound's format, and that a size that is filled in is the size of its samples. It
/// then states four facts of pieces that are read in turn and joined. They are the samples of the content that is gone.
/// Fewer frames than were asked for come only at the end. At the end the input is a file of them. A fault among them is
/// a fault of the input.
pub fn pieces_join()
    ensures opens { FilesOpen }
    ensures announces { FilesOpenAs }
    ensures goes_on { PiecesGoOn }
    ensures few { FewEnd }
    ensures ends { PiecesEnd }
    ensures falls { PiecesFall }
{}

/// States that every input is a file of one sound with one rest, or has one fault, and never both.
pub fn one_outcome()
    ensures some { SomeOutcome }
    ensures one_sound { OneSound }
    ensures one_fault { OneFault }
    ensures not_both { NotBoth }
{}
