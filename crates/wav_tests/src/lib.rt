//! Tests of what no contract says of WAV files: whole, in pieces, damaged, and over devices that fail.
//!
//! It depends on `sdf_wav`, `test_devices` and `test_texts`, and has no functions. Tests are in a crate of their own,
//! since a crate's functions are proved once more with its tests. Begin at `wav_files`.
#![tactic(auto)]

#[cfg(test)]
mod chunk_pieces;
#[cfg(test)]
mod wav_answers;
#[cfg(test)]
mod wav_damaged;
#[cfg(test)]
mod wav_devices;
#[cfg(test)]
mod wav_files;
#[cfg(test)]
mod wav_pieces;
