//! Tests of what no clause says about designs and the files that they are made of. Documents and coefficient files are
//! read, and their faults have their places. Taps match the formulas, splits are cheap, and designs that convert
//! between usual rates are accepted. The texts of designs and of faults are right.
//!
//! It depends on `sdf_filters`, on `sdf_document` and `sdf_file`, which read the designs, on `sdf_texts`, which
//! describes them, and on `test_texts`. It has no functions outside its tests: a crate's functions are proved once
//! more with its tests, so tests are in a crate of their own. Begin at `documents` and `designs`, or for filters at
//! `taps`. `plain_taps` computes in the plainest way what `sdf_filters` computes in a quicker one. `tap_rows` compares
//! the two on rows of filters and on filters from `made`. `plain_levels` and `plain_splits` do both.
#![tactic(auto)]

#[cfg(test)]
mod coefficient_files;
#[cfg(test)]
mod converters;
#[cfg(test)]
mod designs;
#[cfg(test)]
mod document_formats;
#[cfg(test)]
mod documents;
#[cfg(test)]
mod made;
#[cfg(test)]
mod plain_levels;
#[cfg(test)]
mod plain_splits;
#[cfg(test)]
mod plain_taps;
#[cfg(test)]
mod rates;
#[cfg(test)]
mod readings;
#[cfg(test)]
mod rounds;
#[cfg(test)]
mod stages;
#[cfg(test)]
mod tap_rows;
#[cfg(test)]
mod taps;
#[cfg(test)]
mod texts;
#[cfg(test)]
mod wide_converters;
