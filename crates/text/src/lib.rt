// Reads a scheme text into the scheme record.
//
// fault      what can be wrong with a scheme
// candidate  a line that is to be added to what the lines above it declare
// names      its names and values against what the lines above declare
// meaning    what a word of a line stands for by itself
// declare    what a line without a fault adds
// reader     what is read so far, and one line more
// read       a whole text
#![tactic(auto)]

pub(crate) mod candidate;
pub(crate) mod declare;
pub mod fault;
pub(crate) mod meaning;
pub(crate) mod names;
pub mod read;
pub(crate) mod reader;
