// Lines of words, at the end of a vector of bytes. An error says that the vector had too little room and
// that no memory came.
//
// bytes  bytes at the end of a vector
// words  names and numbers, as the words of a line
// lines  a line of words
#![tactic(auto)]

mod bytes;
pub mod lines;
pub mod words;

pub use lines::put_line;
pub use words::Word;
