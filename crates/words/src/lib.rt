// From the bytes of a text to words and tokens that borrow them.
//
// position  lines and words, each with its place in the text
// cut       the lines of a text and the words of a line, in turn
// token     a word by its form
// classify  which form a word has, and so which token it is
// fault     what can be wrong with the words of a line
// checks    the search for such a fault
#![tactic(auto)]

pub mod checks;
pub mod classify;
pub mod cut;
pub mod fault;
pub mod position;
pub mod token;
