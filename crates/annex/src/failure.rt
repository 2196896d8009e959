// What can go wrong in the program, as sentences for its user.
use std::alloc::AllocError;
use std::error::Error;
use std::{fmt, io};

#[derive(Clone, Copy, Debug)]
pub enum Failure {
    Arguments,
    Input(io::Error),
    Memory,
    Output(io::Error),
}

impl fmt::Display for Failure {
    fn fmt<W: fmt::Write>(&self, f: &mut fmt::Formatter<W>) -> fmt::Result {
        match self {
            Failure::Arguments => f.write_str(
                "no argument is taken; a scheme text is read from standard input\nusage: annex < TEXT",
            ),
            Failure::Input(error) => write!(f, "the input could not be read: {error}"),
            Failure::Memory => f.write_str("there was not enough memory for the report"),
            Failure::Output(error) => write!(f, "the report could not be written: {error}"),
        }
    }
}

impl Error for Failure {}

impl From<AllocError> for Failure {
    fn from(_error: AllocError) -> Failure {
        Failure::Memory
    }
}
