// Arguments are refused, an empty one too; and what goes wrong is told in sentences.
use crate::failure::Failure;
use crate::refuse_arguments;
use std::env::FillError;
use std::io;
use std::rt::Env;
use std::test::Fail;

// How a program was started: what its first argument is.
#[derive(Clone, Copy)]
enum Started {
    WithNone,
    WithAnEmptyOne,
    WithALongOne,
}

impl Env for Started {
    fn arg(&self, i: usize, _buf: &mut [u8]) -> Result<usize, FillError> {
        match self {
            Started::WithNone if i < 1 => Ok(0),
            Started::WithAnEmptyOne if i < 2 => Ok(0),
            Started::WithALongOne if i < 2 => Err(FillError::TooLong),
            _ => Err(FillError::NotPresent),
        }
    }

    fn var(&self, _name: &str, _buf: &mut [u8]) -> Result<usize, FillError> {
        Err(FillError::NotPresent)
    }

    fn var_at(&self, _i: usize, _buf: &mut [u8]) -> Result<usize, FillError> {
        Err(FillError::NotPresent)
    }
}

#[test]
fn arguments(rt: HostRuntime) {
    assert!(rt; refuse_arguments(&Started::WithNone).is_ok(), "none");
    for started in [Started::WithAnEmptyOne, Started::WithALongOne] {
        let refused = refuse_arguments(&started);
        assert!(rt; matches!(refused, Err(Failure::Arguments)), "one");
    }
}

#[test]
fn sentences(rt: HostRuntime) -> Result<(), Fail> {
    let heap = rt.alloc();
    let broken = io::Error::from(io::ErrorKind::BrokenPipe);
    let input = format!(in heap; "{}", Failure::Input(broken))?;
    assert!(rt;
        input.as_str() == "the input could not be read: broken pipe",
        "reading"
    );
    let output = format!(in heap; "{}", Failure::Output(broken))?;
    assert!(rt;
        output.as_str() == "the report could not be written: broken pipe",
        "writing"
    );
    let memory = format!(in heap; "{}", Failure::Memory)?;
    assert!(rt;
        memory.as_str() == "there was not enough memory for the report",
        "memory"
    );
    let arguments = format!(in heap; "{}", Failure::Arguments)?;
    assert!(rt;
        arguments.as_str()
            == "no argument is taken; a scheme text is read from standard input\nusage: annex < TEXT",
        "arguments"
    );
    Ok(())
}
