// What comes of bytes in memory, and of a read that fails on the way.
use crate::read_up_to;
use std::io;
use std::io::Read;
use std::test::Fail;

#[test]
fn bytes_in_memory(rt: HostRuntime) -> Result<(), Fail> {
    let mut buffer = [0u8; 4];
    let mut input: &[u8] = b"abcdef";
    let first = read_up_to(&mut input, &mut buffer)?;
    assert!(rt; first == b"abcd".as_slice(), "as many as fit");
    let rest = read_up_to(&mut input, &mut buffer)?;
    assert!(rt; rest == b"ef".as_slice(), "the others");
    let none = read_up_to(&mut input, &mut buffer)?;
    assert!(rt; none.is_empty(), "no more");
    Ok(())
}

// Gives one byte, and fails at every read after that.
#[derive(Drop)]
struct Broken {
    has_read: bool,
}

impl Read for Broken {
    fn read(&mut self, buf: &mut [u8]) -> io::Result<usize> {
        match buf.first_mut() {
            Some(byte) if !self.has_read => {
                *byte = b'a';
                self.has_read = true;
                Ok(1)
            }
            _ => Err(io::Error::from(io::ErrorKind::BrokenPipe)),
        }
    }
}

#[test]
fn failure_on_the_way(rt: HostRuntime) {
    let mut buffer = [0u8; 4];
    let mut input = Broken { has_read: false };
    let failed = read_up_to(&mut input, &mut buffer).is_err();
    assert!(rt; failed, "the error is answered, and not the byte before it");
}
