// Texts too long to stand in a file of cases.
use report::annex;
use std::alloc::Global;
use std::test::Fail;

// What is printed of a text of this many bytes, all the same but for those at odd places.
fn printed(heap: Global, len: usize, even: u8, odd: u8) -> Result<Vec<u8>, Fail> {
    let mut text = vec![in heap; even; len]?;
    for byte in text.iter_mut().skip(1).step_by(2) {
        *byte = odd;
    }
    let mut out = Vec::new(heap);
    annex(&mut out, text.as_slice())?;
    Ok(out)
}

#[test]
fn longest_and_longer(rt: HostRuntime) -> Result<(), Fail> {
    let heap = rt.alloc();
    let lines = printed(heap, 65_535, b'\n', b'\n')?;
    assert!(rt;
        lines.as_slice() == b"refused 24 65536 1\n".as_slice(),
        "the most lines"
    );
    let more = printed(heap, 65_536, b'\n', b'\n')?;
    assert!(rt;
        more.as_slice() == b"refused 4 0 0\n".as_slice(),
        "one more"
    );
    let tabs = printed(heap, 65_536, b'\t', b'\t')?;
    assert!(rt;
        tabs.as_slice() == b"refused 4 0 0\n".as_slice(),
        "length before bytes"
    );
    Ok(())
}

#[test]
fn one_long_line(rt: HostRuntime) -> Result<(), Fail> {
    let heap = rt.alloc();
    let words = printed(heap, 65_535, b'a', b' ')?;
    assert!(rt;
        words.as_slice() == b"refused 10 1 1\n".as_slice(),
        "the most words"
    );
    let spaces = printed(heap, 65_535, b' ', b' ')?;
    assert!(rt;
        spaces.as_slice() == b"refused 24 2 1\n".as_slice(),
        "no word"
    );
    let word = printed(heap, 65_535, b'a', b'a')?;
    assert!(rt;
        word.as_slice() == b"refused 2 1 1\n".as_slice(),
        "one word"
    );
    Ok(())
}
