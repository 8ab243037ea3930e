use crate::{InputFault, read_all, write_all};
use port_io::{Failed, MemSink, MemSource};
use std::alloc::Global;
use std::test::Fail;

const TEXT: &str = "askrene";

// Reads the text in pieces of 3 bytes from a source whose listed calls fail.
fn reads(alloc: Global, limit: usize, fails: &[u64]) -> Result<Result<Vec<u8>, InputFault>, Fail> {
    let mut source = MemSource::new(TEXT.as_bytes().to_vec(alloc)?, 3, fails.to_vec(alloc)?);
    Ok(read_all(alloc, &mut source, limit))
}

#[test]
fn texts_are_read(rt: HostRuntime) -> Result<(), Fail> {
    let alloc = rt.alloc();
    assert!(rt; reads(alloc, 7, &[])?.is_ok_and(|bytes| bytes.as_slice() == TEXT.as_bytes()));
    assert!(rt; reads(alloc, 6, &[])?.is_err_and(|fault| fault == InputFault::Long));
    assert!(rt; reads(alloc, 7, &[3])?.is_err_and(|fault| fault == InputFault::Failed));
    Ok(())
}

#[test]
fn texts_are_written(rt: HostRuntime) -> Result<(), Fail> {
    let alloc = rt.alloc();
    let mut sink = MemSink::new(alloc, 3, Vec::new(alloc));
    sink.reserve(16)?;
    assert!(rt; write_all(&mut sink, TEXT.as_bytes()) == Ok(()));
    assert!(rt; sink.bytes() == TEXT.as_bytes());
    let mut failing = MemSink::new(alloc, 3, vec![in alloc; 1]?);
    failing.reserve(16)?;
    assert!(rt; write_all(&mut failing, TEXT.as_bytes()) == Err(Failed));
    assert!(rt; failing.bytes() == b"ask".as_slice());
    Ok(())
}
