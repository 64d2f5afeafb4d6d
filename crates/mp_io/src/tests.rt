//! What the adapters read and write, also in pieces and up to a fault, and the forms in memory once on their happy
//! path.

mod pieces;

use crate::errors::{ReadError, WriteError};
use crate::folder::Folder;
use crate::host::{HostFolder, HostOut, read_whole};
use crate::memory::{MemFolder, MemSink};
use crate::sink::Sink;
use crate::tests::pieces::{Output, Pieces};
use std::alloc::{AllocError, Global};
use std::fs;
use std::test::Fail;

/// 10,000 bytes, which are more than two pieces of a read.
fn many(alloc: Global) -> Result<Vec<u8>, AllocError> {
    let mut bytes = Vec::new(alloc);
    for number in 0..10_000u32 {
        bytes.push((number % 251) as u8)?;
    }
    Ok(bytes)
}

/// A front of some bytes.
fn front(bytes: &[u8], len: usize) -> &[u8] {
    &bytes[..len.min(bytes.len())]
}

#[test]
fn reads_a_real_file_whole(rt: HostRuntime) -> Result<(), Fail> {
    let alloc = rt.alloc();
    let wanted = many(alloc)?;
    fs::write(&rt, "anamp-host-test", wanted.as_slice())?;
    let mut folder = HostFolder::make(&rt);
    let read = folder.read(alloc, "anamp-host-test", 10_000);
    let longer = folder.read(alloc, "anamp-host-test", 9_999);
    let faults = folder.faults();
    let missing = folder.read(alloc, "anamp-no-such-file", 10_000);
    fs::remove_file(&rt, "anamp-host-test")?;
    match read {
        Ok(bytes) => assert_eq!(rt; bytes.as_slice(), wanted.as_slice()),
        Err(_) => assert!(rt; false),
    }
    assert!(rt; matches!(longer, Err(ReadError::TooLong)));
    assert_eq!(rt; faults, 0);
    assert!(rt; matches!(missing, Err(ReadError::Failed)));
    assert_eq!(rt; folder.faults(), 1);
    Ok(())
}

#[test]
fn writes_to_standard_output(rt: HostRuntime) -> Result<(), Fail> {
    let mut out = HostOut::make(&rt);
    let put = out.put(b"written by HostOut\n");
    assert!(rt; put.is_ok());
    assert_eq!(rt; out.faults(), 0);
    Ok(())
}

#[test]
fn reads_in_pieces(rt: HostRuntime) -> Result<(), Fail> {
    let alloc = rt.alloc();
    let bytes = many(alloc)?;
    // The length of a piece, the call that fails, the limit, the answer, and how many bytes were given.
    let cases = [
        (1, 0, 10_000, Ok(()), 10_000),
        (4_095, 0, 10_000, Ok(()), 10_000),
        (20_000, 0, 12_000, Ok(()), 10_000),
        (1_000, 0, 9_999, Err(ReadError::TooLong), 10_000),
        (4_096, 0, 5_000, Err(ReadError::TooLong), 5_001),
        (1_000, 0, 0, Err(ReadError::TooLong), 1),
        (1_000, 1, 10_000, Err(ReadError::Failed), 0),
        (1_000, 3, 10_000, Err(ReadError::Failed), 2_000),
        (1_000, 11, 10_000, Err(ReadError::Failed), 10_000),
    ];
    for (step, fault, limit, answer, given) in cases {
        let mut reader = Pieces::make(bytes.as_slice(), step, fault);
        let mut read = Vec::new(alloc);
        let outcome = read_whole(&mut reader, &mut read, limit);
        assert_eq!(rt; outcome, answer, "at {step}, {fault}, {limit}");
        assert_eq!(rt;
            read.as_slice(),
            front(bytes.as_slice(), given),
            "at {step}, {fault}, {limit}"
        );
    }
    Ok(())
}

#[test]
fn writes_in_pieces(rt: HostRuntime) -> Result<(), Fail> {
    let alloc = rt.alloc();
    let bytes = many(alloc)?;
    // The length of a piece, the call that fails, the answer, the count of faults, and how many bytes were taken.
    let cases = [
        (1, 0, Ok(()), 0, 10_000),
        (4_096, 0, Ok(()), 0, 10_000),
        (20_000, 0, Ok(()), 0, 10_000),
        (0, 0, Err(WriteError::Failed), 1, 0),
        (1_000, 1, Err(WriteError::Failed), 1, 0),
        (1_000, 3, Err(WriteError::Failed), 1, 2_000),
        (1_000, 10, Err(WriteError::Failed), 1, 9_000),
    ];
    for (step, fault, answer, faults, taken) in cases {
        let output = Output::make(alloc, step, fault);
        let mut out = HostOut::make(&output);
        assert_eq!(rt; out.put(bytes.as_slice()), answer, "at {step}, {fault}");
        assert_eq!(rt; out.faults(), faults, "at {step}, {fault}");
        assert!(rt;
            output.took(front(bytes.as_slice(), taken)),
            "at {step}, {fault}"
        );
    }
    Ok(())
}

#[test]
fn memory_forms_fail_at_the_listed_calls(rt: HostRuntime) -> Result<(), Fail> {
    let alloc = rt.alloc();
    let mut files = Vec::new(alloc);
    files.push((
        String::from_str(alloc, "T")?,
        Vec::from_slice(alloc, b"text".as_slice())?,
    ))?;
    let mut fail = Vec::new(alloc);
    fail.push(2)?;
    let mut folder = MemFolder::make(files, fail);
    match folder.read(alloc, "T", 4) {
        Ok(bytes) => assert_eq!(rt; bytes.as_slice(), b"text".as_slice()),
        Err(_) => assert!(rt; false),
    }
    let second = folder.read(alloc, "T", 4);
    assert!(rt; matches!(second, Err(ReadError::Failed)));
    let third = folder.read(alloc, "T", 3);
    assert!(rt; matches!(third, Err(ReadError::TooLong)));
    let mut rooms = Vec::new(alloc);
    rooms.push((2, 3))?;
    let mut sink = MemSink::make(alloc, rooms);
    let first = sink.put(b"one ");
    assert!(rt; first.is_ok());
    let failed = sink.put(b"two");
    assert!(rt; matches!(failed, Err(WriteError::Failed)));
    assert_eq!(rt; sink.bytes(), b"one two".as_slice());
    assert_eq!(rt; sink.faults(), 1);
    Ok(())
}
