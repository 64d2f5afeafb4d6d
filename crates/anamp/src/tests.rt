//! The top call over files in memory.

use mp_io::memory::{MemFolder, MemSink};
use mp_run::status::Status;
use mp_run::top::top_plain;
use std::alloc::{AllocError, Global};
use std::test::Fail;

const TOPOLOGY: &str =
    "nsid = 1\nanagrpmax = 4\npolicy = \"numa\"\nnodes = 2\ndistance = [[10, 20], [20, 10]]\nopening = [\"a\", \"b\"]\n[[controllers]]\nname = \"a\"\nnode = 0\n[[controllers]]\nname = \"b\"\nnode = 1\n";

const SCRIPT: &str = "lane\nsubmit 0 0\nsubmit 1 1\nfinish all\n";

const HEAD: &str =
    "anamp 1\nhead 1 numa\nrow 0 0 open a live optimized r\nrow 1 0 open b live optimized r\norder 0 open numa 0,1\n";

const LANE: &str =
    "lane 0\nat 2 submit\ntry 0 1 sent 0 0\nat 3 submit\ntry 1 1 sent 1 0\nat 4 finish 2\nfin 0 1 0000 done\nfin 1 1 0000 done\nat 0 finish 0\n";

const END: &str = "drain\nat 0 requeue 0\n";

const REQUESTS: &str = "request 0 0 a done 0000 1\nrequest 1 1 b done 0000 1\n";

/// A file of this name.
fn file(alloc: Global, name: &str, text: &str) -> Result<(String, Vec<u8>), AllocError> {
    Ok((
        String::from_str(alloc, name)?,
        Vec::from_slice(alloc, text.as_bytes())?,
    ))
}

/// A folder of a topology, boxes and a script, of which these calls fail.
fn folder(alloc: Global, boxes: &str, script: &str, fail: &[u32]) -> Result<MemFolder, AllocError> {
    let mut files = Vec::new(alloc);
    files.push(file(alloc, "T", TOPOLOGY)?)?;
    files.push(file(alloc, "P", boxes)?)?;
    files.push(file(alloc, "S", script)?)?;
    Ok(MemFolder::make(files, Vec::from_slice(alloc, fail)?))
}

/// The words that a text has between spaces.
fn words(alloc: Global, text: &str) -> Result<Vec<String>, AllocError> {
    let mut words = Vec::new(alloc);
    for word in text.split(' ') {
        words.push(String::from_str(alloc, word)?)?;
    }
    Ok(words)
}

#[test]
fn serial_two_requests(rt: HostRuntime) -> Result<(), Fail> {
    let alloc = rt.alloc();
    let full = format!(in alloc; "{HEAD}{LANE}{END}{REQUESTS}end\n")?;
    let empty = format!(in alloc; "{HEAD}{END}end\n")?;
    for (script, wanted) in [(SCRIPT, full.as_str()), ("", empty.as_str())] {
        let mut folder = folder(alloc, "", script, &[])?;
        let mut out = MemSink::make(alloc, Vec::new(alloc));
        let words = words(alloc, "serial T P S")?;
        let status = top_plain(alloc, &words, &mut folder, &mut out);
        assert_eq!(rt; status.code(), 0);
        assert_eq!(rt; out.bytes(), wanted.as_bytes());
    }
    Ok(())
}

#[test]
fn refuses_with_a_cause(rt: HostRuntime) -> Result<(), Fail> {
    let alloc = rt.alloc();
    let cases = [
        ("serial T P", "", &[][..], 2),
        ("serial T P S", "", &[2][..], 3),
        ("serial T P X", "", &[][..], 3),
        ("serial T P S", "x", &[][..], 7),
    ];
    for (line, boxes, fail, code) in cases {
        let mut folder = folder(alloc, boxes, SCRIPT, fail)?;
        let mut out = MemSink::make(alloc, Vec::new(alloc));
        let words = words(alloc, line)?;
        let status = top_plain(alloc, &words, &mut folder, &mut out);
        assert_eq!(rt; status.code(), code, "at {line:?}");
        assert!(rt; out.bytes().is_empty());
    }
    Ok(())
}

#[test]
fn names_the_file_that_fails(rt: HostRuntime) -> Result<(), Fail> {
    let alloc = rt.alloc();
    // The words, the calls that fail, and the number of the file.
    let cases = [
        ("serial T P S", &[1][..], 1),
        ("serial T P S", &[2][..], 2),
        ("serial T P X", &[][..], 3),
        ("pages P 4", &[1][..], 1),
    ];
    for (line, fail, wanted) in cases {
        let mut folder = folder(alloc, "", SCRIPT, fail)?;
        let mut out = MemSink::make(alloc, Vec::new(alloc));
        let words = words(alloc, line)?;
        match top_plain(alloc, &words, &mut folder, &mut out) {
            Status::ReadFault(file) => assert_eq!(rt; file, wanted, "at {line:?}"),
            _ => assert!(rt; false, "at {line:?}"),
        }
        assert!(rt; out.bytes().is_empty());
    }
    Ok(())
}

#[test]
fn writes_a_front_before_a_fault(rt: HostRuntime) -> Result<(), Fail> {
    let alloc = rt.alloc();
    let mut folder = folder(alloc, "", SCRIPT, &[])?;
    let mut fail = Vec::new(alloc);
    fail.push((1, 7))?;
    let mut out = MemSink::make(alloc, fail);
    let words = words(alloc, "serial T P S")?;
    let status = top_plain(alloc, &words, &mut folder, &mut out);
    assert_eq!(rt; status.code(), 4);
    assert_eq!(rt; out.bytes(), b"anamp 1".as_slice());
    Ok(())
}
