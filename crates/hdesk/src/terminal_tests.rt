//! What is shown at a terminal, and that it doesn't show on standard output.
use hd_program::{BAD_DUMP, DONE, program};
use hd_protocol::SAMPLE;
use std::fs::{self, File};
use std::net::{Net, TcpListener, TcpStream};
use std::process::Abort;
use std::random::RandomSource;
use std::rt::Files;
use std::sync::Wait;
use std::thread::Threads;
use std::time::Clock;

/// How `run` over a file ends at a terminal: its status, what it writes, and what is shown.
fn shown<R>(rt: &R, path: &str) -> (u8, Vec<u8>, Vec<u8>)
where
    R: Abort
        + AllocGlobal
        + Clock
        + Files<File = File>
        + Net<Listener = TcpListener, Stream = TcpStream>
        + RandomSource
        + Threads
        + Wait
        + Sync,
{
    let mut words = Vec::new(rt.alloc());
    for word in ["run", path] {
        let copy = String::from_str(rt.alloc(), word).expect(rt, "the word is copied");
        words.push(copy).expect(rt, "the list grows");
    }
    let mut input: &[u8] = b"quit\n";
    let mut output = Vec::new(rt.alloc());
    let mut faults = Vec::new(rt.alloc());
    let ended = program(
        rt,
        words.as_slice(),
        true,
        &mut input,
        &mut output,
        &mut faults,
    );
    (ended, output, faults)
}

#[test]
fn file_at_a_terminal(rt: HostRuntime) {
    let path = "terminal-test.hprof";
    fs::write(&rt, path, &SAMPLE).expect(&rt, "the file is written");
    let (ended, written, seen) = shown(&rt, path);
    fs::remove_file(&rt, path).expect(&rt, "the file is removed");
    assert_eq!(rt; ended, DONE);
    assert_eq!(rt; written.as_slice(), b"ok 0\n".as_slice());
    assert!(rt;
        seen.as_slice().starts_with(
            b"\r\x1b[Kreading: 0 MB of 0 MB\r\x1b[Kfinding objects and references, "
        )
    );
    assert!(rt;
        seen.as_slice().ends_with(b" s\nnames on: replies show the names of classes and fields\n")
    );
}

#[test]
fn damaged_file_at_a_terminal(rt: HostRuntime) {
    let path = "terminal-fault-test.hprof";
    fs::write(&rt, path, &SAMPLE[..90]).expect(&rt, "the file is written");
    let (ended, written, seen) = shown(&rt, path);
    fs::remove_file(&rt, path).expect(&rt, "the file is removed");
    assert_eq!(rt; ended, BAD_DUMP);
    assert!(rt; written.is_empty());
    assert!(rt;
        seen.as_slice()
            .ends_with(b"\r\x1b[Khdesk: Truncated at 31\n")
    );
}
