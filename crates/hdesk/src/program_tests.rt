//! The whole program over words and files, with its exit statuses and texts.
use hd_arguments::{Browsing, Opening, Serving, Task, read_arguments};
use hd_program::{BAD_DUMP, DONE, FAILED, USAGE, program};
use hd_protocol::SAMPLE;
use hd_terms::Mode;
use std::alloc::Global;
use std::fs::{self, File};
use std::io::{self, BufRead, Read};
use std::net::{Ipv4Addr, Net, SocketAddr, TcpListener, TcpStream};
use std::process::Abort;
use std::random::RandomSource;
use std::rt::Files;
use std::sync::Wait;
use std::thread::Threads;
use std::time::Clock;

/// What `stat` prints of the sample.
const SAMPLE_STAT: &str = "objects 2\nroots 1\nedges 1\nunresolved 1\nrepeated 0 0 0\nopaque 0\n\
    STRONG 2 12\nSOFT 0 0\nWEAK 0 0\nFINAL 0 0\nPHANTOM 0 0\nUNREACHABLE 0 0\n";

/// The words as the program takes them.
fn owned<R: Abort>(rt: &R, alloc: Global, words: &[&str]) -> Vec<String> {
    let mut list = Vec::new(alloc);
    for word in words {
        let copy = String::from_str(alloc, word).expect(rt, "the word is copied");
        list.push(copy).expect(rt, "the list grows");
    }
    list
}

/// Whether the program ends so over these words and lines: its status, what it writes, and what it reports.
fn ends<R>(rt: &R, words: &[&str], status: u8, written: &[u8], reported: &[u8]) -> bool
where
    R: Abort
        + AllocGlobal
        + Clock
        + Files<File = File>
        + Net<Listener = TcpListener, Stream = TcpStream>
        + RandomSource
        + Threads
        + Wait
        + Sync,
{
    let words = owned(rt, rt.alloc(), words);
    let mut input: &[u8] = b"strength 0x2\nquit\n";
    let mut output = Vec::new(rt.alloc());
    let mut faults = Vec::new(rt.alloc());
    let ended = program(
        rt,
        words.as_slice(),
        false,
        &mut input,
        &mut output,
        &mut faults,
    );
    ended == status && output.as_slice() == written && faults.as_slice() == reported
}

/// What the program reports of words that it doesn't take; nothing where it takes them, or reads or writes.
fn usage_of<R>(rt: &R, words: &[&str]) -> Vec<u8>
where
    R: Abort
        + AllocGlobal
        + Clock
        + Files<File = File>
        + Net<Listener = TcpListener, Stream = TcpStream>
        + RandomSource
        + Threads
        + Wait
        + Sync,
{
    let words = owned(rt, rt.alloc(), words);
    let mut input: &[u8] = b"quit\n";
    let mut output = Vec::new(rt.alloc());
    let mut faults = Vec::new(rt.alloc());
    let ended = program(
        rt,
        words.as_slice(),
        false,
        &mut input,
        &mut output,
        &mut faults,
    );
    if ended != USAGE || !output.is_empty() || input.len() != 5 {
        faults.clear();
    }
    faults
}

#[test]
fn tasks(rt: HostRuntime) {
    let rows: [(&[&str], u32, Mode, bool); 5] = [
        (&["run", "x"], 4, Mode::Direct, false),
        (
            &["run", "x", "--phantom", "closure", "--workers", "2"],
            2,
            Mode::Closure,
            false,
        ),
        (&["run", "--phantom", "direct", "x"], 4, Mode::Direct, false),
        (&["run", "x", "--names"], 4, Mode::Direct, true),
        (
            &["run", "--names", "--workers", "1", "x"],
            1,
            Mode::Direct,
            true,
        ),
    ];
    for (words, workers, mode, names) in rows {
        let words = owned(&rt, rt.alloc(), words);
        let wanted = Opening {
            file: "x",
            workers,
            mode,
            names,
        };
        let read = read_arguments(rt.alloc(), words.as_slice()).ok();
        assert_eq!(rt; read, Some(Some(Task::Run(wanted))));
    }
}

#[test]
fn serve_tasks(rt: HostRuntime) {
    let rows: [(&[&str], u16, u8, bool); 4] = [
        (
            &["serve", "x", "--port", "0", "--analysts", "1"],
            0,
            1,
            false,
        ),
        (
            &["serve", "--analysts", "16", "x", "--port", "65535"],
            65_535,
            16,
            false,
        ),
        (
            &["serve", "x", "--port=7070", "--analysts=2"],
            7_070,
            2,
            false,
        ),
        (
            &["serve", "x", "--names", "--port=7070", "--analysts=2"],
            7_070,
            2,
            true,
        ),
    ];
    for (words, port, analysts, names) in rows {
        let words = owned(&rt, rt.alloc(), words);
        let opening = Opening {
            file: "x",
            workers: 4,
            mode: Mode::Direct,
            names,
        };
        let wanted = Serving {
            opening,
            port,
            analysts,
        };
        let read = read_arguments(rt.alloc(), words.as_slice()).ok();
        assert_eq!(rt; read, Some(Some(Task::Serve(wanted))));
    }
}

#[test]
fn serve_usage_faults(rt: HostRuntime) {
    let rows: [&[&str]; 9] = [
        &["serve"],
        &["serve", "x"],
        &["serve", "x", "--port", "0"],
        &["serve", "x", "--analysts", "2"],
        &["serve", "x", "--port", "65536", "--analysts", "2"],
        &["serve", "x", "--port", "-1", "--analysts", "2"],
        &["serve", "x", "--port", "0", "--analysts", "0"],
        &["serve", "x", "--port", "0", "--analysts", "17"],
        &["run", "x", "--port", "0"],
    ];
    for words in rows {
        assert!(rt; !usage_of(&rt, words).is_empty());
    }
}

#[test]
fn web_task(rt: HostRuntime) {
    let words = owned(
        &rt,
        rt.alloc(),
        &["web", "x", "--port=7080", "--analysts=2", "--page", "p"],
    );
    let opening = Opening {
        file: "x",
        workers: 4,
        mode: Mode::Direct,
        names: false,
    };
    let wanted = Browsing {
        serving: Serving {
            opening,
            port: 7_080,
            analysts: 2,
        },
        page: "p",
    };
    let read = read_arguments(rt.alloc(), words.as_slice()).ok();
    assert_eq!(rt; read, Some(Some(Task::Web(wanted))));
}

#[test]
fn web_usage_faults(rt: HostRuntime) {
    let rows: [&[&str]; 5] = [
        &["web", "x", "--port", "0", "--analysts", "1"],
        &["web", "x", "--port", "0", "--page", "p"],
        &["web", "x", "--analysts", "1", "--page", "p"],
        &["web", "x", "--port", "0", "--analysts", "17", "--page", "p"],
        &[
            "web",
            "x",
            "--port=0",
            "--analysts=1",
            "--page=p",
            "--names",
        ],
    ];
    for words in rows {
        assert!(rt; !usage_of(&rt, words).is_empty());
    }
}

/// The page is read before the file.
#[test]
fn page_that_is_not_there(rt: HostRuntime) {
    let words = [
        "web",
        "/no/such/file",
        "--port=0",
        "--analysts=1",
        "--page=/no/such/page",
    ];
    assert!(rt;
        ends(
            &rt,
            &words,
            FAILED,
            b"",
            b"hdesk: cannot read /no/such/page\n"
        )
    );
}

#[test]
fn usage_faults(rt: HostRuntime) {
    let rows: [&[&str]; 13] = [
        &["--help"],
        &["nothing"],
        &["run"],
        &["stat"],
        &["stat", "x", "y"],
        &["stat", "x", "--workers", "0"],
        &["run", "x", "--workers", "17"],
        &["run", "x", "--workers", "four"],
        &["run", "x", "--worker", "4"],
        &["stat", "x", "--phantom", "both"],
        &["run", "x", "--phantom"],
        &["stat", "x", "--names"],
        &["run", "x", "--names", "on"],
    ];
    for words in rows {
        assert!(rt; !usage_of(&rt, words).is_empty());
    }
    let help = usage_of(&rt, &["--help"]);
    assert!(rt; help.as_slice().starts_with(b"A verified workbench"));
    let help = usage_of(&rt, &["stat"]);
    assert!(rt;
        help.as_slice().ends_with(
            b"\n\nUsage: hdesk stat <FILE>\n\nFor more information, try '--help'.\n"
        )
    );
}

#[test]
fn version(rt: HostRuntime) {
    assert!(rt; ends(&rt, &["--version"], DONE, b"hdesk 1.9.0\n", b""));
    assert!(rt; !usage_of(&rt, &["stat", "--version"]).is_empty());
}

#[test]
fn unreadable_files(rt: HostRuntime) {
    assert!(rt;
        ends(
            &rt,
            &["stat", "/no/such/file"],
            FAILED,
            b"",
            b"hdesk: cannot read /no/such/file\n"
        )
    );
    assert!(rt;
        ends(
            &rt,
            &["run", "/no/such/file"],
            FAILED,
            b"",
            b"hdesk: cannot read /no/such/file\n"
        )
    );
    assert!(rt;
        ends(
            &rt,
            &["serve", "/no/such/file", "--port", "0", "--analysts", "2"],
            FAILED,
            b"",
            b"hdesk: cannot read /no/such/file\n"
        )
    );
    assert!(rt; ends(&rt, &["run", "/"], FAILED, b"", b"hdesk: cannot read /\n"));
    assert!(rt;
        ends(
            &rt,
            &["stat", "/dev/null"],
            FAILED,
            b"",
            b"hdesk: cannot read /dev/null\n"
        )
    );
}

/// Writes a file of these bytes, and checks how `run` and `stat` end over it.
fn over<R>(
    rt: &R,
    path: &str,
    bytes: &[u8],
    run: (u8, &[u8], &[u8]),
    stat: (u8, &[u8], &[u8]),
) -> bool
where
    R: Abort
        + AllocGlobal
        + Clock
        + Files<File = File>
        + Net<Listener = TcpListener, Stream = TcpStream>
        + RandomSource
        + Threads
        + Wait
        + Sync,
{
    fs::write(rt, path, bytes).expect(rt, "the file is written");
    let ran = ends(rt, &["run", path, "--workers", "16"], run.0, run.1, run.2);
    let counted = ends(rt, &["stat", path], stat.0, stat.1, stat.2);
    fs::remove_file(rt, path).expect(rt, "the file is removed");
    ran && counted
}

#[test]
fn programs_over_files(rt: HostRuntime) {
    let path = "program-test.hprof";
    let run: (u8, &[u8], &[u8]) = (DONE, b"ok 1\nSTRONG\nok 0\n", b"");
    let stat: (u8, &[u8], &[u8]) = (DONE, SAMPLE_STAT.as_bytes(), b"");
    assert!(rt; over(&rt, path, &SAMPLE, run, stat));
    let cut: (u8, &[u8], &[u8]) = (BAD_DUMP, b"", b"hdesk: Truncated at 0\n");
    assert!(rt; over(&rt, path, &SAMPLE[..30], cut, cut));
    assert!(rt; over(&rt, path, b"", cut, cut));
    let cut: (u8, &[u8], &[u8]) = (BAD_DUMP, b"", b"hdesk: Truncated at 31\n");
    assert!(rt; over(&rt, path, &SAMPLE[..90], cut, cut));
}

#[test]
fn file_too_large(rt: HostRuntime) {
    let path = "too-large-test.hprof";
    let file = fs::create(&rt, path).expect(&rt, "the file is made");
    file.set_len(2_147_483_648)
        .expect(&rt, "the file gets its length");
    drop(file);
    let large: &[u8] = b"hdesk: TooLarge at 0\n";
    assert!(rt; ends(&rt, &["stat", path], BAD_DUMP, b"", large));
    assert!(rt; ends(&rt, &["run", path], BAD_DUMP, b"", large));
    fs::remove_file(&rt, path).expect(&rt, "the file is removed");
}

/// Whether serving a file at a port ends because the port can't be listened on.
fn cannot_listen<R>(rt: &R, path: &str, port: &str) -> bool
where
    R: Abort
        + AllocGlobal
        + Clock
        + Files<File = File>
        + Net<Listener = TcpListener, Stream = TcpStream>
        + RandomSource
        + Threads
        + Wait
        + Sync,
{
    let words = ["serve", path, "--port", port, "--analysts", "1"];
    ends(rt, &words, FAILED, b"", b"hdesk: cannot listen\n")
}

#[test]
fn port_in_use(rt: HostRuntime) {
    let path = "port-test.hprof";
    fs::write(&rt, path, &SAMPLE).expect(&rt, "the file is written");
    let bound = TcpListener::bind(&rt, SocketAddr::from((Ipv4Addr::LOCALHOST, 0)));
    let listener = bound.expect(&rt, "a port is free");
    let address = listener.local_addr().expect(&rt, "the port is known");
    let port = format!(in rt.alloc(); "{}", address.port()).expect(&rt, "the port is written");
    let ended = cannot_listen(&rt, path, port.as_str());
    fs::remove_file(&rt, path).expect(&rt, "the file is removed");
    assert!(rt; ended);
}

/// A reader that fails at once.
#[derive(Drop)]
struct FailingReader;

impl Read for FailingReader {
    fn read(&mut self, _buf: &mut [u8]) -> io::Result<usize> {
        Err(io::Error::from(io::ErrorKind::Other))
    }
}

impl BufRead for FailingReader {
    fn fill_buf(&mut self) -> io::Result<&[u8]> {
        Err(io::Error::from(io::ErrorKind::Other))
    }

    fn consume(&mut self, _amount: usize) {}
}

#[test]
fn whole_program(rt: HostRuntime) {
    let mut input: &[u8] = b"strength 0x2\nquit\n";
    let mut output = Vec::new(rt.alloc());
    let mut faults = Vec::new(rt.alloc());
    let status = program(&rt, &[], false, &mut input, &mut output, &mut faults);
    assert_eq!(rt; status, DONE);
    assert_eq!(rt; output.as_slice(), b"ok 1\nSTRONG\nok 0\n".as_slice());
    assert_eq!(rt; faults.len(), 0);
}

#[test]
fn failed_program(rt: HostRuntime) {
    let mut output = Vec::new(rt.alloc());
    let mut faults = Vec::new(rt.alloc());
    let status = program(
        &rt,
        &[],
        false,
        &mut FailingReader,
        &mut output,
        &mut faults,
    );
    assert_eq!(rt; status, FAILED);
    assert_eq!(rt;
        faults.as_slice(),
        b"hdesk: cannot read standard input\n".as_slice()
    );
}
