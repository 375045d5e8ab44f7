//! A prompt stands before each line that a person types, and a hint behind a line that is no command; elsewhere neither.
use hd_terminal::Prompting;
use std::alloc::Global;
use std::io::BufRead;
use std::process::Abort;

/// What is written while these two lines are read, where they come at once.
fn shown<R: Abort>(rt: &R, alloc: Global, lines: &[u8], is_terminal: bool) -> Vec<u8> {
    let mut prompts = Vec::new(alloc);
    let made = Prompting::new(alloc, lines, &mut prompts, is_terminal);
    let mut reader = made.expect(rt, "the reader is made");
    let mut line = String::new(alloc);
    reader.read_line(&mut line).expect(rt, "a line is read");
    reader
        .read_line(&mut line)
        .expect(rt, "a second line is read");
    reader.read_line(&mut line).expect(rt, "the end is read");
    drop(reader);
    prompts
}

#[test]
fn prompts(rt: HostRuntime) {
    let lines = b"strength 0x2\nquit\n".as_slice();
    let seen = shown(&rt, rt.alloc(), lines, true);
    assert_eq!(rt; seen.as_slice(), b"hdesk> hdesk> ".as_slice());
    assert!(rt; shown(&rt, rt.alloc(), lines, false).is_empty());
}

#[test]
fn hints(rt: HostRuntime) {
    let lines = b"strength\nfell x\n".as_slice();
    let seen = shown(&rt, rt.alloc(), lines, true);
    assert_eq!(rt;
        seen.as_slice(),
        b"hdesk> strength ID\nfell M, where M is the number of a mark, 0 for the start\nhdesk> ".as_slice()
    );
    assert!(rt; shown(&rt, rt.alloc(), lines, false).is_empty());
}

#[test]
fn hint_to_an_unknown_word(rt: HostRuntime) {
    let seen = shown(&rt, rt.alloc(), b"help\n?".as_slice(), true);
    assert!(rt;
        seen.as_slice()
            .starts_with(b"hdesk> commands: strength, chain, ")
    );
}
