//! Desks that are served over one board: what they see of one another, where they end, and a desk of another board.
use crate::serving::{board_of, serve_text};

#[test]
fn desk_sees_what_another_did(rt: HostRuntime) {
    let (board, mut desks) = board_of(&rt, 2);
    let mut second_desk = desks.pop().expect(&rt, "there is a second desk");
    let mut first_desk = desks.pop().expect(&rt, "there is a first desk");
    let alloc = rt.alloc();
    let first = serve_text(&rt, alloc, &board, &mut first_desk, b"cut 0x1 e0\n");
    assert_eq!(rt; first.ended, Ok(()));
    assert_eq!(rt;
        first.written.as_slice(),
        b"ok 1\nevent 0 fell 1 back 0\n".as_slice()
    );
    let input: &[u8] = b"strength 0x2\nundo 0\nquit\nstrength 0x1\n";
    let second = serve_text(&rt, alloc, &board, &mut second_desk, input);
    assert_eq!(rt; second.ended, Ok(()));
    assert_eq!(rt;
        second.written.as_slice(),
        b"ok 1\nUNREACHABLE\nno NotYours\nok 0\n".as_slice()
    );
    assert!(rt; board.close(&[first_desk, second_desk]).is_ok());
}

#[test]
fn session_ends_in_a_private_part(rt: HostRuntime) {
    let (board, mut desks) = board_of(&rt, 1);
    let mut desk = desks.pop().expect(&rt, "there is a desk");
    let alloc = rt.alloc();
    let input: &[u8] = b"add 0x2\nprivate\ncut 0x1 e0\nundo 0\n";
    let served = serve_text(&rt, alloc, &board, &mut desk, input);
    assert_eq!(rt; served.ended, Ok(()));
    assert_eq!(rt;
        served.written.as_slice(),
        b"ok 1\nevent 0 fell 0 back 0\nok 1\nprivate 1\nok 1\nevent 1 fell 0 back 0\nok 1\nevent 2 fell 1 back 0\n".as_slice()
    );
    assert_eq!(rt; desk.seen().len(), 1);
    let log = board.close(&[desk]).ok().expect(&rt, "the board closes");
    assert_eq!(rt; log.len(), 1);
}

#[test]
fn desk_of_another_board(rt: HostRuntime) {
    let (board, mut desks) = board_of(&rt, 1);
    let mut desk = desks.pop().expect(&rt, "there is a desk");
    let (other, _desks) = board_of(&rt, 1);
    let alloc = rt.alloc();
    let first = serve_text(&rt, alloc, &board, &mut desk, b"cut 0x1 e0\n");
    assert_eq!(rt; first.ended, Ok(()));
    let input: &[u8] = b"strength 0x2\nundo\nmark\nstrength\nquit\n";
    let second = serve_text(&rt, alloc, &other, &mut desk, input);
    assert_eq!(rt; second.ended, Ok(()));
    assert_eq!(rt;
        second.written.as_slice(),
        b"no Foreign\nno Foreign\nno Foreign\nno BadArgument\nok 0\n".as_slice()
    );
}

#[test]
fn mark_of_a_late_desk(rt: HostRuntime) {
    let (board, mut desks) = board_of(&rt, 2);
    let mut second_desk = desks.pop().expect(&rt, "there is a second desk");
    let mut first_desk = desks.pop().expect(&rt, "there is a first desk");
    let alloc = rt.alloc();
    let first = serve_text(&rt, alloc, &board, &mut first_desk, b"cut 0x1 e0\n");
    assert_eq!(rt; first.ended, Ok(()));
    let second = serve_text(&rt, alloc, &board, &mut second_desk, b"fell 0\n");
    assert_eq!(rt; second.written.as_slice(), b"ok 1\n0x2\n".as_slice());
}
