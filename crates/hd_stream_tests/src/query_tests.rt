//! Replies to queries, as texts.
use crate::serving::board_of;
use hd_analyst::{Question, Showing, reply_text};
use hd_board::Desk;
use hd_lines::Query;
use std::alloc::Global;
use std::process::Abort;

/// The reply to a query at a desk, with one mark, of the desk's state.
fn text_at<R: Abort>(rt: &R, alloc: Global, desk: &Desk, query: Query) -> Vec<u8> {
    let state = desk.state();
    let marks = [state.mark().expect(rt, "the state is marked")];
    let showing = Showing {
        names: false,
        most: None,
    };
    let question = Question { query, text: b"" };
    reply_text(alloc, state, &marks, question, showing).expect(rt, "the query is answered")
}

/// Whether the text that was answered is this one.
fn is_text(answered: Vec<u8>, text: &str) -> bool {
    answered.as_slice() == text.as_bytes()
}

#[test]
fn texts_of_queries(rt: HostRuntime) {
    let (_board, mut desks) = board_of(&rt, 1);
    let desk = desks.pop().expect(&rt, "there is a desk");
    let alloc = rt.alloc();
    let strength = text_at(&rt, alloc, &desk, Query::Strength(2));
    assert!(rt; is_text(strength, "ok 1\nSTRONG\n"));
    let into = text_at(&rt, alloc, &desk, Query::Into(2));
    assert!(rt; is_text(into, "ok 1\n0x1 e0 strong stands\n"));
    let fell = text_at(&rt, alloc, &desk, Query::Fell(0));
    assert!(rt; is_text(fell, "ok 0\n"));
    let none = text_at(&rt, alloc, &desk, Query::Fell(1));
    assert!(rt; is_text(none, "no NoSuchMark\n"));
}
