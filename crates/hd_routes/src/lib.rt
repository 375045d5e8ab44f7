//! What a request head is answered: the routes of the server that a browser talks to.
//!
//! `read_head` (`head.rt`) takes the first bytes of a connection and the server's port. It says that more bytes are awaited,
//! that they are no head, or what the head is answered. `hear` (`hearing.rt`) reads them from a stream, and `greet` answers
//! them too. `route.rt` has the table: the Host is looked at before anything else, then the path, then the method, and for a
//! desk the upgrade and its Origin. `fields.rt` finds the fields of a head. `answer.rt` has the answers, and writes them.
//! `pass.rt` has the leave to take a desk, which only the table gives.
//!
//! The table stands in `specs/Routes.antt`, what of a head counts for it in `specs/Requests.antt`, the limits of a head in
//! `specs/Heads.antt`, and the bytes of answers in `specs/Answers.antt`. A head is what the grammar of `httparse` says.
//!
//! The crate knows no dump, no connections and no threads: tests run it over bytes.
#![tactic(auto)]

mod answer;
mod fields;
mod head;
mod hearing;
mod pass;
mod route;

pub use answer::{Answer, Refusal, write_answer};
pub use head::{MOST_BYTES, Reading, read_head};
pub use hearing::{Guest, Heard, greet, hear};
pub use pass::Pass;
