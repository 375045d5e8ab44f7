//! A desk in the browser: desks of a board that are taken over WebSockets, and the page that does so.
//!
//! `web_on` (`server.rt`) takes a board and its desks, and accepts connections, each in a thread of its own. `connection.rt`
//! gives each the answer of `hd_routes` to its request head: the page, a refusal, or a desk. What of
//! this holds for all connections is in a `Hall` (`hall.rt`): the page, the table of desks behind its lock, and how many
//! connections there are.
//!
//! `table.rt` has the table. A desk's `Seat` (`seat.rt`) is moved out of it and back, so no two connections have one. A seat is an
//! analyst's session, which goes on where the last connection left it, until `quit`.
//!
//! `talking.rt` serves the messages of a WebSocket to a seat, one after another. `message.rt` has the line of a message.
//! `hurried.rt` reads a stream up to a deadline.
//!
//! What a message is answered stands in `specs/Messages.antt` and `specs/Talks.antt`, what a table gives in `specs/Tables.antt`.
#![tactic(auto)]

mod connection;
mod hall;
mod hurried;
mod message;
mod seat;
mod server;
mod table;
mod talking;

pub use hall::Site;
pub use server::web_on;
