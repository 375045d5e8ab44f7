//! Memory for the bytes of a file, which up to eight threads fill.
//!
//! Callers see a [`Buffer`]: bytes, and how many more there is room for. `fill` calls a function with runs of zeros,
//! and keeps what the function leaves there.
//!
//! The system clears memory when it is touched first, which takes as long as reading a file into it. A `Vec` touches
//! its memory on one thread, since it writes each element before it lends it. A `Buffer` lets each thread touch the
//! part that it fills.
//!
//! - `buffer.rt`: a `Buffer` is a full piece of memory, and directly behind it a piece without bytes. `fill` cuts the
//!   next bytes off the second piece, has them filled, and puts them behind the first.
//! - `filling.rt`: cuts these bytes into a part for each thread. The calling thread begins the others and fills the
//!   last part. Each thread goes over its part in runs of at most 256 KiB, which stay in the processor's cache
//!   between zeroing and filling.
//! - `pieces.rt`: `split` makes two pieces of one, `unite` one piece of two neighbours. Nothing is copied.
//! - `space.rt`: who may reach which bytes. A `Space` is the right to some memory; it takes no memory itself.
//!   `detach` makes of a `Vec` without elements a space and a `Lender`, which keeps the `Vec` meanwhile. `attach`
//!   puts both together again, and the `Vec` then frees the memory. `house` makes of a space a `Piece`, which is a
//!   `Vec` that neither grows nor frees its memory; `vacate` makes the space again.
//!
//! The functions of `space.rt` are proved by hand (`proofs/space/`), since the prover doesn't follow who owns what a
//! pointer leads to.
#![tactic(auto)]

mod buffer;
mod filling;
mod pieces;
mod space;

pub use buffer::Buffer;
