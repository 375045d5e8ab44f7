//! Hashes of object IDs and of their pages by a secret, so that the maker of a dump can't know which of them collide.
//!
//! The secret is a random number (`seed.rt`), or a fixed one where the system gives no random bytes. No answer
//! depends on it. `scatter.rt` scatters a number by the secret.
//!
//! An `IdHasher` (`id_hasher.rt`) scatters blocks of 128 addresses and keeps the IDs of a block together, since
//! objects that lie near one another refer to one another. A `PageHasher` (`page_hasher.rt`) scatters each page.
#![tactic(auto)]

mod id_hasher;
mod page_hasher;
mod scatter;
mod seed;

pub use id_hasher::IdHasher;
pub use page_hasher::PageHasher;
pub use seed::secret;
