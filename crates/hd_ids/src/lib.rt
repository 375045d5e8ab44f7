//! The IDs of a heap dump's objects, each once, in the order in which they are first noted, and the number of each.
//!
//! Callers see a list of distinct IDs. `ObjectIds` (`ids.rt`) answers the ID of a number, the number of an ID, and a
//! finder for looking up many IDs. How IDs are kept, the hashes and their secret show in no answer.
//!
//! - `paged.rt`, `rows.rt`: objects lie close together, so IDs are found by pages of 4,096 addresses. IDs that leave
//!   different remainders by 8 have different pages. A hash map leads from a page to its row, and the row has a
//!   number for each of its 512 places, or none.
//! - `numbers.rt`, `block.rt`: objects of one page mostly follow one another in the file. So a row is 16 blocks of 32
//!   places. A block of 8 bytes keeps which places have a number, and the first of these numbers; that is 2 bits a
//!   place. A block whose numbers don't follow one another has a row of its own, with four bytes for each place.
//! - An ID isn't kept. Of each number `PagedIds` keeps the place in the rows, in four bytes; this place and the page
//!   of its row tell the ID (`PagedIds::get`).
//! - `plain.rt`: one hash set of all IDs. They go over to it where rows would take more memory or numbers too many
//!   bits: where the rows would have more than 64 places for each ID and 65,536 more, or more than 2^32 places, or
//!   where there are 2^31 IDs.
//! - `directory.rt`: once all IDs are noted, `indexed` makes a list with the row of each page from the first to the
//!   last, where there are at most 16 for each row. A number is then found by two looks: at the page's entry, and at
//!   the block. The directory knows only IDs that are multiples of 8.
//! - `finder.rt`, `near.rt`: a `Finder` asks the directory, and keeps at hand the rows of up to 256 pages of which that
//!   tells nothing.
//!
//! The threads that read a dump note the IDs of a part of it each. `followed_by` puts the IDs of the next part behind
//! those of the parts before, and answers `None` where one was there before. So there is one index for the whole dump.
//! Where rows serve for all, the rows of the part are put into those before (`following.rt`), mostly a block of 32
//! places at a time, and no ID is looked up. Else its IDs are noted one after another.
#![tactic(auto)]

mod block;
mod directory;
mod finder;
mod following;
mod ids;
mod near;
mod numbers;
mod paged;
mod plain;
mod rows;

pub use finder::Finder;
pub use ids::ObjectIds;
