//! A list of items in pages, which versions of the list share.
//!
//! Callers see a list: `get` reads an item, `with` puts one, `share` makes an equal version, and `append` puts another
//! list behind. No version changes another.
//!
//! A page (`page.rt`) has up to 1,024 items, a group (`group.rt`) up to 256 pages, and the list (`pages.rt`) is a `Vec`
//! of groups. Pages and groups are held by `Arc`. Sharing a version adds one owner to each group (`owners.rt`). A write
//! copies the group's list of pages, and the one page, where another version has them too; else it writes in place.
//!
//! `append` moves the groups of both lists. It copies items only where the first list ends in a group that isn't full:
//! then it copies the items of that group and all items of the other list. A caller that builds a list from parts cuts
//! it at multiples of `GROUP`.
//!
//! `of_vec` takes the items off the end of a `Vec` group by group and shrinks the `Vec` as it goes, so only one group's
//! items are in memory twice.
#![tactic(auto)]

mod group;
mod owners;
mod page;
mod pages;

pub use pages::{GROUP, Pages};
