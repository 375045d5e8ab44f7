//! Totals of objects by group and strength, and the pages of objects whose strengths changed last.
//!
//! Callers see, for each group and strength, the number of objects and their recorded bytes (`GroupTotals`). They ask
//! for one total (`total`) or for all groups of a strength (`classes`). States keep the totals up to date by the
//! changes of each repair, so `classes` never goes over the objects.
//!
//! Layout of `GroupTotals` (`group_totals.rt`): a set of the keys of groups, in the order in which the groups were met,
//! and a row of six totals for each (`StrengthTotals` of `total.rt`). The keys never change and all versions share
//! them. The rows are in pages that versions share (`hd_pages`), so a further version costs the pages that it changes.
//!
//! - `keys.rt` gives each group a number that sorts as lines are sorted: classes by their IDs, then primitive arrays by
//!   their type, then class objects. `GroupKeys` is a hash set in insertion order, so the index of a key is the index
//!   of its row.
//! - `counting.rt` makes the first totals in one pass over the objects. They are cut into four shares, each counted by
//!   a thread with keys and rows of its own; then the rows of each group are added up. A share begins where a page does,
//!   so no page has objects of two shares, and the pages of all are put one behind another. Where the system refuses a
//!   thread, the shares are counted one after another. Queries count some of the objects by the same parts (`Counted`).
//! - `group_pages.rt` keeps of each page of 1,024 objects which groups its objects may be of, in a bit for each of 4,096
//!   buckets, two buckets a group, and the least ID (`GroupPages`). It is noted while the first totals are counted, and
//!   never changes. The query that lists the objects of a group skips the other pages.
//! - `group_totals.rt` moves each changed object from the total of its strength before to that of its strength after
//!   (`apply`), one move for each `Change` of `hd_repair`. Where memory runs out, some moves may be missing, so the
//!   version must not be used further.
//! - `classes.rt` gathers the rows that have objects of a strength and sorts them by their keys. `ranking.rt` sorts rows by their
//!   bytes, `groups.rt` groups by their keys.
//! - `fallen.rt` counts the objects that a list of changes makes unreachable, and those that it makes reachable again.
//! - `last_changes.rt` has, of each page of 1,024 objects, the number of events that the log had when a strength in the
//!   page last changed (`LastChanges`), 0 where none has since the opening. The query that compares two logs skips the
//!   pages that didn't change in between.
#![tactic(auto)]

mod ahead;
mod classes;
mod counting;
mod fallen;
mod group_pages;
mod group_totals;
mod groups;
mod keys;
mod last_changes;
mod ranking;
mod total;

pub use counting::Counted;
pub use fallen::{count_back, count_fallen, falls};
pub use group_pages::GroupPages;
pub use group_totals::GroupTotals;
pub use groups::in_order;
pub use last_changes::{LastChanges, PAGE_OBJECTS};
pub use ranking::ranked;
pub use total::{StrengthTotals, Total};
