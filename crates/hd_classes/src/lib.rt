//! The classes of a dump: their names, chains, layouts and referent fields, and how many records repeat the ID of an
//! earlier one.
//!
//! Callers build `Classes` from the records, the texts and the sub-records. They see of each class whose chain is
//! whole a `ResolvedClass`: its chain, its layout, its referent field, and the kind of the reference there. A chain
//! that never ends is the fault ClassCycle. A class whose chain leads to an ID other than 0 that is no class's isn't
//! resolved.
//!
//! Where classes are resolved from:
//!
//! - `names.rt`: the first text of each ID (`FirstTexts`), noted by two threads that take a side of the IDs each, and
//!   the first load of each class. Repeated records of either kind are counted. `texts.rt`: `TextsById` has both
//!   sides.
//! - `first_class.rt`: the class objects. An ID is a class's where the first sub-record of that ID is a CLASS DUMP,
//!   so the IDs of all objects up to the last class are noted.
//! - `source.rt`: a `Source` has all of these.
//!
//! How they are resolved (`build.rt`), from the top down:
//!
//! - `climb` (`path.rt`) goes up from a class to one that is kept, to one whose chain is known to be broken, or to an
//!   ID that is no class's. That ID is 0 where the chain is whole. It takes at most as many steps as there are
//!   classes. If it then still stands at a class, the chain never ends.
//! - `keep_path` keeps the classes on the way, each below its super class (`linking.rt`); `note_path` notes them as
//!   broken. So each class is gone over a fixed number of times, however long the chains are.
//! - `reference.rt` finds the referent field and the kind, from the class itself and from what its super class has.
//!
//! What is kept of a class (`linked.rt`): the fields that it declares, the number of its super class, and the number
//! of the next class above it that has fields. Nothing is copied down a chain. A `Chain` (`chain.rt`) and a `Layout`
//! (`layout.rt`) are read along these links, class by class.
//!
//! How they are asked:
//!
//! - `classes.rt`, `known.rt`: `Classes`, by ID or by number, and `ResolvedClass`. `guesses.rt` guesses the number of
//!   a class from its ID; the guess is compared before the hash map is asked. Many instances ask for few classes, so
//!   it is mostly right.
//! - `fit.rt`: `LayoutBytes` tells whether the values of an instance fit the layout of its class. It sums the fields
//!   of a layout once, with the first instance that has enough bytes, and stops where the values end. So instances
//!   ask for no more work than they bring bytes.
//! - `places.rt`: where among the values of a class its references lie. The rows of all instances but the first are
//!   made from these places.
//! - `class_names.rt`: copies of the names of classes, each text once, so that the file can be given up.
//! - `naming.rt`: the names of fields and statics, by class object (`NamedClasses` of `hd_names`), for those who ask for
//!   them by `Classes::build_named`. `name_numbers.rt` copies each text once and gives it a number.
//! - `repeats.rt`: the counts of repeated records, and `note_id`, which notes an object's ID and counts a repeated
//!   one.
#![tactic(auto)]

mod build;
mod chain;
mod class_names;
mod classes;
mod first_class;
mod fit;
mod guesses;
mod known;
mod layout;
mod linked;
mod linking;
mod name_numbers;
mod names;
mod naming;
mod path;
mod places;
mod reference;
mod repeats;
mod source;
mod texts;

pub use chain::Chain;
pub use class_names::{ClassNames, names_of};
pub use classes::Classes;
pub use fit::{Fit, LayoutBytes};
pub use known::{LayoutField, ResolvedClass};
pub use layout::Layout;
pub use names::{FirstTexts, bytes_of};
pub use repeats::{RepeatedRecords, note_id};
