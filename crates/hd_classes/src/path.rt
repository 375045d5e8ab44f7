//! Paths up the chains of classes.
ghost use Rattle.std.specs.Prelude.{IfOk};
ghost use Rattle.hd_classes.specs.Sources.{IsSource, table_of};
ghost use Rattle.hd_classes.specs.Paths.{IsPath};

use crate::linked::LinkedClass;
use crate::source::Source;
use hd_hashers::IdHasher;
use hd_subs::ClassDump;
use indexmap::{IndexMap, IndexSet};
use std::alloc::{AllocError, Global};

/// Classes, each the super class of the one before.
#[derive(Drop)]
pub(crate) struct Path<'a> {
    /// The ID of the first one.
    pub(crate) start: u64,
    pub(crate) classes: Vec<&'a ClassDump>,
    /// The ID at which they end: that of the last one's super class.
    pub(crate) end: u64,
}

/// The classes from an ID upwards, up to an ID that is kept, that is known to be broken, or that is no class's. They are as
/// many as there are classes at most.
pub(crate) fn climb<'a>(
    alloc: Global,
    source: &Source<'a>,
    known: &IndexMap<u64, LinkedClass, IdHasher>,
    broken: &IndexSet<u64, IdHasher>,
    start: u64,
) -> Result<Path<'a>, AllocError>
    requires { IsSource source.now }
    ensures { IfOk result (λ path. IsPath (table_of source.now) known.now.entries broken.now.keys start path) }
{
    let mut path = Path {
        start,
        classes: Vec::new(alloc),
        end: start,
    };
    for _step in 0..source.classes.len() {
        if known.contains_key(&path.end) || broken.contains(&path.end) {
            return Ok(path);
        }
        match source.class_of(path.end) {
            Some(class) => {
                path.classes.push(class)?;
                path.end = class.super_id;
            }
            None => return Ok(path),
        }
    }
    Ok(path)
}
