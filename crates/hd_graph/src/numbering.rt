//! The numbers of the objects of a file, by those of the parts of its sub-records, or made by one thread.
ghost use Rattle.std.specs.Prelude.{◌≡◌, ◌<◌, ◌^◌, ℕ, [], false, length, All, IfOk, IfErr, MatchOption};
ghost use Rattle.hd_terms.specs.Classes as classes_of;
ghost use Rattle.hd_ids.specs.Noted.{are_apart};
ghost use Rattle.hd_classes.specs.Known.{known_at};
ghost use Rattle.hd_graph.specs.Numbering.{IsNumbered, IsObjectFaultOrMemory, JoinsNumbers, HaveRoom};

use crate::graph::StoredRoot;
use crate::number::{NumberedStretch, Tally, number_stretch};
use hd_classes::Classes;
use hd_ids::ObjectIds;
use hd_subs::DumpSubs;
use hd_terms::{IdSize, ReadFault};
use std::alloc::{AllocError, Global};

/// The numbers of the objects of a file, and the roots.
#[derive(Drop)]
pub(crate) struct Numbered {
    pub(crate) ids: ObjectIds,
    pub(crate) roots: Vec<StoredRoot>,
    pub(crate) tally: Tally,
}

impl NumberedStretch {
    /// The numbers of no objects, and no roots. The secret is for the hashes of IDs.
    pub(crate) fn none(alloc: Global, secret: u64) -> Result<NumberedStretch, AllocError>
        ensures { IfOk result (λ n. (n.ids ≡ []) × (n.roots.items ≡ []) × (n.tally ≡ record { repeated = 0; opaque = 0 })) }
    {
        let ids = ObjectIds::with_capacity(alloc, 0, secret)?;
        Ok(NumberedStretch {
            ids,
            roots: Vec::new(alloc),
            tally: Tally {
                repeated: 0,
                opaque: 0,
            },
        })
    }

    /// The objects of both stretches of sub-records, those of `back` numbered behind these; `None` if an ID is in both.
    pub(crate) fn followed_by(
        self,
        back: NumberedStretch,
    ) -> Result<Option<NumberedStretch>, AllocError>
        requires { HaveRoom self.tally back.tally }
        ensures { IfOk result (λ joined. MatchOption joined (are_apart self.ids back.ids ≡ false) (JoinsNumbers self back)) }
    {
        let tally = self.tally.with(back.tally);
        let mut roots = self.roots;
        let Some(ids) = self.ids.followed_by(back.ids)? else {
            return Ok(None);
        };
        roots.extend_from_slice(back.roots.as_slice())?;
        Ok(Some(NumberedStretch { ids, roots, tally }))
    }

    /// These as the numbers of all objects of a file.
    pub(crate) fn indexed(self) -> Numbered
        ensures { result ≡ record { ids = self.ids; roots = self.roots; tally = self.tally } }
    {
        Numbered {
            ids: self.ids.indexed(),
            roots: self.roots,
            tally: self.tally,
        }
    }
}

/// The numbers of the objects of a file, numbered one after the other: each ID once, how many objects are repeated or opaque, and the
/// roots. An object with ID 0, and an instance that doesn't fit its class's layout, are faults. The secret is for the hashes of IDs.
pub(crate) fn number_alone(
    alloc: Global,
    list: &DumpSubs<'_>,
    classes: &Classes,
    id_size: IdSize,
    secret: u64,
) -> Result<Numbered, ReadFault>
    requires short { All (λ (p : ℕ × classes_of.ResolvedClass). length p.1.layout < 2 ^ 29) classes.now.classes }
    ensures ok { IfOk result (λ n. IsNumbered (known_at classes.now) id_size list.now n.ids n.roots.items n.tally) }
    ensures err { IfErr result (λ f. IsObjectFaultOrMemory (known_at classes.now) id_size list.now f) }
{
    let numbers = number_stretch(alloc, list, classes, id_size, secret, 0, list.len())?;
    Ok(numbers.indexed())
}
