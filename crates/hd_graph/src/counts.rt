//! Counting the objects, roots, references and repeated records of a dump.
ghost use Rattle.std.specs.Prelude.{◌≡◌, length};
ghost use Rattle.hd_terms.specs.Counts.{counts_of};

use crate::graph::Graph;
use hd_terms::Counts;

impl Graph {
    /// How many of what the dump has. All slots are gone through.
    pub fn counts(&self) -> Counts
        ensures { result ≡ counts_of self.now }
    {
        let slots = self.id_counts();
        let repeats = self.repeats();
        Counts {
            objects: u64::from(self.objects()),
            roots: u64::from(self.roots_len()),
            edges: slots.objects,
            unresolved: slots.others,
            repeated_objects: repeats.objects,
            repeated_strings: repeats.strings,
            repeated_loads: repeats.loads,
            opaque: self.opaque(),
        }
    }
}
