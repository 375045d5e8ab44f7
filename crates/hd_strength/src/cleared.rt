//! The kinds of references that are cleared everywhere.
ghost use Rattle.std.specs.Prelude.{◌≡◌, ◌+◌, ◌-◌, if◌then◌else◌, IfOk};
ghost use Rattle.hd_terms.specs.declared.EdgeKind.{EdgeKind as OneKind};
ghost use Rattle.hd_strength.specs.Cleared.{clear_count, clears, is_cleared};

use hd_terms::{EdgeKind, Edit, NoMemory, RefKind};

/// Of each kind of references, how many edits clear all of them.
#[derive(Clone, Copy)]
pub(crate) struct Cleared {
    soft: u32,
    weak: u32,
    finals: u32,
    phantom: u32,
}

impl Cleared {
    /// No kind of references is cleared.
    pub(crate) fn none() -> Cleared
        ensures { (kind : OneKind) → clear_count result kind ≡ 0 }
    {
        Cleared {
            soft: 0,
            weak: 0,
            finals: 0,
            phantom: 0,
        }
    }

    /// The counts with one more edit. A count that would be 2^32 is refused as if memory ran out.
    pub(crate) fn with(self, edit: Edit) -> Result<Cleared, NoMemory>
        ensures { IfOk result (λ c. (kind : OneKind) → clear_count c kind ≡ clear_count self kind + (if clears kind edit then 1 else 0)) }
    {
        let counts = match edit {
            Edit::ClearAll(RefKind::Soft) => Cleared {
                soft: self.soft.checked_add(1).ok_or(NoMemory)?,
                ..self
            },
            Edit::ClearAll(RefKind::Weak) => Cleared {
                weak: self.weak.checked_add(1).ok_or(NoMemory)?,
                ..self
            },
            Edit::ClearAll(RefKind::Final) => Cleared {
                finals: self.finals.checked_add(1).ok_or(NoMemory)?,
                ..self
            },
            Edit::ClearAll(RefKind::Phantom) => Cleared {
                phantom: self.phantom.checked_add(1).ok_or(NoMemory)?,
                ..self
            },
            Edit::Cut(_, _) | Edit::Clear(_) | Edit::Drop(_) => self,
            Edit::Add(_) | Edit::CutAll(_, _) => self,
        };
        Ok(counts)
    }

    /// The counts with one edit fewer, if there is one of its kind.
    pub(crate) fn without(self, edit: Edit) -> Cleared
        ensures { (kind : OneKind) → clear_count result kind ≡ clear_count self kind - (if clears kind edit then 1 else 0) }
    {
        match edit {
            Edit::ClearAll(RefKind::Soft) => Cleared {
                soft: self.soft.saturating_sub(1),
                ..self
            },
            Edit::ClearAll(RefKind::Weak) => Cleared {
                weak: self.weak.saturating_sub(1),
                ..self
            },
            Edit::ClearAll(RefKind::Final) => Cleared {
                finals: self.finals.saturating_sub(1),
                ..self
            },
            Edit::ClearAll(RefKind::Phantom) => Cleared {
                phantom: self.phantom.saturating_sub(1),
                ..self
            },
            Edit::Cut(_, _) | Edit::Clear(_) | Edit::Drop(_) => self,
            Edit::Add(_) | Edit::CutAll(_, _) => self,
        }
    }

    /// Whether all references of a kind are cleared.
    pub(crate) fn has(self, kind: EdgeKind) -> bool
        ensures { result ≡ is_cleared self kind }
    {
        match kind {
            EdgeKind::Strong => false,
            EdgeKind::Soft => self.soft > 0,
            EdgeKind::Weak => self.weak > 0,
            EdgeKind::Final => self.finals > 0,
            EdgeKind::Phantom => self.phantom > 0,
        }
    }
}
