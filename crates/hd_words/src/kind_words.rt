//! The words of kinds of references, as they are written and read.
ghost use Rattle.std.specs.Prelude.{◌≡◌};
ghost use Rattle.hd_lines.specs.Lines.{kind_of_word};
ghost use Rattle.hd_lines.specs.Replies.{kind_name};

use hd_terms::{EdgeKind, RefKind};

/// A kind of reference as it is printed.
pub fn kind_text(kind: EdgeKind) -> &'static str
    ensures { result.now ≡ kind_name kind }
{
    match kind {
        EdgeKind::Strong => "strong",
        EdgeKind::Soft => "soft",
        EdgeKind::Weak => "weak",
        EdgeKind::Final => "final",
        EdgeKind::Phantom => "phantom",
    }
}

/// The kind of reference objects that a word spells.
pub(crate) fn read_kind(word: &[u8]) -> Option<RefKind>
    ensures { result ≡ kind_of_word word.now }
{
    if word == kind_text(EdgeKind::Soft).as_bytes() {
        Some(RefKind::Soft)
    } else if word == kind_text(EdgeKind::Weak).as_bytes() {
        Some(RefKind::Weak)
    } else if word == kind_text(EdgeKind::Final).as_bytes() {
        Some(RefKind::Final)
    } else if word == kind_text(EdgeKind::Phantom).as_bytes() {
        Some(RefKind::Phantom)
    } else {
        None
    }
}
