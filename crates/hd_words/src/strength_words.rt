//! The words of strengths, as they are written and read.
ghost use Rattle.std.specs.Prelude.{◌≡◌, ◌≤◌, length};
ghost use Rattle.hd_lines.specs.Lines.{strength_of_word};
ghost use Rattle.hd_lines.specs.Replies.{strength_name};

use hd_terms::Strength;

/// A strength as it is printed.
pub fn strength_text(strength: Strength) -> &'static str
    ensures name { result.now ≡ strength_name strength }
    ensures short { length result.now ≤ 16 }
{
    match strength {
        Strength::Unreachable => "UNREACHABLE",
        Strength::Phantom => "PHANTOM",
        Strength::Final => "FINAL",
        Strength::Weak => "WEAK",
        Strength::Soft => "SOFT",
        Strength::Strong => "STRONG",
    }
}

/// The strength that a word spells.
pub(crate) fn read_strength(word: &[u8]) -> Option<Strength>
    ensures { result ≡ strength_of_word word.now }
{
    if word == strength_text(Strength::Strong).as_bytes() {
        Some(Strength::Strong)
    } else if word == strength_text(Strength::Soft).as_bytes() {
        Some(Strength::Soft)
    } else if word == strength_text(Strength::Weak).as_bytes() {
        Some(Strength::Weak)
    } else if word == strength_text(Strength::Final).as_bytes() {
        Some(Strength::Final)
    } else if word == strength_text(Strength::Phantom).as_bytes() {
        Some(Strength::Phantom)
    } else if word == strength_text(Strength::Unreachable).as_bytes() {
        Some(Strength::Unreachable)
    } else {
        None
    }
}
