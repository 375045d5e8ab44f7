//! The words of roots and of how they stand.
ghost use Rattle.std.specs.Prelude.{◌≡◌};
ghost use Rattle.hd_lines.specs.Replies.{root_name, root_mode_name};

use hd_terms::{RootKind, RootMode};

/// A kind of root as it is printed; without one, that of a root that an edit added.
pub fn root_text(kind: Option<RootKind>) -> &'static str
    ensures { result.now ≡ root_name kind }
{
    match kind {
        None => "added",
        Some(RootKind::Unknown) => "unknown",
        Some(RootKind::JniGlobal) => "jni-global",
        Some(RootKind::JniLocal) => "jni-local",
        Some(RootKind::JavaFrame) => "java-frame",
        Some(RootKind::NativeStack) => "native-stack",
        Some(RootKind::StickyClass) => "sticky-class",
        Some(RootKind::ThreadBlock) => "thread-block",
        Some(RootKind::MonitorUsed) => "monitor-used",
        Some(RootKind::Thread) => "thread",
    }
}

/// How a root stands, as it is printed.
pub fn root_mode_text(mode: RootMode) -> &'static str
    ensures { result.now ≡ root_mode_name mode }
{
    match mode {
        RootMode::Stands => "stands",
        RootMode::Dropped => "dropped",
        RootMode::Absent => "absent",
    }
}
