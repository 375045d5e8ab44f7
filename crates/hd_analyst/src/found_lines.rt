//! The answer to `find`: groups by their names, with how many objects of each strength they have.
ghost use Rattle.std.specs.Prelude.{◌≡◌, ◌∷◌, ◌++◌, decimal, string_bytes, IfOk, OnOk};
ghost use Rattle.std.specs.List.{flat_map};
ghost use Rattle.hd_terms.specs.declared.Strength.{Strength as OneStrength};
ghost use Rattle.hd_lines.specs.Names.{group_name};
ghost use Rattle.hd_lines.specs.Replies.{IsFound, falling_strengths};
ghost use Rattle.hd_totals.specs.Members.{member_count};
ghost use Rattle.memchr.specs.Find.{FindsNeedle};
ghost use Rattle.hd_analyst.specs.Found.{AreNamed, TellsFound, is_named};
ghost use Rattle.hd_analyst.specs.Replying.{IsWritten};

use crate::class_lines::put_group_name;
use crate::texts::Showing;
use hd_graph::Graph;
use hd_state::State;
use hd_terms::{Group, NoMemory, Strength};
use hd_words::{LineFormat, lines_text, put_decimal, put_group};
use memchr::memmem;
use std::alloc::{AllocError, Global};

/// The strengths, the greatest first.
const STRENGTHS: [Strength; 6] = [
    Strength::Strong,
    Strength::Soft,
    Strength::Weak,
    Strength::Final,
    Strength::Phantom,
    Strength::Unreachable,
];

/// Groups as lines: `G STRONG SOFT WEAK FINAL PHANTOM UNREACHABLE NAME`. The counts and the names are those of a state.
#[derive(Drop)]
struct FoundLines<'a> {
    state: &'a State,
}

impl LineFormat for FoundLines<'_> {
    type Row = Group;

    ghost can_write = { λ _ _. Unit {0} };

    ghost use Rattle.hd_analyst.specs.Found.{found_text};

    ghost line = { λ lines group. found_text lines.state.now group };

    fn put(&mut self, text: &mut String, group: &Group) -> Result<(), AllocError> {
        put_group(text, *group)?;
        put_counts(text, self.state, *group)?;
        text.push(' ')?;
        put_group_name(text, self.state.graph(), *group)
    }
}

/// Puts a count behind a text, behind a space.
fn put_count(text: &mut String, count: u64) -> Result<(), AllocError>
    ensures { OnOk result (string_bytes text.new ≡ string_bytes text.old ++ 32 ∷ decimal count) }
{
    text.push(' ')?;
    put_decimal(text, count)
}

/// Puts how many objects of a group have each strength behind a text, each number behind a space.
fn put_counts(text: &mut String, state: &State, group: Group) -> Result<(), AllocError>
    ensures { OnOk result (string_bytes text.new ≡ string_bytes text.old ++ flat_map (λ (s : OneStrength). 32 ∷ decimal (member_count state.now.dump state.now.kept group s)) falling_strengths) }
{
    for strength in STRENGTHS {
        let (count, _bytes) = state.total(group, strength);
        put_count(text, count)?;
    }
    Ok(())
}

/// Whether the printed name of a group contains a text.
fn is_named(alloc: Global, graph: &Graph, group: Group, text: &[u8]) -> Result<bool, AllocError>
    ensures { IfOk result (TellsFound (group_name graph.now group) text.now) }
{
    let mut name = String::new(alloc);
    put_group_name(&mut name, graph, group)?;
    Ok(memmem::find(name.as_bytes(), text).is_some())
}

/// Those of the groups whose printed names contain a text.
fn named_groups(
    alloc: Global,
    graph: &Graph,
    groups: &[Group],
    text: &[u8],
) -> Result<Vec<Group>, NoMemory>
    ensures { IfOk result (λ named. AreNamed graph.now text.now groups.now named.items) }
{
    let mut named = Vec::new(alloc);
    for group in groups {
        if is_named(alloc, graph, *group, text)? {
            named.push(*group)?;
        }
    }
    Ok(named)
}

/// The answer to `find`: `ok N`, and a line for each group whose printed name contains the text.
pub(crate) fn find_text(
    alloc: Global,
    state: &State,
    text: &[u8],
    showing: Showing,
) -> Result<String, NoMemory>
    ensures { IfOk result (λ reply. IsWritten (IsFound state.now.dump state.now.log text.now) showing.most (string_bytes reply)) }
{
    let groups = state.groups(alloc)?;
    let named = named_groups(alloc, state.graph(), groups.as_slice(), text)?;
    let reply = lines_text(
        alloc,
        &mut FoundLines { state },
        named.as_slice(),
        showing.most,
    )?;
    Ok(reply)
}
