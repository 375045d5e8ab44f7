//! Chains as lines: the root, and then the links.
ghost use Rattle.std.specs.Prelude.{◌≡◌, ◌<◌, length, string_bytes, IfOk};
ghost use Rattle.hd_lines.specs.Replies.{chain_start, root_kind};
ghost use Rattle.hd_queries.specs.ChainFound.{root_of};

use crate::naming::put_object_name;
use crate::places::Places;
use hd_graph::Graph;
use hd_queries::{Chain, Link};
use hd_terms::RootKind;
use hd_words::{LineFormat, kind_text, put_decimal, put_slot, root_text};
use std::alloc::{AllocError, Global};
use std::fmt::Write;

/// Links as lines: `SLOT KIND ID`, and with names `NAME PLACE`. The IDs are those of a graph.
#[derive(Drop)]
pub(crate) struct LinkLines<'a> {
    pub(crate) places: Places<'a>,
    pub(crate) names: bool,
}

impl LineFormat for LinkLines<'_> {
    type Row = Link;

    ghost use Rattle.std.specs.Prelude.{length};
    ghost use Rattle.hd_queries.specs.ChainFound.{IsWithin};

    ghost can_write = { λ lines link. IsWithin (length lines.places.objects) link };

    ghost use Rattle.hd_analyst.specs.ChainLines.{link_text};

    ghost line = { λ lines link. link_text lines.places lines.names link };

    fn put(&mut self, text: &mut String, row: &Link) -> Result<(), AllocError> {
        put_slot(text, row.slot)?;
        let kind = kind_text(row.kind);
        let graph = self.places.graph();
        let id = graph.id_of(row.target);
        write!(text, " {kind} 0x{id:x}")?;
        if self.names {
            text.push(' ')?;
            put_object_name(text, graph, row.target)?;
            text.push(' ')?;
            self.places.put(text, row.source, row.slot)?;
        }
        Ok(())
    }
}

/// The kind of the root of a number, none where it isn't one of the dump's.
fn kind_of_root(graph: &Graph, root: u64) -> Option<RootKind>
    ensures { result ≡ root_kind graph.now root }
{
    if root >= u64::from(graph.roots_len()) {
        return None;
    }
    Some(graph.roots(root as u32).kind)
}

/// The line of a chain's root.
pub(crate) fn start_text(
    alloc: Global,
    graph: &Graph,
    names: bool,
    chain: &Chain,
) -> Result<String, AllocError>
    requires { chain.now.start < length graph.now.objects }
    ensures { IfOk result (λ text. string_bytes text ≡ chain_start graph.now names (root_of chain.now)) }
{
    let mut text = String::new(alloc);
    let kind = root_text(kind_of_root(graph, chain.root));
    let id = graph.id_of(chain.start);
    text.push_str("root ")?;
    put_decimal(&mut text, chain.root)?;
    write!(text, " {kind} 0x{id:x}")?;
    if names {
        text.push(' ')?;
        put_object_name(&mut text, graph, chain.start)?;
    }
    Ok(text)
}
