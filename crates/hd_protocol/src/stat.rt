//! The counts of a dump, and the totals of each strength.
ghost use Rattle.std.specs.Prelude.{◌≡◌, ◌≤◌, [], ◌∷◌, ◌++◌, string_bytes, decimal, IfErr, IfOk, OnOk};
ghost use Rattle.std.specs.List.{flat_map};
ghost use Rattle.hd_terms.specs.Counts.{counts_of};
ghost use Rattle.hd_terms.specs.Totals.{IsTotal};
ghost use Rattle.hd_terms.specs.Workers.{IsWorkers};
ghost use Rattle.hd_terms.specs.declared.Strength.{Strength as OneStrength};
ghost use Rattle.hd_lines.specs.Replies.{with_newline, strength_name};
ghost use Rattle.hd_lines.specs.Stat.{IsStat, count_lines, repeated_line, total_line, total_lines};
ghost use Rattle.hd_totals.specs.Totals.{total_for};
ghost use Rattle.hd_protocol.specs.Serving.{IsOpenFault};
ghost use Rattle.hd_protocol.specs.Stating.{IsStatOf, StatsDump, shown_total};

use crate::run::{RunFault, open_nameless};
use crate::serving::{flush, put_all};
use hd_graph::Graph;
use hd_queries::opening_totals;
use hd_terms::{Counts, Mode, NoMemory, Strength};
use hd_totals::{StrengthTotals, Total};
use hd_words::{put_decimal, strength_text};
use std::alloc::{AllocError, Global};
use std::convert::AsSlice;
use std::io::Write;
use std::random::RandomSource;
use std::thread::{Threads, join};

/// Puts the lines of counts behind a text.
fn put_counts(text: &mut String, counts: Counts) -> Result<(), AllocError>
    ensures { OnOk result (string_bytes text.new ≡ string_bytes text.old ++ flat_map with_newline (count_lines counts)) }
{
    put_count(text, "objects ", counts.objects)?;
    put_count(text, "roots ", counts.roots)?;
    put_count(text, "edges ", counts.edges)?;
    put_count(text, "unresolved ", counts.unresolved)?;
    put_repeated(text, counts)?;
    put_count(text, "opaque ", counts.opaque)?;
    Ok(())
}

/// Puts the line of what is repeated behind a text.
fn put_repeated(text: &mut String, counts: Counts) -> Result<(), AllocError>
    ensures { OnOk result (string_bytes text.new ≡ string_bytes text.old ++ with_newline (repeated_line counts)) }
{
    text.push_str("repeated ")?;
    put_decimal(text, counts.repeated_objects)?;
    text.push(' ')?;
    put_decimal(text, counts.repeated_strings)?;
    text.push(' ')?;
    put_decimal(text, counts.repeated_loads)?;
    text.push('\n')?;
    Ok(())
}

/// Puts the line of one count behind a text.
fn put_count(text: &mut String, name: &str, count: u64) -> Result<(), AllocError>
    ensures { OnOk result (string_bytes text.new ≡ string_bytes text.old ++ with_newline (name.now ++ decimal count)) }
{
    text.push_str(name)?;
    put_decimal(text, count)?;
    text.push('\n')?;
    Ok(())
}

/// Puts the line of a strength behind a text.
fn put_total(text: &mut String, strength: Strength, total: Total) -> Result<(), AllocError>
    ensures { OnOk result (string_bytes text.new ≡ string_bytes text.old ++ with_newline (total_line strength (shown_total total))) }
{
    text.push_str(strength_text(strength))?;
    text.push(' ')?;
    put_decimal(text, total.count)?;
    text.push(' ')?;
    put_decimal(text, total.bytes)?;
    text.push('\n')?;
    Ok(())
}

/// Puts a line for each strength behind a text, from the best.
fn put_totals(text: &mut String, totals: &StrengthTotals) -> Result<(), AllocError>
    ensures { OnOk result (string_bytes text.new ≡ string_bytes text.old ++ flat_map with_newline (total_lines (λ (s : OneStrength). shown_total (total_for totals.now s)))) }
{
    put_total(text, Strength::Strong, totals.of(Strength::Strong))?;
    put_total(text, Strength::Soft, totals.of(Strength::Soft))?;
    put_total(text, Strength::Weak, totals.of(Strength::Weak))?;
    put_total(text, Strength::Final, totals.of(Strength::Final))?;
    put_total(text, Strength::Phantom, totals.of(Strength::Phantom))?;
    put_total(
        text,
        Strength::Unreachable,
        totals.of(Strength::Unreachable),
    )?;
    Ok(())
}

/// The counts of a dump, and the totals of each strength with no edit. The slots are counted while the strengths are
/// computed; where the system refuses a thread, one after the other.
fn stat_text<T: Threads + Sync>(rt: &T, alloc: Global, graph: &Graph) -> Result<String, NoMemory>
    ensures { IfOk result (λ text. IsStat graph.now (string_bytes text)) }
{
    let (totals, counts) = join(
        rt,
        || -> Result<StrengthTotals, NoMemory>
            ensures { IfOk result (λ t. (s : OneStrength) → IsTotal graph.entry.now [] s (total_for t s).count (total_for t s).bytes) }
        { opening_totals(rt, alloc, graph) },
        || -> Counts
            ensures { result ≡ counts_of graph.entry.now }
        { graph.counts() },
    );
    let totals = totals?;
    let mut text = String::new(alloc);
    put_counts(&mut text, counts)?;
    put_totals(&mut text, &totals)?;
    Ok(text)
}

/// Opens the bytes of a dump, and makes the text of its counts and totals. The bytes are given up before the strengths are
/// computed.
fn stat_of_bytes<T: AllocGlobal + RandomSource + Threads + Sync, B: AsSlice<u8> + Drop>(
    rt: &T,
    bytes: B,
    workers: u32,
    mode: Mode,
) -> Result<String, RunFault>
    requires workers { IsWorkers workers }
    ensures ok { IfOk result (λ text. IsStatOf mode (B.items bytes) (string_bytes text)) }
    ensures err { IfErr result (λ f. IsOpenFault (B.items bytes) f) }
{
    let graph = open_nameless(rt, bytes.as_slice(), workers, mode)?;
    drop(bytes);
    let text = stat_text(rt, rt.alloc(), &graph)?;
    Ok(text)
}

/// Opens the bytes of a dump and writes its counts and totals. The bytes, any that can be read as a slice, are given up as soon as
/// the dump is open.
///
/// `workers` is the number of threads that decode, 1 to 16; `mode` says how far phantom references are followed.
pub fn stat_bytes<T: AllocGlobal + RandomSource + Threads + Sync, B: AsSlice<u8> + Drop, W: Write>(
    rt: &T,
    bytes: B,
    workers: u32,
    mode: Mode,
    output: &mut W,
) -> Result<(), RunFault>
    requires workers { IsWorkers workers }
    ensures { StatsDump mode (B.items bytes) (W.contents output.old) (W.contents output.new) result }
{
    let text = stat_of_bytes(rt, bytes, workers, mode)?;
    put_all(output, text.as_bytes())?;
    flush(output)?;
    Ok(())
}
