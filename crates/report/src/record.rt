//! A loaded listing, shown: its counts, its arrays and its nodes, blocks indented.

ghost use Rattle.std.specs.Prelude.{◌≡◌, ◌+◌, ◌^◌, ◌<◌, ◌++◌, take, IfOk, string_bytes};
ghost use Rattle.report.specs.Records.{counts_text, region_row, regions_text, depth_after, row_depth, node_row, nodes_text, record_text};

use listing::{Counts, Listing};
use rules::{Node, Region};
use std::alloc::{AllocError, Global};
use texts::layout::{put_times, right};
use texts::words::{letter, words};

/// How many scalars, arrays and nodes there are.
fn counts_text(heap: Global, counts: Counts) -> Result<String, AllocError>
    ensures { IfOk result (λ s. string_bytes s ≡ counts_text counts) }
{
    let scalars = counts.scalars;
    let arrays = counts.arrays;
    let nodes = counts.nodes;
    format!(in heap; "scalars  {scalars}\narrays   {arrays}\nnodes    {nodes}\n")
}

/// An array: its number, start cell and length, and its first and last cell.
fn region_row(heap: Global, number: u64, region: Region) -> Result<String, AllocError>
    ensures { IfOk result (λ s. string_bytes s ≡ region_row number region) }
{
    let first = region.start;
    let last = (u64::from(region.start) + u64::from(region.length)).saturating_sub(1);
    let name = right(heap, 5, number)?;
    let start = right(heap, 7, u64::from(region.start))?;
    let length = right(heap, 8, u64::from(region.length))?;
    format!(in heap; "{name}{start}{length}  {first} to {last}\n")
}

/// The table of the arrays, if there are any.
fn regions_text(heap: Global, regions: &[Region]) -> Result<String, AllocError>
    ensures { IfOk result (λ s. string_bytes s ≡ regions_text regions.now) }
{
    let mut out = String::new(heap);
    if regions.is_empty() {
        return Ok(out);
    }
    out.push_str("\narray  start  length  cells\n")?;
    for (number, region) in regions.iter().enumerate() {
        let row = region_row(heap, number as u64, *region)?;
        out.push_str(row.as_str())?;
    }
    Ok(out)
}

/// How many blocks are open after the node, where `depth` are before it.
fn depth_after(depth: usize, node: Node) -> usize
    requires { depth + 1 < 2 ^ 64 }
    ensures { result ≡ depth_after depth node }
{
    match node {
        Node::If { .. } | Node::While { .. } => depth + 1,
        Node::EndIf { .. } | Node::EndWhile { .. } => depth.saturating_sub(1),
        _ => depth,
    }
}

/// How far the node is indented: an else and an end stand below their head.
fn row_depth(depth: usize, node: Node) -> usize
    ensures { result ≡ row_depth depth node }
{
    match node {
        Node::Else { .. } | Node::EndIf { .. } | Node::EndWhile { .. } => depth.saturating_sub(1),
        _ => depth,
    }
}

/// A node: its number, its letter, and what it does.
fn node_row(heap: Global, number: u64, depth: usize, node: Node) -> Result<String, AllocError>
    ensures { IfOk result (λ s. string_bytes s ≡ node_row number depth node) }
{
    let name = right(heap, 4, number)?;
    let letter = letter(node);
    let mut indent = String::new(heap);
    put_times(&mut indent, row_depth(depth, node), "  ")?;
    let words = words(heap, node)?;
    format!(in heap; "{name}  {letter}  {indent}{words}\n")
}

/// The nodes, if there are any.
fn nodes_text(heap: Global, nodes: &[Node]) -> Result<String, AllocError>
    ensures { IfOk result (λ s. string_bytes s ≡ nodes_text nodes.now) }
{
    let mut out = String::new(heap);
    if nodes.is_empty() {
        return Ok(out);
    }
    out.push_str("\nnode\n")?;
    let mut depth = 0;
    for (number, node) in nodes.iter().enumerate() {
        let row = node_row(heap, number as u64, depth, *node)?;
        out.push_str(row.as_str())?;
        depth = depth_after(depth, *node);
    }
    Ok(out)
}

/// The first items, as many as are counted.
fn front<T>(items: &[T], count: u32) -> &[T]
    ensures { result.now ≡ take count items.now }
{
    items.get(..count as usize).unwrap_or(items)
}

/// The record of a listing.
pub fn record_text(heap: Global, listing: &Listing) -> Result<String, AllocError>
    ensures { IfOk result (λ s. string_bytes s ≡ record_text listing.now) }
{
    let counts = counts_text(heap, listing.counts)?;
    let regions = regions_text(heap, front(&listing.regions, listing.counts.arrays))?;
    let nodes = nodes_text(heap, front(&listing.nodes, listing.counts.nodes))?;
    format!(in heap; "{counts}{regions}{nodes}")
}
