//! A leak: where it is, what leaks, and past which bound.

ghost use Rattle.std.specs.Prelude.{◌≡◌, IfOk, string_bytes};
ghost use Rattle.findings.specs.Leaks.{operand_field, bound_array, bound_text, place_text, reason_text, site_text};

use crate::scene::Scene;
use clearance::{Bound, LeakSite};
use reach::{counts_of, node_at};
use rules::Node;
use settings::named::NamedLevel;
use std::alloc::{AllocError, Global};
use texts::layout::part_of;
use texts::refused::line_shown;

// An operand is a position in its node, as a field is one in its line.

/// The field of the line that has the operand.
fn operand_field(operand: u32) -> u32
    ensures { result ≡ operand_field operand }
{
    match operand {
        1 => 2,
        2 => 3,
        3 => 4,
        _ => 5,
    }
}

/// The array whose level the operand is held to; none where it is the listener's level.
fn bound_array(bound: Bound, node: Node) -> Option<u32>
    ensures { result ≡ bound_array bound node }
{
    match (bound, node) {
        (Bound::Array | Bound::Unnamed(_), Node::Write { array, .. }) => Some(array),
        _ => None,
    }
}

/// Where the leak is: the line of the node, with the operand marked.
fn place_text(heap: Global, bytes: &[u8], arrays: u32, site: LeakSite) -> Result<String, AllocError>
    ensures { IfOk result (λ s. string_bytes s ≡ place_text bytes.now arrays site) }
{
    let point = site.node;
    let operand = site.operand;
    let line = 1 + arrays as usize + point as usize;
    let shown = line_shown(heap, part_of(bytes, 51 * line, 50), operand_field(operand))?;
    format!(in heap; "\nleak at node {point}, operand {operand}\n{shown}")
}

impl<'a, L: NamedLevel> Scene<'a, L> {
    /// What the operand is held to.
    fn bound_text(&self, heap: Global, array: Option<u32>) -> Result<String, AllocError>
        ensures { IfOk result (λ s. string_bytes s ≡ bound_text L.named L.order self.now.routine.now.listing.counts.scalars self.now.levels.now self.now.listener array) }
    {
        match array {
            Some(array) => {
                let level = self.level_name(heap, self.scalars() as usize + array as usize)?;
                format!(in heap; "the level of array {array}, {level}")
            }
            None => {
                let level = self.listener.name(heap)?;
                format!(in heap; "the listener's level, {level}")
            }
        }
    }

    /// What leaks, and past which bound.
    fn reason_text(&self, heap: Global, name: u32, array: Option<u32>) -> Result<String, AllocError>
        ensures { IfOk result (λ s. string_bytes s ≡ reason_text L.named L.order self.now.routine.now.listing.counts.scalars self.now.levels.now self.now.listener name array) }
    {
        let start = self.start_name(heap, name as usize)?;
        let level = self.level_name(heap, name as usize)?;
        let bound = self.bound_text(heap, array)?;
        format!(in heap;
            "\nWhat {start} holds at the start reaches this operand.\nIts level, {level}, does not flow to {bound}.\n"
        )
    }

    /// Where the leak is, what leaks, and past which bound.
    pub(crate) fn site_text(&self, heap: Global, site: LeakSite) -> Result<String, AllocError>
        ensures { IfOk result (λ s. string_bytes s ≡ site_text L.named L.order self.now.routine.now.listing self.now.bytes.now self.now.levels.now self.now.listener site) }
    {
        let counts = counts_of(self.routine);
        let array = bound_array(site.bound, node_at(self.routine, site.node as usize));
        let place = place_text(heap, self.bytes, counts.arrays, site)?;
        let reason = self.reason_text(heap, site.name, array)?;
        format!(in heap; "{place}{reason}")
    }
}
