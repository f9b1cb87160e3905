//! The way of a start name to the operand that leaks it, node by node.

ghost use Rattle.std.specs.Prelude.{◌≡◌, ◌+◌, ◌-◌, ◌^◌, ◌<◌, IfOk, string_bytes};
ghost use Rattle.rules.specs.Routine.{node};
ghost use Rattle.listing.specs.Forms.{routine_of};
ghost use Rattle.findings.specs.Leaks.{way_text};
ghost use Rattle.findings.specs.WayTexts.{way_row, step_row, steps_text, origin_text};

use clearance::LeakSite;
use listing::Routine;
use path::{Origin, Path};
use reach::node_at;
use std::alloc::{AllocError, Global};
use texts::layout::right;
use texts::words::{letter, words};

/// A way through a routine to the place of a leak.
#[derive(Clone, Copy)]
pub(crate) struct Way<'a> {
    pub(crate) routine: &'a Routine,
    pub(crate) site: LeakSite,
    pub(crate) path: &'a Path,
}

impl<'a> Way<'a> {
    /// A node: its number, its letter, and what it does.
    fn row(&self, heap: Global, point: u32) -> Result<String, AllocError>
        ensures { IfOk result (λ s. string_bytes s ≡ way_row point (node (routine_of self.now.routine.now.listing) point)) }
    {
        let node = node_at(self.routine, point as usize);
        let name = right(heap, 4, u64::from(point))?;
        let letter = letter(node);
        let words = words(heap, node)?;
        format!(in heap; "{name}  {letter}  {words}\n")
    }

    /// The node of a step of the way, where it sets the scalar of the next place.
    fn step_row(&self, heap: Global, index: usize) -> Result<String, AllocError>
        requires { index + 1 < 2 ^ 64 }
        ensures { IfOk result (λ s. string_bytes s ≡ step_row (routine_of self.now.routine.now.listing) self.now.path.now index) }
    {
        let from = self.path.place(index);
        let to = self.path.place(index + 1);
        if node_at(self.routine, from.point as usize).sets(to.scalar) {
            self.row(heap, from.point)
        } else {
            Ok(String::new(heap))
        }
    }

    /// The nodes that carry the name from its first place to its last.
    fn steps_text(&self, heap: Global) -> Result<String, AllocError>
        ensures { IfOk result (λ s. string_bytes s ≡ steps_text (routine_of self.now.routine.now.listing) self.now.path.now 0 (self.now.path.now.count - 1)) }
    {
        let mut out = String::new(heap);
        let steps = self.path.count().saturating_sub(1);
        // Step i is from place i to the next, as `steps_text` in the specs counts them; a window of two places would be taken apart by index.
        for index in 0..steps {
            let row = self.step_row(heap, index)?;
            out.push_str(row.as_str())?;
        }
        Ok(out)
    }

    /// Where the name comes from: the scalar at the start, or the node that reads the array.
    fn origin_text(&self, heap: Global) -> Result<String, AllocError>
        ensures { IfOk result (λ s. string_bytes s ≡ origin_text (routine_of self.now.routine.now.listing) self.now.site.name self.now.path.now.origin) }
    {
        let name = self.site.name;
        match self.path.origin() {
            Origin::Start => format!(in heap; "start    scalar {name}\n"),
            Origin::Read { node } => self.row(heap, node),
        }
    }

    /// The way of the start name to the operand.
    pub(crate) fn text(&self, heap: Global) -> Result<String, AllocError>
        ensures { IfOk result (λ s. string_bytes s ≡ way_text (routine_of self.now.routine.now.listing) self.now.site self.now.path.now) }
    {
        let origin = self.origin_text(heap)?;
        let steps = self.steps_text(heap)?;
        let last = self.row(heap, self.site.node)?;
        format!(in heap; "\nway\n{origin}{steps}{last}")
    }
}
