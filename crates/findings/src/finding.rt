//! What a clearing finds of a listing.

ghost use Rattle.std.specs.Prelude.{◌≡◌, Err, IfOk, string_bytes};
ghost use Rattle.clearance.specs.declared.outcome.ClearFault.TheVariants.{Leak};
ghost use Rattle.findings.specs.declared.finding.NotCleared.TheVariants.{NoMemory};
ghost use Rattle.findings.specs.Findings.{table_text, Told, WayTold, Found};

use crate::scene::Scene;
use crate::way::Way;
use clearance::{ClearFault, Examination, LeakSite, examine};
use listing::{Counts, load};
use path::leak_path;
use reach::counts_of;
use settings::model::Layered;
use settings::named::NamedLevel;
use std::alloc::{AllocError, Global};
use texts::refused::refusal_text;

/// Why a listing is not cleared.
#[derive(Debug, Drop)]
pub enum NotCleared {
    /// It leaks, and the text names the leak.
    Leaking { text: String },
    /// It does not load, or the table has another length, and the text says so.
    Refused { text: String },
    /// There is no memory left.
    NoMemory,
}

impl From<AllocError> for NotCleared {
    ghost from_gives = { λ _ reason. reason ≡ NoMemory };

    fn from(_error: AllocError) -> NotCleared {
        NotCleared::NoMemory
    }
}

/// Why the table is refused.
fn table_text(heap: Global, counts: Counts, given: usize) -> Result<String, AllocError>
    ensures { IfOk result (λ s. string_bytes s ≡ table_text counts given) }
{
    let scalars = counts.scalars;
    let arrays = counts.arrays;
    let wanted = scalars as u64 + arrays as u64;
    format!(in heap;
        "refusal 10\nThe table has {given} levels, and {wanted} are wanted: {scalars} for the scalars and {arrays} for the arrays.\n"
    )
}

/// The way of a leak, if there is one.
fn leak_way(heap: Global, exam: &Examination<Layered>, site: LeakSite) -> Result<String, AllocError>
    requires { exam.now.outcome ≡ Err (Leak site) }
    ensures { IfOk result (λ s. WayTold exam.now.routine.listing site (string_bytes s)) }
{
    let Some(path) = leak_path(exam) else {
        return Ok(String::new(heap));
    };
    let way = Way {
        routine: exam.routine(),
        site,
        path: &path,
    };
    way.text(heap)
}

/// What the examination comes to, in words.
fn finding_of<L: NamedLevel>(
    heap: Global,
    exam: &Examination<Layered>,
    bytes: &[u8],
    levels: &[L],
    listener: L,
) -> Result<String, NotCleared>
    ensures { Told L.named L.told L.order bytes.now exam.now.model levels.now listener exam.now.routine.listing exam.now.outcome result }
{
    let scene = Scene {
        bytes,
        routine: exam.routine(),
        model: exam.model(),
        levels,
        listener,
    };
    match exam.outcome() {
        Err(ClearFault::TableLength) => {
            let text = table_text(heap, counts_of(scene.routine), levels.len())?;
            Err(NotCleared::Refused { text })
        }
        Ok(()) => {
            let who = scene.who_text(heap)?;
            let text = format!(in heap; "{who}\ncleared\n")?;
            Ok(text)
        }
        Err(ClearFault::Leak(site)) => {
            let who = scene.who_text(heap)?;
            let place = scene.site_text(heap, site)?;
            let way = leak_way(heap, exam, site)?;
            let text = format!(in heap; "{who}{place}{way}")?;
            Err(NotCleared::Leaking { text })
        }
    }
}

/// Loads the listing and clears it: the record of its clearance, or why it is not cleared.
pub fn clear_listing<L: NamedLevel>(
    heap: Global,
    bytes: &[u8],
    model: Layered,
    levels: &[L],
    listener: L,
) -> Result<String, NotCleared>
    ensures { Found L.named L.told L.order bytes.now model levels.now listener result }
{
    match load(bytes) {
        Ok(routine) => {
            let exam = examine(routine, model, levels, listener);
            finding_of(heap, &exam, bytes, levels, listener)
        }
        Err(fault) => {
            let text = refusal_text(heap, bytes, fault.into())?;
            Err(NotCleared::Refused { text })
        }
    }
}
