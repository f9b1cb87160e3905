//! What a record tells of: the listing and its routine, the model, and who may know what.

ghost use Rattle.std.specs.Prelude.{◌≡◌, IfOk, string_bytes};
ghost use Rattle.levels.specs.Tables.{start_level};
ghost use Rattle.findings.specs.Who.{start_name, level_row, level_rows, who_text};

use listing::Routine;
use reach::counts_of;
use settings::model::Layered;
use settings::named::NamedLevel;
use std::alloc::{AllocError, Global};
use texts::layout::put_times;

/// The bytes of a listing and the routine that they hold, the model, and the levels of the start names and of the listener.
#[derive(Clone, Copy)]
pub(crate) struct Scene<'a, L> {
    pub(crate) bytes: &'a [u8],
    pub(crate) routine: &'a Routine,
    pub(crate) model: Layered,
    pub(crate) levels: &'a [L],
    pub(crate) listener: L,
}

impl<'a, L: NamedLevel> Scene<'a, L> {
    /// How many start names are scalars; the others are arrays.
    pub(crate) fn scalars(&self) -> u32
        ensures { result ≡ self.now.routine.now.listing.counts.scalars }
    {
        counts_of(self.routine).scalars
    }

    /// What the start name names: a scalar, or an array after the scalars.
    pub(crate) fn start_name(&self, heap: Global, name: usize) -> Result<String, AllocError>
        ensures { IfOk result (λ s. string_bytes s ≡ start_name self.now.routine.now.listing.counts.scalars name) }
    {
        let scalars = self.scalars() as usize;
        if name < scalars {
            format!(in heap; "scalar {name}")
        } else {
            let array = name - scalars;
            format!(in heap; "array {array}")
        }
    }

    /// The level of the start name; the least where the table has none.
    fn start_level(&self, name: usize) -> L
        ensures { result ≡ start_level L.order self.now.levels.now name }
    {
        self.levels.get(name).copied().unwrap_or(L::least())
    }

    /// The level of the start name, by its name.
    pub(crate) fn level_name(&self, heap: Global, name: usize) -> Result<String, AllocError>
        ensures { IfOk result (λ s. string_bytes s ≡ L.named (start_level L.order self.now.levels.now name)) }
    {
        self.start_level(name).name(heap)
    }

    /// The start name and its level.
    fn level_row(&self, heap: Global, name: usize, level: L) -> Result<String, AllocError>
        ensures { IfOk result (λ s. string_bytes s ≡ level_row self.now.routine.now.listing.counts.scalars name (L.named level)) }
    {
        let name = self.start_name(heap, name)?;
        let level = level.name(heap)?;
        let mut gap = String::new(heap);
        put_times(&mut gap, 10usize.saturating_sub(name.len()), " ")?;
        format!(in heap; "{name}{gap}{level}\n")
    }

    /// The level of each name.
    fn level_rows(&self, heap: Global) -> Result<String, AllocError>
        ensures { IfOk result (λ s. string_bytes s ≡ level_rows L.named self.now.routine.now.listing.counts.scalars 0 self.now.levels.now) }
    {
        let mut out = String::new(heap);
        for (name, level) in self.levels.iter().enumerate() {
            let row = self.level_row(heap, name, *level)?;
            out.push_str(row.as_str())?;
        }
        Ok(out)
    }

    /// Who may know what.
    pub(crate) fn who_text(&self, heap: Global) -> Result<String, AllocError>
        ensures { IfOk result (λ s. string_bytes s ≡ who_text L.named L.told self.now.model self.now.routine.now.listing.counts.scalars self.now.levels.now self.now.listener) }
    {
        let order = L::order_words();
        let listener = self.listener.name(heap)?;
        let model = self.model;
        let rows = self.level_rows(heap)?;
        format!(in heap;
            "order     {order}\nlistener  {listener}\nmodel     {model}\n\nname      level\n{rows}"
        )
    }
}
