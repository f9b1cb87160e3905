//! A text of values, line by line.

ghost use Rattle.std.specs.Prelude.{◌≡◌};
ghost use Rattle.values.specs.Values.{values_of};

use crate::draft::Draft;
use crate::faults::ValuesFault;
use listing::Routine;
use run::Memory;

/// The memory that the text gives to the routine's scalars and arrays; or the first line that is refused.
pub fn read_values(text: &[u8], routine: &Routine) -> Result<Memory, ValuesFault>
    ensures { result ≡ values_of routine.now.listing text.now }
{
    let mut draft = Draft::empty();
    // Behind a last newline stands an empty line, which says nothing.
    for (above, line) in text.split(|byte| *byte == b'\n').enumerate() {
        draft.put_line(routine, line).map_err(|reason| ValuesFault {
            line: above + 1,
            reason,
        })?;
    }
    Ok(draft.memory())
}
