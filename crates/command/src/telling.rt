//! How to call, and what is wrong with a call, in words.

ghost use Rattle.std.specs.Prelude.{◌≡◌, IfOk, string_bytes};
ghost use Rattle.command.specs.Texts.{word_in, fault_text};

use crate::calling::CallFault;
use std::alloc::{AllocError, Global};

/// How to call.
pub const USAGE: &str =
    "usage: bench show FILE                                    show a listing node by node, or say why it is refused\n       bench clear FILE --levels TABLE [OPTION VALUE]..   say whether the routine is cleared, or where it leaks\n       bench run FILE --levels TABLE --values VALUES ..   clear it, run it, and file its leak lines\n       bench twin FILE --levels TABLE --values VALUES --other OTHER ..\n                                                          run it twice, and compare the leak lines\n       bench help                                         show this text\n\nFILE is a listing of at most 65536 bytes; - is standard input.\n\nOptions of clear, run and twin:\n  --levels TABLE     the level of each scalar, then of each array\n  --order ORDER      two (default): a table is a row of digits, 0 public and 1 secret\n                     owners: a table is a row of codes with commas, each the sum of 2 to the power of\n                     the number of each owner, 0 to 15, who may know\n  --listener LEVEL   the level of the listener; by default the least, public or nobody's\n  --model MODEL      what the listener hears: pc, baseline (default), line16 or line8;\n                     with tv+ in front also how long the operands of a division are\n\nOptions of run and twin:\n  --values VALUES    a file of start values: scalar K V, or array J I V, to a line; # begins a comment\n  --steps N          the most steps that are made, up to 1000000; by default 10000\n  --lines OUT        run: the file that the leak lines are written to; by default standard output\n  --other OTHER      twin: the start values of the second run\n\nexamples: bench show examples/lookup.lst\n          bench clear examples/lookup.lst --levels 100 --model line16\n          bench clear examples/lookup.lst --order owners --levels 9,1,1 --listener 1\n          bench run examples/loop.lst --levels 00000 --values examples/values/loop.txt\n          bench twin examples/lookup-repaired.lst --levels 100001 --values examples/values/lookup-repaired.txt \\\n                --other examples/values/lookup-repaired-other.txt\n\nThe status is 0; it is 1 where the listing is refused or leaks, or something went wrong.\n";

/// The word at that place; nothing, past the last.
pub fn word_at(words: &[String], place: usize) -> &str
    ensures { result.now ≡ word_in words.now place }
{
    // A match: of what `map_or` gives with the library's `as_str`, no proof tells here.
    match words.get(place) {
        Some(word) => word.as_str(),
        None => "",
    }
}

/// What is wrong with the call.
pub fn fault_text(heap: Global, fault: CallFault, words: &[String]) -> Result<String, AllocError>
    ensures { IfOk result (λ s. string_bytes s ≡ fault_text words.now fault) }
{
    let verb = word_at(words, 0);
    match fault {
        CallFault::NoCommand => String::from_str(heap, "no command"),
        CallFault::UnknownCommand => format!(in heap; "there is no command '{verb}'"),
        CallFault::WordAfterHelp => {
            let word = word_at(words, 1);
            format!(in heap; "{verb} stands alone, without '{word}'")
        }
        CallFault::UnknownOption { place } => {
            let word = word_at(words, place);
            format!(in heap; "{verb} has no option '{word}'")
        }
        CallFault::Repeated { option } => format!(in heap; "{option} is given twice"),
        CallFault::NoValue { option } => format!(in heap; "{option} wants a value"),
        CallFault::NoFile => format!(in heap; "{verb} wants a file"),
        CallFault::SecondFile { place } => {
            let word = word_at(words, place);
            format!(in heap; "{verb} takes one file, and not '{word}' too")
        }
        CallFault::Missing { option } => format!(in heap; "{verb} wants {option}"),
    }
}
