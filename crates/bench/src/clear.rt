//! The command `clear`: whether a routine is cleared, or where it leaks.

use crate::arguments::{Options, option_fault_text, word_at};
use crate::failure::Failure;
use crate::input::read;
use findings::{NotCleared, clear_listing};
use levels::{Level, Owners, Secrecy};
use settings::model::Layered;
use settings::named::NamedLevel;
use settings::tables::TableLevel;
use std::alloc::Global;

/// An order of levels.
#[derive(Clone, Copy, Debug, PartialEq, Eq)]
enum Order {
    Two,
    Owners,
}

/// The order that is chosen, or else the two levels.
fn order_of(heap: Global, value: Option<&str>) -> Result<Order, Failure> {
    match value.unwrap_or("two") {
        "two" => Ok(Order::Two),
        "owners" => Ok(Order::Owners),
        word => {
            let text = format!(in heap; "--order is two or owners, and not '{word}'")?;
            Err(Failure::Misuse { text })
        }
    }
}

/// The model that is chosen, or else baseline.
fn model_of(heap: Global, value: Option<&str>) -> Result<Layered, Failure> {
    let word = value.unwrap_or("baseline");
    let Ok(model) = word.parse() else {
        let text = format!(in heap;
            "--model is pc, baseline, line16 or line8, or one of these after tv+, and not '{word}'"
        )?;
        return Err(Failure::Misuse { text });
    };
    Ok(model)
}

/// The table that the word of an option holds.
fn table_of<L: TableLevel>(heap: Global, option: &str, word: &str) -> Result<Vec<L>, Failure> {
    let Some(levels) = L::table(heap, word.as_bytes())? else {
        let wanted = L::table_words();
        let text = format!(in heap; "{option} has {wanted}, and is not '{word}'")?;
        return Err(Failure::Misuse { text });
    };
    Ok(levels)
}

/// The only level of the table that the word holds.
fn only_level<L: TableLevel>(heap: Global, option: &str, word: &str) -> Result<L, Failure> {
    let levels = table_of(heap, option, word)?;
    let [level] = levels.as_slice() else {
        let text = format!(in heap; "{option} is one level, and not '{word}'")?;
        return Err(Failure::Misuse { text });
    };
    Ok(*level)
}

/// Clears the listing in the file, and prints what is found.
fn print_finding<L: NamedLevel>(
    rt: &HostRuntime,
    file: &str,
    model: Layered,
    levels: &[L],
    listener: L,
) -> Result<(), Failure> {
    let bytes = read(rt, file)?;
    match clear_listing(rt.alloc(), bytes.as_slice(), model, levels, listener) {
        Ok(text) => {
            rt.print(text)?;
            Ok(())
        }
        Err(NotCleared::Leaking { text } | NotCleared::Refused { text }) => {
            rt.print(text)?;
            Err(Failure::Refused)
        }
        Err(NotCleared::NoMemory) => Err(Failure::Stuck),
    }
}

/// What is cleared, and how.
#[derive(Clone, Copy)]
struct Clearing<'a> {
    file: &'a str,
    model: Layered,
    table: &'a str,
    listener: Option<&'a str>,
}

impl Clearing<'_> {
    /// Clears under an order of levels; the listener is the least level where none is given.
    fn under<L: TableLevel>(&self, rt: &HostRuntime) -> Result<(), Failure> {
        let heap = rt.alloc();
        let levels = table_of(heap, "--levels", self.table)?;
        let listener = match self.listener {
            Some(word) => only_level(heap, "--listener", word)?,
            None => L::least(),
        };
        print_finding(rt, self.file, self.model, levels.as_slice(), listener)
    }
}

/// The options of the call.
fn options_of<'a>(heap: Global, words: &'a [String]) -> Result<Options<'a>, Failure> {
    Options::of(words).try_map_err(|fault| {
        let text = option_fault_text(heap, fault, word_at(words, 0))?;
        Ok(Failure::Misuse { text })
    })
}

/// Clears the listing as the words ask.
pub fn run(rt: &HostRuntime, words: &[String]) -> Result<(), Failure> {
    let heap = rt.alloc();
    let options = options_of(heap, words)?;
    let order = order_of(heap, options.order)?;
    let model = model_of(heap, options.model)?;
    let Some(table) = options.levels else {
        let text = String::from_str(heap, "clear wants --levels")?;
        return Err(Failure::Misuse { text });
    };
    let clearing = Clearing {
        file: options.file,
        model,
        table,
        listener: options.listener,
    };
    match order {
        Order::Two => clearing.under::<Secrecy>(rt),
        Order::Owners => clearing.under::<Owners>(rt),
    }
}
