//! The fitters' program: shows a listing, and says whether it is cleared or where it leaks.
#![tactic(auto)]

mod arguments;
mod clear;
mod failure;
mod input;
mod show;

use arguments::{USAGE, Verb, call_of, misuse_text, verb_of, word_at};
use failure::{Failure, tell};
use std::env;
use std::process::ExitCode;

/// The words after the program's name.
fn words_of(rt: &HostRuntime) -> Result<Vec<String>, Failure> {
    let words = env::args(rt).try_map_err(|error| {
        let text = format!(in rt.alloc(); "cannot read the call: {error}")?;
        Ok(Failure::Input { text })
    })?;
    Ok(words.skip(1).collect(rt.alloc())?)
}

/// Does what the call asks.
fn run(rt: &HostRuntime) -> Result<(), Failure> {
    let words = words_of(rt)?;
    let words = words.as_slice();
    match call_of(words.len(), verb_of(word_at(words, 0))) {
        Ok(Verb::Help) => {
            rt.print(USAGE)?;
            Ok(())
        }
        Ok(Verb::Show) => show::run(rt, word_at(words, 1)),
        Ok(Verb::Clear) => clear::run(rt, words),
        Err(misuse) => {
            let text = misuse_text(rt.alloc(), misuse, words)?;
            Err(Failure::Misuse { text })
        }
    }
}

fn main(rt: HostRuntime) -> ExitCode {
    match run(&rt) {
        Ok(()) => ExitCode::SUCCESS,
        Err(failure) => {
            tell(&rt, &failure);
            ExitCode::FAILURE
        }
    }
}
