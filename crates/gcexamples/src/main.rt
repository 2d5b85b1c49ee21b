//! `gcexamples`, run in the folder `data`, which is `examples/` of the repository. Runs each
//! example from its files, and writes a line for each, `ok` if it gives what is stored. Ends with
//! status 1 if one does not.
#![tactic(auto)]

mod example;
mod folder;

use crate::example::{Outcome, outcome_of};
use crate::folder::examples_below;
use std::process::ExitCode;
use std::{fs, io};

/// The page with a line for each example.
const INDEX: &str = "README.md";

/// Runs the example, writes its line, and answers whether the result is as stored.
fn tell(rt: &HostRuntime, path: &str, index: &str) -> io::Result<bool> {
    let outcome = outcome_of(rt, path, index);
    let words = match &outcome {
        Ok(outcome) => outcome.words(),
        Err(_) => "a file is missing:",
    };
    println!(rt; "{words} {path}")?;
    Ok(matches!(outcome, Ok(Outcome::AsStored)))
}

fn main(rt: HostRuntime) -> io::Result<ExitCode> {
    let index = fs::read_to_string(&rt, INDEX)?;
    let mut are_as_stored = true;
    for path in examples_below(&rt, ".")?.iter() {
        are_as_stored &= tell(&rt, path.as_str(), index.as_str())?;
    }
    Ok(if are_as_stored {
        ExitCode::SUCCESS
    } else {
        ExitCode::FAILURE
    })
}
