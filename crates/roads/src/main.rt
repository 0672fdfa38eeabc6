// Road files and road tables, for the shell: with one argument NODES a road table of so many nodes
// comes from standard input and goes as a road file to standard output; with no argument, a road
// file as a road table.
#![tactic(auto)]

mod shell;
mod to_file;
mod to_table;

use std::env::{Env, FillError};

// The node count that the argument is.
fn with_nodes(word: &[u8]) {
    match numerals::read(word, 0) {
        Some(number) if number.next == word.len() => to_file::run(number.value),
        _ => shell::usage(),
    }
}

// An argument of more than 16 bytes is read as an empty one.
fn main(rt: HostRuntime) {
    let mut word = [0u8; 16];
    match rt.arg(1, &mut word) {
        Ok(n) => with_nodes(&word[..n]),
        Err(FillError::TooLong) => with_nodes(&[]),
        Err(FillError::NotPresent) => to_table::run(),
    }
}
