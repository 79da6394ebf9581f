//! Runs a script: one fob and one mixer make the calls that it writes, and what both ends do is shown.
//!
//! Reads the file named as its argument, else standard input; `help` as the argument prints a help text.
#![tactic(auto)]

use std::io::Read;
use std::{env, fs};

mod air;
mod changes;
mod drive;
mod help;
mod lines;
mod report;
mod setup;
mod stage;
mod summary;

fn main(rt: HostRuntime) -> anyhow::Result<()> {
    run(&rt)
}

// `inspect` reads its input in the same way: `text`, which both stand on, reads no files, and a crate for these few lines is no plainer.
fn run(rt: &HostRuntime) -> anyhow::Result<()> {
    let mut args = env::args(rt)?;
    let _program = args.next();
    let text = match args.next() {
        Some(word) if word.as_str() == "help" => return help::show(rt),
        Some(path) => fs::read(rt, path.as_str())?,
        None => {
            let mut text = Vec::new(rt.alloc());
            rt.stdin().read_to_end(&mut text)?;
            text
        }
    };
    simulate(rt, text.as_slice())
}

/// Reads the whole script, then sets both ends up, then makes its calls.
fn simulate(rt: &HostRuntime, text: &[u8]) -> anyhow::Result<()> {
    let script = lines::read(rt, text)?;
    setup::start(rt, script.as_slice())
}
