//! Compares the compiled code with published figures and with whole sessions of an independent implementation. A figure that
//! differs ends it with status 1.
#![tactic(auto)]

use aes::Aes;
use anyhow::anyhow;
use cipher::{BlockCipher, WORKSPACE};
use recorded::{Problem, Stop, Tally};
use speck::Speck;
use std::fs;
use text::split_word;

mod sessions;

fn main(rt: HostRuntime) -> anyhow::Result<()> {
    run(&rt)
}

fn run(rt: &HostRuntime) -> anyhow::Result<()> {
    let mut tally = Tally::new();
    let figures = fs::read_to_string(rt, "figures.txt")?;
    for line in figures.lines() {
        let (sort, rest) = split_word(line.as_bytes());
        figure(rt, sort, rest, &mut tally)?;
    }
    sessions::compare_sessions(rt, &mut tally)?;
    let Tally { compared, wrong } = tally;
    println!(rt; "{compared} compared, {wrong} differ")?;
    if wrong != 0 {
        return Err(anyhow!("\"a figure differs\""));
    }
    Ok(())
}

/// Compares one published figure.
fn figure(rt: &HostRuntime, sort: &[u8], words: &[u8], tally: &mut Tally) -> anyhow::Result<()> {
    match sort {
        b"aes" => {
            print!(rt; "AES-128 block")?;
            report(rt, block_agrees::<Aes>(rt, words)?, tally)
        }
        b"aes-schedule" => {
            print!(rt; "AES-128 last round key")?;
            report(rt, last_round_key_agrees(rt, words)?, tally)
        }
        b"speck" => {
            print!(rt; "Speck128/128 block")?;
            report(rt, block_agrees::<Speck>(rt, words)?, tally)
        }
        b"aes-xcbc" => {
            print!(rt; "AES-XCBC result and tag")?;
            report(rt, result_agrees(rt, words)?, tally)
        }
        _ => Ok(()),
    }
}

/// Ends the line of what was compared.
pub(crate) fn report(rt: &HostRuntime, agrees: bool, tally: &mut Tally) -> anyhow::Result<()> {
    let word = tally.count(agrees);
    println!(rt; ": {word}")?;
    Ok(())
}

/// Why something was not read, in words for people.
pub(crate) fn told(stop: Stop) -> anyhow::Error {
    match stop {
        Stop::Memory(error) => anyhow::Error::from(error),
        Stop::Unreadable(problem) => unreadable(problem),
    }
}

/// What is wrong with a file, in words for people.
// `replay` words three of them otherwise, so that one Display in `recorded` cannot say them for both.
pub(crate) fn unreadable(problem: Problem) -> anyhow::Error {
    match problem {
        Problem::Octets => anyhow!("\"a word of a figure is not hexadecimal\""),
        Problem::Length => anyhow!("\"a word of a figure has another length\""),
        Problem::Number => anyhow!("\"a private number is not a number\""),
        Problem::Cipher => anyhow!("\"the cipher of a session is another\""),
        Problem::Name => anyhow!("\"a line of a session has another name\""),
        Problem::Short => anyhow!("\"a message of a session is too short\""),
        Problem::Payload => anyhow!("\"a packet of a session has no payload\""),
    }
}

/// The octets of a word that has N of them.
fn fixed<const N: usize>(rt: &HostRuntime, word: &[u8]) -> anyhow::Result<[u8; N]> {
    recorded::fixed(rt.alloc(), word).map_err(told)
}

/// Key, plaintext and ciphertext of a cipher.
fn block_agrees<C: BlockCipher>(rt: &HostRuntime, words: &[u8]) -> anyhow::Result<bool> {
    let (key, rest) = split_word(words);
    let (plaintext, rest) = split_word(rest);
    let (ciphertext, _) = split_word(rest);
    let key = fixed(rt, key)?;
    let plaintext = fixed(rt, plaintext)?;
    let ciphertext = fixed(rt, ciphertext)?;
    Ok(cipher::block_under::<C>(&key, &plaintext, &mut [0; WORKSPACE]) == ciphertext)
}

/// Key and last round key of AES.
fn last_round_key_agrees(rt: &HostRuntime, words: &[u8]) -> anyhow::Result<bool> {
    let (key, rest) = split_word(words);
    let (last, _) = split_word(rest);
    let key = fixed(rt, key)?;
    let last = fixed::<16>(rt, last)?;
    let mut workspace = [0; WORKSPACE];
    Aes::prepare(&key, &mut workspace);
    Ok(workspace[160..176] == last[0..16])
}

/// Key, message and result of AES-XCBC; the tag is the first 12 octets of the result.
fn result_agrees(rt: &HostRuntime, words: &[u8]) -> anyhow::Result<bool> {
    let (key, rest) = split_word(words);
    let (message, rest) = split_word(rest);
    let (expected, _) = split_word(rest);
    let key = fixed(rt, key)?;
    let message = recorded::octets(rt.alloc(), message).map_err(told)?;
    let expected = fixed::<16>(rt, expected)?;
    let mut workspace = [0; WORKSPACE];
    let result = keyed::result::<Aes>(&key, &message, &mut workspace);
    let tag = keyed::tag::<Aes>(&key, &message, &mut workspace);
    Ok(result == expected && tag[0..12] == expected[0..12])
}
