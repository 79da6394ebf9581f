//! Lines of text: words parted by blanks, decimal numbers, and octets in hexadecimal.
#![tactic(auto)]

ghost use Rattle.std.specs.Prelude.{◌≡◌, ℕ, ◌/◌, ◌≤◌, Bool, List, length, IfOk, vec_items};
ghost use Rattle.std.specs.Option.{option_map};
ghost use Rattle.std.specs.List.{prefix_len};
ghost use Rattle.text.specs.declared.ParseError.TheVariants.{Memory};
ghost use Rattle.text.specs.Words.{Tests, blank, hex_digit, word_of, rest_of, number_of, hex_value, pairs, octets_in};

use std::alloc::{AllocError, Global};
use std::fmt;

/// Why a text was not read.
#[derive(Drop)]
pub enum ParseError<P> {
    /// memory was wanting
    Memory(AllocError),
    /// what is wrong with the text
    Unreadable(P),
}

impl<P> From<AllocError> for ParseError<P> {
    ghost from_gives = { λ e r. r ≡ Memory e };

    fn from(e: AllocError) -> ParseError<P> {
        ParseError::Memory(e)
    }
}

/// Whether a character parts words.
fn is_blank(b: u8) -> bool
    ensures value { result ≡ blank b }
{
    matches!(b, b' ' | b'\t' | b'\r')
}

/// How many characters at the start of the text pass the test.
fn run_of<F: Fn(u8) -> bool>(text: &[u8], is: F) -> usize
    requires { F.IsAlwaysCallable is }
    ensures value { (sort : ℕ → Bool) → Tests (F.post is) sort → result ≡ prefix_len sort text.now }
    ensures within { result ≤ length text.now }
{
    text.iter().take_while(|b| is(**b)).count()
}

/// The first word of a text, and the text after it.
pub fn split_word(text: &[u8]) -> (&[u8], &[u8])
    ensures first { result.0.now ≡ word_of text.now }
    ensures second { result.1.now ≡ rest_of text.now }
{
    let (_, trimmed) = text.split_at(run_of(text, is_blank));
    trimmed.split_at(run_of(trimmed, |b| !is_blank(b)))
}

/// The value of one to nine decimal digits; none of anything else.
pub fn number(word: &[u8]) -> Option<u32>
    ensures value { result ≡ number_of word.now }
{
    if word.is_empty() || word.len() > 9 || run_of(word, |b| b.is_ascii_digit()) != word.len() {
        return None;
    }
    let mut value = 0u32;
    for b in word {
        value = value * 10 + u32::from(*b - 48);
    }
    Some(value)
}

/// The value of a hexadecimal digit.
fn hex_value(b: u8) -> u8
    ensures value { result ≡ hex_value b }
{
    match b {
        0..=b'9' => b.saturating_sub(b'0'),
        b':'..=b'F' => b.saturating_sub(b'A' - 10),
        _ => b.saturating_sub(b'a' - 10),
    }
}

/// The octets of pairs of hexadecimal digits.
fn hex_pairs(heap: Global, word: &[u8]) -> Result<Vec<u8>, AllocError>
    requires { length word.now ≡ prefix_len hex_digit word.now }
    ensures value { IfOk result (λ v. v.items ≡ pairs word.now (length word.now / 2)) }
{
    let mut octets = Vec::new(heap);
    let (pairs, _) = word.as_chunks::<2>();
    for [high, low] in pairs {
        octets.push(hex_value(*high) * 16 + hex_value(*low))?;
    }
    Ok(octets)
}

/// The octets that a word gives in hexadecimal, two digits each, or none where it gives none; `-` gives no octets.
pub fn octets(heap: Global, word: &[u8]) -> Result<Option<Vec<u8>>, AllocError>
    ensures value { IfOk result (λ o. option_map vec_items o ≡ octets_in word.now) }
{
    let n = word.len();
    if word == b"-".as_slice() {
        return Ok(Some(Vec::new(heap)));
    }
    if n == 0 || n % 2 != 0 || run_of(word, |b| b.is_ascii_hexdigit()) != n {
        return Ok(None);
    }
    Ok(Some(hex_pairs(heap, word)?))
}

/// Octets, shown in hexadecimal, two digits each.
#[derive(Clone, Copy)]
pub struct Hex<'a>(pub &'a [u8]);

impl fmt::Display for Hex<'_> {
    fn fmt<W: fmt::Write>(&self, f: &mut fmt::Formatter<W>) -> fmt::Result {
        for b in self.0 {
            write!(f, "{b:02x}")?;
        }
        Ok(())
    }
}
