//! What single words give.
ghost use Rattle.std.specs.Prelude.{◌≡◌, vec_items};
ghost use Rattle.text.specs.declared.ParseError.TheVariants.{Unreadable};
ghost use Rattle.text.specs.Reading.{Reads};
ghost use Rattle.recorded.specs.Words.{octets_of, fixed_of, part_of, decimal_of, value_of, suite_of};

use std::alloc::Global;
use text::ParseError;

/// Why a line or a message gives nothing.
#[derive(Clone, Copy, PartialEq, Eq, Debug)]
pub enum Problem {
    /// a word that should be octets is not hexadecimal
    Octets,
    /// a word gives another number of octets
    Length,
    /// a word that should be a number is none
    Number,
    /// the cipher is another
    Cipher,
    /// the line has another name
    Name,
    /// a message is too short
    Short,
    /// a packet has no payload
    Payload,
}

/// Why something was not read.
pub type Stop = ParseError<Problem>;

// `capture` and `script` have the like; one for every problem, in `text`, conflicts with the one from `AllocError` there.
impl From<Problem> for ParseError<Problem> {
    ghost from_gives = { λ p r. r ≡ Unreadable p };

    fn from(problem: Problem) -> ParseError<Problem> {
        ParseError::Unreadable(problem)
    }
}

/// The cipher of a session.
#[derive(Clone, Copy, PartialEq, Eq, Debug)]
pub enum Suite {
    Aes,
    Speck,
}

impl TryFrom<&[u8]> for Suite {
    type Error = Problem;

    ghost try_from_gives = { λ w r. r ≡ suite_of w.now };

    fn try_from(word: &[u8]) -> Result<Suite, Problem> {
        match word {
            b"aes" => Ok(Suite::Aes),
            b"speck" => Ok(Suite::Speck),
            _ => Err(Problem::Cipher),
        }
    }
}

/// The octets of a word.
pub fn octets(heap: Global, word: &[u8]) -> Result<Vec<u8>, Stop>
    ensures value { Reads vec_items result (octets_of word.now) }
{
    Ok(text::octets(heap, word)?.ok_or(Problem::Octets)?)
}

/// The octets of a word that has N of them.
pub fn fixed<const N: usize>(heap: Global, word: &[u8]) -> Result<[u8; N], Stop>
    ensures value { Reads (λ o. o) result (fixed_of N word.now) }
{
    let octets = octets(heap, word)?;
    Ok(<[u8; N]>::try_from(octets.as_slice()).map_err(|_| Problem::Length)?)
}

/// The N octets of a message from a place on.
pub fn part<const N: usize>(message: &[u8], place: usize) -> Result<[u8; N], Problem>
    ensures value { result ≡ part_of N message.now place }
{
    let rest = message.get(place..).ok_or(Problem::Short)?;
    rest.first_chunk::<N>().copied().ok_or(Problem::Short)
}

/// The value of decimal digits, where it has 32 bits.
fn value(word: &[u8]) -> Option<u32>
    ensures value { result ≡ value_of word.now }
{
    // Tried: `try_fold`; the proof did not close, since its contract speaks of the fold's runs alone.
    let mut value = 0u32;
    for b in word {
        if *b < b'0' || *b > b'9' {
            return None;
        }
        value = value.checked_mul(10)?.checked_add(u32::from(*b - b'0'))?;
    }
    Some(value)
}

/// The value of a decimal number of 32 bits.
pub(crate) fn decimal(word: &[u8]) -> Result<u32, Problem>
    ensures value { result ≡ decimal_of word.now }
{
    value(word).ok_or(Problem::Number)
}
