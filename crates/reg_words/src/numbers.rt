// Numbers in words.
ghost use Rattle.std.specs.Prelude.{◌≡◌};
ghost use Rattle.reg_words.specs.Numbers.{batch_in, connections_in, entries_in, number_in};
ghost use Rattle.reg_words.specs.Numbers.{place_in, port_in, seed_in, size_in};

use crate::task::{BatchSize, Size};
use reg_base::Text;

/// How many connections are served at most.
const MOST_CONNECTIONS: u64 = 1_000_000;

/// How many entries of the log a batch goes over at most.
const MOST_ENTRIES: u64 = 1_000_000;

/// The number from `least` to `most` that 1 to 20 digits give; None for any other text.
fn number_in(text: &[u8], least: u64, most: u64) -> Option<u64>
    ensures { result ≡ number_in least most text.now }
{
    if text.is_empty() || text.len() > 20 {
        return None;
    }
    let (lowest, highest) = (u128::from(least), u128::from(most));
    let mut number: u128 = 0;
    for digit in text {
        if !digit.is_ascii_digit() {
            return None;
        }
        number = number * 10 + u128::from(*digit - b'0');
        if number > highest {
            return None;
        }
    }
    if number < lowest {
        None
    } else {
        Some(number as u64)
    }
}

/// The seed that a word names: a number below 2^64.
pub fn seed_in(word: &Text) -> Option<u64>
    ensures { result ≡ seed_in word.now }
{
    number_in(word.bytes(), 0, u64::MAX)
}

/// The size that a word names: a number from 2 to 500.
pub fn size_in(word: &Text) -> Option<Size>
    ensures { result ≡ size_in word.now }
{
    match number_in(word.bytes(), 0, u64::MAX) {
        Some(number) => Size::new(number),
        None => None,
    }
}

/// How many lines a word asks to answer together: a number from 1 to 10,000.
pub fn batch_in(word: &Text) -> Option<BatchSize>
    ensures { result ≡ batch_in word.now }
{
    match number_in(word.bytes(), 0, u64::MAX) {
        Some(number) => BatchSize::new(number),
        None => None,
    }
}

/// The port that a word names: a number from 0 to 65,535.
pub fn port_in(word: &Text) -> Option<u16>
    ensures { result ≡ port_in word.now }
{
    match number_in(word.bytes(), 0, 65_535) {
        Some(port) => Some(port as u16),
        None => None,
    }
}

/// How many connections a word asks for: a number from 1 to 1,000,000, which is also what is meant
/// without a word.
pub fn connections_in(word: &Option<Text>) -> Option<u64>
    ensures { result ≡ connections_in word.now }
{
    match word {
        Some(word) => number_in(word.bytes(), 1, MOST_CONNECTIONS),
        None => Some(MOST_CONNECTIONS),
    }
}

/// The place of a command that a word names: a number from 1 on, below 2^64. Without a word it is
/// the one that is meant then.
pub fn place_in(meant: u64, word: &Option<Text>) -> Option<u64>
    ensures { result ≡ place_in meant word.now }
{
    match word {
        Some(word) => number_in(word.bytes(), 1, u64::MAX),
        None => Some(meant),
    }
}

/// How many entries of the log a word allows: a number from 1 to 1,000,000.
pub fn entries_in(word: &Text) -> Option<u64>
    ensures { result ≡ entries_in word.now }
{
    number_in(word.bytes(), 1, MOST_ENTRIES)
}
