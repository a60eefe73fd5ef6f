ghost use Rattle.std.specs.Prelude.{◌≡◌, ◌-◌, ◌≤◌, Some, SomeIff};
ghost use Rattle.script.specs.Numbers.{script_number};
ghost use Rattle.script.specs.Words.{word_text, Names, Reads};

use std::error::Error;
use std::fmt;

// The words that a script knows.
#[derive(Clone, Copy, Debug, PartialEq, Eq, Hash)]
pub enum Word {
    Disk,
    Plain,
    Swapped,
    Worn,
    Power,
    Lend,
    Sector,
    Block,
    Scratch,
    Findings,
    Poke,
    Digest,
    Image,
    Buffers,
    Make,
    Find,
    Check,
    Clear,
    Close,
}

// One word of a line: a known word, or a number below 2^32.
#[derive(Clone, Copy, Debug, PartialEq, Eq, Hash)]
pub enum Token {
    Named(Word),
    Number(u32),
}

// A word that means nothing where it stands.
#[derive(Clone, Copy, Debug, PartialEq, Eq, Hash)]
pub struct UnknownWord;

impl Word {
    // Every word.
    const ALL: [Word; 19] = [
        Word::Disk,
        Word::Plain,
        Word::Swapped,
        Word::Worn,
        Word::Power,
        Word::Lend,
        Word::Sector,
        Word::Block,
        Word::Scratch,
        Word::Findings,
        Word::Poke,
        Word::Digest,
        Word::Image,
        Word::Buffers,
        Word::Make,
        Word::Find,
        Word::Check,
        Word::Clear,
        Word::Close,
    ];

    // The word as it stands in a line.
    pub fn as_str(self) -> &'static str
        ensures { result.now ≡ word_text self }
    {
        match self {
            Word::Disk => "disk",
            Word::Plain => "plain",
            Word::Swapped => "swapped",
            Word::Worn => "worn",
            Word::Power => "power",
            Word::Lend => "lend",
            Word::Sector => "sector",
            Word::Block => "block",
            Word::Scratch => "scratch",
            Word::Findings => "findings",
            Word::Poke => "poke",
            Word::Digest => "digest",
            Word::Image => "image",
            Word::Buffers => "buffers",
            Word::Make => "make",
            Word::Find => "find",
            Word::Check => "check",
            Word::Clear => "clear",
            Word::Close => "close",
        }
    }
}

impl fmt::Display for Word {
    ghost output = { λ w. Some (word_text w) };

    fn fmt<W: fmt::Write>(&self, f: &mut fmt::Formatter<W>) -> fmt::Result {
        f.write_str(self.as_str())
    }
}

impl TryFrom<&[u8]> for Word {
    type Error = UnknownWord;

    ghost try_from_gives = { λ text r. Names word_text text.now r };

    fn try_from(text: &[u8]) -> Result<Word, UnknownWord> {
        Word::ALL
            .iter()
            .copied()
            .find(|word| word.as_str().as_bytes() == text)
            .ok_or(UnknownWord)
    }
}

impl TryFrom<&[u8]> for Token {
    type Error = UnknownWord;

    ghost try_from_gives = { λ text r. Reads text.now r };

    fn try_from(text: &[u8]) -> Result<Token, UnknownWord> {
        match number_of(text) {
            Some(n) => Ok(Token::Number(n)),
            None => Ok(Token::Named(Word::try_from(text)?)),
        }
    }
}

impl fmt::Display for UnknownWord {
    fn fmt<W: fmt::Write>(&self, f: &mut fmt::Formatter<W>) -> fmt::Result {
        f.write_str("unknown word")
    }
}

impl Error for UnknownWord {}

// The value of a decimal digit.
fn digit(b: u8) -> Option<u32>
    ensures { SomeIff result ((48 ≤ b) × (b ≤ 57)) (b - 48) }
{
    match b {
        b'0'..=b'9' => Some(u32::from(b - b'0')),
        _ => None,
    }
}

// One or more digits that give a number below 2^32.
#[tactic(auto, using(crate::proofs::Decimals::all_met, crate::proofs::Decimals::too_large_at))]
fn number_of(text: &[u8]) -> Option<u32>
    ensures { result ≡ script_number text.now }
{
    if text.is_empty() {
        return None;
    }
    let mut n = 0u32;
    for b in text {
        n = n.checked_mul(10)?.checked_add(digit(*b)?)?;
    }
    Some(n)
}
