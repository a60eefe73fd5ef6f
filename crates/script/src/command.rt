ghost use Rattle.std.specs.Prelude.{◌≡◌, ℕ, ◌<◌, slice_index, slice_index_or, length, vec_len, IfOk, IfSome, IfNone};
ghost use Rattle.script.specs.Words.{Names, AreTokensOf, pieces};
ghost use Rattle.script.specs.Commands.{order_word, lent_word, call_word, chore_word, call_tokens, chore_tokens, command_tokens, IsBounded, IsBoundedChore};
ghost use Rattle.script.specs.declared.command.Call.{Call};
ghost use Rattle.script.specs.declared.token.Token.{Token};
ghost use Rattle.script.specs.declared.token.Token.TheVariants.{Number};
ghost use Rattle.script.specs.declared.command.LineError.TheVariants.{Memory, Bad};

use crate::poke::Poke;
use crate::token::Token::{Named, Number};
use crate::token::{Token, UnknownWord, Word};
use std::alloc::{AllocError, Global};
use std::error::Error;
use std::fmt;

// The bounds of the numbers in a script.
const MOST_SECTORS: u32 = 66000;

const MOST_WORN: usize = 400;

const MOST_LENT: u32 = 70000;

const MOST_FINDINGS: u32 = 1000;

// How the bytes lie below the pile: as they are, or with each pair exchanged.
#[derive(Clone, Copy, Debug, PartialEq, Eq, Hash)]
pub enum Order {
    Plain,
    Swapped,
}

// The buffers that a script lends to the calls.
#[derive(Clone, Copy, Debug, PartialEq, Eq, Hash)]
pub enum Lent {
    Sector,
    Block,
    Scratch,
}

// A call of the library.
#[derive(Clone, Copy, Debug, PartialEq, Eq, Hash)]
pub enum Call {
    Make { isize: u32, fsize: u32 },
    Find,
    Check,
    Clear,
    Close,
}

// What a line asks for that is no call of the library.
#[derive(Debug, PartialEq, Eq, Hash, Drop)]
pub enum Chore {
    Worn(Vec<u32>),
    Power(u32),
    Lend(Lent, u32),
    LendFindings(u32),
    Poke(Poke),
    Digest,
    Image,
    Buffers,
}

// A line of a script.
#[derive(Debug, PartialEq, Eq, Hash, Drop)]
pub enum Command {
    NewDisk { order: Order, sectors: u32 },
    Run(Call),
    Do(Chore),
}

// Why a line gives no command: the memory ran out, or the line asks for nothing that there is.
// No Hash, as AllocError has none.
#[derive(Clone, Copy, Debug, PartialEq, Eq)]
pub enum LineError {
    Memory(AllocError),
    Bad,
}

impl fmt::Display for LineError {
    fn fmt<W: fmt::Write>(&self, f: &mut fmt::Formatter<W>) -> fmt::Result {
        match self {
            LineError::Memory(error) => write!(f, "{error}"),
            LineError::Bad => write!(f, "bad line"),
        }
    }
}

impl Error for LineError {}

impl From<AllocError> for LineError {
    ghost from_gives = { λ e r. r ≡ Memory e };

    fn from(e: AllocError) -> LineError {
        LineError::Memory(e)
    }
}

impl From<UnknownWord> for LineError {
    ghost from_gives = { λ _ r. r ≡ Bad };

    fn from(_e: UnknownWord) -> LineError {
        LineError::Bad
    }
}

impl TryFrom<Word> for Order {
    type Error = UnknownWord;

    ghost try_from_gives = { λ w r. Names order_word w r };

    fn try_from(word: Word) -> Result<Order, UnknownWord> {
        match word {
            Word::Plain => Ok(Order::Plain),
            Word::Swapped => Ok(Order::Swapped),
            _ => Err(UnknownWord),
        }
    }
}

impl TryFrom<Word> for Lent {
    type Error = UnknownWord;

    ghost try_from_gives = { λ w r. Names lent_word w r };

    fn try_from(word: Word) -> Result<Lent, UnknownWord> {
        match word {
            Word::Sector => Ok(Lent::Sector),
            Word::Block => Ok(Lent::Block),
            Word::Scratch => Ok(Lent::Scratch),
            _ => Err(UnknownWord),
        }
    }
}

impl Call {
    // The word that the call's line begins with.
    pub fn word(self) -> Word
        ensures { result ≡ call_word self }
    {
        match self {
            Call::Make { .. } => Word::Make,
            Call::Find => Word::Find,
            Call::Check => Word::Check,
            Call::Clear => Word::Clear,
            Call::Close => Word::Close,
        }
    }

    // The call that a line of these tokens asks for.
    fn of(tokens: &[Token]) -> Option<Call>
        ensures asked { IfSome result (λ c. tokens.now ≡ call_tokens c) }
        ensures none { IfNone result ((c : Call) → ¬ (tokens.now ≡ call_tokens c)) }
    {
        match tokens {
            [Named(Word::Make), Number(isize), Number(fsize)] => Some(Call::Make {
                isize: *isize,
                fsize: *fsize,
            }),
            [Named(Word::Find)] => Some(Call::Find),
            [Named(Word::Check)] => Some(Call::Check),
            [Named(Word::Clear)] => Some(Call::Clear),
            [Named(Word::Close)] => Some(Call::Close),
            _ => None,
        }
    }
}

impl Chore {
    // The word that the chore's line begins with.
    pub fn word(&self) -> Word
        ensures { result ≡ chore_word self.now }
    {
        match self {
            Chore::Worn(_) => Word::Worn,
            Chore::Power(_) => Word::Power,
            Chore::Lend(..) | Chore::LendFindings(_) => Word::Lend,
            Chore::Poke(_) => Word::Poke,
            Chore::Digest => Word::Digest,
            Chore::Image => Word::Image,
            Chore::Buffers => Word::Buffers,
        }
    }

    // The chore that a line of these tokens asks for, but for one that names worn sectors.
    fn of(tokens: &[Token]) -> Option<Chore>
        ensures bounded { IfSome result IsBoundedChore }
        ensures asked { IfSome result (λ c. tokens.now ≡ chore_tokens c) }
    {
        match tokens {
            [Named(Word::Power), Number(n)] => Some(Chore::Power(*n)),
            [Named(Word::Lend), Named(Word::Findings), Number(n)] if *n <= MOST_FINDINGS => Some(
                Chore::LendFindings(*n),
            ),
            [Named(Word::Lend), Named(which), Number(n)] if *n <= MOST_LENT => {
                Some(Chore::Lend(Lent::try_from(*which).ok()?, *n))
            }
            [Named(Word::Poke), Number(sector), Number(at), Number(byte)] => {
                Some(Chore::Poke(Poke::new(*sector, *at, *byte)?))
            }
            [Named(Word::Digest)] => Some(Chore::Digest),
            [Named(Word::Image)] => Some(Chore::Image),
            [Named(Word::Buffers)] => Some(Chore::Buffers),
            _ => None,
        }
    }
}

// The tokens of a line.
fn tokens(heap: Global, line: &[u8]) -> Result<Vec<Token>, LineError>
    ensures { IfOk result (λ list. AreTokensOf (pieces line.now) list.items) }
{
    let mut list = Vec::new(heap);
    for text in line.split(|b| *b == b' ') {
        list.push(Token::try_from(text)?).map_err(AllocError::from)?;
    }
    Ok(list)
}

// The numbers that these tokens are.
fn numbers(heap: Global, tokens: &[Token]) -> Result<Vec<u32>, LineError>
    ensures len { IfOk result (λ list. length tokens.now ≡ vec_len list) }
    ensures each { IfOk result (λ list. (k : ℕ) (d : Token) → k < length tokens.now → slice_index_or tokens.now k d ≡ Number (slice_index list.items k)) }
{
    tokens
        .iter()
        .map(|token| match token {
            Number(n) => Ok(*n),
            Named(_) => Err(LineError::Bad),
        })
        .try_collect(heap)
}

impl Command {
    // What a line asks for.
    #[tactic(auto, using(crate::proofs::Tokens::worn_asked))]
    pub fn parse(heap: Global, line: &[u8]) -> Result<Command, LineError>
        ensures bounded { IfOk result IsBounded }
        ensures asked { IfOk result (λ c. AreTokensOf (pieces line.now) (command_tokens c)) }
    {
        let tokens = tokens(heap, line)?;
        let words = tokens.as_slice();
        if let [Named(Word::Worn), sectors @ ..] = words
            && sectors.len() <= MOST_WORN
        {
            return Ok(Command::Do(Chore::Worn(numbers(heap, sectors)?)));
        }
        match words {
            [Named(Word::Disk), Named(order), Number(sectors)] if *sectors <= MOST_SECTORS => {
                Ok(Command::NewDisk {
                    order: Order::try_from(*order)?,
                    sectors: *sectors,
                })
            }
            _ => match Call::of(words) {
                Some(call) => Ok(Command::Run(call)),
                None => Chore::of(words).map(Command::Do).ok_or(LineError::Bad),
            },
        }
    }
}

#[cfg(test)]
mod tests {
    use super::*;

    #[test]
    fn lines_give_commands(rt: HostRuntime) {
        let heap = rt.alloc();
        let sizes = Call::Make {
            isize: 3,
            fsize: 20,
        };
        assert_eq!(rt; Command::parse(heap, b"make 3 20"), Ok(Command::Run(sizes)));
        let block = Chore::Lend(Lent::Block, 512);
        assert_eq!(rt;
            Command::parse(heap, b"lend block 512"),
            Ok(Command::Do(block))
        );
        assert_eq!(rt; Command::parse(heap, b"make 3 20 "), Err(LineError::Bad));
        let worn = Command::parse(heap, b"worn 1 3");
        assert!(rt;
            matches!(&worn, Ok(Command::Do(Chore::Worn(list))) if list.as_slice() == [1, 3].as_slice())
        );
    }
}
