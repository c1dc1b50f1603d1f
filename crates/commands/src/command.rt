//! Which command the words ask for.

ghost use Rattle.std.specs.Prelude.{◌≡◌, ◌<◌, ◌≤◌, ◌^◌, IfSome};
ghost use Rattle.commands.specs.Commands.{asked_why, command_of, limit_of, made_by, making_named, named, number_to, IsInRange};

use edge::words::Words;
use line_text::{Words as LineWords, is_plain, is_word};
use report_tables::Judging;

/// What is done with a scenario that is read.
#[derive(Clone, Copy, PartialEq, Eq, Debug)]
pub enum Rewriting {
    /// It is run on one thread, and written with its history.
    Serial,
    /// It is written in the second form.
    Migrate,
}

/// What is read, and what is done with it.
#[derive(Clone, Copy, PartialEq, Eq, Debug)]
pub enum Reading {
    /// A scenario.
    Rewrite(Rewriting),
    /// A scenario with a history.
    Judge(Judging),
}

impl Reading {
    /// The most bytes of input that it reads.
    #[tactic(auto, unfolding(crate::specs::Commands::limit_of))]
    pub fn limit(self) -> usize
        ensures value { result ≡ limit_of self }
        ensures small { result < 2 ^ 30 }
    {
        match self {
            Reading::Rewrite(_) => 67_108_864,
            Reading::Judge(_) => 268_435_456,
        }
    }
}

/// What is done with a scenario that is made.
#[derive(Clone, Copy, PartialEq, Eq, Debug)]
pub enum Making {
    /// It is written.
    Text,
    /// It is run on one thread, and the counts of its history are written.
    Trial,
}

/// What the program is asked to do.
#[derive(Clone, Copy, PartialEq, Eq, Debug)]
pub enum Command {
    /// To read something.
    Read(Reading),
    /// To make the scenario of a seed, which is below 2 ^ 31, and of n turns, at most 200,000. It reads nothing.
    Make { making: Making, seed: u32, n: u32 },
}

// The command of a single word.
fn named(word: &[u8]) -> Option<Reading>
    ensures { result ≡ named word.now }
{
    if is_word(word, b"serial") {
        Some(Reading::Rewrite(Rewriting::Serial))
    } else if is_word(word, b"migrate") {
        Some(Reading::Rewrite(Rewriting::Migrate))
    } else if is_word(word, b"check") {
        Some(Reading::Judge(Judging::Check))
    } else if is_word(word, b"table") {
        Some(Reading::Judge(Judging::Table))
    } else if is_word(word, b"json") {
        Some(Reading::Judge(Judging::Json))
    } else {
        None
    }
}

// The first word of a command that makes a scenario.
fn making_named(word: &[u8]) -> Option<Making>
    ensures { result ≡ making_named word.now }
{
    if is_word(word, b"make") {
        Some(Making::Text)
    } else if is_word(word, b"trial") {
        Some(Making::Trial)
    } else {
        None
    }
}

// A plain decimal of at most `high`.
#[tactic(auto, using(crate::proofs::NumberWords::number_read, crate::proofs::NumberWords::number_refused, crate::proofs::NumberWords::number_not_plain))]
fn number_to(word: &[u8], high: u32) -> Option<u32>
    ensures value { result ≡ number_to high word.now }
    ensures range { IfSome result (λ n. n ≤ high) }
{
    if !is_plain(word) {
        return None;
    }
    match LineWords::new(word).number(0, high) {
        Ok(n) => Some(n),
        Err(_) => None,
    }
}

// The command of a word, a seed and a number of turns.
fn made_by(word: &[u8], seed: &[u8], n: &[u8]) -> Option<Command>
    ensures value { result ≡ made_by word.now seed.now n.now }
    ensures range { IfSome result IsInRange }
{
    let making = making_named(word)?;
    let seed = number_to(seed, 2_147_483_647)?;
    let n = number_to(n, 200_000)?;
    Some(Command::Make { making, seed, n })
}

// The command of a word and the number of an entry.
fn asked_why(word: &[u8], n: &[u8]) -> Option<Command>
    ensures value { result ≡ asked_why word.now n.now }
    ensures range { IfSome result IsInRange }
{
    if !is_word(word, b"why") {
        return None;
    }
    let n = number_to(n, u32::MAX)?;
    Some(Command::Read(Reading::Judge(Judging::Why(n))))
}

/// The command, if the words are those of one.
pub fn command_of(words: &Words) -> Option<Command>
    ensures value { result ≡ command_of words.now }
    ensures range { IfSome result IsInRange }
{
    match words.len() {
        1 => Some(Command::Read(named(words.get(0)?)?)),
        2 => asked_why(words.get(0)?, words.get(1)?),
        3 => made_by(words.get(0)?, words.get(1)?, words.get(2)?),
        _ => None,
    }
}
