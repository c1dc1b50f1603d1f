//! A history that is read and replayed in pieces.

ghost use Rattle.std.specs.Prelude.{◌≡◌, ◌<◌, ◌≤◌, ◌+◌, ◌++◌, ◌^◌, ℕ, List, [], length, take, IfOk, OnOk};
ghost use Rattle.kernel_model.specs.Scenario.{Plan};
ghost use Rattle.history_feed.specs.Feeds as feeds;
ghost use Rattle.history_feed.specs.Feeds.{IsNextLine};
ghost use Rattle.history_text.specs.HistoryReading.{history_of};
ghost use Rattle.replay_check.specs.Pieces.{GrowsBy, HasRoom, KeepsRoom, Stands, StandsFor, end_of, parts};

use crate::end::PieceEnd;
use crate::{LineReplay, Replay};
use history_feed::{Fed, HistoryFeed};
use kern_ids::entries::NoMemory;
use kern_ids::lines::LineBuf;
use kernel_model::scenario::Scenario;
use std::alloc::Global;
use std::marker::Model;

/// What the bytes of a history of a scenario have come to so far.
#[derive(Drop)]
pub struct PieceCheck {
    scenario: Scenario,
    feed: HistoryFeed,
    replay: Replay,
    /// Room to put a line together in.
    text: LineBuf,
}

impl Model for PieceCheck {
    ghost use Rattle.replay_check.specs.Pieces.{CheckView, Stands, parts};

    ghost Value = { CheckView };

    ghost view = { λ c. parts c.scenario c.feed c.replay };

    ghost invariant = { λ c. Stands (parts c.scenario c.feed c.replay) };
}

// Takes bytes of the piece up to the end of one line, and replays the entry that they end: how many it took.
// It has room for an entry, which a line that is replayed by its text needs not.
#[inline(never)]
fn read_some(
    scenario: &Scenario,
    feed: &mut HistoryFeed,
    replay: &mut Replay,
    piece: &[u8],
) -> Result<usize, NoMemory>
    requires stands { Stands (parts scenario.now feed.old replay.old) }
    requires room { HasRoom (parts scenario.now feed.old replay.old) (length piece.now) }
    ensures within { IfOk result (λ taken. taken ≤ length piece.now) }
    ensures some { IfOk result (λ taken. 0 < length piece.now → 0 < taken) }
    ensures room { IfOk result (λ taken. KeepsRoom (parts scenario.now feed.old replay.old) taken (parts scenario.now feed.new replay.new)) }
    ensures stands { IfOk result (λ taken. GrowsBy (parts scenario.now feed.old replay.old) (take taken piece.now) (parts scenario.now feed.new replay.new)) }
{
    let Fed { taken, entry } = feed.feed(piece);
    match entry {
        Some(entry) => {
            replay.feed(scenario, &entry)?;
            Ok(taken)
        }
        None => Ok(taken),
    }
}

// Takes bytes of the piece up to the end of one line, whose entry was replayed: how many.
#[inline(never)]
fn skip(feed: &mut HistoryFeed, piece: &[u8]) -> usize
    requires { feeds.HasRoom feed.old (length piece.now) }
    ensures taken { result ≡ feeds.taken_of feed.old piece.now }
    ensures within { result ≤ length piece.now }
    ensures some { 0 < length piece.now → 0 < result }
    ensures room { (more : ℕ) → feeds.HasRoom feed.old (result + more) → feeds.HasRoom feed.new more }
    ensures first { feeds.first_line_of feed.new ≡ feeds.first_line_of feed.old }
    ensures stands { (text : List ℕ) → feeds.StandsFor feed.old text → feeds.StandsFor feed.new (text ++ take result piece.now) }
{
    feed.feed(piece).taken
}

// Takes a line that the piece begins with and ends, and replays it by its text where that can be.
fn take_line(
    scenario: &Scenario,
    feed: &mut HistoryFeed,
    replay: &mut Replay,
    text: &mut LineBuf,
    piece: &[u8],
    line: &[u8],
) -> Result<usize, NoMemory>
    requires stands { Stands (parts scenario.now feed.old replay.old) }
    requires room { HasRoom (parts scenario.now feed.old replay.old) (length piece.now) }
    requires next { IsNextLine feed.old piece.now line.now }
    ensures within { IfOk result (λ taken. taken ≤ length piece.now) }
    ensures some { IfOk result (λ taken. 0 < length piece.now → 0 < taken) }
    ensures room { IfOk result (λ taken. KeepsRoom (parts scenario.now feed.old replay.old) taken (parts scenario.now feed.new replay.new)) }
    ensures stands { IfOk result (λ taken. GrowsBy (parts scenario.now feed.old replay.old) (take taken piece.now) (parts scenario.now feed.new replay.new)) }
{
    match replay.feed_line(scenario, line, text)? {
        LineReplay::Right => Ok(feed.pass(piece, line)),
        // Its entry, if it has one, was replayed.
        LineReplay::Wrong => Ok(skip(feed, piece)),
        LineReplay::Unread => read_some(scenario, feed, replay, piece),
    }
}

// Takes bytes of the piece up to the end of one line, and replays the entry that they end: how many it took.
fn take_some(
    scenario: &Scenario,
    feed: &mut HistoryFeed,
    replay: &mut Replay,
    text: &mut LineBuf,
    piece: &[u8],
) -> Result<usize, NoMemory>
    requires stands { Stands (parts scenario.now feed.old replay.old) }
    requires room { HasRoom (parts scenario.now feed.old replay.old) (length piece.now) }
    ensures within { IfOk result (λ taken. taken ≤ length piece.now) }
    ensures some { IfOk result (λ taken. 0 < length piece.now → 0 < taken) }
    ensures room { IfOk result (λ taken. KeepsRoom (parts scenario.now feed.old replay.old) taken (parts scenario.now feed.new replay.new)) }
    ensures stands { IfOk result (λ taken. GrowsBy (parts scenario.now feed.old replay.old) (take taken piece.now) (parts scenario.now feed.new replay.new)) }
{
    match feed.next_line(piece) {
        Some(line) => take_line(scenario, feed, replay, text, piece, line),
        None => read_some(scenario, feed, replay, piece),
    }
}

// Takes the piece whole, and replays the entries that it ends.
fn take_all(
    scenario: &Scenario,
    feed: &mut HistoryFeed,
    replay: &mut Replay,
    text: &mut LineBuf,
    piece: &[u8],
) -> Result<(), NoMemory>
    requires stands { Stands (parts scenario.now feed.old replay.old) }
    requires room { HasRoom (parts scenario.now feed.old replay.old) (length piece.now) }
    ensures room { OnOk result (KeepsRoom (parts scenario.now feed.old replay.old) (length piece.now) (parts scenario.now feed.new replay.new)) }
    ensures stands { OnOk result (GrowsBy (parts scenario.now feed.old replay.old) piece.now (parts scenario.now feed.new replay.new)) }
{
    let mut at = 0;
    'bytes: while at < piece.len() {
        let taken = take_some(scenario, feed, replay, text, &piece[at..])?;
        at += taken;
    }
    Ok(())
}

impl PieceCheck {
    /// Of no bytes; the first line will have the number `first_line`, at most 2^31.
    pub fn new(alloc: Global, scenario: Scenario, first_line: u32) -> Result<PieceCheck, NoMemory>
        requires { first_line ≤ 2 ^ 31 }
        ensures stands { IfOk result (StandsFor scenario first_line []) }
        // It has room for all bytes of a text of 2 GB.
        ensures room { IfOk result (λ check. (more : ℕ) → more < 2 ^ 31 → HasRoom check more) }
    {
        let replay = Replay::new(alloc, &scenario)?;
        let feed = HistoryFeed::new(first_line);
        let text = LineBuf::new();
        Ok(PieceCheck {
            scenario,
            feed,
            replay,
            text,
        })
    }

    /// Takes a piece more. Without memory there is no check any more.
    pub fn feed(self, piece: &[u8]) -> Result<PieceCheck, NoMemory>
        requires { HasRoom self (length piece.now) }
        // It represents the bytes from before with the piece after them.
        ensures stands { IfOk result (λ check. GrowsBy self piece.now check) }
        // Where there was room for more bytes, there still is.
        ensures room { IfOk result (λ check. KeepsRoom self (length piece.now) check) }
    {
        let PieceCheck {
            scenario,
            mut feed,
            mut replay,
            mut text,
        } = self;
        take_all(&scenario, &mut feed, &mut replay, &mut text, piece)?;
        Ok(PieceCheck {
            scenario,
            feed,
            replay,
            text,
        })
    }

    /// The verdict on the history that the bytes are, or the line of their first fault and why it is refused.
    pub fn finish(self) -> PieceEnd
        ensures { (s : Plan) (n : ℕ) (text : List ℕ) → StandsFor s n text self → result ≡ end_of s (history_of n text) }
    {
        let PieceCheck {
            scenario,
            feed,
            replay,
            text: _,
        } = self;
        match feed.finish() {
            Ok(_) => PieceEnd::Done(replay.verdict(&scenario)),
            Err((line, why)) => PieceEnd::Bad { line, why },
        }
    }
}
