//! The line of a trial.

ghost use Rattle.std.specs.Prelude.{◌≡◌, ◌++◌, ◌∷◌, []};
ghost use Rattle.report_tables.specs.Summary.{is_refusal, is_purging, is_killing, is_freeing, is_compressing, replies, tally, tally_words, summary_text};
ghost use Rattle.line_text.specs.Cut.{line_of};

use crate::lines::push_field;
use crate::tally::Tally;
use kern_ids::entries::{Entry, EntryList};
use kern_ids::lines::LineBuf;
use kern_ids::replies::{Move, Reply};

/// How many replies purge an object.
pub(crate) fn purged(entries: &[Entry]) -> usize
    ensures { result ≡ replies is_purging entries.now }
{
    entries
        .iter()
        .filter(|e| matches!(e.reply, Reply::Purged(_)))
        .count()
}

/// How many replies kill a task.
pub(crate) fn killed(entries: &[Entry]) -> usize
    ensures { result ≡ replies is_killing entries.now }
{
    entries
        .iter()
        .filter(|e| matches!(e.reply, Reply::Killed(_, _)))
        .count()
}

fn refused(entries: &[Entry]) -> usize
    ensures { result ≡ replies is_refusal entries.now }
{
    entries
        .iter()
        .filter(|e| matches!(e.reply, Reply::Refused(_)))
        .count()
}

fn freed(entries: &[Entry]) -> usize
    ensures { result ≡ replies is_freeing entries.now }
{
    entries
        .iter()
        .filter(|e| matches!(e.reply, Reply::Moved(Move::Freed, _)))
        .count()
}

fn compressed(entries: &[Entry]) -> usize
    ensures { result ≡ replies is_compressing entries.now }
{
    entries
        .iter()
        .filter(|e| matches!(e.reply, Reply::Moved(Move::Compressed, _)))
        .count()
}

fn tally(entries: &[Entry]) -> Tally
    ensures { result ≡ tally entries.now }
{
    Tally {
        entries: entries.len(),
        refused: refused(entries),
        purged: purged(entries),
        killed: killed(entries),
        freed: freed(entries),
        compressed: compressed(entries),
    }
}

fn tally_line(tally: &Tally) -> LineBuf
    ensures { result ≡ line_of (tally_words tally.now) ++ 10 ∷ [] }
{
    let mut line = LineBuf::new();
    push_field(&mut line, b"entries ", tally.entries as u64);
    push_field(&mut line, b" refused ", tally.refused as u64);
    push_field(&mut line, b" purged ", tally.purged as u64);
    push_field(&mut line, b" killed ", tally.killed as u64);
    push_field(&mut line, b" freed ", tally.freed as u64);
    push_field(&mut line, b" compressed ", tally.compressed as u64);
    line.push(b"\n");
    line
}

/// How many entries a history has, and how many replies are refusals, purges, kills, and pages that
/// the scan freed and compressed. Takes no memory.
pub fn summary(history: &EntryList) -> LineBuf
    ensures { result ≡ summary_text history.now.list }
{
    tally_line(&tally(history.as_slice()))
}
