//! An entry and why it was answered as it was.

ghost use Rattle.std.specs.Prelude.{◌≡◌, ◌≤◌, ◌++◌, length, reverse, option_map, codes, IfOk};
ghost use Rattle.std.specs.Fmt.{decimal};
ghost use Rattle.history_text.specs.Entries as entry_spec;
ghost use Rattle.report_tables.specs.Table.{line_text};
ghost use Rattle.report_tables.specs.Reasons as spec;

use crate::lines::{append, push_field, push_word};
use crate::reason::Reason;
use crate::reasons::reason;
use history_text::write_entry;
use kern_ids::calls::Queue;
use kern_ids::entries::{Entry, EntryList, NoMemory};
use kern_ids::lines::LineBuf;
use kern_ids::replies::Cause;
use kernel_model::boot::Boot;
use std::alloc::Global;

fn queue_word(queue: Queue) -> &'static [u8]
    ensures value { result.now ≡ spec.queue_word queue }
    ensures short { length result.now ≤ 8 }
{
    match queue {
        Queue::Obsolete => b"obsolete",
        Queue::Lifo => b"lifo",
        Queue::Fifo => b"fifo",
    }
}

fn cause_word(cause: Cause) -> &'static [u8]
    ensures value { result.now ≡ entry_spec.cause_word cause }
    ensures short { length result.now ≤ 9 }
{
    match cause {
        Cause::Limit => b"limit",
        Cause::HighWater => b"highwater",
        Cause::Pressure => b"pressure",
    }
}

fn ripe_line(
    tokens: Queue,
    deadline: usize,
    gone: usize,
    group: u32,
    o: u32,
    from: Queue,
) -> LineBuf
    ensures { result ≡ line_text (spec.reason_words (Reason.Ripe tokens deadline gone group o from)) }
{
    let mut line = LineBuf::new();
    push_word(&mut line, b"because ripe ", queue_word(tokens));
    push_field(&mut line, b" deadline ", deadline as u64);
    push_field(&mut line, b" left ", gone as u64);
    push_field(&mut line, b" group ", u64::from(group));
    push_field(&mut line, b" object ", u64::from(o));
    push_word(&mut line, b" from ", queue_word(from));
    line.push(b"\n");
    line
}

fn forced_line(queue: Queue, group: u32, o: u32) -> LineBuf
    ensures { result ≡ line_text (spec.reason_words (Reason.Forced queue group o)) }
{
    let mut line = LineBuf::new();
    push_word(&mut line, b"because forced ", queue_word(queue));
    push_field(&mut line, b" group ", u64::from(group));
    push_field(&mut line, b" object ", u64::from(o));
    line.push(b"\n");
    line
}

fn killed_line(cause: Cause, band: u32, footprint: u32, limit: u32, frames: u32) -> LineBuf
    ensures { result ≡ line_text (spec.reason_words (Reason.Killed cause band footprint limit frames)) }
{
    let mut line = LineBuf::new();
    push_word(&mut line, b"because ", cause_word(cause));
    push_field(&mut line, b" band ", u64::from(band));
    push_field(&mut line, b" footprint ", u64::from(footprint));
    push_field(&mut line, b" limit ", u64::from(limit));
    push_field(&mut line, b" free ", u64::from(frames));
    line.push(b"\n");
    line
}

fn emptied_line(entry: usize) -> LineBuf
    ensures { result ≡ line_text (spec.reason_words (Reason.Emptied entry)) }
{
    let mut line = LineBuf::new();
    push_field(&mut line, b"because emptied at entry ", entry as u64);
    line.push(b"\n");
    line
}

fn line_of_reason(reason: &Reason) -> LineBuf
    ensures { result ≡ line_text (spec.reason_words reason.now) }
{
    match reason {
        Reason::Ripe(tokens, deadline, gone, group, o, from) => {
            ripe_line(*tokens, *deadline, *gone, *group, *o, *from)
        }
        Reason::Forced(queue, group, o) => forced_line(*queue, *group, *o),
        Reason::Killed(cause, band, footprint, limit, frames) => {
            killed_line(*cause, *band, *footprint, *limit, *frames)
        }
        Reason::Emptied(entry) => emptied_line(*entry),
    }
}

// The second line, or nothing.
fn second_line(reason: &Option<Reason>) -> LineBuf
    ensures { result ≡ spec.reason_text reason.now }
{
    match reason {
        Some(reason) => line_of_reason(reason),
        None => LineBuf::new(),
    }
}

fn place_part(place: u32) -> LineBuf
    ensures { result ≡ codes "entry " ++ decimal place ++ codes ": " }
{
    let mut line = LineBuf::new();
    push_field(&mut line, b"entry ", u64::from(place));
    line.push(b": ");
    line
}

#[tactic(auto, unfolding(crate::specs::Reasons::entry_why))]
fn entry_why(
    alloc: Global,
    boot: &Boot,
    before: &[Entry],
    place: u32,
    e: &Entry,
) -> Result<Vec<u8>, NoMemory>
    ensures { IfOk result (λ t. t.items ≡ spec.entry_why boot.now (reverse before.now) place e.now) }
{
    let found = reason(alloc, boot, before, &e.call, &e.reply)?;
    let mut out = Vec::new(alloc);
    append(&mut out, place_part(place).as_slice())?;
    append(&mut out, write_entry(e).as_slice())?;
    append(&mut out, second_line(&found).as_slice())?;
    Ok(out)
}

/// An entry of a history and, for a purge, a kill and an answer that an object is EMPTY, why it was
/// answered so, by what came before it. None where there is no such entry. Entries are numbered from 0.
#[tactic(auto, using(std::proofs::lemmas::Option::slice_get_within))]
pub fn why_text(
    alloc: Global,
    boot: &Boot,
    history: &EntryList,
    place: u32,
) -> Result<Option<Vec<u8>>, NoMemory>
    ensures { IfOk result (λ t. option_map (λ v. v.items) t ≡ spec.why_text boot.now history.now.list place) }
{
    let entries = history.as_slice();
    match entries.get(place as usize) {
        Some(e) => {
            let text = entry_why(alloc, boot, &entries[..place as usize], place, e)?;
            Ok(Some(text))
        }
        None => Ok(None),
    }
}
