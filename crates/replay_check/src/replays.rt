//! A history that is played again, an entry at a time.

ghost use Rattle.std.specs.Prelude.{◌≡◌, ◌++◌, ◌∷◌, [], ◌^◌, ◌<◌, ◌≤◌, ℕ, List, length, drop, true, None, IsTrue, IfOk, OnOk, OnErr};
ghost use Rattle.std.specs.Option.{option_map_or};
ghost use Rattle.kern_ids.specs.declared.entries.Entry.{Entry};
ghost use Rattle.kernel_model.specs.Histories.{fits};
ghost use Rattle.line_text.specs.Calls.{HasLine};
ghost use Rattle.replay_check.specs.Lines.{IsNextCall, IsReplayed, front_text};
ghost use Rattle.replay_check.specs.Replays.{first_unspent, Stands, StandsFor};
ghost use Rattle.replay_check.specs.Verdicts.{is_call_at, verdict_of};

use crate::line_replay::LineReplay;
use crate::lines::{begins_with, ends_with_reply, has_line, next_call, push_front, thread_of};
use crate::same::{same_call, same_reply};
use crate::verdicts::Verdict;
use history_text::push_reply;
use kern_ids::calls::Call;
use kern_ids::entries::{Entry, NoMemory};
use kern_ids::ids::ThreadId;
use kern_ids::lines::LineBuf;
use kern_ids::replies::Reply;
use kernel_core::ghost_log::GhostLog;
use kernel_core::one_thread::OneThread;
use kernel_model::scenario::Scenario;
use std::alloc::Global;
use std::marker::Model;

/// What the entries so far have come to: the kernel that made their calls, and what was wrong at the first
/// wrong place. From there on the calls are made no more.
#[derive(Drop)]
pub struct Replay {
    kernel: OneThread<GhostLog>,
    /// How many calls each thread has made.
    made: [usize; 32],
    fault: Option<Verdict>,
}

impl Model for Replay {
    ghost use Rattle.replay_check.specs.Replays.{ReplayView};

    ghost Value = { ReplayView };

    ghost view = { λ r. record { boot = r.kernel.boot; history = r.kernel.history; made = r.made; fault = r.fault } };
}

// Whether the thread of the entry is declared, and its call is call number k of its script.
fn is_call_at(scenario: &Scenario, entry: &Entry, k: usize) -> bool
    ensures value { result ≡ is_call_at scenario.now entry.now.who entry.now.call k }
    ensures fits { result ≡ true → IsTrue (fits scenario.now.boot entry.now.who entry.now.call) }
{
    scenario.valid();
    if scenario.scripts().len() <= entry.who.get() as usize {
        return false;
    }
    match scenario.script_call(entry.who, k) {
        Some(call) => same_call(&entry.call, &call.get()),
        None => false,
    }
}

// The least thread that has more calls in its script than it has made.
fn first_unspent(scenario: &Scenario, made: &[usize; 32]) -> Option<ThreadId>
    ensures { result ≡ first_unspent scenario.now made.now (length scenario.now.scripts) }
{
    scenario.valid();
    let _few = scenario.boot().sides().len();
    let threads = scenario.scripts().len();
    for n in 0..threads {
        let thread = match ThreadId::new(n as u32) {
            Some(thread) => thread,
            None => unreachable!(),
        };
        if made[n] < scenario.script_len(thread) {
            return Some(thread);
        }
    }
    None
}

// The verdict where no place is wrong, and each thread has made so many calls.
fn end(scenario: &Scenario, made: &[usize; 32]) -> Verdict
    ensures { result ≡ option_map_or Verdict.Missing (first_unspent scenario.now made.now (length scenario.now.scripts)) Verdict.Legal }
{
    match first_unspent(scenario, made) {
        Some(thread) => Verdict::Missing { thread },
        None => Verdict::Legal,
    }
}

impl Replay {
    /// A replay of a scenario, with no entries.
    pub fn new(alloc: Global, scenario: &Scenario) -> Result<Replay, NoMemory>
        ensures { IfOk result (StandsFor scenario.now []) }
    {
        Ok(Replay {
            kernel: OneThread::boot(alloc, scenario.boot(), GhostLog::new())?,
            made: [0; 32],
            fault: None,
        })
    }

    /// Takes one entry more of the scenario's history. Without memory it has not taken it.
    pub fn feed(&mut self, scenario: &Scenario, entry: &Entry) -> Result<(), NoMemory>
        requires { Stands scenario.now self.old }
        ensures fed { OnOk result ((es : List Entry) → StandsFor scenario.now es self.old → StandsFor scenario.now (es ++ entry.now ∷ []) self.new) }
        ensures unchanged { OnErr result (self.new ≡ self.old) }
    {
        if self.fault.is_some() {
            return Ok(());
        }
        let place = self.kernel.len() as u32;
        let thread = entry.who.get() as usize;
        if !is_call_at(scenario, entry, self.made[thread]) {
            self.fault = Some(Verdict::WrongCall { place });
            return Ok(());
        }
        let mut expected = Reply::Nothing;
        self.kernel.call(entry.who, &entry.call, &mut expected)?;
        if !same_reply(&entry.reply, &expected) {
            self.fault = Some(Verdict::WrongReply { place, expected });
            return Ok(());
        }
        self.made[thread] += 1;
        Ok(())
    }

    // Makes the next call of a thread, whose text the line begins with, and compares what comes after it with
    // the text of the reply.
    fn answer_line(
        &mut self,
        scenario: &Scenario,
        who: ThreadId,
        call: &Call,
        text: &mut LineBuf,
        line: &[u8],
    ) -> Result<LineReplay, NoMemory>
        requires stands { Stands scenario.now self.old }
        requires sound { self.old.fault ≡ None }
        requires next { IsNextCall scenario.now self.old.made who call.now }
        requires has_line { HasLine 64 256 call.now }
        requires front { text.old ≡ front_text who call.now }
        requires room { length text.old ≤ 558 }
        requires begins { line.now ≡ text.old ++ drop (length text.old) line.now }
        ensures replayed { IfOk result (λ replayed. IsReplayed replayed scenario.now line.now self.old self.new) }
        ensures unchanged { OnErr result (self.new ≡ self.old) }
    {
        scenario.valid();
        let place = self.kernel.len() as u32;
        let mut expected = Reply::Nothing;
        self.kernel.call(who, call, &mut expected)?;
        push_reply(text, &expected);
        if ends_with_reply(line, text.as_slice(), &expected) {
            self.made[who.get() as usize] += 1;
            return Ok(LineReplay::Right);
        }
        self.fault = Some(Verdict::WrongReply { place, expected });
        Ok(LineReplay::Wrong)
    }

    /// Takes the entry whose line this is, without its line feed, and reads no entry: the line of the
    /// expected entry is put together in `text`, whatever that held, and compared with it. Without memory it
    /// has taken nothing.
    pub fn feed_line(
        &mut self,
        scenario: &Scenario,
        line: &[u8],
        text: &mut LineBuf,
    ) -> Result<LineReplay, NoMemory>
        requires { Stands scenario.now self.old }
        ensures replayed { IfOk result (λ replayed. IsReplayed replayed scenario.now line.now self.old self.new) }
        ensures unchanged { OnErr result (self.new ≡ self.old) }
    {
        if self.fault.is_some() {
            return Ok(LineReplay::Unread);
        }
        let who = match thread_of(line) {
            Some(who) => who,
            None => return Ok(LineReplay::Unread),
        };
        let call = match next_call(scenario, &self.made, who) {
            Some(kept) => kept.get(),
            None => return Ok(LineReplay::Unread),
        };
        if !has_line(&call) {
            return Ok(LineReplay::Unread);
        }
        text.clear();
        push_front(text, who, &call);
        if !begins_with(line, text.as_slice()) {
            return Ok(LineReplay::Unread);
        }
        self.answer_line(scenario, who, &call, text, line)
    }

    /// The kernel that made the calls of the entries so far, up to the first wrong place. Where only the
    /// reply is wrong there, it has made that place's call as well.
    pub fn kernel(&self) -> &OneThread<GhostLog>
        ensures boot { result.now.boot ≡ self.now.boot }
        ensures history { result.now.history ≡ self.now.history }
    {
        &self.kernel
    }

    /// The verdict on the entries that it was fed. Where it is Legal, the kernel has just these entries.
    pub fn verdict(&self, scenario: &Scenario) -> Verdict
        ensures verdict { (es : List Entry) → StandsFor scenario.now es self.now → result ≡ verdict_of scenario.now es }
        ensures history { (es : List Entry) → StandsFor scenario.now es self.now → result ≡ Verdict.Legal → self.now.history ≡ es }
    {
        scenario.valid();
        match self.fault {
            Some(fault) => fault,
            None => end(scenario, &self.made),
        }
    }
}
