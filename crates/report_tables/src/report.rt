//! The report on a scenario with a history.

ghost use Rattle.std.specs.Prelude.{◌≡◌, ◌<◌, ◌≤◌, ◌^◌, length, reverse, IfOk};
ghost use Rattle.report_tables.specs.Facts.{Tell, facts_of};
ghost use Rattle.replay_check.specs.Verdicts.{verdict_of};
ghost use Rattle.report_tables.specs.Reports.{verdict_told, reported, told_by, told_of, report_of, ReportGives};

use crate::input::read_input;
use crate::verdict_lines::{
    legal_line, missing_line, no_entry_line, wrong_call_line, wrong_reply_line,
};
use crate::{Facts, json_text, table_text, why_text};
use kern_ids::entries::{EntryList, NoMemory};
use kern_ids::faults::ReadFault;
use kernel_model::scenario::Scenario;
use kernel_tables::tables::Tables;
use replay_check::{Verdict, replay};
use std::alloc::Global;

/// What is asked of a history.
#[derive(Clone, Copy, PartialEq, Eq, Debug)]
pub enum Judging {
    /// Whether it is legal and whole.
    Check,
    /// The state after it, in lines.
    Table,
    /// The same as JSON.
    Json,
    /// Why the entry of this number was answered so.
    Why(u32),
}

/// What a command prints on a history, as a text.
#[derive(Drop)]
pub enum Report {
    /// The history is legal and whole, and this was asked of it.
    Legal(Vec<u8>),
    /// The history isn't legal and whole: its verdict.
    Wrong(Vec<u8>),
    /// There is no entry of the number that was asked for.
    NoEntry(Vec<u8>),
}

impl Report {
    /// The exit status.
    pub fn status(&self) -> u8
        ensures { result ≡ (told_of self.now).0 }
    {
        match self {
            Report::Legal(_) => 0,
            Report::Wrong(_) => 6,
            Report::NoEntry(_) => 8,
        }
    }

    /// The text.
    pub fn text(&self) -> &[u8]
        ensures { result.now ≡ (told_of self.now).1 }
    {
        match self {
            Report::Legal(text) | Report::Wrong(text) | Report::NoEntry(text) => text,
        }
    }
}

// A line, as a text.
fn text_of(alloc: Global, line: &[u8]) -> Result<Vec<u8>, NoMemory>
    ensures { IfOk result (λ text. text.items ≡ line.now) }
{
    match line.to_vec(alloc) {
        Ok(text) => Ok(text),
        Err(_) => Err(NoMemory),
    }
}

/// The line on a verdict: the whole report where a check is asked for.
pub fn verdict_report(alloc: Global, verdict: &Verdict) -> Result<Report, NoMemory>
    ensures { IfOk result (λ r. told_of r ≡ verdict_told verdict.now) }
{
    match verdict {
        Verdict::Legal => {
            let text = text_of(alloc, legal_line().as_slice())?;
            Ok(Report::Legal(text))
        }
        Verdict::WrongReply { place, expected } => {
            let text = text_of(alloc, wrong_reply_line(*place, expected).as_slice())?;
            Ok(Report::Wrong(text))
        }
        Verdict::WrongCall { place } => {
            let text = text_of(alloc, wrong_call_line(*place).as_slice())?;
            Ok(Report::Wrong(text))
        }
        Verdict::Missing { thread } => {
            let text = text_of(alloc, missing_line(*thread).as_slice())?;
            Ok(Report::Wrong(text))
        }
    }
}

fn report_why(
    alloc: Global,
    scenario: &Scenario,
    history: &EntryList,
    n: u32,
) -> Result<Report, NoMemory>
    ensures { IfOk result (λ r. told_of r ≡ reported (Judging.Why n) scenario.now history.now.list) }
{
    match why_text(alloc, scenario.boot(), history, n)? {
        Some(text) => Ok(Report::Legal(text)),
        None => {
            let text = text_of(alloc, no_entry_line(n, history.len()).as_slice())?;
            Ok(Report::NoEntry(text))
        }
    }
}

// The report on a history that is legal and whole, whose tables these are.
fn report_whole(
    alloc: Global,
    judging: Judging,
    scenario: &Scenario,
    history: &EntryList,
    tables: &Tables,
) -> Result<Report, NoMemory>
    requires tell { Tell tables.now (reverse history.now.list) }
    requires boot { tables.now.boot ≡ scenario.now.boot }
    ensures { IfOk result (λ r. told_of r ≡ reported judging scenario.now history.now.list) }
{
    match judging {
        Judging::Check => verdict_report(alloc, &Verdict::Legal),
        Judging::Table => {
            let facts = Facts::of_tables(alloc, scenario.boot(), tables, history)?;
            let text = table_text(alloc, &facts)?;
            Ok(Report::Legal(text))
        }
        Judging::Json => {
            let facts = Facts::of_tables(alloc, scenario.boot(), tables, history)?;
            let text = json_text(alloc, &facts)?;
            Ok(Report::Legal(text))
        }
        Judging::Why(n) => report_why(alloc, scenario, history, n),
    }
}

// The report on a history of a scenario.
fn report_on(
    alloc: Global,
    judging: Judging,
    scenario: &Scenario,
    history: &EntryList,
) -> Result<Report, NoMemory>
    requires { length history.now.list ≤ 200000 }
    ensures { IfOk result (λ r. told_of r ≡ told_by judging scenario.now history.now.list (verdict_of scenario.now history.now.list)) }
{
    let replay = replay(alloc, scenario, history)?;
    match replay.verdict(scenario) {
        Verdict::Legal => {
            report_whole(alloc, judging, scenario, history, replay.kernel().tables())
        }
        verdict => verdict_report(alloc, &verdict),
    }
}

/// The report on a scenario with a history: where the history isn't legal and whole, the verdict, with status
/// 6; else what was asked, with status 0, or 8 where an entry is asked for that there isn't. Or the first
/// fault of the text.
pub fn tell(alloc: Global, judging: Judging, input: &[u8]) -> Result<Report, ReadFault>
    requires { length input.now < 2 ^ 31 }
    ensures { ReportGives result (report_of judging input.now) }
{
    let (scenario, history) = read_input(alloc, input)?;
    Ok(report_on(alloc, judging, &scenario, &history)?)
}
