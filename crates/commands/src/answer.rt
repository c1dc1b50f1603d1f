//! What the program answers: an exit status and a text.

ghost use Rattle.std.specs.Prelude.{◌≡◌, ◌≤◌, OnOk, OnErr};
ghost use Rattle.std.specs.Io.KnownBytes.{Appends};
ghost use Rattle.edge.specs.Ends.{Rose, AppendsFront};
ghost use Rattle.commands.specs.Answers.{due_of};

use crate::messages::{bad_line, bad_words, read_fault, too_long};
use edge::ends::{Failed, Sink};
use edge::pieces::Both;
use edge::writing::{WriteBuffer, write_pieces, write_whole};
use history_text::HistoryPieces;
use kern_ids::entries::EntryList;
use kern_ids::faults::Why;
use kernel_model::scenario::Scenario;
use report_tables::{Report, summary};
use scenario_text::ScenarioPieces;

/// What the program answers.
#[derive(Drop)]
pub enum Answer {
    /// A scenario and its history.
    Run(Scenario, EntryList),
    /// A scenario.
    Rewritten(Scenario),
    /// The counts of a history.
    Counted(EntryList),
    /// The report on a history.
    Reported(Report),
    /// The words are those of no command.
    BadWords,
    /// A line of the input is wrong.
    BadLine(u32, Why),
    /// The input could not be read to its end.
    ReadFault,
    /// The input is longer than this.
    TooLong(usize),
}

impl Answer {
    /// The exit status.
    pub fn status(&self) -> u8
        ensures { result ≡ (due_of self.now).0 }
    {
        match self {
            Answer::Run(..) | Answer::Rewritten(_) | Answer::Counted(_) => 0,
            Answer::Reported(report) => report.status(),
            Answer::BadWords => 2,
            Answer::BadLine(..) => 3,
            Answer::ReadFault => 4,
            Answer::TooLong(_) => 7,
        }
    }

    /// Writes the text. Takes no memory.
    pub fn write<K: Sink>(&self, sink: &mut K, buffer: WriteBuffer) -> Result<(), Failed>
        ensures ok { OnOk result (Appends (K.held sink.old) (K.held sink.new) (due_of self.now).1) }
        ensures front { OnErr result (AppendsFront (K.held sink.old) (K.held sink.new) (due_of self.now).1) }
        ensures grows { K.fault_count sink.old ≤ K.fault_count sink.new }
        ensures cause { OnErr result (Rose (K.fault_count sink.old) (K.fault_count sink.new)) }
    {
        match self {
            Answer::Run(scenario, history) => {
                let text = Both {
                    first: ScenarioPieces::new(scenario),
                    second: HistoryPieces::new(history),
                };
                write_pieces(sink, text, buffer)
            }
            Answer::Rewritten(scenario) => {
                write_pieces(sink, ScenarioPieces::new(scenario), buffer)
            }
            Answer::Counted(history) => write_whole(sink, summary(history).as_slice()),
            Answer::Reported(report) => write_whole(sink, report.text()),
            Answer::BadWords => write_whole(sink, bad_words().as_slice()),
            Answer::BadLine(number, why) => write_whole(sink, bad_line(*number, *why).as_slice()),
            Answer::ReadFault => write_whole(sink, read_fault().as_slice()),
            Answer::TooLong(limit) => write_whole(sink, too_long(*limit).as_slice()),
        }
    }
}
