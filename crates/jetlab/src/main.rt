//! The program: it takes its words, standard input and standard output, and ends with the exit status.
#![tactic(auto)]

use commands::jetlab_top;
use edge::host::{StdSink, StdSource};
use edge::words::Words;
use kern_ids::entries::NoMemory;
use kernel_shared::gate::NoGate;
use std::env;
use std::io::ErrorKind;
use std::process::ExitCode;

// The words after the program's name. Where they can't be had, as where one is no UTF-8, there is the
// empty word alone, which is no command.
fn words_given(rt: &HostRuntime) -> Result<Words, NoMemory> {
    let mut words = Words::new(rt.alloc());
    match env::args(rt) {
        Ok(given) => {
            for word in given.skip(1) {
                words.push(word.as_str())?;
            }
        }
        Err(e) if e.kind() == ErrorKind::OutOfMemory => return Err(NoMemory),
        Err(_) => words.push("")?,
    }
    Ok(words)
}

fn main(rt: HostRuntime) -> ExitCode {
    let words = match words_given(&rt) {
        Ok(words) => words,
        Err(NoMemory) => return ExitCode::from(9),
    };
    let mut source = StdSource::new(rt.stdin());
    let mut sink = StdSink::new(rt.stdout());
    ExitCode::from(jetlab_top(&rt, rt.alloc(), &words, &mut source, &mut sink, &NoGate))
}
