//! Does random operations on a part of the fast kernel and prints the checksum of what they answered. The words
//! are `lists`, `pages`, `tokens` or `queues`, and the number of operations.
#![tactic(auto)]

mod draws;
mod list_run;
mod page_run;
mod queue_run;
mod token_run;

use kern_ids::entries::NoMemory;
use std::alloc::Global;
use std::{env, io};

/// The checksum of so many operations on a part; None where there is no part of this name.
fn checksum(alloc: Global, part: &str, operations: u32) -> Option<Result<u64, NoMemory>> {
    match part {
        "lists" => Some(list_run::run(alloc, operations)),
        "pages" => Some(page_run::run(alloc, operations)),
        "tokens" => Some(token_run::run(alloc, operations)),
        "queues" => Some(queue_run::run(alloc, operations)),
        _ => None,
    }
}

fn main(rt: HostRuntime) -> io::Result<()> {
    let mut words = env::args(&rt)?.skip(1);
    let (Some(part), Some(operations)) = (words.next(), words.next()) else {
        return println!(rt; "words: lists, pages, tokens or queues, and a number");
    };
    let operations = operations.as_str().parse::<u32>().unwrap_or(0);
    match checksum(rt.alloc(), part.as_str(), operations) {
        Some(Ok(sum)) => println!(rt; "{sum}"),
        Some(Err(NoMemory)) => println!(rt; "no memory"),
        None => println!(rt; "no such part"),
    }
}
