//! A history's text, read in pieces of any size. What is kept between two pieces is small and has a fixed
//! size, so the text is never held.
#![tactic(auto)]

mod expected;
mod feed;
mod kept_line;
mod long_line;

pub use feed::{Fed, HistoryFeed};
