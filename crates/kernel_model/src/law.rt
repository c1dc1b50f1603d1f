//! The laws of the definitions: what each answer is over one entry more, and what holds of every legal
//! history. A law is the contract of a function with nothing in its body.

pub mod contents;
pub mod deadlines;
pub mod frames;
pub mod groups;
pub mod histories;
pub mod legal;
pub mod literal;
pub mod mapping;
pub mod next;
pub mod pages;
pub mod queues;
pub mod quiet;
pub mod state;
pub mod tasks;
