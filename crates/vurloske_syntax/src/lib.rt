//! Reads text with items and goals, near to Rust's own, into an `Ast`.
#![tactic(auto)]

pub mod lexer;
mod parser;
mod reader;
mod scanner;

pub use parser::{parse, parse_onto};
