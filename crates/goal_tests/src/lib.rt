//! What contexts answer step by step, and what no text can ask: tests, and nothing else.
#![tactic(auto)]

#[cfg(test)]
mod tests;
