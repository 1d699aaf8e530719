//! Frame files and what the program prints for them, as tests.
#![tactic(auto)]

#[cfg(test)]
mod tests;
