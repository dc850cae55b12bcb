// Cases of lines and turns, for tests.
#![tactic(auto)]

#[cfg(test)]
mod tests;
