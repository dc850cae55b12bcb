// Pages and files that are worked out by hand, compared with what the plain engine makes of them.
#![tactic(auto)]

#[cfg(test)]
mod tests;
