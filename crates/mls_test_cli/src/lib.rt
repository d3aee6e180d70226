//! Worked calls of the program `mls`: what each subcommand prints and says, by way of `serve`, and where ends fail.
#![tactic(auto)]

#[cfg(test)]
mod tests;
