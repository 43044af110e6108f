//! Tests of the commands of the program `fidl`, over files in memory and writers that fail: each outcome
//! with what is printed and what the exit status is (docs/program.md). The cases of `cases/` are run by
//! the program itself.
#![tactic(auto)]

#[cfg(test)]
mod command_lines;
#[cfg(test)]
mod compiling;
#[cfg(test)]
mod listings;
#[cfg(test)]
mod messages;
#[cfg(test)]
mod services;
#[cfg(test)]
mod tables;
#[cfg(test)]
mod writers;
