//! The tests of the shell's words: of the commands that lines ask for, of the options that words ask for, and of made lines.
#![tactic(auto)]

#[cfg(test)]
mod commands;
#[cfg(test)]
mod options;
