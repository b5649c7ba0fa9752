//! The tests of the words of a script: each kind of line, what is refused, and the text of a line.
//! They stand apart, since a crate with tests is proved twice.
#![tactic(auto)]

#[cfg(test)]
mod script;
