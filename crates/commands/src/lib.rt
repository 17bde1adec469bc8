// What the dispatcher's program decides without a file: the words of a command, the lines of requests, the names of files.
#![tactic(auto)]

pub mod words; // words.rt: numbers and words of a text
pub mod lines; // lines.rt: requests, one a line
pub mod command; // command.rt: commands, oracles and options by their words
pub mod names; // names.rt: the names of a basin's files
pub mod viewers; // viewers.rt: which blocks are viewers'
