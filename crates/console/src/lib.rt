// What a person on duty writes and reads: the words of a command, lists of requests, what is told of a basin.
#![tactic(auto)]

pub mod arguments; // arguments.rt: the words of a command
pub mod inspect; // inspect.rt: what is told of a basin
pub mod moving; // moving.rt: the moves of a balance, as lines
pub mod playing; // playing.rt: requests, from lines and told line by line
