// What the programs ask of the machine: text printed, files read and written whole, processes, one writer at a time.
#![tactic(auto)]

pub mod say; // say.rt: what is printed
pub mod text; // text.rt: texts in bytes
pub mod process; // process.rt: processes of this machine
pub mod files; // files.rt: whole files by name
pub mod cause; // cause.rt: why the system refuses a call
pub mod lock; // lock.rt: one writer at a time
