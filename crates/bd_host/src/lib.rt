//! The host of a program: the files of the system, its streams, and the words of the command line.
#![tactic(auto)]

mod disk;
mod real_files;
mod stream;
#[cfg(test)]
mod tests;
mod words;

pub use disk::Disk;
pub use real_files::RealFiles;
pub use stream::Stream;
pub use words::{Arguments, WordsError, command_line};
