//! The plural name of a log's lines.
use crate::line::Line;
use bd_list::Sequence;

/// A list of lines, in the order in which they were pushed.
pub type Log = Sequence<Line>;
