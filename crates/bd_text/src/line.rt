//! Lines of a text.

/// A line of a text: its number, from 1, where it begins, and where it ends.
#[derive(Clone, Copy)]
pub struct Line {
    pub number: u64,
    pub start: usize,
    pub end: usize,
}

impl Line {
    /// The line in which an offset of a text stands.
    pub fn at(text: &[u8], offset: usize) -> Line {
        let mut line = Line {
            number: 1,
            start: 0,
            end: text.len(),
        };
        for (at, byte) in text.iter().enumerate() {
            if *byte != b'\n' {
                continue;
            }
            if at >= offset {
                line.end = at;
                return line;
            }
            line.number = line.number.saturating_add(1);
            line.start = at.saturating_add(1);
        }
        line
    }

    /// The bytes of the line, without its end.
    pub fn bytes(self, text: &[u8]) -> &[u8] {
        text.get(self.start..self.end).unwrap_or(&[])
    }
}
