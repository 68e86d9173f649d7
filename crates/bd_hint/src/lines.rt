//! The lines that help, as they are put together.

use crate::source::NamedFile;
use bd_text::Line;
use itoa::Buffer;
use std::alloc::{AllocError, Global};

/// Lines of text.
#[derive(Drop)]
pub struct Lines {
    bytes: Vec<u8>,
}

impl Lines {
    /// No lines.
    pub fn new(alloc: Global) -> Lines {
        Lines {
            bytes: Vec::new(alloc),
        }
    }

    /// The bytes of the lines.
    pub fn into_bytes(self) -> Vec<u8> {
        self.bytes
    }

    /// Adds these pieces.
    pub fn put(&mut self, pieces: &[&[u8]]) -> Result<(), AllocError> {
        for piece in pieces {
            self.bytes.extend_from_slice(piece)?;
        }
        Ok(())
    }

    /// Adds a number.
    pub fn put_number(&mut self, number: u64) -> Result<(), AllocError> {
        let mut buffer = Buffer::new();
        self.bytes
            .extend_from_slice(buffer.format(number).as_bytes())
    }

    /// Adds a line of these pieces.
    pub fn say(&mut self, pieces: &[&[u8]]) -> Result<(), AllocError> {
        self.put(pieces)?;
        self.end()
    }

    /// Ends a line.
    pub fn end(&mut self) -> Result<(), AllocError> {
        self.put(&[b"\n"])
    }

    /// Adds a line on a byte of a file, with its place, the line of the file, and a caret under the byte.
    pub fn note(
        &mut self,
        source: NamedFile<'_>,
        offset: usize,
        pieces: &[&[u8]],
    ) -> Result<(), AllocError> {
        let line = Line::at(source.text, offset);
        let column = offset.saturating_sub(line.start).saturating_add(1);
        self.put(&[source.name.as_bytes(), b":"])?;
        self.put_number(line.number)?;
        self.put(&[b":"])?;
        self.put_number(column as u64)?;
        self.put(&[b": "])?;
        self.say(pieces)?;
        self.put(&[b"  ", line.bytes(source.text), b"\n  "])?;
        self.put_blanks(source.text.get(line.start..offset).unwrap_or(&[]))?;
        self.put(&[b"^\n"])
    }

    /// Adds a space for each byte, and a tab for a tab.
    fn put_blanks(&mut self, text: &[u8]) -> Result<(), AllocError> {
        for byte in text {
            self.put(&[if *byte == b'\t' { b"\t" } else { b" " }])?;
        }
        Ok(())
    }
}
