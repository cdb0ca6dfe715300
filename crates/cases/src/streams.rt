// A reader and a writer that do little at a time, are interrupted, and fail.
use std::alloc::Global;
use std::io::{self, ErrorKind, Read, Write};

// Gives three bytes at a time, each time after an interruption, and fails once so many bytes are given.
#[derive(Drop)]
pub(crate) struct Source {
    bytes: &'static [u8],
    before: Option<usize>,
    rests: bool,
}

impl Source {
    pub(crate) fn new(bytes: &'static [u8], before: Option<usize>) -> Source {
        Source {
            bytes,
            before,
            rests: false,
        }
    }
}

impl Read for Source {
    fn read(&mut self, buf: &mut [u8]) -> io::Result<usize> {
        self.rests = !self.rests;
        if self.rests {
            return Err(ErrorKind::Interrupted.into());
        }
        if self.before == Some(0) {
            return Err(ErrorKind::Other.into());
        }
        let most = self.before.unwrap_or(3).min(3);
        let count = most.min(buf.len()).min(self.bytes.len());
        buf[..count].copy_from_slice(&self.bytes[..count]);
        self.bytes = &self.bytes[count..];
        self.before = self.before.map(|n| n.saturating_sub(count));
        Ok(count)
    }
}

// Takes four bytes at a time, each time after an interruption, and none once its room is used up.
#[derive(Drop)]
pub(crate) struct Target {
    held: Vec<u8>,
    room: usize,
    rests: bool,
}

impl Target {
    pub(crate) fn new(heap: Global, room: usize) -> Target {
        Target {
            held: Vec::new(heap),
            room,
            rests: false,
        }
    }

    pub(crate) fn held(&self) -> &[u8] {
        self.held.as_slice()
    }
}

impl Write for Target {
    fn write(&mut self, buf: &[u8]) -> io::Result<usize> {
        self.rests = !self.rests;
        if self.rests {
            return Err(ErrorKind::Interrupted.into());
        }
        let count = buf.len().min(self.room).min(4);
        self.held.extend_from_slice(&buf[..count])?;
        self.room -= count;
        Ok(count)
    }

    fn flush(&mut self) -> io::Result<()> {
        Ok(())
    }
}
