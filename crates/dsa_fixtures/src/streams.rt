//! A reader and a writer that give or take little, fail, and count how often they are asked.

ghost use Rattle.std.specs.Prelude.{◌≤◌, IfSome};

use std::alloc::Global;
use std::io;
use std::io::{ErrorKind, Read, Write};

pub const ALL: usize = usize::MAX;

/// What a stream gives or takes: at most `step` bytes a call, and `left` bytes before a call fails
/// by an error of this kind. After that each call fails, or each works.
#[derive(Clone, Copy)]
pub struct Course {
    step: usize,
    left: usize,
    fails_once: bool,
    kind: ErrorKind,
}

impl Course {
    pub fn new((step, left): (usize, usize), fails_once: bool) -> Self {
        Course {
            step,
            left,
            fails_once,
            kind: ErrorKind::Other,
        }
    }

    /// The same, where the error is of this kind.
    pub fn of_kind(self, kind: ErrorKind) -> Self {
        Course { kind, ..self }
    }

    // How many bytes of so many this call gives or takes, or none where it fails.
    fn next(&mut self, most: usize) -> Option<usize>
        ensures { IfSome result (λ count. count ≤ most) }
    {
        if self.left == 0 {
            if self.fails_once {
                self.left = ALL;
            }
            return None;
        }
        let count = most.min(self.step).min(self.left);
        self.left = self.left.saturating_sub(count);
        Some(count)
    }
}

/// Gives these bytes.
#[derive(Drop)]
pub struct Trickle<'b> {
    bytes: &'b [u8],
    course: Course,
    pub calls: u32,
}

impl<'b> Trickle<'b> {
    pub fn new(bytes: &'b [u8], course: Course) -> Self {
        Trickle {
            bytes,
            course,
            calls: 0,
        }
    }
}

impl Read for Trickle<'_> {
    fn read(&mut self, buf: &mut [u8]) -> io::Result<usize> {
        self.calls = self.calls.saturating_add(1);
        let most = buf.len().min(self.bytes.len());
        let Some(count) = self.course.next(most) else {
            return Err(io::Error::from(self.course.kind));
        };
        let (given, rest) = self.bytes.split_at(count);
        buf[..count].copy_from_slice(given);
        self.bytes = rest;
        Ok(count)
    }
}

/// Keeps what it takes. A flush counts as a call, and fails as a write does.
#[derive(Drop)]
pub struct Narrow {
    course: Course,
    pub taken: Vec<u8>,
    pub calls: u32,
}

impl Narrow {
    pub fn new(alloc: Global, course: Course) -> Self {
        Narrow {
            course,
            taken: Vec::new(alloc),
            calls: 0,
        }
    }
}

impl Write for Narrow {
    fn write(&mut self, buf: &[u8]) -> io::Result<usize> {
        self.calls = self.calls.saturating_add(1);
        let Some(count) = self.course.next(buf.len()) else {
            return Err(io::Error::from(self.course.kind));
        };
        self.taken.extend_from_slice(&buf[..count])?;
        Ok(count)
    }

    fn flush(&mut self) -> io::Result<()> {
        self.calls = self.calls.saturating_add(1);
        match self.course.next(0) {
            Some(_) => Ok(()),
            None => Err(io::Error::from(self.course.kind)),
        }
    }
}
