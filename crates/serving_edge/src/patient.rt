// Readers and writers that go on after an interruption.

use std::io::{ErrorKind, Read, Result, Write};

/// A reader or a writer whose calls are made again where a signal interrupted them. It tells no bytes.
#[derive(Drop)]
pub struct Patient<T>(pub T);

impl<R: Read> Read for Patient<R> {
    fn read(&mut self, buf: &mut [u8]) -> Result<usize> {
        for _ in 0..u64::MAX {
            match self.0.read(buf) {
                Err(e) if e.kind() == ErrorKind::Interrupted => {}
                found => return found,
            }
        }
        Err(ErrorKind::Interrupted.into())
    }
}

impl<W: Write> Write for Patient<W> {
    fn write(&mut self, buf: &[u8]) -> Result<usize> {
        for _ in 0..u64::MAX {
            match self.0.write(buf) {
                Err(e) if e.kind() == ErrorKind::Interrupted => {}
                found => return found,
            }
        }
        Err(ErrorKind::Interrupted.into())
    }

    fn flush(&mut self) -> Result<()> {
        self.0.flush()
    }
}
