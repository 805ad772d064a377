//! The standard streams. They tell no bytes, so what they read and write is trusted.

ghost use Rattle.std.specs.Prelude.{◌≡◌};

use crate::streams::{Failed, Sink, Source};
use std::io::{Read, Write};

/// A reader of the system as a source.
#[derive(Drop)]
pub struct Input<R: Read> {
    reader: R,
    faults: u64,
}

impl<R: Read> Input<R> {
    pub fn new(reader: R) -> Input<R> {
        Input { reader, faults: 0 }
    }
}

impl<R: Read> Source for Input<R> {
    ghost use Rattle.std.specs.Prelude.{ℕ, List, Option};
    ghost use Rattle.std.specs.declared.option.Option.TheVariants.{None};

    ghost faults = { λ s. s.faults };

    ghost left = { λ _. None };

    fn read(&mut self, buf: &mut [u8]) -> Result<usize, Failed> {
        match self.reader.read(buf) {
            Ok(n) => Ok(n),
            Err(_) => {
                self.faults = self.faults.saturating_add(1);
                Err(Failed)
            }
        }
    }
}

/// A writer of the system as a sink. A write that takes nothing of a piece is a fault.
#[derive(Drop)]
pub struct Output<W: Write> {
    writer: W,
    faults: u64,
}

impl<W: Write> Output<W> {
    pub fn new(writer: W) -> Output<W> {
        Output { writer, faults: 0 }
    }
}

impl<W: Write> Sink for Output<W> {
    ghost use Rattle.std.specs.Prelude.{ℕ, List, Option};
    ghost use Rattle.std.specs.declared.option.Option.TheVariants.{None};

    ghost faults = { λ s. s.faults };

    ghost taken = { λ _. None };

    fn write(&mut self, piece: &[u8]) -> Result<usize, Failed> {
        match self.writer.write(piece) {
            Ok(n) if n > 0 || piece.is_empty() => Ok(n),
            _ => {
                self.faults = self.faults.saturating_add(1);
                Err(Failed)
            }
        }
    }
}

#[cfg(test)]
mod tests {
    use crate::standard::{Input, Output};
    use crate::streams::{Sink, Source};
    use std::io;
    use std::io::{Read, Write};
    use std::test::Fail;

    /// Gives one byte at its first call, fails at the second, and is at its end from then on.
    #[derive(Drop)]
    struct Halting {
        calls: u8,
    }

    impl Read for Halting {
        fn read(&mut self, buf: &mut [u8]) -> io::Result<usize> {
            self.calls = self.calls.saturating_add(1);
            match self.calls {
                1 if !buf.is_empty() => {
                    buf[0] = b'a';
                    Ok(1)
                }
                2 => Err(io::Error::from(io::ErrorKind::Other)),
                _ => Ok(0),
            }
        }
    }

    impl Write for Halting {
        fn write(&mut self, buf: &[u8]) -> io::Result<usize> {
            self.calls = self.calls.saturating_add(1);
            match self.calls {
                1 => Ok(buf.len().min(1)),
                2 => Err(io::Error::from(io::ErrorKind::Other)),
                _ => Ok(0),
            }
        }

        fn flush(&mut self) -> io::Result<()> {
            Ok(())
        }
    }

    #[test]
    fn failures_are_counted(rt: HostRuntime) -> Result<(), Fail> {
        let mut input = Input::new(Halting { calls: 0 });
        let mut buf = [0u8; 2];
        assert_eq!(rt; input.read(&mut buf), Ok(1));
        assert_eq!(rt; buf[0], b'a');
        assert!(rt; input.read(&mut buf).is_err());
        assert_eq!(rt; input.read(&mut buf), Ok(0));
        assert_eq!(rt; input.faults, 1);
        let mut output = Output::new(Halting { calls: 0 });
        assert_eq!(rt; output.write(b"bc"), Ok(1));
        assert!(rt; output.write(b"c").is_err());
        assert!(rt; output.write(b"c").is_err());
        assert_eq!(rt; output.write(b""), Ok(0));
        assert_eq!(rt; output.faults, 2);
        Ok(())
    }
}
