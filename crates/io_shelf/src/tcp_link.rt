//! Links over TCP.

ghost use Rattle.std.specs.Prelude.{◌≡◌, None, false};

use crate::doors::Link;
use crate::faults::Faults;
use crate::outside::Failed;
use std::io::{Read, Write};

/// A stream of bytes to and from a peer. To take no byte is a fault.
#[derive(Drop)]
pub struct TcpLink<T: Read + Write + Drop> {
    stream: T,
    broken: bool,
    faults: Faults,
}

impl<T: Read + Write + Drop> TcpLink<T> {
    /// Before any call.
    pub(crate) fn over(stream: T) -> Self
        ensures faults { result.faults.number ≡ 0 }
        ensures broken { result.broken ≡ false }
    {
        TcpLink {
            stream,
            broken: false,
            faults: Faults::new(),
        }
    }

    /// The stream alone.
    pub(crate) fn into_stream(self) -> T {
        self.stream
    }
}

impl<T: Read + Write + Drop> Link for TcpLink<T> {
    ghost seen = { λ l. record {
      left = None;
      written = None;
      faults = l.faults.number;
      broken = l.broken;
    } };

    fn read(&mut self, buf: &mut [u8]) -> Result<usize, Failed> {
        match self.stream.read(buf) {
            Ok(count) => Ok(count),
            Err(_) => {
                self.broken = true;
                Err(self.faults.count())
            }
        }
    }

    fn write(&mut self, bytes: &[u8]) -> Result<usize, Failed> {
        match self.stream.write(bytes) {
            Ok(count) if count > 0 => Ok(count),
            _ => Err(self.faults.count()),
        }
    }
}
