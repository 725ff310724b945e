//! Doors that listen for TCP connections.

ghost use Rattle.std.specs.Prelude.{◌≡◌, None, false};

use crate::doors::Doors;
use crate::faults::Faults;
use crate::outside::Failed;
use crate::tcp_link::TcpLink;
use std::io::Read;
use std::net::{Net, OpenListener, Shutdown, TcpListener, TcpStream};
use std::time::Duration;
use stg_net::NoMemory;

/// How many bytes of a finished peer one read drops at most.
const PIECE: usize = 65_536;

/// How many pieces of a finished peer are dropped at most.
const PIECES: u32 = 64;

/// For how many milliseconds a piece of a finished peer is waited for.
const PATIENCE: u64 = 200;

/// TCP connections at an address.
#[derive(Drop)]
pub struct TcpDoors<'a, R: Net<Listener = TcpListener, Stream = TcpStream>> {
    rt: &'a R,
    listener: Option<TcpListener>,
    asked: bool,
    faults: Faults,
}

impl<'a, R: Net<Listener = TcpListener, Stream = TcpStream>> TcpDoors<'a, R> {
    /// They don't listen yet.
    pub fn new(rt: &'a R) -> Self
        ensures asked { (⟦<TcpDoors<'a, R> as Doors>⟧.seen result).asked ≡ false }
        ensures faults { (⟦<TcpDoors<'a, R> as Doors>⟧.seen result).faults ≡ 0 }
    {
        TcpDoors {
            rt,
            listener: None,
            asked: false,
            faults: Faults::new(),
        }
    }
}

impl<R: Net<Listener = TcpListener, Stream = TcpStream>> Doors for TcpDoors<'_, R> {
    type L = TcpLink<TcpStream>;

    ghost use Rattle.std.specs.Prelude.{is_some};

    ghost seen = { λ d. record {
      links = None;
      asked = d.asked;
      listening = is_some d.listener;
      faults = d.faults.number;
    } };

    fn listen(&mut self, addr: &str) -> Result<(), Failed> {
        self.asked = true;
        self.listener = None;
        match TcpListener::bind(self.rt, addr) {
            Ok(listener) => {
                self.listener = Some(listener);
                Ok(())
            }
            Err(_) => Err(self.faults.count()),
        }
    }

    fn next(&mut self) -> Result<TcpLink<TcpStream>, Failed> {
        if let Some(listener) = &self.listener {
            if let Ok((stream, _peer)) = listener.accept() {
                return Ok(TcpLink::over(stream));
            }
        }
        Err(self.faults.count())
    }

    fn finish(&mut self, link: TcpLink<TcpStream>) -> Result<(), NoMemory> {
        drop_rest(link.into_stream());
        Ok(())
    }
}

// Ends what is sent to a peer, drops what it still sends, and closes. A stream that is closed over
// unread bytes is reset, and the peer may lose what was written to it.
fn drop_rest(mut stream: TcpStream) {
    let mut buf = [0u8; PIECE];
    let patience = Some(Duration::from_millis(PATIENCE));
    if stream.shutdown(Shutdown::Write).is_err() || stream.set_read_timeout(patience).is_err() {
        return;
    }
    for _ in 0..PIECES {
        match stream.read(&mut buf) {
            Ok(count) if count > 0 => {}
            _ => return,
        }
    }
}
