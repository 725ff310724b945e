//! Doors over TCP, on which a peer of their own knocks before each of their links comes.

ghost use Rattle.std.specs.Prelude.{◌≡◌, None, false};

use io_shelf::{Doors, Failed, Faults, TcpDoors, TcpLink};
use std::io::Write;
use std::net::{Net, TcpListener, TcpStream};
use stg_net::NoMemory;

/// A peer that asks for all names, and keeps its stream open.
#[derive(Drop)]
pub struct KnockedDoors<'a, R: Net<Listener = TcpListener, Stream = TcpStream>> {
    rt: &'a R,
    addr: &'static str,
    doors: TcpDoors<'a, R>,
    pub peer: Option<TcpStream>,
    faults: Faults,
}

impl<'a, R: Net<Listener = TcpListener, Stream = TcpStream>> KnockedDoors<'a, R> {
    /// The peer knocks at this address.
    pub fn new(rt: &'a R, addr: &'static str) -> Self
        ensures { (⟦<KnockedDoors<'a, R> as Doors>⟧.seen result).asked ≡ false }
    {
        KnockedDoors {
            rt,
            addr,
            doors: TcpDoors::new(rt),
            peer: None,
            faults: Faults::new(),
        }
    }

    // A peer that has connected, and asked.
    fn knock(&self) -> Result<TcpStream, Failed> {
        let Ok(mut peer) = TcpStream::connect(self.rt, self.addr) else {
            return Err(Failed);
        };
        if peer.write_all(b"GET /projects HTTP/1.1\r\n\r\n").is_err() {
            return Err(Failed);
        }
        Ok(peer)
    }
}

impl<'a, R: Net<Listener = TcpListener, Stream = TcpStream>> Doors for KnockedDoors<'a, R> {
    type L = TcpLink<TcpStream>;

    ghost seen = { λ d. record {
      links = None;
      asked = (⟦<TcpDoors<'a, R> as Doors>⟧.seen d.doors).asked;
      listening = (⟦<TcpDoors<'a, R> as Doors>⟧.seen d.doors).listening;
      faults = d.faults.number;
    } };

    fn listen(&mut self, addr: &str) -> Result<(), Failed> {
        match self.doors.listen(addr) {
            Ok(()) => Ok(()),
            Err(_) => Err(self.faults.count()),
        }
    }

    fn next(&mut self) -> Result<TcpLink<TcpStream>, Failed> {
        match self.knock() {
            Ok(peer) => self.peer = Some(peer),
            Err(_) => return Err(self.faults.count()),
        }
        match self.doors.next() {
            Ok(link) => Ok(link),
            Err(_) => Err(self.faults.count()),
        }
    }

    fn finish(&mut self, link: TcpLink<TcpStream>) -> Result<(), NoMemory> {
        self.doors.finish(link)
    }
}
