//! An address of the host as a door.

ghost use Rattle.std.specs.Prelude.{◌≡◌, ◌≤◌, ⊤, false, None, is_some};
ghost use Rattle.vmv_edge.specs.Outside.{Rose};

use crate::link::TcpLink;
use crate::tally::Tally;
use std::io;
use std::io::{Error, ErrorKind};
use std::net::{SocketAddr, TcpListener, TcpStream};
use std::rt::HostRuntime;
use vmv_door::Door;
use vmv_edge::Failed;

// How many connections that were interrupted, or that their peers gave up, are passed over in one call.
const TRIES: u32 = 1024;

/// An address of the host, at which connections over TCP are accepted. Its links aren't told, and it never ends.
///
/// An address is an IP address or a name of the host, and a port, as `127.0.0.1:8080`. Port 0 is a free port, which
/// `address` tells.
#[derive(Drop)]
pub struct TcpDoor<'r> {
    rt: &'r HostRuntime,
    listener: Option<TcpListener>,
    tally: Tally,
    faults: u64,
}

impl<'r> TcpDoor<'r> {
    /// A door that doesn't listen yet. No call of it has failed.
    pub fn new(rt: &'r HostRuntime) -> TcpDoor<'r>
        ensures faults { ⟦<TcpDoor<'r> as Door>⟧.fault_count result ≡ 0 }
        ensures closed { ⟦<TcpDoor<'r> as Door>⟧.is_listening result ≡ false }
        ensures given { ⟦<TcpDoor<'r> as Door>⟧.given result ≡ 0 }
    {
        TcpDoor {
            rt,
            listener: None,
            tally: Tally::none(),
            faults: 0,
        }
    }

    /// The address at which it listens, or none where it doesn't.
    pub fn address(&self) -> Option<SocketAddr> {
        match &self.listener {
            Some(listener) => listener.local_addr().ok(),
            None => None,
        }
    }

    // Counts one more fault, where the type has a greater number.
    fn fail(&mut self) -> Failed
        ensures counted { Rose self.old.faults self.new.faults }
        ensures later { self.old.faults ≤ self.new.faults }
        ensures listener { self.new.listener ≡ self.old.listener }
        ensures tally { self.new.tally ≡ self.old.tally }
    {
        self.faults = self.faults.saturating_add(1);
        Failed
    }

    // The next connection, where the door listens and can count one more.
    fn accept(&self) -> io::Result<TcpStream> {
        match &self.listener {
            Some(listener) => accept_from(listener),
            None => Err(Error::from(ErrorKind::NotConnected)),
        }
    }
}

// Whether a failed `accept` says something of one connection alone.
fn is_passed_over(kind: ErrorKind) -> bool {
    matches!(
        kind,
        ErrorKind::Interrupted | ErrorKind::ConnectionAborted | ErrorKind::ConnectionReset
    )
}

// The next connection. Those that are lost before they are taken are passed over, at most 1,024 in a call.
fn accept_from(listener: &TcpListener) -> io::Result<TcpStream> {
    for _ in 0..TRIES {
        match listener.accept() {
            Ok((stream, _)) => return Ok(stream),
            Err(error) if is_passed_over(error.kind()) => {}
            Err(error) => return Err(error),
        }
    }
    Err(Error::from(ErrorKind::ConnectionAborted))
}

impl<'r> Door for TcpDoor<'r> {
    type Link = TcpLink<'r>;

    ghost is_listening = { λ door. is_some door.listener };

    ghost has_ended = { λ _. false };

    ghost given = { λ door. door.tally.given };

    ghost given_back = { λ door. door.tally.back };

    ghost told = { λ _. None };

    ghost fault_count = { λ door. door.faults };

    /// Listens at the address, in place of the one before. It fails where the address is none of the host, or is taken.
    fn listen(&mut self, address: &str) -> Result<(), Failed> {
        self.listener = TcpListener::bind(self.rt, address).ok();
        if self.listener.is_none() {
            return Err(self.fail());
        }
        Ok(())
    }

    /// Waits for the next connection. It fails where the door doesn't listen, or the host can give no connection.
    fn next(&mut self) -> Result<Option<TcpLink<'r>>, Failed> {
        if !self.tally.has_room() {
            return Err(self.fail());
        }
        let Ok(stream) = self.accept() else {
            return Err(self.fail());
        };
        self.tally.give();
        Ok(Some(TcpLink::new(self.rt, stream)))
    }

    /// Ends what is written to the peer, reads what still comes for a bounded time, and closes the connection.
    fn give_back(&mut self, link: TcpLink<'r>) {
        self.tally.take_back();
        link.end();
    }

    fn faults(&self) -> u64 {
        self.faults
    }

    ghost within = { λ door. door.tally.within };
}
