//! What a system call on a socket comes to.
ghost use Rattle.std.specs.Prelude.{length};
ghost use Rattle.loop_world.specs.Sockets.{IsWithin};

use mio::net::{TcpListener, TcpStream};
use socket_flow::Dialed;
use std::io;
use std::io::{ErrorKind, Read, Write};
use std::net::SocketAddr;

/// What a read or a write came to.
pub(crate) enum Moved {
    /// So many bytes, at least one.
    Bytes(usize),
    /// None for now.
    Nothing,
    /// It was interrupted, and is to be tried again.
    Again,
    /// The peer sends no more, or the socket has failed.
    Ended,
}

/// What accepting came to.
pub(crate) enum Accepted {
    Peer(TcpStream, SocketAddr),
    /// Nobody waits.
    Nobody,
    /// Whoever waited is gone again.
    Gone,
    /// The system has no room for one more socket.
    NoRoom,
}

pub(crate) fn read(stream: &mut TcpStream, buffer: &mut [u8]) -> Moved
    ensures { IsWithin result (length buffer.new) }
{
    match stream.read(buffer) {
        Ok(0) => Moved::Ended,
        Ok(count) => Moved::Bytes(count),
        Err(error) => not_moved(error.kind()),
    }
}

pub(crate) fn write(stream: &mut TcpStream, bytes: &[u8]) -> Moved
    ensures { IsWithin result (length bytes.now) }
{
    match stream.write(bytes) {
        Ok(0) => Moved::Ended,
        Ok(count) => Moved::Bytes(count),
        Err(error) => not_moved(error.kind()),
    }
}

fn not_moved(kind: ErrorKind) -> Moved
    ensures { IsWithin result 0 }
{
    match kind {
        ErrorKind::WouldBlock => Moved::Nothing,
        ErrorKind::Interrupted => Moved::Again,
        _ => Moved::Ended,
    }
}

pub(crate) fn accept(listener: &TcpListener) -> Accepted {
    match listener.accept() {
        Ok((stream, addr)) => Accepted::Peer(stream, addr),
        Err(error) => match error.kind() {
            ErrorKind::WouldBlock => Accepted::Nobody,
            ErrorKind::Interrupted | ErrorKind::ConnectionAborted => Accepted::Gone,
            _ => Accepted::NoRoom,
        },
    }
}

/// What has become of a socket that connects.
pub(crate) fn dialed(stream: &TcpStream) -> Dialed {
    match stream.take_error() {
        Ok(None) if stream.peer_addr().is_ok() => Dialed::Connected,
        Ok(None) => Dialed::NotYet,
        _ => Dialed::Failed,
    }
}

// The numbers of Linux for a process, or a system, that has as many descriptors as it may have.
const NO_MORE_HERE: i32 = 24;

const NO_MORE_ANYWHERE: i32 = 23;

/// Whether a socket could not be opened for want of room.
pub(crate) fn is_for_want_of_room(error: &io::Error) -> bool {
    matches!(error.raw_os_error(), Some(NO_MORE_HERE | NO_MORE_ANYWHERE))
}
