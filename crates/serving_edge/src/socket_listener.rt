// A listener over a socket.
ghost use Rattle.std.specs.Prelude.{◌≡◌, IsSome, IfOk};
ghost use Rattle.at_edge.specs.StdViews.{reader_seen, writer_seen};
ghost use Rattle.serving_edge.specs.Connections.{conn_seen};
ghost use Rattle.serving_edge.specs.Listening.{TakesBack};
ghost use Rattle.serving_edge.specs.SocketViews.{silent_conn};

use crate::failing::count_fault;
use crate::{Accepted, Duplex, Listener, Patient};
use at_edge::{ReadSource, WriteSink};
use std::alloc::Global;
use std::io;
use std::os::unix::net::{UnixListener, UnixStream};

/// What a peer sends over a Unix socket.
type SocketSource = ReadSource<Patient<UnixStream>>;

/// What is sent to a peer over a Unix socket.
type SocketSink = WriteSink<Patient<UnixStream>>;

/// A listener at a Unix socket. Several may listen at one socket, each in a thread of its own: a connection is accepted by
/// one of them. It tells no connection, and is never closed. An accept fails where the system refuses one, or where there
/// is no memory for the 65,536 bytes that are read ahead.
#[derive(Drop)]
pub struct SocketListener {
    alloc: Global,
    socket: UnixListener,
    is_out: bool,
    faults: u64,
}

impl SocketListener {
    ghost use Rattle.serving_edge.specs.SocketViews.{socket_seen, unused_socket};

    /// A listener at this socket.
    pub fn new(alloc: Global, socket: UnixListener) -> Self
        ensures { socket_seen result ≡ unused_socket }
    {
        SocketListener {
            alloc,
            socket,
            is_out: false,
            faults: 0,
        }
    }

    /// One more listener at the same socket.
    ///
    /// # Errors
    ///
    /// Where the system gives no further handle.
    pub fn another(&self) -> io::Result<SocketListener>
        ensures { IfOk result (λ l. socket_seen l ≡ unused_socket) }
    {
        Ok(SocketListener::new(self.alloc, self.socket.try_clone()?))
    }

    /// How many accepts have failed.
    pub fn faults(&self) -> u64
        ensures { result ≡ (socket_seen self.now).faults }
    {
        self.faults
    }
}

/// Accepts, again where a signal interrupted it.
fn accept_patiently(socket: &UnixListener) -> io::Result<UnixStream> {
    for _ in 0..u64::MAX {
        match socket.accept() {
            Ok((stream, _)) => return Ok(stream),
            Err(e) if e.kind() == io::ErrorKind::Interrupted => {}
            Err(e) => return Err(e),
        }
    }
    Err(io::ErrorKind::Interrupted.into())
}

/// The two directions of a stream, each by a handle of its own.
fn connection(alloc: Global, stream: UnixStream) -> io::Result<Duplex<SocketSource, SocketSink>>
    ensures { IfOk result (λ conn. conn_seen reader_seen writer_seen conn ≡ silent_conn) }
{
    let other = stream.try_clone()?;
    let source = ReadSource::new(alloc, Patient(stream));
    match source {
        Ok(source) => Ok(Duplex {
            source,
            sink: WriteSink::new(Patient(other)),
        }),
        Err(_) => Err(io::ErrorKind::OutOfMemory.into()),
    }
}

impl Listener for SocketListener {
    ghost use Rattle.serving_edge.specs.SocketViews.{socket_seen};

    type In = SocketSource;

    type Out = SocketSink;

    ghost listener = { socket_seen };

    fn accept(&mut self) -> Accepted<Duplex<SocketSource, SocketSink>> {
        let accepted = match accept_patiently(&self.socket) {
            Ok(stream) => connection(self.alloc, stream),
            Err(e) => Err(e),
        };
        match accepted {
            Ok(conn) => {
                self.is_out = true;
                Accepted::Conn(conn)
            }
            Err(_) => {
                count_fault(&mut self.faults);
                Accepted::Failed
            }
        }
    }

    /// Both directions are closed.
    fn finish(&mut self, conn: Duplex<SocketSource, SocketSink>)
        requires { IsSome (socket_seen self.old).out }
        ensures { TakesBack (socket_seen self.old) (socket_seen self.new) (conn_seen reader_seen writer_seen conn) }
    {
        let _closed = conn;
        self.is_out = false;
    }
}
