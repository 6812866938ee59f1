//! What no clause says: what a connection carries, what a real socket gives and takes, and that workers run.

ghost use Rattle.std.specs.Prelude.{◌≡◌, None, true};

use super::*;
use at_edge::{Got, MemSink, MemSource, Sink, Source, Took};
use std::alloc::{AllocError, Global};
use std::fs::{File, Files};
use std::io::{Read, Write};
use std::net::Net;
use std::os::unix::fs::PermissionsExt;
use std::os::unix::net::UnixStream;
use std::sync::Wait;
use std::test::*;
use std::thread::Threads;
use std::time::Duration;
use std::{fs, io, process};

/// A connection whose peer sends these bytes.
fn conn(alloc: Global, bytes: &[u8]) -> Result<Duplex<MemSource, MemSink>, AllocError> {
    Ok(Duplex {
        source: MemSource::new(bytes.to_vec(alloc)?, Vec::new(alloc)),
        sink: MemSink::new(alloc, Vec::new(alloc)),
    })
}

/// Reads once from the connection, and sends back what came.
fn echo<S: Source, K: Sink>(conn: &mut Duplex<S, K>) {
    let mut into = [0; 8];
    if let Got::Bytes(count) = conn.source.read(&mut into) {
        let _took: Took = conn.sink.write(&into[..count]);
    }
}

/// Serves the next connection and hands it back, or says why there is none.
fn serve<A: Listener>(listener: &mut A) -> Option<SeatEnd>
    requires { (A.listener listener.old).out ≡ None }
    ensures { (A.listener listener.new).out ≡ None }
{
    match listener.accept() {
        Accepted::Conn(mut conn) => {
            echo(&mut conn);
            listener.finish(conn);
            None
        }
        Accepted::Closed => Some(SeatEnd::Closed),
        Accepted::Failed => Some(SeatEnd::AcceptFault),
    }
}

#[test]
fn connections_come_in_order_and_go_back(rt: HostRuntime) -> Result<(), Fail> {
    let alloc = rt.alloc();
    let mut conns = Vec::new(alloc);
    conns.push(conn(alloc, b"first")?)?;
    conns.push(conn(alloc, b"second")?)?;
    // the second accept fails
    let mut listener = MemListener::new(alloc, conns, vec![in alloc; 2]?);
    assert!(rt; serve(&mut listener).is_none());
    assert!(rt; serve(&mut listener) == Some(SeatEnd::AcceptFault));
    assert!(rt; serve(&mut listener).is_none());
    assert!(rt; serve(&mut listener) == Some(SeatEnd::Closed));
    let done = listener.done();
    assert!(rt; done.len() == 2);
    assert_eq!(rt; done[0].back.sink.written(), b"first".as_slice());
    assert_eq!(rt; done[1].back.sink.written(), b"second".as_slice());
    Ok(())
}

/// Notes that it worked.
#[derive(Drop)]
struct Note {
    is_done: bool,
}

impl Worker for Note {
    ghost ready = { λ _. Unit {0} };

    ghost worked = { λ before after. after.is_done ≡ true };

    fn work<R: Threads + Wait + Sync>(&mut self, _rt: &R) {
        self.is_done = true;
    }
}

/// How many of three workers ran, or the refusal.
fn ran<R: Threads + Wait + Sync, P: Spawner>(rt: &R, spawner: &mut P) -> Result<u32, SpawnFault> {
    let mut notes = [
        Note { is_done: false },
        Note { is_done: false },
        Note { is_done: false },
    ];
    run_all(rt, spawner, &mut notes)?;
    let mut count = 0u32;
    for note in &notes {
        if note.is_done {
            count = count.saturating_add(1);
        }
    }
    Ok(count)
}

#[test]
fn spawners_run_each_worker(rt: HostRuntime) -> Result<(), Fail> {
    let alloc = rt.alloc();
    assert!(rt; ran(&rt, &mut ScopeSpawner) == Ok(3));
    assert!(rt; ran(&rt, &mut SureSpawner) == Ok(3));
    let mut line = LineSpawner::new(vec![in alloc; 1]?);
    assert!(rt; ran(&rt, &mut line) == Err(SpawnFault));
    assert!(rt; ran(&rt, &mut line) == Ok(3));
    Ok(())
}

#[test]
fn pacers_grant_rounds(rt: HostRuntime) -> Result<(), Fail> {
    let mut two = CountPacer::new(2);
    assert!(rt; two.next());
    assert!(rt; two.next());
    assert!(rt; !two.next());
    let mut asleep = SleepPacer::new(&rt, Duration::from_millis(1));
    assert!(rt; asleep.next());
    Ok(())
}

/// Whether a file at the path is left alone.
fn leaves_a_file<R: Files<File = File> + Net>(
    rt: &R,
    alloc: Global,
    path: &str,
) -> io::Result<bool> {
    fs::write(rt, path, "text")?;
    let refused = matches!(listen_at(rt, alloc, path), Err(SocketFail::NotASocket));
    fs::remove_file(rt, path)?;
    Ok(refused)
}

/// The mode of a socket at which somebody listens, and nobody else may. Afterwards its file is still there.
fn mode_in_use<R: Files<File = File> + Net>(
    rt: &R,
    alloc: Global,
    path: &str,
) -> io::Result<Option<u32>> {
    let Ok((_socket, _hold)) = listen_at(rt, alloc, path) else {
        return Ok(None);
    };
    if !matches!(listen_at(rt, alloc, path), Err(SocketFail::InUse)) {
        return Ok(None);
    }
    let mode = fs::symlink_metadata(rt, path)?.permissions().mode();
    Ok(Some(mode & 0o777))
}

/// What a client that sends this text is sent back, by the listener.
fn sent_back<N: Net>(
    net: &N,
    path: &str,
    listener: &mut SocketListener,
    text: &[u8; 5],
) -> io::Result<[u8; 5]>
    requires { (⟦<SocketListener as Listener>⟧.listener listener.old).out ≡ None }
    ensures { (⟦<SocketListener as Listener>⟧.listener listener.new).out ≡ None }
{
    let mut client = UnixStream::connect(net, path)?;
    client.write_all(text)?;
    let _end = serve(listener);
    let mut back = [0; 5];
    client.read_exact(&mut back)?;
    Ok(back)
}

/// What two listeners at one socket send back to a client each.
fn sent_back_by_two<R: Files<File = File> + Net>(
    rt: &R,
    alloc: Global,
    path: &str,
) -> io::Result<Option<([u8; 5], [u8; 5])>> {
    let Ok((socket, _hold)) = listen_at(rt, alloc, path) else {
        return Ok(None);
    };
    let mut one = SocketListener::new(alloc, socket);
    let mut other = one.another()?;
    let first = sent_back(rt, path, &mut other, b"hello")?;
    let second = sent_back(rt, path, &mut one, b"again")?;
    Ok(Some((first, second)))
}

#[test]
fn a_socket_gives_way_only_where_nobody_listens(rt: HostRuntime) -> Result<(), Fail> {
    let alloc = rt.alloc();
    let path = format!(in alloc; "serving_edge_{}", process::id(rt.process()))?;
    let lock = format!(in alloc; "{path}.lock")?;
    assert!(rt; leaves_a_file(&rt, alloc, &path)?);
    assert!(rt; mode_in_use(&rt, alloc, &path)? == Some(0o600));
    let sent = sent_back_by_two(&rt, alloc, &path)?;
    assert!(rt; sent == Some((*b"hello", *b"again")));
    fs::remove_file(&rt, path.as_str())?;
    fs::remove_file(&rt, lock.as_str())?;
    Ok(())
}
