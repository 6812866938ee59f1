// The file of a Unix socket.

use std::alloc::{AllocError, Global};
use std::fs::{DirBuilder, File, Files, OpenOptions, Permissions, TryLockError};
use std::io::ErrorKind;
use std::net::Net;
use std::os::unix::fs::{DirBuilderExt, FileTypeExt, OpenOptionsExt, PermissionsExt};
use std::os::unix::net::{UnixListener, UnixStream};
use std::{fs, io};

/// Only the owner connects.
const SOCKET_MODE: u32 = 0o600;

/// Only the owner looks into the folder in which the socket is made.
const FOLDER_MODE: u32 = 0o700;

/// Why no socket was made.
#[derive(Debug, Drop)]
pub enum SocketFail {
    /// Somebody listens there, or is about to.
    InUse,
    /// Something else than a socket stands there.
    NotASocket,
    /// The system refused a call.
    Refused(io::Error),
}

impl From<io::Error> for SocketFail {
    fn from(error: io::Error) -> SocketFail {
        SocketFail::Refused(error)
    }
}

impl From<AllocError> for SocketFail {
    fn from(_: AllocError) -> SocketFail {
        SocketFail::Refused(ErrorKind::OutOfMemory.into())
    }
}

/// The lock of a socket's path. While it is kept nobody else listens there by [`listen_at`]; it ends with the process.
#[derive(Drop)]
pub struct SocketHold {
    _lock: File,
}

/// Makes a Unix socket at the path and listens at it. Its mode is 0600 before anyone can reach it. A socket that stands
/// there already gives way, if nobody listens at it. Beside the path stands a file whose name has `.lock` behind it, which
/// is locked meanwhile, so that of two that begin at once only one does this.
///
/// # Errors
///
/// - [`SocketFail::InUse`]: somebody listens there, or holds the lock;
/// - [`SocketFail::NotASocket`]: something else stands there;
/// - [`SocketFail::Refused`]: the system refused a call. What stood there may be gone only if it was a socket at which
///   nobody listened.
pub fn listen_at<R: Files<File = File> + Net>(
    rt: &R,
    alloc: Global,
    path: &str,
) -> Result<(UnixListener, SocketHold), SocketFail> {
    let hold = hold(rt, alloc, path)?;
    clear(rt, path)?;
    let socket = make(rt, alloc, path)?;
    Ok((socket, hold))
}

/// Takes the lock of a path.
fn hold<R: Files<File = File>>(
    rt: &R,
    alloc: Global,
    path: &str,
) -> Result<SocketHold, SocketFail> {
    let name = format!(in alloc; "{path}.lock")?;
    let mut options = OpenOptions::new();
    options.write(true).create(true).mode(SOCKET_MODE);
    let lock = options.open(rt, name.as_str())?;
    match lock.try_lock() {
        Ok(()) => Ok(SocketHold { _lock: lock }),
        Err(TryLockError::WouldBlock) => Err(SocketFail::InUse),
        Err(TryLockError::Error(error)) => Err(SocketFail::Refused(error)),
    }
}

/// Whether nothing stands in the way at the path: nothing at all, or a socket at which nobody listens.
fn clear<R: Files + Net>(rt: &R, path: &str) -> Result<(), SocketFail> {
    let found = match fs::symlink_metadata(rt, path) {
        Ok(found) => found,
        Err(error) if error.kind() == ErrorKind::NotFound => return Ok(()),
        Err(error) => return Err(SocketFail::Refused(error)),
    };
    if !found.file_type().is_socket() {
        return Err(SocketFail::NotASocket);
    }
    match UnixStream::connect(rt, path) {
        Ok(_) => Err(SocketFail::InUse),
        Err(error) if error.kind() == ErrorKind::ConnectionRefused => Ok(()),
        Err(error) => Err(SocketFail::Refused(error)),
    }
}

/// Makes the socket in a folder that nobody else may look into, and only then moves it to the path.
fn make<R: Files + Net>(rt: &R, alloc: Global, path: &str) -> Result<UnixListener, SocketFail> {
    let folder = format!(in alloc; "{path}.made")?;
    let made = format!(in alloc; "{path}.made/socket")?;
    match DirBuilder::new()
        .mode(FOLDER_MODE)
        .create(rt, folder.as_str())
    {
        Ok(()) => {}
        // one that was left behind
        Err(error) if error.kind() == ErrorKind::AlreadyExists => {
            let _ = fs::remove_file(rt, made.as_str());
        }
        Err(error) => return Err(SocketFail::Refused(error)),
    }
    let socket = UnixListener::bind(rt, made.as_str())?;
    fs::set_permissions(rt, made.as_str(), Permissions::from_mode(SOCKET_MODE))?;
    fs::rename(rt, made.as_str(), path)?;
    fs::remove_dir(rt, folder.as_str())?;
    Ok(socket)
}
