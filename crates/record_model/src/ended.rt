//! Commands that ended.

ghost use Rattle.std.specs.Prelude.{◌≡◌, ◌<◌, ◌^◌, IfOk, length};
ghost use Rattle.record_model.specs.Seen.{author_bytes, history_bytes};

use plain_types::{NoMemory, Text};
use std::alloc::Global;
use std::marker::Model;

/// A command that ended.
#[derive(Debug, Drop)]
pub struct History {
    /// The id under which it ran.
    pub id: u128,
    /// When it began, in nanoseconds since 1970 began, in UTC.
    pub timestamp: u64,
    /// How long it ran, in nanoseconds; what the client told, so it may be below 0.
    pub duration: i64,
    /// Its exit status.
    pub exit: i64,
    pub command: Text,
    /// The working directory.
    pub cwd: Text,
    pub session: Text,
    pub hostname: Text,
    /// When it was deleted, in nanoseconds since 1970 began, if it was.
    pub deleted_at: Option<u64>,
    /// Who or what ran it, if the client told.
    pub author: Option<Text>,
}

impl History {
    /// The lengths of command, cwd, session, hostname and, where there is one, author together, in bytes. It takes no
    /// memory.
    pub fn text_len(&self) -> u64
        ensures value { result ≡ history_bytes self.now }
        ensures below { result < 2 ^ 35 }
    {
        self.command.len() as u64
            + self.cwd.len() as u64
            + self.session.len() as u64
            + self.hostname.len() as u64
            + author_len(&self.author)
    }

    /// An equal value.
    ///
    /// # Errors
    ///
    /// [`NoMemory`].
    pub fn copy(&self, alloc: Global) -> Result<History, NoMemory>
        ensures { IfOk result (λ h. h ≡ self.now) }
    {
        Ok(History {
            id: self.id,
            timestamp: self.timestamp,
            duration: self.duration,
            exit: self.exit,
            command: self.command.copy(alloc)?,
            cwd: self.cwd.copy(alloc)?,
            session: self.session.copy(alloc)?,
            hostname: self.hostname.copy(alloc)?,
            deleted_at: self.deleted_at,
            author: copy_author(alloc, &self.author)?,
        })
    }
}

/// The length of an author, 0 where there is none.
fn author_len(author: &Option<Text>) -> u64
    ensures value { result ≡ author_bytes author.now }
    ensures below { result < 2 ^ 32 }
{
    match author {
        Some(text) => text.len() as u64,
        None => 0,
    }
}

/// An equal author, or none where there is none.
fn copy_author(alloc: Global, author: &Option<Text>) -> Result<Option<Text>, NoMemory>
    ensures { IfOk result (λ a. a ≡ author.now) }
{
    match author {
        Some(text) => Ok(Some(text.copy(alloc)?)),
        None => Ok(None),
    }
}

/// Ended commands in an order. Contracts see the list of them.
#[derive(Debug, Drop)]
pub struct Histories {
    inner: Vec<History>,
}

impl Model for Histories {
    ghost use Rattle.std.specs.Prelude.{List};
    ghost use Rattle.record_model.specs.declared.ended.History.{History};

    ghost Value = { List History };

    ghost view = { λ h. h.inner.items };
}

impl Histories {
    /// The commands of `inner`, in its order. It takes no memory.
    pub fn from_vec(inner: Vec<History>) -> Histories
        ensures { result ≡ inner.items }
    {
        Histories { inner }
    }

    /// The commands as a `Vec`. It takes no memory.
    pub fn into_vec(self) -> Vec<History>
        ensures { result.items ≡ self }
    {
        self.inner
    }

    /// The commands in their order.
    pub fn as_slice(&self) -> &[History]
        ensures { result.now ≡ self.now }
    {
        self.inner.as_slice()
    }

    /// The number of commands.
    pub fn len(&self) -> usize
        ensures { result ≡ length self.now }
    {
        self.as_slice().len()
    }
}
