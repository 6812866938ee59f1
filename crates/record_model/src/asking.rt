//! What a client asks.

use plain_types::Text;

/// How a search compares its text with a command. A text without ASCII capitals is compared with the command's ASCII
/// letters folded to lower case, any other exactly.
#[derive(Clone, Copy, Debug, PartialEq, Eq)]
pub enum Mode {
    /// The command begins with the text.
    Prefix,
    /// The text stands anywhere in the command.
    Substring,
}

/// Which commands a search goes through.
#[derive(Debug, Drop)]
pub enum Filter {
    /// All of them.
    Global,
    /// Those that ran on this host, by its name.
    Host(Text),
    /// Those of this session.
    Session(Text),
    /// Those that ran in this working directory.
    Directory(Text),
}

/// A search for ended commands. The newest is shown first, and of two that began at one time the one with the lesser
/// id.
#[derive(Debug, Drop)]
pub struct Query {
    pub mode: Mode,
    pub filter: Filter,
    /// What a command has to begin with or to contain. The empty text matches every command.
    pub text: Text,
    /// Whether of several hits with one command only the first is shown.
    pub unique: bool,
    /// How many of the first hits are left out.
    pub offset: u32,
    /// How many hits are shown at most, 1 to 1,000.
    pub limit: u32,
}

/// A call of the daemon.
#[derive(Debug, Drop)]
pub enum Call {
    /// A command begins to run.
    Start {
        command: Text,
        cwd: Text,
        session: Text,
        hostname: Text,
    },
    /// The running command `id` has ended: after `duration` nanoseconds, with the status `exit`, run by `author` where
    /// the client tells.
    End {
        id: u128,
        duration: i64,
        exit: i64,
        author: Option<Text>,
    },
    /// The ended command `id` is shown no more.
    Delete {
        id: u128,
    },
    /// Which ended commands match.
    Search(Query),
    /// The key of the namespace has this value.
    KvSet {
        namespace: Text,
        key: Text,
        value: Text,
    },
    /// Which value a key of the namespace has.
    KvGet {
        namespace: Text,
        key: Text,
    },
    /// The key of the namespace has no value any more.
    KvDelete {
        namespace: Text,
        key: Text,
    },
    /// The keys of the namespace that stand behind `after` in the order of their bytes, all of them where `after` is
    /// empty, and at most `limit`, 1 to 1,000.
    KvList {
        namespace: Text,
        after: Text,
        limit: u32,
    },
    /// The name stands for this value.
    AliasSet {
        name: Text,
        value: Text,
    },
    /// The name stands for nothing any more.
    AliasDelete {
        name: Text,
    },
    /// The names, with their values, that stand behind `after` in the order of their bytes, all of them where `after`
    /// is empty, and at most `limit`, 1 to 1,000.
    AliasList {
        after: Text,
        limit: u32,
    },
    /// How long the chains are.
    Status,
}
