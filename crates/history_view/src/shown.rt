//! A command that a view lends.

/// A command that ended, with its texts as the view holds them.
#[derive(Clone, Copy, Debug, Drop)]
pub struct ShownCommand<'a> {
    pub id: u128,
    pub timestamp: u64,
    pub duration: i64,
    pub exit: i64,
    pub command: &'a [u8],
    pub cwd: &'a [u8],
    pub session: &'a [u8],
    pub hostname: &'a [u8],
    pub deleted_at: Option<u64>,
    pub author: Option<&'a [u8]>,
}
