//! Whether a command matches the text of a query.

ghost use Rattle.std.specs.Prelude.{◌≡◌, ℕ, ◌≤◌, List, true, false, length, take, map, eqb};
ghost use Rattle.std.specs.Char.{is_ascii_uppercase, to_ascii_lowercase};
ghost use Rattle.std.specs.List.{list_any, starts_with};
ghost use Rattle.definitions.specs.Search.{matches_by, stands_in};
ghost use Rattle.history_view.specs.Folded.{BeginsFolded};
ghost use Rattle.record_model.specs.Seen.{mode_seen};
ghost use Rattle.search_query.specs.Matching.{matched};

use memchr::memmem::Finder;
use record_model::Mode;
use std::marker::Model;

/// So many bytes behind a text are looked through with it: the finder compares 32 at once.
const BYTES_BEHIND: usize = 32;

/// The text of a query, ready to be looked for: a text without ASCII capitals is compared with a
/// command's ASCII letters folded, any other exactly. The finder is made once for all commands.
#[derive(Drop)]
pub struct Matching<'a> {
    mode: Mode,
    is_exact: bool,
    text: &'a [u8],
    finder: Finder<'a>,
}

impl<'a> Model for Matching<'a> {
    ghost use Rattle.std.specs.Prelude.{◌≡◌};
    ghost use Rattle.std.specs.List.{list_any};
    ghost use Rattle.std.specs.Char.{is_ascii_uppercase};
    ghost use Rattle.record_model.specs.Seen.{mode_seen};
    ghost use Rattle.search_query.specs.Matching.{Wanted};

    ghost Value = { Wanted };

    ghost view = { λ m. record { mode = mode_seen m.mode; text = m.text.now } };

    ghost invariant = { λ m. (m.finder ≡ m.text.now) × (m.is_exact ≡ list_any is_ascii_uppercase m.text.now) };
}

impl<'a> Matching<'a> {
    /// The text of a query in this mode. It takes no memory.
    pub fn new(mode: Mode, text: &'a [u8]) -> Matching<'a>
        ensures { result ≡ record { mode = mode_seen mode; text = text.now } }
    {
        Matching {
            mode,
            is_exact: has_capital(text),
            text,
            finder: Finder::new(text),
        }
    }

    /// Whether the command matches. The empty text matches every command. `folded` begins with the command, its ASCII letters
    /// folded; what stands behind it tells nothing, but lets many bytes be compared at once.
    pub fn matches(&self, command: &[u8], folded: &[u8]) -> bool
        requires { BeginsFolded command.now folded.now }
        ensures { result ≡ matches_by self.now.mode self.now.text command.now }
    {
        if self.is_exact {
            return is_match(self.mode, &self.finder, self.text, command);
        }
        match self.mode {
            Mode::Prefix => begins(self.text, command),
            Mode::Substring => stands_before(&self.finder, folded, command.len()),
        }
    }

    /// Whether one look at texts that stand folded in a block tells that none of them matches. Of a text with a capital it
    /// tells nothing.
    pub fn passes_by(&self, block: &[u8]) -> bool
        ensures { result ≡ true → (command : List ℕ) → stands_in (map to_ascii_lowercase command) block.now ≡ true → matches_by self.now.mode self.now.text command ≡ false }
    {
        if self.is_exact {
            return false;
        }
        !contains(&self.finder, block)
    }
}

/// Whether a byte of the text is an ASCII capital.
fn has_capital(text: &[u8]) -> bool
    ensures { result ≡ list_any is_ascii_uppercase text.now }
{
    text.iter().any(|byte| byte.is_ascii_uppercase())
}

/// Whether the text, which has no capital, begins the command with its ASCII letters folded.
fn begins(text: &[u8], command: &[u8]) -> bool
    requires { list_any is_ascii_uppercase text.now ≡ false }
    ensures { result ≡ starts_with eqb (map to_ascii_lowercase command.now) text.now }
{
    if command.len() < text.len() {
        return false;
    }
    command[..text.len()].eq_ignore_ascii_case(text)
}

/// Whether the text begins the command, or stands in it.
fn is_match(mode: Mode, finder: &Finder<'_>, text: &[u8], command: &[u8]) -> bool
    requires { finder.now ≡ text.now }
    ensures { result ≡ matched (mode_seen mode) text.now command.now }
{
    match mode {
        Mode::Prefix => command.starts_with(text),
        Mode::Substring => contains(finder, command),
    }
}

/// Whether what is looked for stands in the command.
fn contains(finder: &Finder<'_>, command: &[u8]) -> bool
    ensures { result ≡ stands_in finder.now command.now }
{
    finder.find(command).is_some()
}

/// Whether what is looked for stands in the bytes before `end`.
fn stands_before(finder: &Finder<'_>, bytes: &[u8], end: usize) -> bool
    requires { end ≤ length bytes.now }
    ensures { result ≡ stands_in finder.now (take end bytes.now) }
{
    let most = bytes.len().min(end.saturating_add(BYTES_BEHIND));
    match finder.find(&bytes[..most]) {
        Some(at) => at + finder.needle().len() <= end,
        None => false,
    }
}
