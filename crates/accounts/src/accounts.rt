//! Accounts, read from their text.

ghost use Rattle.std.specs.Prelude.{◌≡◌, ◌<◌, ◌++◌, ◌∷◌, [], length, find, OnOk};
ghost use Rattle.std.specs.Option.{option_map};
ghost use Rattle.accounts.specs.Accounts.{has_token, may_follow, most_accounts, owner_of};
ghost use Rattle.accounts.specs.Reading.{account_seen, told_seen, Adds, Reads};

use crate::fail::AccountsFail;
use crate::lines::{account_in, split_at_first};
use plain_types::{Bytes, NoMemory};
use std::alloc::Global;
use std::marker::Model;

/// The most lines that a text of accounts may have.
const MOST_ACCOUNTS: usize = 1_024;

/// An owner, and one of the tokens by which requests are that owner's.
#[derive(Drop)]
pub(crate) struct Account {
    owner: u32,
    token: Bytes,
}

fn has_token(account: &Account, token: &[u8]) -> bool
    ensures { result ≡ has_token token.now (account_seen account.now) }
{
    account.token.as_slice() == token
}

/// The owner of the first of these that has the token.
fn owner_among(listed: &[Account], token: &[u8]) -> Option<u32>
    ensures { result ≡ option_map (λ account. account.owner) (find (λ account. has_token token.now (account_seen account)) listed.now) }
{
    let found = listed.iter().find(|account| has_token(account, token));
    found.map(|account| account.owner)
}

/// Accounts, at most 1,024, in the order of their lines. Contracts see the list of them.
#[derive(Drop)]
pub struct Accounts {
    listed: Vec<Account>,
}

impl Model for Accounts {
    ghost use Rattle.std.specs.Prelude.{List, length, ◌≤◌};
    ghost use Rattle.accounts.specs.Accounts.{AccountSeen, most_accounts};
    ghost use Rattle.accounts.specs.Reading.{accounts_seen};

    ghost Value = { List AccountSeen };

    ghost view = { λ a. accounts_seen a.listed.items };

    ghost invariant = { λ a. length a.listed.items ≤ most_accounts };
}

impl Accounts {
    /// The accounts of a text: a line an account, an owner of 1 to 4 digits and at most 1,023, one space, and a token of
    /// 1 to 256 visible characters of ASCII, which no other line has. Each line ends with LF, which the last one may lack.
    /// One owner may have several tokens.
    ///
    /// # Errors
    ///
    /// [`AccountsFail::Wrong`] exactly where a line isn't of the form, repeats a token, or is the 1,025th, with the number,
    /// from 1, of the first one that is so. [`AccountsFail::NoMemory`].
    pub fn read(alloc: Global, bytes: &[u8]) -> Result<Accounts, AccountsFail>
        ensures { Reads bytes.now result }
    {
        let mut accounts = Accounts {
            listed: Vec::new(alloc),
        };
        let mut rest = bytes;
        while !rest.is_empty() {
            let (line, later) = split_at_first(rest, b'\n');
            match accounts.add(alloc, line) {
                Ok(()) => rest = later,
                Err(fail) => return Err(fail),
            }
        }
        Ok(accounts)
    }

    /// Whether one more account may follow, whose token this is.
    fn may_take(&self, token: &[u8]) -> bool
        ensures { result ≡ may_follow self.now token.now }
    {
        self.listed.len() < MOST_ACCOUNTS && !self.owner(token).is_some()
    }

    fn push(&mut self, alloc: Global, owner: u32, token: &[u8]) -> Result<(), NoMemory>
        requires { length self.old < most_accounts }
        ensures { OnOk result (self.new ≡ self.old ++ told_seen owner token.now ∷ []) }
    {
        let token = Bytes::copied(alloc, token)?;
        self.listed.push(Account { owner, token })?;
        Ok(())
    }

    /// Adds the account of the next line.
    ///
    /// # Errors
    ///
    /// [`AccountsFail::Wrong`], [`AccountsFail::NoMemory`].
    fn add(&mut self, alloc: Global, line: &[u8]) -> Result<(), AccountsFail>
        ensures { Adds self.old self.new line.now result }
    {
        let wrong = AccountsFail::Wrong {
            line: self.listed.len() as u32 + 1,
        };
        let Some((owner, token)) = account_in(line) else {
            return Err(wrong);
        };
        if !self.may_take(token) {
            return Err(wrong);
        }
        self.push(alloc, owner, token)?;
        Ok(())
    }

    /// The owner whose token this is, 0 to 1,023; `None` exactly where no account has it. It takes no memory.
    pub fn owner(&self, token: &[u8]) -> Option<u32>
        ensures { result ≡ owner_of self.now token.now }
    {
        owner_among(self.listed.as_slice(), token)
    }
}
