//! Who is served.

ghost use Rattle.std.specs.Prelude.{◌≡◌, ◌+◌, ◌^◌, ◌<◌, [], ◌∷◌, ◌++◌, length, OnOk, OnErr, option_copied, slice_get};
ghost use Rattle.rs_exchange.specs.Accounts.{is_of, account_of};

use rs_path::{Bytes, NoMemory};
use std::alloc::Global;
use std::marker::Model;

/// A user who is served, and what proves that a grant is the user's own.
#[derive(Debug, Drop)]
pub struct Account {
    /// The user: 1 to 32 bytes of `a` to `z`, digits, `-` and `_`.
    pub name: Bytes,
    /// What stands before the password where its digest is made.
    pub salt: Bytes,
    /// The SHA-256 of the salt and the password, where the user has one.
    pub secret: Option<[u8; 32]>,
}

/// The accounts of a server, of which the first is number 0, and fewer than 2^32 of them. A contract sees them as a list.
#[derive(Debug, Drop)]
pub struct Accounts {
    list: Vec<Account>,
}

impl Model for Accounts {
    ghost use Rattle.std.specs.Prelude.{List, length, ◌^◌, ◌<◌};
    ghost use Rattle.rs_exchange.specs.declared.account.Account.{Account};

    ghost Value = { List Account };

    ghost view = { λ a. a.list.items };

    ghost invariant = { λ a. length a.list.items < 2 ^ 32 };
}

/// How a server is set up.
#[derive(Debug, Drop)]
pub struct Config {
    /// The address that its own begin with, as `http://localhost`.
    pub base: Bytes,
    /// The host of its users' addresses, as `localhost`.
    pub host: Bytes,
    pub accounts: Accounts,
}

impl Accounts {
    /// No accounts.
    pub fn new(alloc: Global) -> Accounts
        ensures empty { result ≡ [] }
    {
        Accounts {
            list: Vec::new(alloc),
        }
    }

    /// Appends an account. Where there is no memory, the accounts are as before and the account is dropped.
    pub fn push(&mut self, account: Account) -> Result<(), NoMemory>
        requires room { length self.old + 1 < 2 ^ 32 }
        ensures ok { OnOk result (self.new ≡ self.old ++ account ∷ []) }
        ensures err { OnErr result (self.new ≡ self.old) }
    {
        self.list.push(account)?;
        Ok(())
    }

    /// The accounts.
    pub fn as_slice(&self) -> &[Account]
        ensures accounts { result.now ≡ self.now }
        ensures few { length self.now < 2 ^ 32 }
    {
        self.list.as_slice()
    }

    /// The account of the user with this number, if there is one.
    pub fn at(&self, user: u32) -> Option<&Account>
        ensures account { option_copied result ≡ slice_get self.now user }
    {
        self.as_slice().get(user as usize)
    }

    /// The number of the account with this name, which is compared as it stands.
    pub fn find(&self, name: &[u8]) -> Option<u32>
        ensures number { result ≡ account_of self.now name.now }
    {
        match place_of(self.as_slice(), name) {
            Some(place) => Some(place as u32),
            None => None,
        }
    }
}

impl Account {
    /// Whether the account is of the user with this name.
    fn is_of(&self, name: &[u8]) -> bool
        ensures { result ≡ is_of name.now self.now }
    {
        self.name.as_slice() == name
    }
}

fn place_of(accounts: &[Account], name: &[u8]) -> Option<usize>
    ensures { result ≡ account_of accounts.now name.now }
{
    accounts.iter().position(|account| account.is_of(name))
}
