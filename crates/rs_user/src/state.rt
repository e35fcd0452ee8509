//! A user's state.

ghost use Rattle.std.specs.Prelude.{◌≡◌, length, is_some, IfOk};
ghost use Rattle.rs_rules.specs.Histories.{History, len, start, empty_base};
ghost use Rattle.rs_rules.specs.Tokens.{scopes_of};
ghost use Rattle.rs_user.specs.Standing.{StandsFor};

use crate::granted::Grants;
use rs_path::NoMemory;
use rs_rules::Tree;
use rs_scope::Token;
use std::alloc::Global;

/// What is known of a user: the tree of the documents, the granted tokens, and how many records were accepted.
///
/// It stands for a history and keeps none. Each clause holds for every history that it stands for.
#[derive(Drop)]
pub struct UserState<T: Tree> {
    pub(crate) tree: T,
    pub(crate) granted: Grants,
    pub(crate) len: u64,
    pub(crate) rows: u64,
    pub(crate) cut: u64,
    pub(crate) quota: u64,
}

impl<T: Tree> UserState<T> {
    // The state of a user of whom there is no record.
    pub(crate) fn new(alloc: Global, quota: u64) -> Result<UserState<T>, NoMemory>
        ensures empty { IfOk result (λ state. StandsFor T.stands state (start empty_base)) }
        ensures quota { IfOk result (λ state. state.quota ≡ quota) }
    {
        Ok(UserState {
            tree: T::new(alloc)?,
            granted: Grants::new(alloc),
            len: 0,
            rows: 0,
            cut: 0,
            quota,
        })
    }

    /// Whether the token is granted. It takes no memory.
    pub fn granted(&self, token: &Token) -> bool
        ensures granted { (h : History) → StandsFor T.stands self.now h → result ≡ is_some (scopes_of h token.now) }
    {
        self.granted.scopes_in(token).is_some()
    }

    /// The number of records, those that were given up included. It takes no memory.
    pub fn len(&self) -> u64
        ensures len { (h : History) → StandsFor T.stands self.now h → result ≡ len h }
    {
        self.len
    }

    /// The number of records since the cut: of the rows that are kept. It takes no memory.
    pub fn rows(&self) -> u64
        ensures rows { (h : History) → StandsFor T.stands self.now h → result ≡ length h.entries }
        ensures same { result ≡ self.now.rows }
    {
        self.rows
    }

    /// The number of records that were given up. It takes no memory.
    pub fn cut(&self) -> u64
        ensures cut { (h : History) → StandsFor T.stands self.now h → result ≡ h.base.cut }
    {
        self.cut
    }

    /// The tree of the documents.
    pub fn tree(&self) -> &T
        ensures tree { result.now ≡ self.now.tree }
    {
        &self.tree
    }
}
