//! A keeper over a database that tells its rows.
ghost use Rattle.std.specs.Prelude.{◌≡◌, ℕ, List, [], IfOk};
ghost use Rattle.sqlite.specs.Held.{state};
ghost use Rattle.sqlite.specs.Steps.{over_memory};
ghost use Rattle.rs_sqlite.specs.Keeping.{KeepsRows};
ghost use Rattle.rs_sqlite.specs.Tables.{IsOpenedAs, rows_in};

use crate::sql_keeper::SqlKeeper;
use rs_face::{KeepFault, Keeper};
use sqlite::{Alter, Connection, MemStore};
use std::alloc::Global;
use std::marker::Model;

/// A store whose disk always returns what was written, and never fails.
///
/// Of the stores of `sqlite` the one in memory is so. That a file is so is a premise, which no code can show.
pub trait Steadfast: Alter {
    ghost use Rattle.std.specs.Prelude.{◌≡◌};
    ghost use Rattle.sqlite.specs.View.{doubt};

    ghost clean: { (store : Self) → doubt (Self.Store.view store).is_clean ≡ 0 };

    ghost faultless: { (store : Self) → Self.Store.faults store ≡ 0 };
}

impl Steadfast for MemStore {
    ghost use Rattle.std.specs.Prelude.{true, refl};
    ghost use Rattle.sqlite_trees.proofs.Doubt.{no_doubt};

    ghost clean = { λ _. no_doubt true refl };

    ghost faultless = { λ _. refl };
}

/// A `SqlKeeper` over a steadfast store, which tells its rows: those that are in the table.
///
/// Each of its calls is the `SqlKeeper`'s. So what is promised of a keeper that tells holds of a `SqlKeeper` as long as its
/// store is clean and doesn't fail.
#[derive(Drop)]
pub struct TellingKeeper<S: Steadfast + Drop> {
    keeper: SqlKeeper<S>,
}

impl<S: Steadfast + Drop> Model for TellingKeeper<S> {
    ghost use Rattle.sqlite.specs.Held.{state};
    ghost use Rattle.rs_sqlite.specs.Keeping.{Keeping, KeepsRows, keeping_code};
    ghost use Rattle.rs_sqlite.specs.Tables.{rows_in};

    ghost Value = { Keeping S };

    ghost coded = { keeping_code S.code };

    ghost view = { λ k. k.keeper };

    ghost invariant = { λ k. KeepsRows S.Store k.keeper (rows_in (state S.Store k.keeper.connection).now.trees) };
}

impl<S: Steadfast + Drop> TellingKeeper<S> {
    /// The same keeper, which tells the rows that it keeps.
    pub fn new(keeper: SqlKeeper<S>) -> TellingKeeper<S>
        requires { KeepsRows S.Store keeper (rows_in (state S.Store keeper.connection).now.trees) }
        ensures { result ≡ keeper }
    {
        TellingKeeper { keeper }
    }

    /// A keeper of the rows of a database, which tells them. The errors are those of `SqlKeeper::open`.
    pub fn open(connection: Connection<S>) -> Result<TellingKeeper<S>, KeepFault>
        requires opens { (rows : List (List ℕ)) × IsOpenedAs (state S.Store connection) rows }
        ensures rows { (rows : List (List ℕ)) → IsOpenedAs (state S.Store connection) rows
            → IfOk result (λ keeper. rows_in (state S.Store keeper.connection).now.trees ≡ rows) }
        ensures faults { IfOk result (λ keeper. keeper.faults ≡ 0) }
    {
        Ok(TellingKeeper::new(SqlKeeper::open(connection)?))
    }
}

impl TellingKeeper<MemStore> {
    /// A keeper in memory, of no rows yet.
    pub fn in_memory(alloc: Global) -> Result<TellingKeeper<MemStore>, KeepFault>
        ensures rows { IfOk result (λ keeper. rows_in (state over_memory keeper.connection).now.trees ≡ []) }
        ensures faults { IfOk result (λ keeper. keeper.faults ≡ 0) }
    {
        TellingKeeper::open(Connection::open_in_memory(alloc)?)
    }
}

impl<S: Steadfast + Drop> Keeper for TellingKeeper<S> {
    ghost use Rattle.std.specs.Prelude.{Some, length, refl};

    ghost rows = { λ k. Some (rows_in (state S.Store k.connection).now.trees) };

    ghost row_count = { λ k. length (rows_in (state S.Store k.connection).now.trees) };

    ghost faults = { λ k. k.faults };

    ghost counted = { λ _. refl };

    fn len(&self) -> u64 {
        self.keeper.len()
    }

    fn read(&mut self, i: u64, out: &mut Vec<u8>) -> Result<(), KeepFault> {
        self.keeper.read(i, out)
    }

    fn read_run(&mut self, i: u64, out: &mut Vec<Vec<u8>>) -> Result<(), KeepFault> {
        self.keeper.read_run(i, out)
    }

    fn append(&mut self, row: &[u8]) -> Result<(), KeepFault> {
        self.keeper.append(row)
    }
}
