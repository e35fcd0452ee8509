//! What a worker is run over: a server of one user, a listener in memory, and a watch that notes what it is told.

ghost use Rattle.std.specs.Prelude.{◌≡◌, true, length, IfOk, IsUtf8};
ghost use Rattle.std.specs.List.{list_all};
ghost use Rattle.rs_path.specs.Users.{is_user};
ghost use Rattle.rs_exchange.specs.Accounts.{IsConfig, names_of};

use rs_chain::ChainTree;
use rs_face::{MemEntropy, MemKeeper, MemListener, MemSink, MemSource};
use rs_front::{Account, Accounts, Config, End};
use rs_path::{Bytes, NoMemory};
use rs_user::{SoloDesk, UserState};
use rs_work::{Watch, WorkerEnd, work};
use std::alloc::Global;
use std::cell::RefCell;
use std::test::Fail;

/// The number of the worker.
pub(crate) const WORKER: u32 = 7;

// The row of a grant of every scope to the token of the bytes from 0 to 15.
const GRANT_ROW: &[u8] =
    b"\x01\x03\x00\x01\x02\x03\x04\x05\x06\x07\x08\x09\x0a\x0b\x0c\x0d\x0e\x0f\x00\x04*:rw";

// ---- a watch

/// What a watch was told, in order: the worker, the connection's number, and its end.
#[derive(Drop)]
pub(crate) struct Ends {
    told: RefCell<Vec<(u32, u64, End)>>,
}

impl Ends {
    pub(crate) fn new(alloc: Global) -> Ends {
        Ends {
            told: RefCell::new(Vec::new(alloc)),
        }
    }

    pub(crate) fn told(self) -> Vec<(u32, u64, End)> {
        self.told.into_inner()
    }
}

impl Watch for Ends {
    fn ended(&self, worker: u32, connection: u64, end: &End) {
        if let Ok(mut told) = self.told.try_borrow_mut() {
            let _ = told.push((worker, connection, *end));
        }
    }
}

// ---- a server

fn bytes_of(alloc: Global, text: &str) -> Result<Bytes, NoMemory>
    ensures same { IfOk result (λ bytes. bytes ≡ text.now) }
    ensures utf8 { IfOk result IsUtf8 }
{
    Ok(Bytes::of(Vec::from_slice(alloc, text.as_bytes())?))
}

// The user alice, who has no password.
fn accounts(alloc: Global) -> Result<Accounts, NoMemory>
    ensures users { IfOk result (λ accounts. list_all is_user (names_of accounts) ≡ true) }
    ensures one { IfOk result (λ accounts. length accounts ≡ 1) }
{
    let mut accounts = Accounts::new(alloc);
    accounts.push(Account {
        name: bytes_of(alloc, "alice")?,
        salt: bytes_of(alloc, "")?,
        secret: None,
    })?;
    Ok(accounts)
}

// A server of this user.
fn config(alloc: Global) -> Result<Config, NoMemory>
    ensures config { IfOk result IsConfig }
    ensures one { IfOk result (λ config. length config.accounts ≡ 1) }
{
    Ok(Config {
        base: bytes_of(alloc, "http://localhost")?,
        host: bytes_of(alloc, "localhost")?,
        accounts: accounts(alloc)?,
    })
}

// ---- a worker

// Connections on which these texts come in.
fn connections(alloc: Global, texts: &[&str]) -> Result<Vec<(MemSource, MemSink)>, NoMemory> {
    let mut connections = Vec::new(alloc);
    for text in texts {
        let source = MemSource::new(Vec::from_slice(alloc, text.as_bytes())?, Vec::new(alloc));
        let sink = MemSink::new(Vec::new(alloc), Vec::new(alloc));
        connections.push((source, sink))?;
    }
    Ok(connections)
}

// A keeper of a grant alone.
fn keeper(alloc: Global) -> Result<MemKeeper, NoMemory> {
    let mut rows = Vec::new(alloc);
    rows.push(Bytes::of(Vec::from_slice(alloc, GRANT_ROW)?))?;
    Ok(MemKeeper::new(rows, Vec::new(alloc)))
}

/// A worker serves the connections on which these texts come in; the calls of the listener with these numbers fail.
pub(crate) fn serve<V: Watch>(
    alloc: Global,
    texts: &[&str],
    failing: &[u64],
    watch: &V,
) -> Result<(MemListener, WorkerEnd), Fail> {
    let config = config(alloc)?;
    let failing = failing.to_vec(alloc)?;
    let mut listener = MemListener::new(connections(alloc, texts)?, failing)?;
    let mut keeper = keeper(alloc)?;
    let mut entropy = MemEntropy::new(Vec::new(alloc), Vec::new(alloc));
    let Ok(mut state) = UserState::<ChainTree>::open(alloc, &mut keeper, 1000) else {
        return Err("rows that aren't opened")?;
    };
    let mut desk = SoloDesk::new(&mut state, &mut keeper);
    let end = work(
        alloc,
        &config,
        &mut listener,
        &mut desk,
        &mut entropy,
        WORKER,
        watch,
    );
    Ok((listener, end))
}
