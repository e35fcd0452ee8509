//! The command `pipe`.

ghost use Rattle.std.specs.Prelude.{◌≡◌, length, IfOk};
ghost use Rattle.rs_rules.specs.Histories.{History};
ghost use Rattle.rs_face.specs.Courses.{course, IsLater};
ghost use Rattle.rs_exchange.specs.Accounts.{IsConfig};
ghost use Rattle.rs_cli.specs.Commands.{setting_in};
ghost use Rattle.rs_cli.specs.Pipes.{PipeEnds, Pipes, IsOpenState, GrantsWhereMissing, OpensOr, config_of};

use crate::asking::{ask, open_rows};
use crate::command::Serving;
use crate::note::Note;
use crate::request_fault::RequestFault;
use rs_config::host_of;
use rs_face::{Entropy, Keeper, Sink, Source};
use rs_front::{Account, Accounts, Config, serve_stream};
use rs_path::{Bytes, NoMemory};
use rs_rules::{Request, Tree};
use rs_scope::{Scopes, Token};
use rs_user::{SoloDesk, UserState};
use std::alloc::Global;

/// `pipe USER TOKEN SCOPES [QUOTA [BASE SALT SECRET]]`: opens the rows, grants the token these scopes where it isn't granted, and serves the
/// source to the sink.
///
/// The note says how it ended. The rows are opened first: `RowAt` and `RowUnlawful` name the first row that is wrong. Where
/// the token isn't granted and 4,294,967,295 records are there, `Limit` comes. `KeeperFailed` comes only where the keeper's
/// count of faults rose before anything was served. Then the notes are those of the end of the connection: `Empty` where
/// the input ended between two messages or the last message asked to close; `Limit` after 1,000 replies of which the last
/// message didn't ask to close; `SourceFailed` and `SinkFailed` only where that count of faults rose; `Message` at the
/// place of bytes that are no request, or of the input's end inside one. `NoMemory` may come at any point.
pub fn pipe<T: Tree, S: Source, W: Sink, K: Keeper, E: Entropy>(
    alloc: Global,
    serving: Serving<'_>,
    source: &mut S,
    sink: &mut W,
    keeper: &mut K,
    entropy: &mut E,
) -> Note
    ensures ends { PipeEnds (config_of serving.entry.user.now (setting_in serving.entry)) serving.entry.token serving.entry.scopes serving.entry.quota
        (course K.rows K.faults keeper.old keeper.new)
        (course S.left S.faults source.old source.new)
        (course W.written W.faults sink.old sink.new) (course W.written W.wants sink.old sink.new)
        (course E.words E.faults entropy.old entropy.new)
        result }
{
    let Ok(config) = config_of(alloc, &serving) else {
        return Note::NoMemory;
    };
    let Serving {
        token,
        scopes,
        quota,
        ..
    } = serving;
    match open_granted::<T, K>(alloc, keeper, quota, token, scopes) {
        Ok(mut state) => serve(alloc, &config, &mut state, source, sink, keeper, entropy),
        Err(note) => note,
    }
}

// The state of the rows, in which the token is granted.
fn open_granted<T: Tree, K: Keeper>(
    alloc: Global,
    keeper: &mut K,
    quota: u64,
    token: Token,
    scopes: Scopes,
) -> Result<UserState<T>, Note>
    ensures opened { OpensOr T.stands token scopes
        (course K.rows K.faults keeper.old keeper.new)
        (K.row_count keeper.new) quota result }
    ensures later { IsLater (course K.rows K.faults keeper.old keeper.new) }
{
    let mut state = open_rows::<T, K>(alloc, keeper, quota)?;
    grant_where_missing(&mut state, keeper, token, scopes)?;
    Ok(state)
}

// Grants the token these scopes, unless it has some.
fn grant_where_missing<T: Tree, K: Keeper>(
    state: &mut UserState<T>,
    keeper: &mut K,
    token: Token,
    scopes: Scopes,
) -> Result<(), RequestFault>
    requires ready { (h : History) × IsOpenState T.stands (K.rows keeper.old) (K.row_count keeper.old) state.old.quota state.old h }
    ensures granted { (h : History) → IsOpenState T.stands (K.rows keeper.old) (K.row_count keeper.old) state.old.quota state.old h
        → GrantsWhereMissing T.stands h token scopes
        (course K.rows K.faults keeper.old keeper.new)
        (K.row_count keeper.new) state.old.quota state.new result }
    ensures later { IsLater (course K.rows K.faults keeper.old keeper.new) }
{
    if state.granted(&token) {
        return Ok(());
    }
    let request = Request::Grant { token, scopes };
    ask(state, keeper, &request, token)
}

// Serves the source to the sink over the state and its rows.
fn serve<T: Tree, S: Source, W: Sink, K: Keeper, E: Entropy>(
    alloc: Global,
    config: &Config,
    state: &mut UserState<T>,
    source: &mut S,
    sink: &mut W,
    keeper: &mut K,
    entropy: &mut E,
) -> Note
    requires config { IsConfig config.now }
    requires one { length config.now.accounts ≡ 1 }
    requires ready { (h : History) × IsOpenState T.stands (K.rows keeper.old) (K.row_count keeper.old) state.old.quota state.old h }
    ensures serves { (h : History) → IsOpenState T.stands (K.rows keeper.old) (K.row_count keeper.old) state.old.quota state.old h
        → Pipes config.now h state.old.quota
        (course K.rows K.faults keeper.old keeper.new)
        (course S.left S.faults source.old source.new)
        (course W.written W.faults sink.old sink.new) (course W.written W.wants sink.old sink.new)
        (course E.words E.faults entropy.old entropy.new)
        result }
{
    let mut desk = SoloDesk::new(state, keeper);
    serve_desk(alloc, config, source, sink, &mut desk, entropy)
}

// Serves the source to the sink over the desk.
fn serve_desk<T: Tree, S: Source, W: Sink, K: Keeper, E: Entropy>(
    alloc: Global,
    config: &Config,
    source: &mut S,
    sink: &mut W,
    desk: &mut SoloDesk<'_, K, T>,
    entropy: &mut E,
) -> Note
    requires config { IsConfig config.now }
    requires one { length config.now.accounts ≡ 1 }
    requires ready { (h : History)
        × IsOpenState T.stands (K.rows desk.old.keeper.now) (K.row_count desk.old.keeper.now) desk.old.state.now.quota desk.old.state.now h }
    ensures serves { (h : History)
        → IsOpenState T.stands (K.rows desk.old.keeper.now) (K.row_count desk.old.keeper.now) desk.old.state.now.quota desk.old.state.now h
        → Pipes config.now h desk.old.state.now.quota
        (course K.rows K.faults desk.old.keeper.now desk.new.keeper.now)
        (course S.left S.faults source.old source.new)
        (course W.written W.faults sink.old sink.new) (course W.written W.wants sink.old sink.new)
        (course E.words E.faults entropy.old entropy.new)
        result }
    ensures same_keeper { desk.new.keeper.ghost_name ≡ desk.old.keeper.ghost_name }
    ensures same_state { desk.new.state.ghost_name ≡ desk.old.state.ghost_name }
{
    Note::from(serve_stream(alloc, config, source, sink, desk, entropy))
}

// A server of this user alone.
fn config_of(alloc: Global, serving: &Serving<'_>) -> Result<Config, NoMemory>
    ensures same { IfOk result (λ config. config ≡ config_of serving.now.user.now (setting_in serving.now)) }
    ensures config { IfOk result IsConfig }
{
    let mut accounts = Accounts::new(alloc);
    accounts.push(Account {
        name: Bytes::of(Vec::from_slice(alloc, serving.user)?),
        salt: Bytes::of(Vec::from_slice(alloc, serving.salt)?),
        secret: serving.secret,
    })?;
    let base = serving.base.as_bytes();
    Ok(Config {
        base: Bytes::of(Vec::from_slice(alloc, base)?),
        host: Bytes::of(Vec::from_slice(alloc, host_of(base))?),
        accounts,
    })
}
