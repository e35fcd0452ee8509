//! The top call of `serve`.

ghost use Rattle.std.specs.Prelude.{◌≡◌, ◌<◌, ◌≤◌, length, map, string_bytes, IfOk, Ok};
ghost use Rattle.rs_face.specs.Courses.{course};
ghost use Rattle.rs_exchange.specs.Accounts.{IsConfig};
ghost use Rattle.rs_work.specs.Connections.{course_of};
ghost use Rattle.rs_config.specs.declared.serve_config.ServeConfig.{ServeConfig};
ghost use Rattle.rs_config.specs.ConfigReadings.{ReadsConfig};
ghost use Rattle.rs_cli.specs.Notes.{code_of};
ghost use Rattle.rs_serve_cli.specs.ServeRuns.{quotas_in, EndsServing, IsStaffed, IsStaffedFor, RunsServe, ServesConfig, ServesFile, TakesWords};

use crate::serve_status::ServeStatus;
use rs_cli::{Note, print_count, print_line};
use rs_config::{
    Room, ServeConfig, ServeFault, config_laws, read_config, read_serve, serve_help_text,
};
use rs_face::{Entropy, Keeper, Listener, Sink};
use rs_hall::{Gate, HallFault};
use rs_path::NoMemory;
use rs_serve::{Post, Tally, serve_users};
use rs_work::Watch;
use std::alloc::Global;
use std::sync::Wait;
use std::thread::Threads;

/// Does what the words after `serve` say with this text of the configuration file: serves the connections of all posts to the
/// users whom it names, each with the keeper at the same place, and prints `served` with their number and a line end.
///
/// The status says how it ended, in this order of refusals. `Words`: they aren't what the command takes; where they ask for help,
/// that is printed. `Config` and `ConfigToml`: the file is refused. `RowAt`, `RowUnlawful` and `KeeperFailed`: the rows of this
/// user, the first of such, aren't opened, and nobody was served. `ListenerFailed`: a listener failed, after all posts were
/// served. `SinkFailed`: the line couldn't be printed. `NoMemory` may come at any point, and then posts and keepers may be gone;
/// otherwise all of them stand in their order afterwards.
///
/// Where the words and the file are read so, there are as many keepers as users, in their order, and 1 to 64 posts. It isn't said that
/// a connection or a turn ever comes, nor that the call returns.
pub fn run_serve<R, N, E, K, G, V, W>(
    rt: &R,
    alloc: Global,
    words: &[String],
    config: &[u8],
    posts: &mut Vec<Post<N, E>>,
    keepers: &mut Vec<K>,
    gate: &G,
    watch: &V,
    sink: &mut W,
) -> ServeStatus
where
    R: Threads + Wait + Sync,
    N: Listener + Send + Drop,
    E: Entropy + Send + Drop,
    K: Keeper + Send + Drop,
    G: Gate + Sync,
    V: Watch + Sync,
    W: Sink,
    requires staffed { IsStaffed posts.old.items keepers.old.items (map string_bytes words.now) config.now }
    ensures runs { RunsServe (record {
      coming = N.coming;
      back = N.back;
      given = N.given;
      ends = N.ends;
      faults = N.faults;
      words = E.words;
      failures = E.faults;
      connection = course_of N.In.left N.In.faults N.Out.written N.Out.faults N.Out.wants;
    })
        K.rows K.row_count K.faults
        (record {
          posts = posts.old.items;
          posts' = posts.new.items;
          keepers = keepers.old.items;
          keepers' = keepers.new.items;
          sink = course W.written W.faults sink.old sink.new;
        })
        (map string_bytes words.now) config.now result.user result.status.note }
    ensures code { result.status.code ≡ code_of result.status.note }
{
    match take_words(alloc, words) {
        Ok(()) => serve_file(rt, alloc, config, posts, keepers, gate, watch, sink),
        Err(ServeFault::Help) => ServeStatus::of(print_line(sink, serve_help_text())),
        Err(ServeFault::Words) => ServeStatus::of(Note::Words),
        Err(ServeFault::NoMemory) => ServeStatus::of(Note::NoMemory),
    }
}

// Whether the words are those of the command.
fn take_words(alloc: Global, words: &[String]) -> Result<(), ServeFault>
    ensures takes { TakesWords (map string_bytes words.now) result }
{
    match read_serve(alloc, words) {
        Ok(_) => Ok(()),
        Err(fault) => Err(fault),
    }
}

// Serves the users of the configuration file.
fn serve_file<R, N, E, K, G, V, W>(
    rt: &R,
    alloc: Global,
    text: &[u8],
    posts: &mut Vec<Post<N, E>>,
    keepers: &mut Vec<K>,
    gate: &G,
    watch: &V,
    sink: &mut W,
) -> ServeStatus
where
    R: Threads + Wait + Sync,
    N: Listener + Send + Drop,
    E: Entropy + Send + Drop,
    K: Keeper + Send + Drop,
    G: Gate + Sync,
    V: Watch + Sync,
    W: Sink,
    requires staffed { (config : ServeConfig) → ReadsConfig text.now (Ok config) → IsStaffedFor posts.old.items keepers.old.items config }
    ensures serves { ServesFile (record {
      coming = N.coming;
      back = N.back;
      given = N.given;
      ends = N.ends;
      faults = N.faults;
      words = E.words;
      failures = E.faults;
      connection = course_of N.In.left N.In.faults N.Out.written N.Out.faults N.Out.wants;
    })
        K.rows K.row_count K.faults
        (record {
          posts = posts.old.items;
          posts' = posts.new.items;
          keepers = keepers.old.items;
          keepers' = keepers.new.items;
          sink = course W.written W.faults sink.old sink.new;
        })
        text.now result.user result.status.note }
    ensures code { result.status.code ≡ code_of result.status.note }
{
    config_laws();
    match read_config(alloc, text) {
        Ok(config) => serve_config(rt, alloc, &config, posts, keepers, gate, watch, sink),
        Err(fault) => ServeStatus::of(Note::from(fault)),
    }
}

// Serves the users of the configuration.
fn serve_config<R, N, E, K, G, V, W>(
    rt: &R,
    alloc: Global,
    config: &ServeConfig,
    posts: &mut Vec<Post<N, E>>,
    keepers: &mut Vec<K>,
    gate: &G,
    watch: &V,
    sink: &mut W,
) -> ServeStatus
where
    R: Threads + Wait + Sync,
    N: Listener + Send + Drop,
    E: Entropy + Send + Drop,
    K: Keeper + Send + Drop,
    G: Gate + Sync,
    V: Watch + Sync,
    W: Sink,
    requires config { IsConfig config.now.front }
    requires rooms { length config.now.rooms.items ≡ length config.now.front.accounts }
    requires few { length config.now.front.accounts ≤ 1000 }
    requires staffed { IsStaffedFor posts.old.items keepers.old.items config.now }
    ensures serves { ServesConfig (record {
      coming = N.coming;
      back = N.back;
      given = N.given;
      ends = N.ends;
      faults = N.faults;
      words = E.words;
      failures = E.faults;
      connection = course_of N.In.left N.In.faults N.Out.written N.Out.faults N.Out.wants;
    })
        K.rows K.row_count K.faults
        (record {
          posts = posts.old.items;
          posts' = posts.new.items;
          keepers = keepers.old.items;
          keepers' = keepers.new.items;
          sink = course W.written W.faults sink.old sink.new;
        })
        config.now result.user result.status.note }
    ensures code { result.status.code ≡ code_of result.status.note }
{
    let Ok(quotas) = quotas_of(alloc, config.rooms.as_slice()) else {
        return ServeStatus::of(Note::NoMemory);
    };
    match serve_users(
        rt,
        alloc,
        &config.front,
        quotas.as_slice(),
        posts,
        keepers,
        gate,
        watch,
    ) {
        Ok(tally) => ServeStatus::of(print_tally(sink, tally)),
        Err(HallFault::User { user, fault }) => ServeStatus::of_user(Note::from(fault), user),
        Err(HallFault::NoMemory) => ServeStatus::of(Note::NoMemory),
    }
}

// The quotas of the users, in their order.
fn quotas_of(alloc: Global, rooms: &[Room]) -> Result<Vec<u64>, NoMemory>
    ensures quotas { IfOk result (λ quotas. quotas.items ≡ quotas_in rooms.now) }
{
    let mut quotas = Vec::with_capacity(alloc, rooms.len())?;
    for room in rooms {
        quotas.push(room.quota)?;
    }
    Ok(quotas)
}

// Prints how many connections were served, unless a listener failed.
fn print_tally<W: Sink>(sink: &mut W, tally: Tally) -> Note
    ensures ends { EndsServing (course W.written W.faults sink.old sink.new) tally.failed tally.served result }
{
    if tally.failed {
        return Note::ListenerFailed;
    }
    print_count(sink, b"served ", tally.served)
}
