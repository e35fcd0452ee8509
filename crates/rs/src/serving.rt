//! The command `serve` over the system: its files, its socket and its threads.

ghost use Rattle.std.specs.Prelude.{◌≡◌, ◌<◌, ◌≤◌, ◌⊎◌, length, map, string_bytes, Ok, IfOk};
ghost use Rattle.std.specs.Duration.{as_nanos};
ghost use Rattle.rs_config.specs.declared.serve_config.ServeConfig.{ServeConfig};
ghost use Rattle.rs_config.specs.declared.words.ServeWords.{ServeWords};
ghost use Rattle.rs_config.specs.ConfigReadings.{ReadsConfig};
ghost use Rattle.rs_config.specs.ServeWordings.{ReadsServe};

use crate::line_watch::LineWatch;
use crate::lines::say;
use rs_cli::{Note, Status};
use rs_config::{
    ConfigFault, Room, ServeConfig, ServeFault, ServeWords, config_laws, read_config, read_serve,
};
use rs_face::{Entropy, KeepFault, Keeper, Listener, Sink};
use rs_hall::OpenGate;
use rs_net::{NetListener, OsEntropy};
use rs_path::NoMemory;
use rs_serve::Post;
use rs_serve_cli::{ServeStatus, run_serve};
use rs_work::{NoWatch, Watch};
use std::alloc::Global;
use std::fs;
use std::io::{self, ErrorKind};
use std::net::TcpListener;
use std::sync::Wait;
use std::thread::Threads;
use std::time::Duration;

/// Connections of the one socket.
type ServeListener<'a> = NetListener<'a, HostRuntime>;

/// Random bytes of the system.
type ServeEntropy<'a> = OsEntropy<&'a HostRuntime>;

/// What each worker has.
type ServePost<'a> = Post<ServeListener<'a>, ServeEntropy<'a>>;

/// Where the files are that a configuration names: each has the rows of a user.
pub trait UserFiles {
    type Rows: Keeper + Send + Drop;

    /// Opens the rows of this file, which are none where there is no such file yet.
    fn open(&self, name: &str) -> Result<Self::Rows, KeepFault>;

    /// Closes rows that were opened here.
    fn close(&self, rows: Self::Rows);
}

/// Does what the words after `serve` say: reads the configuration, opens the users' files and the socket, and serves until the
/// socket fails.
///
/// What can't be made is named in a line on standard error, with the cause: a configuration that can't be read is status 12, a
/// user's file that can't be opened 3, an address that can't be listened at 22. There is a line when it listens, and one for each
/// connection that has no plain end.
pub fn serve<T: Threads + Wait + Sync, F: UserFiles, W: Sink>(
    rt: &HostRuntime,
    threads: &T,
    files: &F,
    words: &[String],
    sink: &mut W,
) -> Status {
    config_laws();
    match read_serve(rt.alloc(), words) {
        Ok(read) => serve_words(rt, threads, files, words, &read, sink),
        Err(ServeFault::NoMemory) => Note::NoMemory.status(),
        Err(ServeFault::Words | ServeFault::Help) => {
            refuse::<T, ServeListener<'_>, ServeEntropy<'_>, F::Rows, W>(
                threads,
                rt.alloc(),
                words,
                b"",
                sink,
            )
        }
    }
}

// Serves where the words are those of the command.
fn serve_words<T: Threads + Wait + Sync, F: UserFiles, W: Sink>(
    rt: &HostRuntime,
    threads: &T,
    files: &F,
    words: &[String],
    read: &ServeWords,
    sink: &mut W,
) -> Status
    requires workers { (1 ≤ read.now.workers) × (read.now.workers ≤ 64) }
{
    let text = match file_text(rt, read.config.as_slice()) {
        Ok(text) => text,
        Err(status) => return status,
    };
    config_laws();
    match read_config(rt.alloc(), text.as_slice()) {
        Ok(config) => serve_config(
            rt,
            threads,
            files,
            words,
            text.as_slice(),
            read,
            &config,
            sink,
        ),
        Err(ConfigFault::NoMemory) => Note::NoMemory.status(),
        Err(ConfigFault::Toml | ConfigFault::Key { .. }) => {
            refuse::<T, ServeListener<'_>, ServeEntropy<'_>, F::Rows, W>(
                threads,
                rt.alloc(),
                words,
                text.as_slice(),
                sink,
            )
        }
    }
}

// The text of the configuration file.
fn file_text(rt: &HostRuntime, name: &[u8]) -> Result<Vec<u8>, Status> {
    match fs::read(rt, text_of(name)) {
        Ok(text) => Ok(text),
        Err(error) if error.kind() == ErrorKind::OutOfMemory => Err(Note::NoMemory.status()),
        Err(error) => {
            say_error(rt, &[name, b" can't be read"], &error);
            Err(Note::SourceFailed.status())
        }
    }
}

// Says that words or a file are refused, or prints the help that words ask for. Nobody is served.
fn refuse<T, N, E, K, W>(
    threads: &T,
    alloc: Global,
    words: &[String],
    text: &[u8],
    sink: &mut W,
) -> Status
where
    T: Threads + Wait + Sync,
    N: Listener + Send + Drop,
    E: Entropy + Send + Drop,
    K: Keeper + Send + Drop,
    W: Sink,
    requires refused { ((read : ServeWords) → ReadsServe (map string_bytes words.now) (Ok read) → ⊥)
        ⊎ ((config : ServeConfig) → ReadsConfig text.now (Ok config) → ⊥) }
{
    let mut posts: Vec<Post<N, E>> = Vec::new(alloc);
    let mut keepers: Vec<K> = Vec::new(alloc);
    run_serve(
        threads,
        alloc,
        words,
        text,
        &mut posts,
        &mut keepers,
        &OpenGate,
        &NoWatch,
        sink,
    )
    .status
}

// Opens what the configuration names, and serves.
fn serve_config<T: Threads + Wait + Sync, F: UserFiles, W: Sink>(
    rt: &HostRuntime,
    threads: &T,
    files: &F,
    words: &[String],
    text: &[u8],
    read: &ServeWords,
    config: &ServeConfig,
    sink: &mut W,
) -> Status
    requires config { ReadsConfig text.now (Ok config.now) }
    requires workers { (1 ≤ read.now.workers) × (read.now.workers ≤ 64) }
{
    for name in config.unknown.as_slice() {
        say(
            rt,
            &[read.config.as_slice(), b": unknown key ", name.as_slice()],
        );
    }
    let keepers = match open_rooms(rt, files, config.rooms.as_slice()) {
        Ok(keepers) => keepers,
        Err(status) => return status,
    };
    let listener = match listen(rt, config.listen.as_slice()) {
        Ok(listener) => listener,
        Err(status) => return status,
    };
    let limit = Duration::from_secs(u64::from(config.wait.max(1)));
    let Ok(posts) = posts_at(rt, &listener, limit, read.workers) else {
        return Note::NoMemory.status();
    };
    say_listening(rt, &listener, config.rooms.len() as u64);
    let (end, keepers) = serve_rooms(
        threads,
        rt.alloc(),
        words,
        text,
        config,
        posts,
        keepers,
        &LineWatch::new(rt),
        sink,
    );
    if let Some(user) = end.user {
        say_refused(rt, config, user);
    }
    for rows in keepers {
        files.close(rows);
    }
    end.status
}

// The rows of the rooms, each opened.
fn open_rooms<F: UserFiles>(
    rt: &HostRuntime,
    files: &F,
    rooms: &[Room],
) -> Result<Vec<F::Rows>, Status>
    ensures each { IfOk result (λ rows. length rows.items ≡ length rooms.now) }
{
    let Ok(mut opened) = Vec::with_capacity(rt.alloc(), rooms.len()) else {
        return Err(Note::NoMemory.status());
    };
    for room in rooms {
        let rows = open_room(rt, files, room)?;
        if opened.push(rows).is_err() {
            return Err(Note::NoMemory.status());
        }
    }
    Ok(opened)
}

fn open_room<F: UserFiles>(rt: &HostRuntime, files: &F, room: &Room) -> Result<F::Rows, Status> {
    match files.open(text_of(room.file.as_slice())) {
        Ok(rows) => Ok(rows),
        Err(KeepFault::NoMemory) => Err(Note::NoMemory.status()),
        Err(KeepFault::Failed) => {
            say(
                rt,
                &[
                    room.file.as_slice(),
                    b" can't be opened: it is no database of rows, or another program has it",
                ],
            );
            Err(Note::KeeperFailed.status())
        }
    }
}

// A socket that listens at this address.
fn listen(rt: &HostRuntime, address: &[u8]) -> Result<TcpListener, Status> {
    match TcpListener::bind(rt, text_of(address)) {
        Ok(listener) => Ok(listener),
        Err(error) => {
            say_error(rt, &[address, b" can't be listened at"], &error);
            Err(Note::ListenerFailed.status())
        }
    }
}

// So many posts at the socket.
fn posts_at<'a>(
    rt: &'a HostRuntime,
    listener: &'a TcpListener,
    limit: Duration,
    workers: u32,
) -> Result<Vec<ServePost<'a>>, NoMemory>
    requires limit { 0 < as_nanos limit }
    ensures each { IfOk result (λ posts. length posts.items ≡ workers) }
{
    let mut posts = Vec::with_capacity(rt.alloc(), workers as usize)?;
    for _ in 0..workers {
        posts.push(Post {
            listener: NetListener::new(rt.alloc(), rt, listener, limit),
            entropy: OsEntropy::new(rt),
        })?;
    }
    Ok(posts)
}

// Serves the users of the configuration over their rows, which are given back.
fn serve_rooms<T, N, E, K, V, W>(
    threads: &T,
    alloc: Global,
    words: &[String],
    text: &[u8],
    config: &ServeConfig,
    mut posts: Vec<Post<N, E>>,
    mut keepers: Vec<K>,
    watch: &V,
    sink: &mut W,
) -> (ServeStatus, Vec<K>)
where
    T: Threads + Wait + Sync,
    N: Listener + Send + Drop,
    E: Entropy + Send + Drop,
    K: Keeper + Send + Drop,
    V: Watch + Sync,
    W: Sink,
    requires config { ReadsConfig text.now (Ok config.now) }
    requires posts { (1 ≤ length posts.items) × (length posts.items ≤ 64) }
    requires keepers { length keepers.items ≡ length config.now.rooms.items }
{
    config_laws();
    let end = run_serve(
        threads,
        alloc,
        words,
        text,
        &mut posts,
        &mut keepers,
        &OpenGate,
        watch,
        sink,
    );
    (end, keepers)
}

// Names the file whose rows aren't opened.
fn say_refused(rt: &HostRuntime, config: &ServeConfig, user: u32) {
    if let Some(room) = config.rooms.get(user as usize) {
        say(rt, &[room.file.as_slice(), b": its rows can't be opened"]);
    }
}

fn say_listening(rt: &HostRuntime, listener: &TcpListener, users: u64) {
    let alloc = rt.alloc();
    let Ok(address) = listener.local_addr() else {
        return;
    };
    if let Ok(text) = format!(in alloc; "listening at {address}, users: {users}") {
        say(rt, &[text.as_bytes()]);
    }
}

// Says these parts and what the system says of the error.
fn say_error(rt: &HostRuntime, parts: &[&[u8]], error: &io::Error) {
    let alloc = rt.alloc();
    let Ok(why) = format!(in alloc; ": {error}") else {
        return;
    };
    match parts {
        [first, second] => say(rt, &[first, second, why.as_bytes()]),
        _ => say(rt, &[why.as_bytes()]),
    }
}

// A text of the words or of the configuration, which are UTF-8.
fn text_of(bytes: &[u8]) -> &str {
    str::from_utf8(bytes).unwrap_or("")
}
