//! `rs`: the program. It reads the words, makes the real objects, does what the words say over them, prints what is said about
//! a status other than 0 on standard error, and ends with the status's code.
#![tactic(auto)]

mod ending;
mod line_watch;
mod lines;
mod rows;
mod running;
mod serving;
mod words;

use ending::{exit_code, report};
use rows::{RowsInFile, SystemFiles};
use rs_cli::{Note, Status};
use rs_net::OsEntropy;
use rs_path::NoMemory;
use rs_stream::{HeldSink, StdSink, StdSource};
use running::run_words;
use serving::serve;
use std::process::ExitCode;
use std::sync::Wait;
use std::thread::Threads;
use words::read_words;

fn main(rt: HostRuntime) -> ExitCode {
    let status = match read_words(&rt, rt.alloc()) {
        Ok(words) => run(&rt, &rt, words.as_slice()),
        Err(NoMemory) => Note::NoMemory.status(),
    };
    let _ = report(rt.alloc(), &status, &mut StdSink::new(rt.stderr()));
    exit_code(&status)
}

/// Does what the words say over the standard streams, the system's random bytes and the rows of the present folder; what `serve`
/// says, over the files and the socket of its configuration. A reply is one write.
fn run<T: Threads + Wait + Sync>(rt: &HostRuntime, threads: &T, words: &[String]) -> Status {
    let Ok(mut sink) = HeldSink::new(rt.alloc(), StdSink::new(rt.stdout())) else {
        return Note::NoMemory.status();
    };
    if let Some((first, others)) = words.split_first() {
        if first.as_str() == "serve" {
            return serve(rt, threads, &SystemFiles::new(rt), others, &mut sink);
        }
    }
    run_words(
        rt.alloc(),
        words,
        &mut StdSource::new(rt.stdin()),
        &mut sink,
        &mut RowsInFile::of_user(rt),
        &mut RowsInFile::of_journal(rt),
        &mut OsEntropy::new(rt),
    )
}
