//! Words of `pipe` that are wrong behind the quota: nothing is opened, read, drawn or written.

use crate::exchanges::{WORDS, has_drawn, run};
use rs_cli::{Note, Status};
use rs_face::{MemEntropy, MemKeeper, MemSink, MemSource};
use std::alloc::Global;
use std::process::Abort;
use std::test::Fail;

/// The words are wrong at this index, over objects whose first calls fail.
fn is_wrong(rt: &impl Abort, alloc: Global, line: &str, index: u64) -> Result<(), Fail> {
    let mut source = MemSource::new(b"GET".to_vec(alloc)?, [1].to_vec(alloc)?);
    let mut sink = MemSink::new(Vec::new(alloc), [1].to_vec(alloc)?);
    let mut keeper = MemKeeper::new(Vec::new(alloc), [1].to_vec(alloc)?);
    let mut entropy = MemEntropy::new(WORDS.to_vec(alloc)?, Vec::new(alloc));
    let status = run(
        alloc,
        line,
        &mut source,
        &mut sink,
        &mut keeper,
        &mut entropy,
    )?;
    let wrong = Status {
        code: 2,
        note: Note::Word { index },
    };
    assert_eq!(rt; status, wrong, "{line}");
    assert_eq!(rt; keeper.rows().len(), 0);
    has_drawn(rt, &mut entropy, &WORDS, 0)
}

const PIPE_UNDER: &str = "pipe alice ffffffffffffffffffffffffffffffff *:rw 1000";

/// The index of the first wrong word, and the words behind the quota.
const WRONG: &str = r#"
5 localhost
5 ftp://localhost
5 http://localhost/
5 http://localhost/a
5 http://LocalHost
5 HTTP://localhost
5 http://localhost:80
5 http://localhost/ s1 c23b1680972df2709e75c4e0f56c01a23a4eec0fd21314252d7efeb768ee5a73
5 https://example.org:443 s1 c23b1680972df2709e75c4e0f56c01a23a4eec0fd21314252d7efeb768ee5a73
6 http://localhost
7 http://localhost s1
7 http://localhost s1 open
7 http://localhost s1 c23b1680972df2709e75c4e0f56c01a23a4eec0fd21314252d7efeb768ee5a7
7 http://localhost s1 c23b1680972df2709e75c4e0f56c01a23a4eec0fd21314252d7efeb768ee5a730
7 http://localhost s1 C23B1680972DF2709E75C4E0F56C01A23A4EEC0FD21314252D7EFEB768EE5A73
7 http://localhost s1 x23b1680972df2709e75c4e0f56c01a23a4eec0fd21314252d7efeb768ee5a73
8 http://localhost s1 c23b1680972df2709e75c4e0f56c01a23a4eec0fd21314252d7efeb768ee5a73 x
"#;

#[test]
fn wrong_words_behind_a_quota(rt: HostRuntime) -> Result<(), Fail> {
    let alloc = rt.alloc();
    for row in WRONG.trim().split('\n') {
        let (index, words) = row.split_once(' ').ok_or("no words")?;
        let line = format!(in alloc; "{PIPE_UNDER} {words}")?;
        is_wrong(&rt, alloc, line.as_str(), index.parse::<u64>()?)?;
    }
    Ok(())
}
