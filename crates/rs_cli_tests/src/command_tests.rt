//! Words read as commands, as a table.

use crate::exchanges::{PIPE, words_of};
use rs_cli::{Command, RowsFile, WordFault, read_command, rows_file};
use rs_path::NoMemory;
use std::alloc::Global;
use std::process::Abort;
use std::test::Fail;

const TOKEN: &str = "000102030405060708090a0b0c0d0e0f";

/// The words of a row, parted by `|`; none where the row is empty.
fn parted(alloc: Global, row: &str) -> Result<Vec<String>, NoMemory> {
    let mut words = Vec::new(alloc);
    if row.is_empty() {
        return Ok(words);
    }
    for text in row.split('|') {
        words.push(String::from_str(alloc, text)?)?;
    }
    Ok(words)
}

/// Sees that the words are wrong at the index.
fn is_wrong(rt: &impl Abort, alloc: Global, row: &str, index: u64) -> Result<(), Fail> {
    let words = parted(alloc, row)?;
    match read_command(alloc, words.as_slice()) {
        Err(fault) => assert_eq!(rt; fault, WordFault::Word { index }),
        Ok(_) => Err("a command")?,
    }
    Ok(())
}

/// The index of the first wrong word, and words, which are parted by `|`.
const WRONG: &str = r#"
0 pear
0 grants
1 grant
1 grant|notes
1 grant|
2 grant|notes:rw|x
1 revoke
1 revoke|T
1 revoke|000102030405060708090A0B0C0D0E0F
2 revoke|000102030405060708090a0b0c0d0e0f|
1 --help|x
1 --version|--help
1 pipe
1 pipe|Alice
1 pipe||000102030405060708090a0b0c0d0e0f|*:rw
1 pipe|a23456789012345678901234567890123
2 pipe|alice
2 pipe|a2345678901234567890123456789012|T
2 pipe|alice|T
3 pipe|alice|000102030405060708090a0b0c0d0e0f
3 pipe|alice|000102030405060708090a0b0c0d0e0f|x
4 pipe|alice|000102030405060708090a0b0c0d0e0f|*:rw|x
4 pipe|alice|000102030405060708090a0b0c0d0e0f|*:rw|
4 pipe|alice|000102030405060708090a0b0c0d0e0f|*:rw|007
4 pipe|alice|000102030405060708090a0b0c0d0e0f|*:rw|+7
4 pipe|alice|000102030405060708090a0b0c0d0e0f|*:rw|18446744073709551616
4 pipe|alice|000102030405060708090a0b0c0d0e0f|*:rw|100000000000000000000
5 pipe|alice|000102030405060708090a0b0c0d0e0f|*:rw|7|8
4 pipe|alice|000102030405060708090a0b0c0d0e0f|*:rw|http://localhost|s1|c23b1680972df2709e75c4e0f56c01a23a4eec0fd21314252d7efeb768ee5a73
"#;

#[test]
fn wrong_words(rt: HostRuntime) -> Result<(), Fail> {
    is_wrong(&rt, rt.alloc(), "", 0)?;
    for row in WRONG.trim().split('\n') {
        let (index, words) = row.split_once(' ').ok_or("no words")?;
        is_wrong(&rt, rt.alloc(), words, index.parse::<u64>()?)?;
    }
    Ok(())
}

/// The same behind `PIPE_UNDER`.
const WRONG_BEHIND: &str = r#"
5 localhost
5 http:
5 http://
5 //localhost
5 ftp://localhost
5 file://localhost
5 http://localhost/
5 http://localhost/a
5 http://localhost?
5 http://localhost#
5 http://alice@localhost
5 HTTP://localhost
5 http://LocalHost
5 http://localhost:80
5 https://localhost:443
5 http://localhost:
5 http://localhost:08080
5 http://localhost:65536
5 http://127.1
5 http://[0::1]
5 http://bücher.example
5  http://localhost
5 http://local host
6 http://localhost
6 https://example.org:8443
7 http://localhost|s1
7 http://localhost|
7 http://localhost|s1|
7 http://localhost|s1|c23b1680972df2709e75c4e0f56c01a23a4eec0fd21314252d7efeb768ee5a7
7 http://localhost|s1|c23b1680972df2709e75c4e0f56c01a23a4eec0fd21314252d7efeb768ee5a731
7 http://localhost|s1|C23b1680972df2709e75c4e0f56c01a23a4eec0fd21314252d7efeb768ee5a73
7 http://localhost|s1|g23b1680972df2709e75c4e0f56c01a23a4eec0fd21314252d7efeb768ee5a73
7 http://localhost|s1|0xc23b1680972df2709e75c4e0f56c01a23a4eec0fd21314252d7efeb768ee5a
8 http://localhost|s1|c23b1680972df2709e75c4e0f56c01a23a4eec0fd21314252d7efeb768ee5a73|
8 http://localhost|s1|c23b1680972df2709e75c4e0f56c01a23a4eec0fd21314252d7efeb768ee5a73|x
"#;

const PIPE_UNDER: &str = "pipe|alice|000102030405060708090a0b0c0d0e0f|*:rw|7";

/// A line ending with a bar has an empty word behind it.
#[test]
fn wrong_words_behind_a_quota(rt: HostRuntime) -> Result<(), Fail> {
    let alloc = rt.alloc();
    for row in WRONG_BEHIND.trim().split('\n') {
        let (index, words) = row.split_once(' ').ok_or("no words")?;
        let words = format!(in alloc; "{PIPE_UNDER}|{words}")?;
        is_wrong(&rt, alloc, words.as_str(), index.parse::<u64>()?)?;
    }
    Ok(())
}

/// Sees that the words are a `pipe` with this quota.
fn has_quota(rt: &impl Abort, alloc: Global, row: &str, wanted: u64) -> Result<(), Fail> {
    let words = parted(alloc, row)?;
    match &read_command(alloc, words.as_slice()) {
        Ok(Command::Pipe { serving }) => {
            assert_eq!(rt; serving.user, b"alice".as_slice());
            assert_eq!(rt; serving.token.digits().as_slice(), TOKEN.as_bytes());
            assert_eq!(rt; serving.quota, wanted);
        }
        _ => Err("no pipe")?,
    }
    Ok(())
}

#[test]
fn pipes(rt: HostRuntime) -> Result<(), Fail> {
    let alloc = rt.alloc();
    let pipe = "pipe|alice|000102030405060708090a0b0c0d0e0f|*:rw";
    has_quota(&rt, alloc, pipe, 1_073_741_824)?;
    let pipe = "pipe|alice|000102030405060708090a0b0c0d0e0f| notes:r  *:rw|0";
    has_quota(&rt, alloc, pipe, 0)?;
    let pipe = "pipe|alice|000102030405060708090a0b0c0d0e0f|*:rw|18446744073709551615";
    has_quota(&rt, alloc, pipe, u64::MAX)
}

/// SHA-256 of `s1open sesame`, by sha256sum.
const SECRET: [u8; 32] = [
    0xc2, 0x3b, 0x16, 0x80, 0x97, 0x2d, 0xf2, 0x70, 0x9e, 0x75, 0xc4, 0xe0, 0xf5, 0x6c, 0x01, 0xa2,
    0x3a, 0x4e, 0xec, 0x0f, 0xd2, 0x13, 0x14, 0x25, 0x2d, 0x7e, 0xfe, 0xb7, 0x68, 0xee, 0x5a, 0x73,
];

/// Sees that the words are a `pipe` with this address and this salt, and with the secret or without one.
fn has_setting(
    rt: &impl Abort,
    alloc: Global,
    row: &str,
    base: &str,
    salt: &str,
    secret: Option<[u8; 32]>,
) -> Result<(), Fail> {
    let words = parted(alloc, row)?;
    match &read_command(alloc, words.as_slice()) {
        Ok(Command::Pipe { serving }) => {
            assert_eq!(rt; serving.base, base);
            assert_eq!(rt; serving.salt, salt.as_bytes());
            assert_eq!(rt; serving.secret, secret, "{row}");
        }
        _ => Err("no pipe")?,
    }
    Ok(())
}

#[test]
fn pipes_have_a_setting(rt: HostRuntime) -> Result<(), Fail> {
    let alloc = rt.alloc();
    let pipe = "pipe|alice|000102030405060708090a0b0c0d0e0f|*:rw";
    has_setting(&rt, alloc, pipe, "http://localhost", "", None)?;
    has_setting(&rt, alloc, PIPE_UNDER, "http://localhost", "", None)
}

/// Addresses, and salts behind them.
const SETTINGS: &str = r#"
http://localhost|s1
http://localhost:8080|
https://example.org|two words
https://example.org:80|http://localhost
http://127.0.0.1:8080|-
https://[::1]:8443|é
http://xn--bcher-kva.example|s1
"#;

#[test]
fn pipes_with_a_password_have_a_setting(rt: HostRuntime) -> Result<(), Fail> {
    let alloc = rt.alloc();
    for row in SETTINGS.trim().split('\n') {
        let (base, salt) = row.split_once('|').ok_or("no salt")?;
        let words = format!(in alloc;
            "{PIPE_UNDER}|{row}|c23b1680972df2709e75c4e0f56c01a23a4eec0fd21314252d7efeb768ee5a73"
        )?;
        has_quota(&rt, alloc, words.as_str(), 7)?;
        has_setting(&rt, alloc, words.as_str(), base, salt, Some(SECRET))?;
    }
    Ok(())
}

#[test]
fn a_grant(rt: HostRuntime) -> Result<(), Fail> {
    let words = parted(rt.alloc(), "grant|notes:rw")?;
    let mut text = Vec::new(rt.alloc());
    match &read_command(rt.alloc(), words.as_slice()) {
        Ok(Command::Grant { scopes }) => scopes.write(&mut text)?,
        _ => Err("no grant")?,
    }
    assert_eq!(rt; text.as_slice(), b"notes:rw".as_slice());
    Ok(())
}

#[test]
fn a_revocation(rt: HostRuntime) -> Result<(), Fail> {
    let words = parted(rt.alloc(), "revoke|000102030405060708090a0b0c0d0e0f")?;
    match &read_command(rt.alloc(), words.as_slice()) {
        Ok(Command::Revoke { token }) => {
            assert_eq!(rt; token.digits().as_slice(), TOKEN.as_bytes());
        }
        _ => Err("no revoke")?,
    }
    Ok(())
}

#[test]
fn words_that_stand_alone(rt: HostRuntime) -> Result<(), Fail> {
    let help = parted(rt.alloc(), "--help")?;
    let version = parted(rt.alloc(), "--version")?;
    assert!(rt;
        matches!(
            &read_command(rt.alloc(), help.as_slice()),
            Ok(Command::Help)
        )
    );
    assert!(rt;
        matches!(
            &read_command(rt.alloc(), version.as_slice()),
            Ok(Command::Version)
        )
    );
    Ok(())
}

// The commands on the journal of a client.
const ON_A_JOURNAL: &str = r#"
connect http://localhost/storage/alice T *:rw
put /a text/plain
get /a
rm /a
ls /
status
conflicts
resolve 1 keep
resolve 1 drop
"#;

/// The words want this file of rows.
fn wants(rt: &impl Abort, alloc: Global, line: &str, wanted: RowsFile) -> Result<(), Fail> {
    let words = words_of(alloc, line)?;
    let read = read_command(alloc, words.as_slice());
    assert_eq!(rt; rows_file(&read), wanted, "at {line}");
    Ok(())
}

#[test]
fn which_words_want_rows(rt: HostRuntime) -> Result<(), Fail> {
    let alloc = rt.alloc();
    wants(&rt, alloc, PIPE, RowsFile::User)?;
    wants(&rt, alloc, "grant notes:rw", RowsFile::User)?;
    wants(
        &rt,
        alloc,
        "revoke 000102030405060708090a0b0c0d0e0f",
        RowsFile::User,
    )?;
    for line in ON_A_JOURNAL.trim().split('\n') {
        wants(&rt, alloc, line, RowsFile::Journal)?;
    }
    wants(&rt, alloc, "revoke", RowsFile::None)?;
    wants(&rt, alloc, "get", RowsFile::None)?;
    wants(&rt, alloc, "pear", RowsFile::None)?;
    wants(&rt, alloc, "--help", RowsFile::None)?;
    wants(&rt, alloc, "--version", RowsFile::None)
}
