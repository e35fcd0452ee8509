//! Configuration files, and what they say.

use rs_config::{ConfigFault, Room, ServeConfig, read_config};
use rs_exchange::Account;
use rs_path::Bytes;
use std::alloc::Global;
use std::process::Abort;
use std::test::Fail;

/// What is answered, and the file, whose lines end in `¶`. Marks stand for lines that most files have: `@` for a base and a
/// place to listen, `$` for a user alice, `%` for the digits of a digest.
///
/// An answer names the place to listen, the seconds of waiting, the base and the host; of each user the name, the file, the
/// salt, the first byte of the digest, and the quota; and after `?` the keys that nobody asks for.
const ROWS: &str = r#"
:80 10 http://a a / alice f <> none 1073741824 ? | @ $
:80 1 http://a a / alice f <> none 1073741824 ? | @ wait=1¶ $
:80 3600 http://a a / alice f <> none 1073741824 ? | wait=3600¶ @ $
:80 10 https://b:8 b:8 / alice f <> none 1073741824 ? | listen=":80"¶ base="https://b:8"¶ $
:80 10 http://a a / alice f <s> 194 0 ? | @ $ salt="s"¶ secret="%"¶ quota=0¶
:80 10 http://a a / alice f <> none 9223372036854775807 ? | @ $ quota=9223372036854775807¶
:80 10 http://a a / alice f <> none 1073741824 / bob g <> 194 5 ? | @ $ [[user]]¶name="bob"¶file="g"¶secret="%"¶quota=5¶
:80 10 http://a a / alice f <> none 1073741824 ? | @ user=[{name="alice",file="f"}]¶
:80 10 http://a a / alice f <> none 1073741824 ? a z x | z=2¶ a=1¶ @ $ x=[3]¶
:80 10 http://a a / alice f <> none 1073741824 / bob g <> none 1073741824 ? x y | @ $ x=1¶ [[user]]¶name="bob"¶file="g"¶y=1¶
:80 10 http://a a / alice f <> none 1073741824 ? wait | @ $ wait="long"¶
toml | base
toml | @ $ listen = ¶
toml | base="http://a"¶ @ $
toml | @ wait=1¶ wait=1¶ $
base |
base | listen=":80"¶ $
base | base=1¶ listen=":80"¶ $
base | base=""¶ listen=":80"¶ $
base | base="http://a/"¶ listen=":80"¶ $
base | base="http://a:80"¶ listen=":80"¶ $
base | base="http://A"¶ listen=":80"¶ $
base | base="ftp://a"¶ listen=":80"¶ $
base | base="a"¶
listen | base="http://a"¶ $
listen | base="http://a"¶ listen=80¶ $
listen | base="http://a"¶ listen=""¶ $
listen | base="http://a"¶ listen=[":80"]¶ wait=0¶
listen | wait=0¶ base="http://a"¶
wait | @ wait=0¶ $
wait | @ wait=3601¶ $
wait | @ wait=-1¶ $
wait | @ wait=1.5¶ $
wait | @ wait="1"¶ $
wait | @ wait=4294967297¶
user | @
user | @ user=1¶
user | @ user=[]¶
user | @ [user]¶name="alice"¶file="f"¶
user | @ user=[1]¶
user | @ user=[{name="alice",file="f"},1]¶
name | @ [[user]]¶file="f"¶
name | @ [[user]]¶
name | @ [[user]]¶name=1¶file="f"¶
name | @ [[user]]¶name=""¶file="f"¶
name | @ [[user]]¶name="Alice"¶file="f"¶
name | @ [[user]]¶name="aaaaaaaaaaaaaaaaaaaaaaaaaaaaaaaaa"¶file="f"¶
name | @ $ [[user]]¶name="alice"¶file="g"¶
name | @ $ [[user]]¶name="alice"¶file="f"¶
file | @ [[user]]¶name="alice"¶
file | @ [[user]]¶name="alice"¶file=1¶
file | @ [[user]]¶name="alice"¶file=""¶salt=1¶
file | @ $ [[user]]¶name="bob"¶file="f"¶
salt | @ $ salt=1¶secret=""¶
salt | @ $ secret=""¶salt=1¶
secret | @ $ secret=1¶
secret | @ $ secret=""¶quota=-1¶
secret | @ $ secret="%0"¶
secret | @ $ secret="C23B1680972DF2709E75C4E0F56C01A23A4EEC0FD21314252D7EFEB768EE5A73"¶
quota | @ $ quota=-1¶
quota | @ $ quota="1"¶
quota | @ $ quota=1.0¶
quota | @ $ quota=-1¶ [[user]]¶
name | @ $ [[user]]¶quota=-1¶
"#;

const DIGITS: &str = "c23b1680972df2709e75c4e0f56c01a23a4eec0fd21314252d7efeb768ee5a73";

/// The file that a row has.
fn file_in(alloc: Global, row: &str) -> Result<String, Fail> {
    let text = row.replace(alloc, "@", "base=\"http://a\"¶listen=\":80\"¶")?;
    let text = text.replace(alloc, "$", "[[user]]¶name=\"alice\"¶file=\"f\"¶")?;
    let text = text.replace(alloc, "%", DIGITS)?;
    Ok(text.replace(alloc, "¶", "\n")?)
}

fn text_of(bytes: &Bytes) -> Result<&str, Fail> {
    Ok(std::str::from_utf8(bytes.as_slice()).map_err(|_| "no text")?)
}

fn digest_of(alloc: Global, account: &Account) -> Result<String, Fail> {
    match account.secret {
        Some(secret) => Ok(format!(in alloc; "{}", secret[0])?),
        None => Ok(String::from_str(alloc, "none")?),
    }
}

fn put_user(alloc: Global, account: &Account, room: &Room, out: &mut String) -> Result<(), Fail> {
    let name = text_of(&account.name)?;
    let salt = text_of(&account.salt)?;
    let file = text_of(&room.file)?;
    let digest = digest_of(alloc, account)?;
    let quota = room.quota;
    let text = format!(in alloc; " / {name} {file} <{salt}> {digest} {quota}")?;
    out.push_str(text.as_str())?;
    Ok(())
}

fn put_users(alloc: Global, config: &ServeConfig, out: &mut String) -> Result<(), Fail> {
    let accounts = config.front.accounts.as_slice();
    for (account, room) in accounts.iter().zip(config.rooms.iter()) {
        put_user(alloc, account, room, out)?;
    }
    Ok(())
}

fn put_unknown(config: &ServeConfig, out: &mut String) -> Result<(), Fail> {
    out.push_str(" ?")?;
    for name in &config.unknown {
        out.push_str(" ")?;
        out.push_str(text_of(name)?)?;
    }
    Ok(())
}

fn server_text(alloc: Global, config: &ServeConfig) -> Result<String, Fail> {
    let listen = text_of(&config.listen)?;
    let base = text_of(&config.front.base)?;
    let host = text_of(&config.front.host)?;
    let wait = config.wait;
    Ok(format!(in alloc; "{listen} {wait} {base} {host}")?)
}

fn config_text(alloc: Global, config: &ServeConfig) -> Result<String, Fail> {
    let mut out = server_text(alloc, config)?;
    put_users(alloc, config, &mut out)?;
    put_unknown(config, &mut out)?;
    Ok(out)
}

fn fault_text(fault: ConfigFault) -> &'static str {
    match fault {
        ConfigFault::Key { key } => key.text(),
        ConfigFault::Toml => "toml",
        ConfigFault::NoMemory => "no memory",
    }
}

fn answer_to(alloc: Global, file: &[u8]) -> Result<String, Fail> {
    match read_config(alloc, file) {
        Ok(config) => config_text(alloc, &config),
        Err(fault) => Ok(String::from_str(alloc, fault_text(fault))?),
    }
}

fn is_answered(rt: &impl Abort, alloc: Global, wanted: &str, file: &[u8]) -> Result<(), Fail> {
    let answer = answer_to(alloc, file)?;
    assert_eq!(rt; answer.as_str(), wanted);
    Ok(())
}

#[test]
fn configuration_files(rt: HostRuntime) -> Result<(), Fail> {
    let alloc = rt.alloc();
    for row in ROWS.trim().split('\n') {
        let (wanted, text) = row.split_once('|').ok_or("no file")?;
        let file = file_in(alloc, text)?;
        is_answered(&rt, alloc, wanted.trim(), file.as_bytes())?;
    }
    Ok(())
}

#[test]
fn bytes_that_are_no_text(rt: HostRuntime) -> Result<(), Fail> {
    is_answered(&rt, rt.alloc(), "toml", b"base=\"\xff\"")
}

/// A file with this many users.
fn file_with(alloc: Global, users: u32) -> Result<String, Fail> {
    let mut file = file_in(alloc, "@")?;
    for user in 0..users {
        let table = format!(in alloc; "[[user]]\nname=\"u{user}\"\nfile=\"f{user}\"\n")?;
        file.push_str(table.as_str())?;
    }
    Ok(file)
}

#[test]
fn a_thousand_users(rt: HostRuntime) -> Result<(), Fail> {
    let alloc = rt.alloc();
    let file = file_with(alloc, 1000)?;
    let config = read_config(alloc, file.as_bytes()).map_err(|_| "no configuration")?;
    assert_eq!(rt; config.front.accounts.as_slice().len(), 1000);
    assert_eq!(rt; config.rooms.len(), 1000);
    let file = file_with(alloc, 1001)?;
    is_answered(&rt, alloc, "user", file.as_bytes())
}
