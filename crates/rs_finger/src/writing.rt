//! Discovery answers written, as a JRD (RFC 7033, section 4.4).

ghost use Rattle.std.specs.Prelude.{◌≡◌, ◌++◌, IfOk, IsUtf8, IsTrue, string_bytes};
ghost use Rattle.serde_json.specs.View.{view};
ghost use Rattle.serde_json.specs.Data.{string};
ghost use Rattle.rs_path.specs.Users.{is_user};
ghost use Rattle.rs_finger.specs.Jrds.{link_data, links_data, jrd_data, jrd_text, account_uri};

use rs_path::{Bytes, NoMemory};
use serde_json::{Map, Value, put};
use std::alloc::Global;

/// The `rel` of a storage (draft-dejong-remotestorage, section 10).
pub(crate) const STORAGE_REL: &str = "http://tools.ietf.org/id/draft-dejong-remotestorage";

/// The property that names the draft's version.
const VERSION_KEY: &str = "http://remotestorage.io/spec/version";

/// The version of the draft; a label.
const VERSION: &str = "draft-dejong-remotestorage-13";

/// The property that has the address of the grant (RFC 6749, section 4.2).
pub(crate) const DIALOG_KEY: &str = "http://tools.ietf.org/html/rfc6749#section-4.2";

/// The JRD of a user at a host, with the link of the storage or without one.
pub(crate) fn jrd_of(
    alloc: Global,
    linked: bool,
    base: &Bytes,
    user: &Bytes,
    host: &str,
) -> Result<String, NoMemory>
    requires base { IsUtf8 base.now }
    requires user { IsTrue (is_user user.now) }
    ensures { IfOk result (λ text. string_bytes text ≡ jrd_text linked base.now user.now host.now) }
{
    let base = text_of(base.as_slice());
    let user = text_of_user(user.as_slice());
    jrd_text(alloc, linked, base, user, host)
}

fn jrd_text(
    alloc: Global,
    linked: bool,
    base: &str,
    user: &str,
    host: &str,
) -> Result<String, NoMemory>
    ensures { IfOk result (λ text. string_bytes text ≡ jrd_text linked base.now user.now host.now) }
{
    let links = links_of(alloc, linked, base, user)?;
    let mut members = Map::new(alloc);
    put(&mut members, alloc, "links", links)?;
    put(
        &mut members,
        alloc,
        "subject",
        subject_of(alloc, user, host)?,
    )?;
    Ok(Value::from(members).to_string(alloc)?)
}

fn links_of(alloc: Global, linked: bool, base: &str, user: &str) -> Result<Value, NoMemory>
    ensures { IfOk result (λ links. view links ≡ links_data linked base.now user.now) }
{
    let mut links = Vec::new(alloc);
    if !linked {
        return Ok(Value::from(links));
    }
    links.push(link_of(alloc, base, user)?)?;
    Ok(Value::from(links))
}

fn link_of(alloc: Global, base: &str, user: &str) -> Result<Value, NoMemory>
    ensures { IfOk result (λ link. view link ≡ link_data base.now user.now) }
{
    let mut properties = Map::new(alloc);
    let version = Value::try_from_str(alloc, VERSION)?;
    put(&mut properties, alloc, VERSION_KEY, version)?;
    let dialog = joined(alloc, base, "/oauth/", user)?;
    put(&mut properties, alloc, DIALOG_KEY, dialog)?;
    let mut link = Map::new(alloc);
    put(
        &mut link,
        alloc,
        "href",
        joined(alloc, base, "/storage/", user)?,
    )?;
    put(&mut link, alloc, "properties", Value::from(properties))?;
    let rel = Value::try_from_str(alloc, STORAGE_REL)?;
    put(&mut link, alloc, "rel", rel)?;
    Ok(Value::from(link))
}

fn subject_of(alloc: Global, user: &str, host: &str) -> Result<Value, NoMemory>
    ensures { IfOk result (λ subject. view subject ≡ string (account_uri user.now host.now)) }
{
    let mut text = String::from_str(alloc, "acct:")?;
    text.push_str(user)?;
    text.push_str("@")?;
    text.push_str(host)?;
    Ok(Value::from(text))
}

fn joined(alloc: Global, first: &str, middle: &str, last: &str) -> Result<Value, NoMemory>
    ensures { IfOk result (λ value. view value ≡ string (first.now ++ (middle.now ++ last.now))) }
{
    let mut text = String::from_str(alloc, first)?;
    text.push_str(middle)?;
    text.push_str(last)?;
    Ok(Value::from(text))
}

// Bytes that are UTF-8, as a text.
fn text_of(bytes: &[u8]) -> &str
    requires { IsUtf8 bytes.now }
    ensures { result.now ≡ bytes.now }
{
    match std::str::from_utf8(bytes) {
        Ok(text) => text,
        Err(_) => unreachable!(),
    }
}

fn text_of_user(user: &[u8]) -> &str
    requires { IsTrue (is_user user.now) }
    ensures { result.now ≡ user.now }
{
    text_of(user)
}
