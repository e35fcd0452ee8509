//! Discovery queries answered.

ghost use Rattle.std.specs.Prelude.{◌≡◌, ◌++◌, map, OnOk, OnErr, IsTrue, IsUtf8, string_bytes};
ghost use Rattle.std.specs.List.{list_all, list_any};
ghost use Rattle.std.specs.Str.{bytes_eq};
ghost use Rattle.rs_path.specs.Users.{is_user};
ghost use Rattle.rs_finger.specs.Answers.{is_wanted, resource_answer, resources_answer, finger_answer, AnswersFinger, GivesText};

use crate::account::{is_uri, user_named};
use crate::finger_fault::FingerFault;
use crate::names::Names;
use crate::writing::{STORAGE_REL, jrd_of};
use rs_form::{first_value, one_value, read_values};
use rs_path::{Bytes, NoMemory};
use std::alloc::Global;

/// Appends the answer to a discovery query: the JRD of the account that its `resource` names.
///
/// `base` is the address of the server, an origin, and `host` its host, as they are configured. The resource is
/// `acct:USER@HOST`, where letters of the host are compared without case. Where one or more `rel` stand in the
/// query, the link is given only where its `rel` is among them. Other fields are ignored. `NoResource` comes where
/// the query has no `resource`, `BadResource` where it has several or one that is no URI, `Unknown` where it names no
/// user here. Where there is no answer, `out` is as before.
///
/// RFC 7033, sections 4.2 to 4.4.
pub fn answer_finger(
    alloc: Global,
    base: &Bytes,
    host: &Bytes,
    users: &Names,
    query: &[u8],
    out: &mut Vec<u8>,
) -> Result<(), FingerFault>
    requires base { IsUtf8 base.now }
    requires users { IsTrue (list_all is_user users.now) }
    ensures answer { AnswersFinger result out.old.items out.new.items (finger_answer base.now host.now users.now query.now) }
{
    match answer_of(alloc, base, host, users, query) {
        Ok(text) => {
            append_text(&text, out)?;
            Ok(())
        }
        Err(fault) => Err(fault),
    }
}

fn append_text(text: &String, out: &mut Vec<u8>) -> Result<(), NoMemory>
    ensures ok { OnOk result (out.new.items ≡ out.old.items ++ string_bytes text.now) }
    ensures err { OnErr result (out.new.items ≡ out.old.items) }
{
    out.extend_from_slice(text.as_bytes())?;
    Ok(())
}

fn answer_of(
    alloc: Global,
    base: &Bytes,
    host: &Bytes,
    users: &Names,
    query: &[u8],
) -> Result<String, FingerFault>
    requires base { IsUtf8 base.now }
    requires users { IsTrue (list_all is_user users.now) }
    ensures { GivesText result (finger_answer base.now host.now users.now query.now) }
{
    let resources = read_values(alloc, query, "resource")?;
    let rels = read_values(alloc, query, "rel")?;
    let linked = is_wanted(rels.as_slice());
    resources_answer(alloc, base, host, users, linked, resources.as_slice())
}

fn resources_answer(
    alloc: Global,
    base: &Bytes,
    host: &Bytes,
    users: &Names,
    linked: bool,
    resources: &[String],
) -> Result<String, FingerFault>
    requires base { IsUtf8 base.now }
    requires users { IsTrue (list_all is_user users.now) }
    ensures { GivesText result (resources_answer base.now host.now users.now linked (map string_bytes resources.now)) }
{
    let Some(_first) = first_value(resources) else {
        return Err(FingerFault::NoResource);
    };
    match one_value(resources) {
        Some(resource) => resource_answer(alloc, base, host, users, linked, resource),
        None => Err(FingerFault::BadResource),
    }
}

fn resource_answer(
    alloc: Global,
    base: &Bytes,
    host: &Bytes,
    users: &Names,
    linked: bool,
    resource: &str,
) -> Result<String, FingerFault>
    requires base { IsUtf8 base.now }
    requires users { IsTrue (list_all is_user users.now) }
    ensures { GivesText result (resource_answer base.now host.now users.now linked resource.now) }
{
    if !is_uri(resource.as_bytes()) {
        return Err(FingerFault::BadResource);
    }
    let Ok(host_text) = std::str::from_utf8(host.as_slice()) else {
        return Err(FingerFault::Unknown);
    };
    let Some(user) = user_named(host_text.as_bytes(), resource.as_bytes(), users.as_slice()) else {
        return Err(FingerFault::Unknown);
    };
    Ok(jrd_of(alloc, linked, base, user, host_text)?)
}

// Whether the link of a storage is among those that are asked for: all, where no `rel` stands in the query.
fn is_wanted(rels: &[String]) -> bool
    ensures { result ≡ is_wanted (map string_bytes rels.now) }
{
    rels.is_empty() || has_text(rels, STORAGE_REL)
}

fn has_text(texts: &[String], wanted: &str) -> bool
    ensures { result ≡ list_any (λ text. bytes_eq (string_bytes text) wanted.now) texts.now }
{
    for text in texts {
        if text.as_str() == wanted {
            return true;
        }
    }
    false
}
