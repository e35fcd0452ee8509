//! Discovery in both directions, its refusals, and what the contracts leave to a run: that a call with ample memory
//! answers.

ghost use Rattle.std.specs.Prelude.{IfOk, IsTrue};
ghost use Rattle.std.specs.List.{list_all};
ghost use Rattle.rs_path.specs.Users.{is_user};

use crate::rows::{cells, filled, owned, text_of};
use rs_finger::{FingerFault, Names, answer_finger, finger_target, read_jrd};
use rs_path::NoMemory;
use std::alloc::{AllocError, Global};
use std::test::Fail;

const JRD: &str =
    r#"{"links":[{"href":"http://localhost/storage/alice","properties":{"http://remotestorage.io/spec/version":"draft-dejong-remotestorage-13","http://tools.ietf.org/html/rfc6749#section-4.2":"http://localhost/oauth/alice"},"rel":"http://tools.ietf.org/id/draft-dejong-remotestorage"}],"subject":"acct:alice@localhost"}"#;

const BARE: &str = r#"{"links":[],"subject":"acct:alice@localhost"}"#;

fn users(alloc: Global) -> Result<Names, NoMemory>
    ensures { IfOk result (λ users. IsTrue (list_all is_user users)) }
{
    let mut users = Names::new(alloc);
    users.push(owned(alloc, "bob")?)?;
    users.push(owned(alloc, "alice")?)?;
    Ok(users)
}

// Appends what a query is answered by a server of these users.
fn append_answer(
    alloc: Global,
    base: &str,
    host: &str,
    query: &str,
    out: &mut Vec<u8>,
) -> Result<(), FingerFault> {
    let base = owned(alloc, base)?;
    let host = owned(alloc, host)?;
    let users = users(alloc)?;
    answer_finger(alloc, &base, &host, &users, query.as_bytes(), out)
}

// What a query is answered at localhost.
fn answer(alloc: Global, query: &str) -> Result<Vec<u8>, FingerFault> {
    let mut out = Vec::new(alloc);
    append_answer(alloc, "http://localhost", "localhost", query, &mut out)?;
    Ok(out)
}

// Each query, and its answer or fault.
const QUERIES: &str = r#"
resource=acct:alice@localhost => JRD
resource=acct%3Aalice%40localhost => JRD
&&resource=acct:alice@localhost&x&=y => JRD
resource=acct:alice@LocalHost => JRD
resource=acct:alice@localhost&rel=a&rel=http://tools.ietf.org/id/draft-dejong-remotestorage => JRD
rel=http%3a%2f%2ftools.ietf.org/id/draft-dejong-remotestorage&resource=acct:alice@localhost => JRD
resource=acct:alice@localhost&rel=a => BARE
resource=acct:alice@localhost&rel= => BARE
resource=acct:alice@localhost&rel => BARE
resource=acct:alice@localhost&rel=http://tools.ietf.org/id/draft-dejong-remotestorage+ => BARE
resource=acct:alice@localhost&Rel=a => JRD
 => NoResource
rel=a => NoResource
Resource=acct:alice@localhost => NoResource
resource=acct:alice@localhost&resource=acct:alice@localhost => BadResource
resource => BadResource
resource= => BadResource
resource=bob@localhost => BadResource
resource=acct: => BadResource
resource=:x => BadResource
resource=1a:x => BadResource
resource=a_b:x => BadResource
resource=%C3%A9:x => BadResource
resource=a%2Bb:x => Unknown
resource=a+b:x => BadResource
resource=http://localhost/ => Unknown
resource=acct:carol@localhost => Unknown
resource=acct:bob@localhost.example => Unknown
resource=acct:bob@localhos => Unknown
resource=acct:alice => Unknown
resource=acct:alice@ => Unknown
resource=acct:@localhost => Unknown
resource=acct:Alice@localhost => Unknown
resource=ACCT:alice@localhost => Unknown
resource=acct:alice@localhost%FF => Unknown
resource=acct:alice@localhost/ => Unknown
resource=+acct:alice@localhost => BadResource
"#;

#[test]
fn queries_are_answered(rt: HostRuntime) -> Result<(), Fail> {
    let alloc = rt.alloc();
    for row in QUERIES.trim().split('\n') {
        let (query, wanted) = cells(row)?;
        match answer(alloc, query) {
            Ok(out) => {
                let text = match wanted {
                    "JRD" => JRD,
                    "BARE" => BARE,
                    _ => "a fault",
                };
                assert_eq!(&rt; text_of(out.as_slice())?, text, "{query}");
            }
            Err(fault) => {
                let name = match fault {
                    FingerFault::NoResource => "NoResource",
                    FingerFault::BadResource => "BadResource",
                    FingerFault::Unknown => "Unknown",
                    FingerFault::NoLink => "NoLink",
                    FingerFault::NoMemory => "NoMemory",
                };
                assert_eq!(&rt; name, wanted, "{query}");
            }
        }
    }
    Ok(())
}

#[test]
fn an_answer_is_appended(rt: HostRuntime) -> Result<(), Fail> {
    let alloc = rt.alloc();
    let base = "https://example.org:8443";
    let host = "Example.org:8443";
    let mut out = Vec::from_slice(alloc, b">")?;
    let none = append_answer(alloc, base, host, "", &mut out);
    assert_eq!(rt; none, Err(FingerFault::NoResource));
    assert_eq!(rt; out.as_slice(), b">".as_slice());
    let query = "resource=acct:bob@EXAMPLE.org:8443&rel=a";
    append_answer(alloc, base, host, query, &mut out)?;
    let text = r#">{"links":[],"subject":"acct:bob@Example.org:8443"}"#;
    assert_eq!(rt; text_of(out.as_slice())?, text);
    Ok(())
}

#[test]
fn an_answer_is_read_back(rt: HostRuntime) -> Result<(), Fail> {
    let alloc = rt.alloc();
    assert_eq!(rt; JRD.len(), 312);
    let links = read_jrd(alloc, JRD.as_bytes())?;
    assert_eq!(rt;
        text_of(links.root.as_slice())?,
        "http://localhost/storage/alice"
    );
    assert_eq!(rt;
        text_of(links.dialog.as_slice())?,
        "http://localhost/oauth/alice"
    );
    Ok(())
}

#[test]
fn a_target_is_answered(rt: HostRuntime) -> Result<(), Fail> {
    let alloc = rt.alloc();
    let mut out = Vec::new(alloc);
    finger_target(alloc, b"alice@localhost", &mut out)?;
    let target = text_of(out.as_slice())?;
    assert_eq!(rt;
        target,
        "/.well-known/webfinger?resource=acct%3Aalice%40localhost"
    );
    let query = target.split_once("?").ok_or("no query")?.1;
    let found = answer(alloc, query)?;
    assert_eq!(rt; text_of(found.as_slice())?, JRD);
    Ok(())
}

// Each text, and the root and the dialog that are read, or None. `§` stands for the draft's `rel`, `¶` for the property
// of the dialog.
const TEXTS: &str = r#"
 => None
{} => None
[] => None
{"links":{}} => None
{"links":[]} => None
{"links":[{}]} => None
{"links":[5,null,"a",[]]} => None
{"links":[{"rel":"§","href":"r","properties":{"¶":"d"}} => None
{"links":[{"rel":"§","href":"r","properties":{"¶":"d"}}]} => r d
 {"subject":1, "links" : [ {"properties":{"¶":"d","x":null},"href":"r","more":[],"rel":"§"} ] } => r d
{"links":[{"rel":"a","href":"q","properties":{"¶":"e"}},{"rel":"§","href":"r","properties":{"¶":"d"}}]} => r d
{"links":[{"rel":"§","href":"r","properties":{"¶":"d"}},{"rel":"§","href":"q","properties":{"¶":"e"}}]} => r d
{"links":[{"rel":"§","href":1,"properties":{"¶":"e"}},{"rel":"§","href":"r","properties":{"¶":"d"}}]} => r d
{"links":[{"rel":"§","properties":{"¶":"e"}},{"rel":"§","href":"r","properties":{"¶":"d"}}]} => r d
{"links":[{"rel":"§","href":"q","properties":{"¶":null}},{"rel":"§","href":"r","properties":{"¶":"d"}}]} => r d
{"links":[{"rel":"§","href":"q","properties":[]},{"rel":"§","href":"r","properties":{"¶":"d"}}]} => r d
{"links":[{"rel":"§","href":"q"}]} => None
{"links":[{"rel":["§"],"href":"r","properties":{"¶":"d"}}]} => None
{"links":[{"rel":"§ ","href":"r","properties":{"¶":"d"}}]} => None
{"links":[{"rel":"§","href":"","properties":{"¶":""}}]} =>
{"links":[{"rel":"§","href":"r","href":"\u0073","properties":{"¶":"d"}}]} => s d
{"links":[],"links":[{"rel":"§","href":"r","properties":{"¶":"d"}}]} => r d
"#;

fn with_names(alloc: Global, text: &str) -> Result<String, AllocError> {
    let text = filled(
        alloc,
        text,
        '§',
        "http://tools.ietf.org/id/draft-dejong-remotestorage",
    )?;
    filled(
        alloc,
        text.as_str(),
        '¶',
        "http://tools.ietf.org/html/rfc6749#section-4.2",
    )
}

#[test]
fn the_first_link_that_fits_is_read(rt: HostRuntime) -> Result<(), Fail> {
    let alloc = rt.alloc();
    for row in TEXTS.trim().split('\n') {
        let (text, wanted) = cells(row)?;
        match read_jrd(alloc, with_names(alloc, text)?.as_bytes()) {
            Ok(links) => {
                let root = text_of(links.root.as_slice())?;
                let dialog = text_of(links.dialog.as_slice())?;
                let both = format!(in alloc; "{root} {dialog}")?;
                assert_eq!(&rt; both.as_str().trim(), wanted, "{text}");
            }
            Err(fault) => {
                assert_eq!(&rt; fault, FingerFault::NoLink);
                assert_eq!(&rt; wanted, "None", "{text}");
            }
        }
    }
    assert_eq!(rt; read_jrd(alloc, b"\xff").err(), Some(FingerFault::NoLink));
    Ok(())
}
