//! The consent page, byte by byte, and markup in each text that it shows.

use crate::rows::{cells, filled, owned, text_of};
use rs_grant::{Ask, consent_page, read_ask};
use rs_path::Bytes;
use rs_scope::Scopes;
use std::alloc::Global;
use std::test::Fail;

fn ask_of(alloc: Global, text: &str, state: Option<Bytes>) -> Result<Ask, Fail> {
    let scopes = Scopes::read(alloc, b"notes:rw *:r").map_err(|_| "no scopes")?;
    Ok(Ask {
        redirect: owned(alloc, text)?,
        origin: owned(alloc, text)?,
        client: owned(alloc, text)?,
        scopes,
        state,
    })
}

fn page_of(alloc: Global, ask: &Ask) -> Result<Vec<u8>, Fail> {
    let mut out = Vec::new(alloc);
    consent_page(alloc, b"alice", ask, &mut out)?;
    Ok(out)
}

const HEAD: &str = r#"<!DOCTYPE html>
<html><head><meta charset="utf-8"><title>Grant access</title></head><body>
<p>§ asks for notes:rw *:r on the storage of alice.</p>
<form method="post" action="/oauth/alice">
<input type="hidden" name="response_type" value="token">
<input type="hidden" name="client_id" value="§">
<input type="hidden" name="redirect_uri" value="§">
<input type="hidden" name="scope" value="notes:rw *:r">
"#;

const STATE: &str = r#"<input type="hidden" name="state" value="§">
"#;

const END: &str = r#"<input type="password" name="password">
<button name="choice" value="allow">Allow</button>
<button name="choice" value="deny">Deny</button>
</form></body></html>
"#;

// Each text, and how the page shows it.
const SHOWN: &str = r#"
https://app.example/cb => https://app.example/cb
a&b => a&amp;b
&amp; => &amp;amp;
</p><script>alert(1)</script> => &lt;/p&gt;&lt;script&gt;alert(1)&lt;/script&gt;
"onload="x => &quot;onload=&quot;x
'x' => &#39;x&#39;
é => é
"#;

#[test]
fn texts_are_escaped(rt: HostRuntime) -> Result<(), Fail> {
    let alloc = rt.alloc();
    for row in SHOWN.trim().split('\n') {
        let (text, shown) = cells(row)?;
        let ask = ask_of(alloc, text, Some(owned(alloc, text)?))?;
        let page = page_of(alloc, &ask)?;
        let wanted = format!(in alloc; "{HEAD}{STATE}{END}")?;
        let wanted = filled(alloc, wanted.as_str(), '§', shown)?;
        assert_eq!(&rt; text_of(page.as_slice())?, wanted.as_str());
    }
    Ok(())
}

#[test]
fn no_state_has_no_line(rt: HostRuntime) -> Result<(), Fail> {
    let alloc = rt.alloc();
    let page = page_of(alloc, &ask_of(alloc, "t", None)?)?;
    let wanted = format!(in alloc; "{HEAD}{END}")?;
    let wanted = filled(alloc, wanted.as_str(), '§', "t")?;
    assert_eq!(rt; text_of(page.as_slice())?, wanted.as_str());
    Ok(())
}

// The page of an authorisation request with markup in each text that may hold it.
const MARKED: &str =
    "response_type=token&client_id=%3Cb%3E%22&redirect_uri=https://app.example/%3Ca%3E?x=%27%26y&scope=notes:r+*:rw&state=%22%3E%3C/form%3E";

const MARKED_PAGE: &str = r#"<!DOCTYPE html>
<html><head><meta charset="utf-8"><title>Grant access</title></head><body>
<p>https://app.example asks for notes:r *:rw on the storage of alice.</p>
<form method="post" action="/oauth/alice">
<input type="hidden" name="response_type" value="token">
<input type="hidden" name="client_id" value="&lt;b&gt;&quot;">
<input type="hidden" name="redirect_uri" value="https://app.example/%3Ca%3E?x=%27&amp;y">
<input type="hidden" name="scope" value="notes:r *:rw">
<input type="hidden" name="state" value="&quot;&gt;&lt;/form&gt;">
"#;

#[test]
fn markup_in_a_query_is_text(rt: HostRuntime) -> Result<(), Fail> {
    let alloc = rt.alloc();
    let ask = read_ask(alloc, MARKED.as_bytes()).map_err(|_| "no request")?;
    let page = page_of(alloc, &ask)?;
    let wanted = format!(in alloc; "{MARKED_PAGE}{END}")?;
    assert_eq!(rt; text_of(page.as_slice())?, wanted.as_str());
    Ok(())
}

#[test]
fn a_page_is_appended(rt: HostRuntime) -> Result<(), Fail> {
    let alloc = rt.alloc();
    let ask = ask_of(alloc, "t", None)?;
    let mut out = Vec::from_slice(alloc, b">")?;
    consent_page(alloc, b"alice", &ask, &mut out)?;
    let wanted = format!(in alloc; ">{HEAD}{END}")?;
    let wanted = filled(alloc, wanted.as_str(), '§', "t")?;
    assert_eq!(rt; text_of(out.as_slice())?, wanted.as_str());
    Ok(())
}
