//! The page that asks for a grant: by GET and HEAD, for another password, and what is answered in its place.

use crate::exchanges::{OWNER_ROW, PIPE, PIPE_AT, WORDS, gives, has_drawn, has_rows, writes};
use rs_cli::Note;
use rs_face::{MemEntropy, MemKeeper};
use std::alloc::Global;
use std::process::Abort;
use std::test::Fail;

const PAGES: &str = r#"
> GET /oauth/alice?~
- 200 OK | Content-Type: text/html; charset=utf-8 ¶ Content-Length: 643 | §
> HEAD /oauth/alice?~
- 200 OK | Content-Type: text/html; charset=utf-8 ¶ Content-Length: 643
> GET /oauth/alice?^
- 200 OK | Content-Type: text/html; charset=utf-8 ¶ Content-Length: 645 | ¤
> GET https://localhost/oauth/alice?~&choice=deny&password=a&x=y | Origin: https://app.example ¶ Authorization: Bearer zz
- 200 OK | Content-Type: text/html; charset=utf-8 ¶ Content-Length: 643 | §
> GET /oauth/alice?~ | | choice=deny
- 200 OK | Content-Type: text/html; charset=utf-8 ¶ Content-Length: 643 | §
> GET /oauth/alice?~ | Connection: close
- 200 OK | Content-Type: text/html; charset=utf-8 ¶ Content-Length: 643 ¶ Connection: close | §
> GET /oauth/alice?~
"#;

#[test]
fn a_page_asks_for_a_grant(rt: HostRuntime) -> Result<(), Fail> {
    gives(&rt, rt.alloc(), PIPE_AT, PAGES)?;
    gives(&rt, rt.alloc(), PIPE, PAGES)
}

const OTHER_PASSWORDS: &str = r#"
> POST /oauth/alice | | ~&choice=allow&password=open+sesam
- 403 Forbidden | Content-Type: text/html; charset=utf-8 ¶ Content-Length: 643 | §
> POST /oauth/alice | | ^&choice=allow&password=Open+sesame
- 403 Forbidden | Content-Type: text/html; charset=utf-8 ¶ Content-Length: 645 | ¤
> POST /oauth/alice | | ~&choice=allow&password=s1open+sesame
- 403 Forbidden | Content-Type: text/html; charset=utf-8 ¶ Content-Length: 643 | §
> POST /oauth/alice | | ~&choice=allow&password=open+sesame+
- 403 Forbidden | Content-Type: text/html; charset=utf-8 ¶ Content-Length: 643 | §
> POST /oauth/alice | | ~&choice=allow&password=
- 403 Forbidden | Content-Type: text/html; charset=utf-8 ¶ Content-Length: 643 | §
> POST /oauth/alice | | ~&choice=allow
- 403 Forbidden | Content-Type: text/html; charset=utf-8 ¶ Content-Length: 643 | §
> POST /oauth/alice | | ~&choice=allow&password=open+sesame&password=open+sesame
- 403 Forbidden | Content-Type: text/html; charset=utf-8 ¶ Content-Length: 643 | §
> POST /oauth/alice?password=open+sesame | | ~&choice=allow
- 403 Forbidden | Content-Type: text/html; charset=utf-8 ¶ Content-Length: 643 | §
> POST /oauth/alice | Connection: close | ~&choice=allow&password=
- 403 Forbidden | Content-Type: text/html; charset=utf-8 ¶ Content-Length: 643 ¶ Connection: close | §
> POST /oauth/alice | | ~&choice=allow&password=open+sesame
"#;

#[test]
fn another_password_gets_the_page_again(rt: HostRuntime) -> Result<(), Fail> {
    gives(&rt, rt.alloc(), PIPE_AT, OTHER_PASSWORDS)
}

const NO_PASSWORD: &str = r#"
> POST /oauth/alice | | ~&choice=allow&password=open+sesame
- 403 Forbidden | Content-Type: text/html; charset=utf-8 ¶ Content-Length: 643 | §
> POST /oauth/alice | | ~&choice=allow&password=
- 403 Forbidden | Content-Type: text/html; charset=utf-8 ¶ Content-Length: 643 | §
"#;

#[test]
fn a_user_without_a_password_grants_nothing(rt: HostRuntime) -> Result<(), Fail> {
    gives(&rt, rt.alloc(), PIPE, NO_PASSWORD)
}

const NO_PAGES: &str = r#"
> GET /oauth/alice
- 400 Bad Request | Content-Length: 0
> GET /oauth/alice?~ | If-None-Match: x
- 400 Bad Request | Content-Length: 0
> POST /oauth/alice | If-Match: *, "1" | ~&choice=allow&password=open+sesame
- 400 Bad Request | Content-Length: 0
> HEAD /oauth/alice
- 400 Bad Request | Content-Length: 0
> GET /oauth/alice | | ~
- 400 Bad Request | Content-Length: 0
> GET /oauth/alice?~&redirect_uri=https://app.example/
- 400 Bad Request | Content-Length: 0
> GET /oauth/alice?redirect_uri=https%3A%2F%2Fapp.example%2Fcb%23a&response_type=token&client_id=c&scope=notes%3Arw&state=s1
- 400 Bad Request | Content-Length: 0
> GET /oauth/alice?~&response_type=token
- 302 Found | Location: https://app.example/cb#error=invalid_request&state=s1 ¶ Content-Length: 0
> GET /oauth/alice?redirect_uri=https://app.example/cb&response_type=code&client_id=c&state=s1
- 302 Found | Location: https://app.example/cb#error=unsupported_response_type&state=s1 ¶ Content-Length: 0
> HEAD /oauth/alice?redirect_uri=https://app.example/cb&response_type=token&client_id=c&scope=public%3Arw&state=s1
- 302 Found | Location: https://app.example/cb#error=invalid_scope&state=s1 ¶ Content-Length: 0
"#;

#[test]
fn a_wrong_ask_has_no_page(rt: HostRuntime) -> Result<(), Fail> {
    gives(&rt, rt.alloc(), PIPE_AT, NO_PAGES)
}

const METHODS: &str = r#"
> PUT /oauth/alice?~ | | hello
- 405 Method Not Allowed | Allow: GET, HEAD, POST ¶ Content-Length: 0
> DELETE /oauth/alice?~
- 405 Method Not Allowed | Allow: GET, HEAD, POST ¶ Content-Length: 0
> OPTIONS /oauth/alice?~ | Origin: https://app.example ¶ Access-Control-Request-Method: POST
- 405 Method Not Allowed | Allow: GET, HEAD, POST ¶ Content-Length: 0
> post /oauth/alice | | ~&choice=allow&password=open+sesame
- 405 Method Not Allowed | Allow: GET, HEAD, POST ¶ Content-Length: 0
> PATCH /oauth/alice | | ~&choice=allow&password=open+sesame
- 405 Method Not Allowed | Allow: GET, HEAD, POST ¶ Content-Length: 0
"#;

#[test]
fn methods_of_grants(rt: HostRuntime) -> Result<(), Fail> {
    gives(&rt, rt.alloc(), PIPE_AT, METHODS)
}

/// Below `/oauth/` no reply is for pages of other origins, whether a user is there or not.
const TARGETS: &str = r#"
> POST /oauth/bob | | ~&choice=allow&password=open+sesame
- 404 Not Found | Content-Length: 0
> GET /oauth/Alice?~
- 404 Not Found | Content-Length: 0
> GET /oauth/alice/?~
- 404 Not Found | Content-Length: 0
> OPTIONS /oauth/
- 404 Not Found | Content-Length: 0
> GET http://localhost/oauth/bob?~
- 404 Not Found | Content-Length: 0
> GET /oauth?~
< 404 Not Found | Content-Length: 0
> GET /OAuth/alice?~
< 404 Not Found | Content-Length: 0
"#;

#[test]
fn targets_of_grants(rt: HostRuntime) -> Result<(), Fail> {
    gives(&rt, rt.alloc(), PIPE_AT, TARGETS)
}

/// A message that isn't read, since it has no host, is answered as any other.
const NO_HOST: &[u8] = b"GET /oauth/alice HTTP/1.1\r\n\r\n";

const NO_HOST_REPLY: &[u8] =
    b"HTTP/1.1 400 Bad Request\r\nAccess-Control-Allow-Origin: *\r\nAccess-Control-Expose-Headers: ETag, Content-Type, Content-Length\r\nContent-Length: 0\r\nConnection: close\r\n\r\n";

fn is_no_message(rt: &impl Abort, alloc: Global, piece: usize) -> Result<(), Fail> {
    let mut keeper = MemKeeper::new(Vec::new(alloc), Vec::new(alloc));
    let mut entropy = MemEntropy::new(WORDS.to_vec(alloc)?, Vec::new(alloc));
    let note = Note::Message { place: 0 };
    writes(
        rt,
        alloc,
        PIPE_AT,
        NO_HOST,
        piece,
        &mut keeper,
        &mut entropy,
        NO_HOST_REPLY,
        &note,
    )?;
    has_rows(rt, &keeper, &[OWNER_ROW])?;
    has_drawn(rt, &mut entropy, &WORDS, 0)
}

#[test]
fn a_message_without_a_host(rt: HostRuntime) -> Result<(), Fail> {
    is_no_message(&rt, rt.alloc(), 65_536)?;
    is_no_message(&rt, rt.alloc(), 1)
}
