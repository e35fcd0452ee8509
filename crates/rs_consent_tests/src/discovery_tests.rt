//! Discovery of users: which resources are found, and what is answered.

use crate::exchanges::{PIPE, PIPE_AT, gives};
use std::test::Fail;

const FOUND: &str = r#"
> GET /.well-known/webfinger?resource=acct:alice@localhost
< 200 OK | Content-Type: application/jrd+json ¶ Content-Length: 312 | $
> GET /.well-known/webfinger?resource=acct%3Aalice%40localhost | Origin: https://app.example
< 200 OK | Content-Type: application/jrd+json ¶ Content-Length: 312 | $
> GET /.well-known/webfinger?x&resource=acct:alice@LOCALHOST&y=z
< 200 OK | Content-Type: application/jrd+json ¶ Content-Length: 312 | $
> GET /.well-known/webfinger?resource=acct:alice@localhost | If-Match: "1" ¶ If-None-Match: *
< 200 OK | Content-Type: application/jrd+json ¶ Content-Length: 312 | $
> GET http://localhost/.well-known/webfinger?resource=acct:alice@LocalHost
< 200 OK | Content-Type: application/jrd+json ¶ Content-Length: 312 | $
> HEAD /.well-known/webfinger?resource=acct:alice@localhost
< 200 OK | Content-Type: application/jrd+json ¶ Content-Length: 312
"#;

#[test]
fn a_user_is_found(rt: HostRuntime) -> Result<(), Fail> {
    gives(&rt, rt.alloc(), PIPE, FOUND)?;
    gives(&rt, rt.alloc(), PIPE_AT, FOUND)
}

const RELS: &str = r#"
> GET /.well-known/webfinger?resource=acct:alice@localhost&rel=a&rel=http://tools.ietf.org/id/draft-dejong-remotestorage
< 200 OK | Content-Type: application/jrd+json ¶ Content-Length: 312 | $
> GET /.well-known/webfinger?rel=http%3A%2F%2Ftools.ietf.org%2Fid%2Fdraft-dejong-remotestorage&resource=acct:alice@localhost
< 200 OK | Content-Type: application/jrd+json ¶ Content-Length: 312 | $
> GET /.well-known/webfinger?resource=acct:alice@localhost&rel=a
< 200 OK | Content-Type: application/jrd+json ¶ Content-Length: 45 | €
> GET /.well-known/webfinger?resource=acct:alice@localhost&rel=
< 200 OK | Content-Type: application/jrd+json ¶ Content-Length: 45 | €
> HEAD /.well-known/webfinger?resource=acct:alice@localhost&rel=a
< 200 OK | Content-Type: application/jrd+json ¶ Content-Length: 45
> GET /.well-known/webfinger?resource=acct:alice@localhost&Rel=a
< 200 OK | Content-Type: application/jrd+json ¶ Content-Length: 312 | $
"#;

#[test]
fn links_are_asked_for_by_their_rel(rt: HostRuntime) -> Result<(), Fail> {
    gives(&rt, rt.alloc(), PIPE, RELS)
}

const UNKNOWN: &str = r#"
> GET /.well-known/webfinger?resource=acct:bob@localhost
< 404 Not Found | Content-Length: 0
> GET /.well-known/webfinger?resource=acct:Alice@localhost
< 404 Not Found | Content-Length: 0
> GET /.well-known/webfinger?resource=ACCT:alice@localhost
< 404 Not Found | Content-Length: 0
> GET /.well-known/webfinger?resource=acct:alice@localhost:80
< 404 Not Found | Content-Length: 0
> GET /.well-known/webfinger?resource=acct:alice@example.org
< 404 Not Found | Content-Length: 0
> GET /.well-known/webfinger?resource=acct:alice@
< 404 Not Found | Content-Length: 0
> GET /.well-known/webfinger?resource=acct:alice
< 404 Not Found | Content-Length: 0
> GET /.well-known/webfinger?resource=http://localhost/
< 404 Not Found | Content-Length: 0
> HEAD /.well-known/webfinger?resource=acct:bob@localhost
< 404 Not Found | Content-Length: 0
"#;

#[test]
fn another_resource_is_not_found(rt: HostRuntime) -> Result<(), Fail> {
    gives(&rt, rt.alloc(), PIPE, UNKNOWN)
}

const BAD_RESOURCES: &str = r#"
> GET /.well-known/webfinger?resource=acct:alice@localhost | If-None-Match: 1
< 400 Bad Request | Content-Length: 0
> GET /.well-known/webfinger?resource=acct:bob@localhost | If-Match: "
< 400 Bad Request | Content-Length: 0
> GET /.well-known/webfinger
< 400 Bad Request | Content-Length: 0
> GET /.well-known/webfinger?
< 400 Bad Request | Content-Length: 0
> GET /.well-known/webfinger?rel=a
< 400 Bad Request | Content-Length: 0
> GET /.well-known/webfinger?Resource=acct:alice@localhost
< 400 Bad Request | Content-Length: 0
> GET /.well-known/webfinger?resource=acct:alice@localhost&resource=acct:alice@localhost
< 400 Bad Request | Content-Length: 0
> GET /.well-known/webfinger?resource
< 400 Bad Request | Content-Length: 0
> GET /.well-known/webfinger?resource=
< 400 Bad Request | Content-Length: 0
> GET /.well-known/webfinger?resource=bob@localhost
< 400 Bad Request | Content-Length: 0
> GET /.well-known/webfinger?resource=acct:
< 400 Bad Request | Content-Length: 0
> GET /.well-known/webfinger?resource=1acct:alice@localhost
< 400 Bad Request | Content-Length: 0
> GET /.well-known/webfinger?resource=+acct:alice@localhost
< 400 Bad Request | Content-Length: 0
> HEAD /.well-known/webfinger
< 400 Bad Request | Content-Length: 0
> GET /.well-known/webfinger | | resource=acct:alice@localhost
< 400 Bad Request | Content-Length: 0
"#;

#[test]
fn a_query_names_one_resource(rt: HostRuntime) -> Result<(), Fail> {
    gives(&rt, rt.alloc(), PIPE, BAD_RESOURCES)
}

const METHODS: &str = r#"
> OPTIONS /.well-known/webfinger
< 204 No Content | Access-Control-Allow-Methods: GET, HEAD, PUT, DELETE, OPTIONS ¶ Access-Control-Allow-Headers: Authorization, Content-Type, Content-Length, If-Match, If-None-Match, Origin ¶ Access-Control-Max-Age: 7200
> OPTIONS /.well-known/webfinger?resource=acct:bob@localhost | Origin: https://app.example ¶ Access-Control-Request-Method: GET
< 204 No Content | Access-Control-Allow-Methods: GET, HEAD, PUT, DELETE, OPTIONS ¶ Access-Control-Allow-Headers: Authorization, Content-Type, Content-Length, If-Match, If-None-Match, Origin ¶ Access-Control-Max-Age: 7200
> POST /.well-known/webfinger | | resource=acct:alice@localhost
< 405 Method Not Allowed | Allow: GET, HEAD, OPTIONS ¶ Content-Length: 0
> PUT /.well-known/webfinger?resource=acct:alice@localhost | | hello
< 405 Method Not Allowed | Allow: GET, HEAD, OPTIONS ¶ Content-Length: 0
> DELETE /.well-known/webfinger?resource=acct:alice@localhost
< 405 Method Not Allowed | Allow: GET, HEAD, OPTIONS ¶ Content-Length: 0
> get /.well-known/webfinger?resource=acct:alice@localhost
< 405 Method Not Allowed | Allow: GET, HEAD, OPTIONS ¶ Content-Length: 0
> GET /.well-known/webfinger/?resource=acct:alice@localhost
< 404 Not Found | Content-Length: 0
> GET /.well-known/webfinger?resource=acct:alice@localhost&rel=a | Connection: close
< 200 OK | Content-Type: application/jrd+json ¶ Content-Length: 45 ¶ Connection: close | €
> GET /.well-known/webfinger?resource=acct:alice@localhost
"#;

#[test]
fn methods_of_discovery(rt: HostRuntime) -> Result<(), Fail> {
    gives(&rt, rt.alloc(), PIPE, METHODS)
}

const AT_A_PORT: &str = r#"
> GET /.well-known/webfinger?resource=acct:alice@example.org:8443
< 200 OK | Content-Type: application/jrd+json ¶ Content-Length: 335 | {"links":[{"href":"https://example.org:8443/storage/alice","properties":{"http://remotestorage.io/spec/version":"draft-dejong-remotestorage-13","http://tools.ietf.org/html/rfc6749#section-4.2":"https://example.org:8443/oauth/alice"},"rel":"http://tools.ietf.org/id/draft-dejong-remotestorage"}],"subject":"acct:alice@example.org:8443"}
> GET /.well-known/webfinger?resource=acct:alice@Example.ORG:8443&rel=a
< 200 OK | Content-Type: application/jrd+json ¶ Content-Length: 52 | {"links":[],"subject":"acct:alice@example.org:8443"}
> GET /.well-known/webfinger?resource=acct:alice@example.org
< 404 Not Found | Content-Length: 0
> GET /.well-known/webfinger?resource=acct:alice@localhost
< 404 Not Found | Content-Length: 0
> GET /.well-known/webfinger?resource=acct:alice@https://example.org:8443
< 404 Not Found | Content-Length: 0
"#;

#[test]
fn a_server_at_a_port(rt: HostRuntime) -> Result<(), Fail> {
    let line =
        "pipe alice ffffffffffffffffffffffffffffffff *:rw 1000 https://example.org:8443 s1 c23b1680972df2709e75c4e0f56c01a23a4eec0fd21314252d7efeb768ee5a73";
    gives(&rt, rt.alloc(), line, AT_A_PORT)
}

const AT_AN_ADDRESS: &str = r#"
> GET /.well-known/webfinger?resource=acct:alice@[::1]
< 200 OK | Content-Type: application/jrd+json ¶ Content-Length: 300 | {"links":[{"href":"http://[::1]/storage/alice","properties":{"http://remotestorage.io/spec/version":"draft-dejong-remotestorage-13","http://tools.ietf.org/html/rfc6749#section-4.2":"http://[::1]/oauth/alice"},"rel":"http://tools.ietf.org/id/draft-dejong-remotestorage"}],"subject":"acct:alice@[::1]"}
> GET /.well-known/webfinger?resource=acct:alice@localhost
< 404 Not Found | Content-Length: 0
"#;

#[test]
fn a_server_at_an_address(rt: HostRuntime) -> Result<(), Fail> {
    let line =
        "pipe alice ffffffffffffffffffffffffffffffff *:rw 1000 http://[::1] s1 c23b1680972df2709e75c4e0f56c01a23a4eec0fd21314252d7efeb768ee5a73";
    gives(&rt, rt.alloc(), line, AT_AN_ADDRESS)
}
