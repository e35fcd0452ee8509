//! Passwords, and a grant by password from the form's body to the redirect.

use crate::rows::text_of;
use rs_grant::{Choice, GrantFault, GrantWord, Outcome, password_fits, read_consent, redirect};
use rs_scope::Token;
use std::alloc::Global;
use std::test::Fail;

// SHA-256 of `s1open sesame`, by sha256sum.
const SECRET: [u8; 32] = [
    0xc2, 0x3b, 0x16, 0x80, 0x97, 0x2d, 0xf2, 0x70, 0x9e, 0x75, 0xc4, 0xe0, 0xf5, 0x6c, 0x01, 0xa2,
    0x3a, 0x4e, 0xec, 0x0f, 0xd2, 0x13, 0x14, 0x25, 0x2d, 0x7e, 0xfe, 0xb7, 0x68, 0xee, 0x5a, 0x73,
];

#[test]
fn passwords(rt: HostRuntime) -> Result<(), Fail> {
    assert!(rt; password_fits(b"s1", &SECRET, b"open sesame"));
    assert!(rt; password_fits(b"s1open", &SECRET, b" sesame"));
    assert!(rt; !password_fits(b"s1", &SECRET, b"open sesam"));
    assert!(rt; !password_fits(b"s1", &SECRET, b""));
    assert!(rt; !password_fits(b"", &SECRET, b"open sesame"));
    Ok(())
}

#[test]
fn each_byte_of_the_digest_counts(rt: HostRuntime) -> Result<(), Fail> {
    for place in 0..32usize {
        let mut other = SECRET;
        other[place] ^= 1;
        assert!(&rt;
            !password_fits(b"s1", &other, b"open sesame"),
            "byte {place}"
        );
    }
    Ok(())
}

// What the form of the page sends, up to the choice.
const FORM: &str =
    "response_type=token&client_id=c&redirect_uri=https%3A%2F%2Fapp.example%2Fcb&scope=notes%3Arw&state=s1";

// The redirect that a server of this password answers to what the form sends, or why there is none.
fn granted(alloc: Global, rest: &str) -> Result<String, Fail> {
    let body = format!(in alloc; "{FORM}{rest}")?;
    let mut out = Vec::new(alloc);
    match read_consent(alloc, body.as_bytes()) {
        Ok((ask, choice)) => {
            let outcome = match choice {
                Choice::Allow {
                    password: Some(password),
                } => {
                    if !password_fits(b"s1", &SECRET, password.as_slice()) {
                        return Ok(String::from_str(alloc, "another password")?);
                    }
                    Outcome::Token(Token::of_words(0x0001020304050607, 0x08090a0b0c0d0e0f))
                }
                Choice::Allow { password: None } => {
                    return Ok(String::from_str(alloc, "no password")?);
                }
                Choice::Deny => Outcome::Word(GrantWord::AccessDenied),
                Choice::Other => Outcome::Word(GrantWord::InvalidRequest),
            };
            redirect(alloc, &ask.redirect, &outcome, &ask.state, &mut out)?;
        }
        Err(
            GrantFault::Word {
                word,
                redirect: to,
                state,
            },
        ) => redirect(alloc, &to, &Outcome::Word(word), &state, &mut out)?,
        Err(GrantFault::BadRedirect) => return Ok(String::from_str(alloc, "bad redirect")?),
        Err(GrantFault::NoMemory) => return Err("no memory")?,
    }
    Ok(String::from_str(alloc, text_of(out.as_slice())?)?)
}

const GRANTS: &str = r#"
&choice=allow&password=open+sesame => https://app.example/cb#access_token=000102030405060708090a0b0c0d0e0f&token_type=bearer&state=s1
&choice=deny&password=open+sesame => https://app.example/cb#error=access_denied&state=s1
&choice=other&password=open+sesame => https://app.example/cb#error=invalid_request&state=s1
&scope=public%3Arw&choice=allow => https://app.example/cb#error=invalid_request&state=s1
&choice=allow&password=open+sesame+ => another password
&choice=allow => no password
&choice=allow&redirect_uri=https%3A%2F%2Fapp.example%2Fcb%23a => bad redirect
"#;

#[test]
fn a_grant_by_password(rt: HostRuntime) -> Result<(), Fail> {
    let alloc = rt.alloc();
    for row in GRANTS.trim().split('\n') {
        let (rest, wanted) = row.split_once(" => ").ok_or("a row without =>")?;
        let found = granted(alloc, rest)?;
        assert_eq!(&rt; found.as_str(), wanted, "{rest}");
    }
    Ok(())
}
