//! Authorisation requests and consents: what is asked, and each refusal in its order.

use crate::rows::{cells, filled, text_of};
use rs_grant::{Choice, GrantFault, GrantWord, read_ask, read_consent};
use std::alloc::{AllocError, Global};
use std::test::Fail;

// `!`, `~` and `^` in a row stand for these fields.
const REDIRECT: &str = "redirect_uri=https%3A%2F%2Fapp.example%2Fcb";

const TOKEN: &str = "response_type=token&client_id=c";

const SCOPE: &str = "scope=notes%3Arw";

fn query_of(alloc: Global, row: &str) -> Result<String, AllocError> {
    let row = filled(alloc, row, '!', REDIRECT)?;
    let row = filled(alloc, row.as_str(), '~', TOKEN)?;
    filled(alloc, row.as_str(), '^', SCOPE)
}

// The parts of a request, or why there are none, as one text.
fn told(alloc: Global, query: &str) -> Result<String, Fail> {
    match read_ask(alloc, query.as_bytes()) {
        Ok(ask) => {
            let mut scopes = Vec::new(alloc);
            ask.scopes.write(&mut scopes)?;
            let state = match &ask.state {
                Some(state) => text_of(state.as_slice())?,
                None => "-",
            };
            let redirect = text_of(ask.redirect.as_slice())?;
            let origin = text_of(ask.origin.as_slice())?;
            let client = text_of(ask.client.as_slice())?;
            let scopes = text_of(scopes.as_slice())?;
            Ok(format!(in alloc; "{redirect} {origin} [{client}] {scopes} [{state}]")?)
        }
        Err(
            GrantFault::Word {
                word,
                redirect,
                state,
            },
        ) => {
            let state = match &state {
                Some(state) => text_of(state.as_slice())?,
                None => "-",
            };
            let word = word.as_str();
            let redirect = text_of(redirect.as_slice())?;
            Ok(format!(in alloc; "{word} {redirect} [{state}]")?)
        }
        Err(GrantFault::BadRedirect) => Ok(String::from_str(alloc, "bad redirect")?),
        Err(GrantFault::NoMemory) => Err("no memory")?,
    }
}

const REQUESTS: &str = r#"
~&!&^&state=s1 => https://app.example/cb https://app.example [c] notes:rw [s1]
state=&x=y&&^&!&~ => https://app.example/cb https://app.example [c] notes:rw []
~&!&^ => https://app.example/cb https://app.example [c] notes:rw [-]
~&!&scope=+notes:r++*:rw+ => https://app.example/cb https://app.example [c] notes:r *:rw [-]
response_type=token&client_id=&!&^ => https://app.example/cb https://app.example [] notes:rw [-]
~&!&^&state=a+b%26%C3%A9%FF => https://app.example/cb https://app.example [c] notes:rw [a b&é�]
~&^&redirect_uri=HTTP://User:Pw@App.Example:80/a%2Fb?c=d%26e => http://User:Pw@app.example/a/b?c=d&e http://app.example [c] notes:rw [-]
~&^&redirect_uri=http://app.example => http://app.example/ http://app.example [c] notes:rw [-]
~&^&redirect_uri=http://[::1]:8080/ => http://[::1]:8080/ http://[::1]:8080 [c] notes:rw [-]
~&^&redirect_uri=https://b%C3%BCcher.example/ => https://xn--bcher-kva.example/ https://xn--bcher-kva.example [c] notes:rw [-]
 => bad redirect
~&^ => bad redirect
~&^&redirect_uri= => bad redirect
~&^&redirect_uri=/cb => bad redirect
~&^&redirect_uri=ftp://app.example/ => bad redirect
~&^&redirect_uri=javascript:alert(1) => bad redirect
~&^&redirect_uri=https://app.example/cb%23a => bad redirect
~&^&redirect_uri=https://app.example/cb%23 => bad redirect
~&^&redirect_uri=https:// => bad redirect
~&^&!&! => bad redirect
!&!&response_type=code => bad redirect
! => invalid_request https://app.example/cb [-]
!&^&client_id=c => invalid_request https://app.example/cb [-]
!&^&response_type=token&state=s1 => invalid_request https://app.example/cb [s1]
!&^&~&client_id=c => invalid_request https://app.example/cb [-]
!&^&~&response_type=token => invalid_request https://app.example/cb [-]
!&^&~&^ => invalid_request https://app.example/cb [-]
!&^&~&state=s1&state=s2 => invalid_request https://app.example/cb [s1]
!&^&response_type=code&client_id=c&state=&state=s2 => invalid_request https://app.example/cb []
!&^&response_type=code&client_id=c&state=s1 => unsupported_response_type https://app.example/cb [s1]
!&response_type=Token&client_id=c => unsupported_response_type https://app.example/cb [-]
!&response_type=&client_id=c&scope=public:r => unsupported_response_type https://app.example/cb [-]
!&~ => invalid_scope https://app.example/cb [-]
!&~&scope= => invalid_scope https://app.example/cb [-]
!&~&scope=public%3Arw&state=s1 => invalid_scope https://app.example/cb [s1]
!&~&scope=notes => invalid_scope https://app.example/cb [-]
!&~&scope=%3Cb%3E:r => invalid_scope https://app.example/cb [-]
"#;

#[test]
fn requests_are_read(rt: HostRuntime) -> Result<(), Fail> {
    let alloc = rt.alloc();
    for row in REQUESTS.trim().split('\n') {
        let (query, wanted) = cells(row)?;
        let query = query_of(alloc, query)?;
        let found = told(alloc, query.as_str())?;
        assert_eq!(&rt; found.as_str(), wanted, "{query}");
    }
    Ok(())
}

#[test]
fn a_long_state_comes_back(rt: HostRuntime) -> Result<(), Fail> {
    let alloc = rt.alloc();
    let mut query = query_of(alloc, "~&!&^&state=")?;
    for _ in 0..8000 {
        query.push('s')?;
    }
    let ask = read_ask(alloc, query.as_bytes()).map_err(|_| "no request")?;
    let state = ask.state.ok_or("no state")?;
    assert_eq!(rt; state.as_slice().len(), 8000);
    Ok(())
}

// What the user chose, as one text.
fn chosen(alloc: Global, body: &str) -> Result<String, Fail> {
    match read_consent(alloc, body.as_bytes()) {
        Ok((_ask, choice)) => match choice {
            Choice::Deny => Ok(String::from_str(alloc, "deny")?),
            Choice::Other => Ok(String::from_str(alloc, "other")?),
            Choice::Allow { password: None } => Ok(String::from_str(alloc, "allow")?),
            Choice::Allow {
                password: Some(password),
            } => {
                let password = text_of(password.as_slice())?;
                Ok(format!(in alloc; "allow [{password}]")?)
            }
        },
        Err(GrantFault::Word { word, .. }) => Ok(String::from_str(alloc, word.as_str())?),
        Err(GrantFault::BadRedirect) => Ok(String::from_str(alloc, "bad redirect")?),
        Err(GrantFault::NoMemory) => Err("no memory")?,
    }
}

const CONSENTS: &str = r#"
~&!&^&choice=allow&password=open+sesame => allow [open sesame]
~&!&^&choice=allow&password= => allow []
~&!&^&choice=allow => allow
~&!&^&choice=allow&password=a&password=a => allow
~&!&^&choice=deny&password=a => deny
~&!&^&choice=deny => deny
~&!&^&choice=deny&choice=deny => other
~&!&^&choice=allow&choice=deny&password=a => other
~&!&^&choice=Allow&password=a => other
~&!&^&choice=&password=a => other
~&!&^&password=a => other
~&!&choice=deny => invalid_scope
!&^&choice=deny => invalid_request
~&^&choice=deny => bad redirect
"#;

#[test]
fn consents_are_read(rt: HostRuntime) -> Result<(), Fail> {
    let alloc = rt.alloc();
    for row in CONSENTS.trim().split('\n') {
        let (body, wanted) = cells(row)?;
        let body = query_of(alloc, body)?;
        let found = chosen(alloc, body.as_str())?;
        assert_eq!(&rt; found.as_str(), wanted, "{body}");
    }
    Ok(())
}

#[test]
fn a_word_is_what_the_standard_says(rt: HostRuntime) -> Result<(), Fail> {
    assert_eq!(rt; GrantWord::AccessDenied.as_str(), "access_denied");
    assert_eq!(rt; GrantWord::ServerError.as_str(), "server_error");
    Ok(())
}
