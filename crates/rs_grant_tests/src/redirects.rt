//! Redirects, byte by byte, and read back.

use crate::rows::{cells, owned, text_of};
use rs_form::{first_value, read_values};
use rs_grant::{GrantWord, Outcome, redirect};
use rs_scope::Token;
use std::alloc::Global;
use std::test::Fail;

fn address(alloc: Global, outcome: Outcome, state: Option<&str>) -> Result<Vec<u8>, Fail> {
    let to = owned(alloc, "https://app.example/cb")?;
    let state = match state {
        Some(state) => Some(owned(alloc, state)?),
        None => None,
    };
    let mut out = Vec::new(alloc);
    redirect(alloc, &to, &outcome, &state, &mut out)?;
    Ok(out)
}

fn token() -> Outcome {
    Outcome::Token(Token::of_words(0x0001020304050607, 0x08090a0b0c0d0e0f))
}

#[test]
fn a_token_goes_back(rt: HostRuntime) -> Result<(), Fail> {
    let alloc = rt.alloc();
    let with = address(alloc, token(), Some("s1"))?;
    assert_eq!(rt;
        text_of(with.as_slice())?,
        "https://app.example/cb#access_token=000102030405060708090a0b0c0d0e0f&token_type=bearer&state=s1"
    );
    let without = address(alloc, token(), None)?;
    assert_eq!(rt;
        text_of(without.as_slice())?,
        "https://app.example/cb#access_token=000102030405060708090a0b0c0d0e0f&token_type=bearer"
    );
    Ok(())
}

#[test]
fn a_word_goes_back(rt: HostRuntime) -> Result<(), Fail> {
    let alloc = rt.alloc();
    let denied = address(alloc, Outcome::Word(GrantWord::AccessDenied), Some("s1"))?;
    assert_eq!(rt;
        text_of(denied.as_slice())?,
        "https://app.example/cb#error=access_denied&state=s1"
    );
    let failed = address(alloc, Outcome::Word(GrantWord::ServerError), None)?;
    assert_eq!(rt;
        text_of(failed.as_slice())?,
        "https://app.example/cb#error=server_error"
    );
    Ok(())
}

// Each state, and how it is written.
const STATES: &str = r#"
s1 => s1
a b => a+b
a&b=c#d => a%26b%3Dc%23d
100%+ => 100%25%2B
é => %C3%A9
*-._~ => *-._%7E
"#;

#[test]
fn a_state_is_read_back(rt: HostRuntime) -> Result<(), Fail> {
    let alloc = rt.alloc();
    for row in STATES.trim().split('\n') {
        let (state, written) = cells(row)?;
        let out = address(alloc, Outcome::Word(GrantWord::InvalidScope), Some(state))?;
        let wanted = format!(in alloc;
            "https://app.example/cb#error=invalid_scope&state={written}"
        )?;
        let text = text_of(out.as_slice())?;
        assert_eq!(&rt; text, wanted.as_str());
        let fields = text.split_once("#").ok_or("no fragment")?.1;
        let states = read_values(alloc, fields.as_bytes(), "state")?;
        assert_eq!(&rt; first_value(states.as_slice()), Some(state));
        assert_eq!(&rt; read_values(alloc, fields.as_bytes(), "error")?.len(), 1);
    }
    let empty = address(alloc, Outcome::Word(GrantWord::InvalidScope), Some(""))?;
    assert_eq!(rt;
        text_of(empty.as_slice())?,
        "https://app.example/cb#error=invalid_scope&state="
    );
    Ok(())
}
