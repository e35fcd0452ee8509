//! Texts of scopes with their faults and places, what scopes reach, and what the contracts leave to a run: that a
//! call with ample memory answers.

use rs_path::{NoMemory, Path};
use rs_scope::{Method, ScopeFault, Scopes, Token, free_read, reaches};
use std::alloc::Global;
use std::test::Fail;

fn fault_of(alloc: Global, text: &[u8]) -> Option<u32> {
    match Scopes::read(alloc, text) {
        Err(ScopeFault::Bad { place }) => Some(place),
        _ => None,
    }
}

fn text_of(alloc: Global, scopes: &Scopes) -> Result<Vec<u8>, NoMemory> {
    let mut out = Vec::new(alloc);
    scopes.write(&mut out)?;
    Ok(out)
}

// The roots, one behind the other.
fn roots_of(alloc: Global, scopes: &Scopes) -> Result<Vec<u8>, NoMemory> {
    let mut out = Vec::new(alloc);
    for root in scopes.roots()?.as_slice() {
        root.write_plain(&mut out)?;
    }
    Ok(out)
}

// A letter a number of times, and then the end.
fn long(alloc: Global, times: usize, end: &[u8]) -> Result<Vec<u8>, NoMemory> {
    let mut text = Vec::new(alloc);
    for _ in 0..times {
        text.push(b'a')?;
    }
    text.extend_from_slice(end)?;
    Ok(text)
}

#[test]
fn texts_are_refused_at_their_first_wrong_item(rt: HostRuntime) -> Result<(), Fail> {
    let rows: [(&[u8], u32); 20] = [
        (b"", 0),
        (b"   ", 0),
        (b"notes:r public:rw", 8),
        (b" public:r", 1),
        (b"notes", 0),
        (b":r", 0),
        (b"notes:", 0),
        (b"notes:w", 0),
        (b"notes:rwx", 0),
        (b"notes:R", 0),
        (b"Notes:r", 0),
        (b"a:r .:r", 4),
        (b"a:r ..:rw", 4),
        (b"a:r  b:rw c", 10),
        (b"a:r b", 4),
        (b"a:r\tb:r", 0),
        (b"a:r \t", 4),
        (b"**:r", 0),
        (b"a/b:r", 0),
        (b"caf\xC3\xA9:r", 0),
    ];
    for (text, place) in rows {
        assert_eq!(rt; fault_of(rt.alloc(), text), Some(place));
    }
    Ok(())
}

#[test]
fn scopes_are_written_with_one_space(rt: HostRuntime) -> Result<(), Fail> {
    let rows: [(&[u8], &[u8], &[u8]); 6] = [
        (b" notes:r  *:rw", b"notes:r *:rw", b"/"),
        (b"notes:r", b"notes:r", b"/notes//public/notes/"),
        (
            b"z:r a:rw z:rw ",
            b"z:r a:rw z:rw",
            b"/a//public/a//public/z//z/",
        ),
        (b"*:r", b"*:r", b"/"),
        (b"x-1_.y:rw", b"x-1_.y:rw", b"/public/x-1_.y//x-1_.y/"),
        (b"...:r", b"...:r", b"/...//public/.../"),
    ];
    for (text, written, roots) in rows {
        let scopes = Scopes::read(rt.alloc(), text)?;
        assert_eq!(rt; text_of(rt.alloc(), &scopes)?.as_slice(), written);
        assert_eq!(rt; roots_of(rt.alloc(), &scopes)?.as_slice(), roots);
        assert!(rt; scopes.copy()? == scopes);
    }
    Ok(())
}

#[test]
fn lengths_have_limits(rt: HostRuntime) -> Result<(), Fail> {
    let alloc = rt.alloc();
    let rows: [(usize, &[u8], Option<u32>); 4] = [
        (64, b":r", None),
        (65, b":r", Some(0)),
        (1022, b":r", Some(0)),
        (1023, b":r", Some(1024)),
    ];
    for (times, end, place) in rows {
        let text = long(alloc, times, end)?;
        assert_eq!(rt; fault_of(alloc, text.as_slice()), place);
    }
    Ok(())
}

#[test]
fn whole_names_are_reached(rt: HostRuntime) -> Result<(), Fail> {
    let alloc = rt.alloc();
    let rows: [(&[u8], Method, &[u8], bool); 16] = [
        (b"notes:r", Method::Get, b"/notes/", true),
        (b"notes:r", Method::Head, b"/notes/x", true),
        (b"notes:r", Method::Get, b"/public/notes/a/b", true),
        (b"notes:r", Method::Get, b"/public/notes/", true),
        (b"notes:r", Method::Get, b"/notes2/x", false),
        (b"notes:r", Method::Get, b"/notes", false),
        (b"notes:r", Method::Get, b"/public/notes", false),
        (b"notes:r", Method::Get, b"/", false),
        (b"notes:r", Method::Get, b"/public/", false),
        (b"notes:r", Method::Get, b"/a/notes/x", false),
        (b"notes:r", Method::Put, b"/notes/x", false),
        (b"notes:r", Method::Delete, b"/notes/x", false),
        (b"notes:rw", Method::Put, b"/notes/x", true),
        (b"notes:r a:rw", Method::Delete, b"/public/a/x", true),
        (b"*:r", Method::Get, b"/", true),
        (b"*:r a:rw", Method::Put, b"/b/x", false),
    ];
    for (text, method, path, reached) in rows {
        let scopes = Scopes::read(alloc, text)?;
        let path = Path::read_plain(alloc, path)?;
        assert_eq!(rt; reaches(&scopes, method, &path), reached);
    }
    Ok(())
}

#[test]
fn public_documents_are_free_to_read(rt: HostRuntime) -> Result<(), Fail> {
    let alloc = rt.alloc();
    let rows: [(Method, &[u8], bool); 8] = [
        (Method::Get, b"/public/x", true),
        (Method::Head, b"/public/notes/a/b", true),
        (Method::Get, b"/public", false),
        (Method::Get, b"/public/", false),
        (Method::Get, b"/public/notes/", false),
        (Method::Put, b"/public/x", false),
        (Method::Delete, b"/public/x", false),
        (Method::Get, b"/publico/x", false),
    ];
    for (method, path, free) in rows {
        let path = Path::read_plain(alloc, path)?;
        assert_eq!(rt; free_read(method, &path), free);
    }
    Ok(())
}

#[test]
fn tokens_have_32_lower_digits(rt: HostRuntime) -> Result<(), Fail> {
    let text = b"000102030405060708090a0b0c0d0e0f";
    let token = Token::of_words(0x0001_0203_0405_0607, 0x0809_0a0b_0c0d_0e0f);
    assert_eq!(rt; Token::read(text), Some(token));
    assert_eq!(rt; &token.digits(), text);
    assert!(rt; Token::of_bytes(token.as_bytes()) == token);
    let refused: [&[u8]; 5] = [
        b"",
        b"000102030405060708090a0b0c0d0e0",
        b"000102030405060708090a0b0c0d0e0f0",
        b"000102030405060708090A0b0c0d0e0f",
        b"000102030405060708090g0b0c0d0e0f",
    ];
    for wrong in refused {
        assert_eq!(rt; Token::read(wrong), None);
    }
    Ok(())
}
