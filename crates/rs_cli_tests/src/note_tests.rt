//! Codes and texts of notes.

use rs_cli::Note;
use rs_path::Path;
use rs_scope::Token;
use std::alloc::Global;
use std::process::Abort;
use std::test::Fail;

/// The note has this code and this text.
fn tells(rt: &impl Abort, alloc: Global, note: Note, code: u8, text: &[u8]) -> Result<(), Fail> {
    let mut out = b">".to_vec(alloc)?;
    note.write(&mut out)?;
    assert_eq!(rt; out.as_slice(), text);
    assert_eq!(rt; note.status().code, code);
    Ok(())
}

#[test]
fn notes_of_causes(rt: HostRuntime) -> Result<(), Fail> {
    let alloc = rt.alloc();
    tells(&rt, alloc, Note::Empty, 0, b">")?;
    tells(&rt, alloc, Note::KeeperFailed, 3, b">keeper failed")?;
    tells(&rt, alloc, Note::NoMemory, 5, b">no memory")?;
    tells(&rt, alloc, Note::NotThere, 8, b">not there")?;
    tells(&rt, alloc, Note::SinkFailed, 11, b">sink failed")?;
    tells(&rt, alloc, Note::SourceFailed, 12, b">source failed")?;
    tells(&rt, alloc, Note::OutOfScope, 13, b">out of scope")?;
    tells(&rt, alloc, Note::Limit, 14, b">limit")?;
    tells(&rt, alloc, Note::TooLong, 15, b">too long")?;
    tells(&rt, alloc, Note::EntropyFailed, 17, b">entropy failed")?;
    tells(&rt, alloc, Note::Connected, 19, b">connected")?;
    tells(&rt, alloc, Note::NotConnected, 20, b">not connected")
}

#[test]
fn notes_of_words_and_documents(rt: HostRuntime) -> Result<(), Fail> {
    let alloc = rt.alloc();
    let path = Path::read(alloc, b"/n/b%20c")?;
    tells(&rt, alloc, Note::Https, 2, b">https is not served")?;
    tells(&rt, alloc, Note::Clash { path }, 9, b">clash /n/b%20c")?;
    tells(
        &rt,
        alloc,
        Note::NoConflict {
            n: 18_446_744_073_709_551_615,
        },
        16,
        b">no conflict 18446744073709551615",
    )
}

#[test]
fn notes_of_places(rt: HostRuntime) -> Result<(), Fail> {
    let alloc = rt.alloc();
    let place = 32;
    let token = Token::of_words(0x0001_0203_0405_0607, 0x0809_0A0B_0C0D_0E0F);
    let taken = b">token taken 000102030405060708090a0b0c0d0e0f";
    tells(&rt, alloc, Note::Word { index: 2 }, 2, b">word 2")?;
    tells(
        &rt,
        alloc,
        Note::RowAt { index: 1, place },
        10,
        b">row 1 at 32",
    )?;
    tells(
        &rt,
        alloc,
        Note::RowUnlawful { index: 2 },
        10,
        b">row 2 unlawful",
    )?;
    tells(&rt, alloc, Note::TokenTaken { token }, 17, taken)?;
    tells(
        &rt,
        alloc,
        Note::Message { place: 1_807 },
        18,
        b">message at 1807",
    )
}
