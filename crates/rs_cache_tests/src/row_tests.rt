//! The rows of events: known bytes, cuts, surplus and wrong bytes.

use crate::spelling::row_of;
use rs_cache::read_event;
use rs_row::RowFault;
use std::alloc::Global;
use std::process::Abort;
use std::test::Fail;

const ROWS: &str = r#"
connect notes:rw todo:r | 0110001e687474703a2f2f6c6f63616c686f73742f73746f726167652f616c696365000154000f6e6f7465733a727720746f646f3a72
edit /a put v1          | 011100022f61010a746578742f706c61696e000000027631
edit /a remove          | 011100022f6102
sent /a/b               | 011200042f612f62
accepted /a 12          | 011300022f61023132
accepted /a -           | 011300022f6100
absorbed /a 12          | 011400022f61023132
absorbed /a -           | 011400022f6100
held /a 507             | 011500022f6101fb
conflict /a 7 w         | 011600022f6101370a746578742f706c61696e0000000177
conflict /a -           | 011600022f6100
pulled /a 7 w           | 011700022f6101370a746578742f706c61696e0000000177
gone /a                 | 011800022f61
settled / 9             | 011900012f0139
unsettled /a/           | 011a00032f612f
resolved 258 keep       | 011b000000000000010201
resolved 1 drop         | 011b000000000000000102
"#;

// The event, a byte of its row, what stands there instead, and where the row is refused: `+` where it spells an event, `-` where
// that event has no place in any journal.
const WRONG: &str = r#"
sent /a          | 0  | 2   | 0
sent /a          | 0  | 0   | 0
sent /a          | 1  | 15  | 1
sent /a          | 1  | 28  | 1
sent /a          | 3  | 0   | 4
sent /a          | 3  | 1   | 4
sent /a          | 4  | 97  | 4
sent /a          | 5  | 47  | 4
edit /a remove   | 6  | 3   | 6
edit /a remove   | 6  | 0   | 6
edit /a put v    | 7  | 0   | 8
edit /a put v    | 8  | 32  | 8
edit /a put v    | 18 | 128 | 18
edit /a put v    | 21 | 0   | 22
accepted /a 1    | 7  | 34  | 7
held /a 409      | 7  | 154 | +
conflict /a 7 w  | 7  | 34  | 7
pulled /a 7 w    | 7  | 34  | 7
settled / 9      | 6  | 34  | 6
settled /a/ 9    | 6  | 98  | +
unsettled /a/    | 6  | 98  | +
pulled /a - w    | 0  | 1   | -
settled / -      | 0  | 1   | -
resolved 1 keep  | 10 | 0   | 10
resolved 1 keep  | 10 | 3   | 10
connect notes:rw | 4  | 104 | +
connect notes:rw | 4  | 120 | 4
connect notes:rw | 35 | 0   | 36
connect notes:rw | 36 | 32  | 36
connect notes:rw | 39 | 32  | 39
connect notes:rw | 46 | 120 | 39
"#;

fn push_hex(out: &mut Vec<u8>, bytes: &[u8]) -> Result<(), Fail> {
    for byte in bytes {
        out.push(digit(*byte / 16))?;
        out.push(digit(*byte % 16))?;
    }
    Ok(())
}

fn digit(value: u8) -> u8 {
    *b"0123456789abcdef".get(usize::from(value)).unwrap_or(&b'?')
}

// What reading the row comes to: `+` an event, `-` one that stands nowhere, else the place of its fault.
fn outcome(alloc: Global, row: &[u8]) -> Result<Vec<u8>, Fail> {
    let mut out = Vec::new(alloc);
    match read_event(alloc, row) {
        Ok(Some(_)) => out.push(b'+')?,
        Ok(None) => out.push(b'-')?,
        Err(RowFault::Bad { place }) => {
            let text = format!(in alloc; "{place}")?;
            out.extend_from_slice(text.as_bytes())?;
        }
        Err(RowFault::NoMemory) => return Err("no memory".into()),
    }
    Ok(out)
}

#[test]
fn events_have_known_rows(rt: HostRuntime) -> Result<(), Fail> {
    let alloc = rt.alloc();
    for line in ROWS.trim().split('\n') {
        let (event, wanted) = line.split_once('|').ok_or("no row")?;
        let row = row_of(alloc, event.trim())?;
        let mut shown = Vec::new(alloc);
        push_hex(&mut shown, row.as_slice())?;
        assert_eq!(rt; shown.as_slice(), wanted.trim().as_bytes(), "{event}");
        let read = outcome(alloc, row.as_slice())?;
        assert_eq!(rt; read.as_slice(), b"+".as_slice(), "{event}");
    }
    Ok(())
}

#[test]
fn rows_are_refused_where_they_are_cut(rt: HostRuntime) -> Result<(), Fail> {
    let alloc = rt.alloc();
    for line in ROWS.trim().split('\n') {
        let (event, _) = line.split_once('|').ok_or("no row")?;
        let mut row = row_of(alloc, event.trim())?;
        for length in 0..row.len() {
            let cut = row.get(..length).ok_or("no such length")?;
            let wanted = format!(in alloc; "{length}")?;
            let read = outcome(alloc, cut)?;
            assert_eq!(rt; read.as_slice(), wanted.as_bytes(), "{event}");
        }
        let length = row.len();
        row.push(0)?;
        let wanted = format!(in alloc; "{length}")?;
        let read = outcome(alloc, row.as_slice())?;
        assert_eq!(rt; read.as_slice(), wanted.as_bytes(), "{event}");
    }
    Ok(())
}

fn check_wrong(rt: &impl Abort, alloc: Global, line: &str) -> Result<(), Fail> {
    let mut cells = line.split('|');
    let mut row = row_of(alloc, cells.next().ok_or("no event")?.trim())?;
    let index = cells.next().ok_or("no index")?.trim().parse::<usize>().ok();
    let byte = cells.next().ok_or("no byte")?.trim().parse::<u8>().ok();
    let wanted = cells.next().ok_or("no place")?.trim();
    let changed = row.get_mut(index.ok_or("no index")?).ok_or("a short row")?;
    *changed = byte.ok_or("no byte")?;
    let read = outcome(alloc, row.as_slice())?;
    assert_eq!(rt; read.as_slice(), wanted.as_bytes(), "{line}");
    Ok(())
}

#[test]
fn wrong_bytes_are_refused_at_their_field(rt: HostRuntime) -> Result<(), Fail> {
    for line in WRONG.trim().split('\n') {
        check_wrong(&rt, rt.alloc(), line)?;
    }
    Ok(())
}
