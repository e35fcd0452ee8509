//! The commands on a journal, one after another over the same rows, byte for byte.

use crate::spelling::{keeper_of, row_of};
use rs_cli::{Status, read_command, run_here};
use rs_face::{Keeper, MemEntropy, MemSink, MemSource, NoFailKeeper};
use std::alloc::Global;
use std::process::Abort;
use std::test::Fail;

// Each line: the words, the source, the code, and what is printed or, behind a code other than 0, the note. `¶` ends a printed line,
// `~` stands for `http://localhost/storage/alice`.
const BEGUN: &str = r#"
get /a                        |    | 20 | not connected
ls /                          |    | 20 | not connected
status                        |    | 20 | not connected
conflicts                     |    | 20 | not connected
put /a text/plain             | v1 | 20 | not connected
rm /a                         |    | 20 | not connected
resolve 1 keep                |    | 20 | not connected
connect ~ T *:rw              |    | 0  | connected¶
connect ~ T *:rw              |    | 19 | connected
put /a text/plain             | v1 | 0  | put¶
get /a                        |    | 0  | v1
ls /                          |    | 0  | a¶
put /a/b text/plain           | x  | 9  | clash /a
rm /b                         |    | 8  | not there
get /b                        |    | 8  | not there
status                        |    | 0  | root ~¶documents 0¶pending 1¶held 0¶conflicts 0¶
rm /a                         |    | 0  | removed¶
get /a                        |    | 8  | not there
ls /                          |    | 0  |
put /n/b%20c text/plain       | y  | 0  | put¶
put /n/%C3%A9/x text/html     |    | 0  | put¶
put /n/a text/plain           | z  | 0  | put¶
put /n text/plain             | x  | 9  | clash /n/a
ls /n/                        |    | 0  | a¶b%20c¶%C3%A9/¶
ls /m/                        |    | 0  |
get /n/%C3%A9/x               |    | 0  |
conflicts                     |    | 0  |
resolve 1 drop                |    | 16 | no conflict 1
status                        |    | 0  | root ~¶documents 0¶pending 4¶held 0¶conflicts 0¶
"#;

// Over a journal with two conflicts and a change that is held.
const CONFLICTS: &str = r#"
status                        |    | 0  | root ~¶documents 2¶pending 1¶held 1¶conflicts 2¶
conflicts                     |    | 0  | 1 /a put text/plain 1 remote 5¶2 /b%20c remove remote 7¶
get /a                        |    | 0  | w
resolve 3 keep                |    | 16 | no conflict 3
resolve 1 keep                |    | 0  | resolved¶
get /a                        |    | 0  | v
resolve 1 keep                |    | 16 | no conflict 1
conflicts                     |    | 0  | 2 /b%20c remove remote 7¶
resolve 2 drop                |    | 0  | resolved¶
conflicts                     |    | 0  |
get /b%20c                    |    | 0  | y
status                        |    | 0  | root ~¶documents 2¶pending 2¶held 1¶conflicts 0¶
"#;

const WITH_CONFLICTS: &str =
    "connect *:rw; edit /a put v; conflict /a 5 w; pulled /b+c 6 x; edit /b+c remove; conflict /b+c 7 y; edit /h put q; sent /h; held /h 507";

const SCOPED: &str = r#"
put /a text/plain             | v  | 13 | out of scope
put /notes/a text/plain       | v  | 0  | put¶
rm /a                         |    | 13 | out of scope
rm /notes/b                   |    | 8  | not there
"#;

// Words that are in no form.
const WRONG: &str = r#"
get                           |    | 2  | word 1
get a                         |    | 2  | word 1
get /a/                       |    | 2  | word 1
get /a b                      |    | 2  | word 2
ls /a                         |    | 2  | word 1
put /a                        |    | 2  | word 2
put /a plain text             |    | 2  | word 3
rm /                          |    | 2  | word 1
status now                    |    | 2  | word 1
resolve one keep              |    | 2  | word 1
resolve 1 hold                |    | 2  | word 2
resolve 1                     |    | 2  | word 2
connect                       |    | 2  | word 1
connect https://localhost/storage/alice T *:rw | | 2 | https is not served
connect https://localhost     |    | 2  | https is not served
connect ftp://localhost/ T *:rw |  | 2  | word 1
connect ~ T                   |    | 2  | word 3
connect ~ T notes             |    | 2  | word 3
pear                          |    | 2  | word 0
"#;

fn words_of(alloc: Global, line: &str) -> Result<Vec<String>, Fail> {
    let mut words = Vec::new(alloc);
    for word in line.split(' ') {
        let word = if word == "~" {
            "http://localhost/storage/alice"
        } else {
            word
        };
        words.push(String::from_str(alloc, word)?)?;
    }
    Ok(words)
}

fn push_told(out: &mut Vec<u8>, cell: &str) -> Result<(), Fail> {
    for (at, line) in cell.split('¶').enumerate() {
        if at > 0 {
            out.push(b'\n')?;
        }
        for (place, part) in line.split('~').enumerate() {
            if place > 0 {
                out.extend_from_slice(b"http://localhost/storage/alice")?;
            }
            out.extend_from_slice(part.as_bytes())?;
        }
    }
    Ok(())
}

fn run<K: Keeper>(
    alloc: Global,
    line: &str,
    input: &str,
    sink: &mut MemSink,
    keeper: &mut K,
) -> Result<Status, Fail> {
    let words = words_of(alloc, line)?;
    let mut source = MemSource::new(input.as_bytes().to_vec(alloc)?, Vec::new(alloc));
    let mut entropy = MemEntropy::new(Vec::new(alloc), Vec::new(alloc));
    let read = read_command(alloc, words.as_slice());
    Ok(run_here(alloc, read, &mut source, sink, keeper, &mut entropy))
}

fn check<K: Keeper>(rt: &impl Abort, alloc: Global, keeper: &mut K, row: &str) -> Result<(), Fail> {
    let mut cells = row.split('|');
    let line = cells.next().ok_or("no words")?.trim();
    let input = cells.next().ok_or("no source")?.trim();
    let code = cells.next().ok_or("no code")?.trim();
    let told = cells.next().ok_or("no text")?.trim();
    let mut sink = MemSink::new(Vec::new(alloc), Vec::new(alloc));
    let status = run(alloc, line, input, &mut sink, keeper)?;
    let ended = format!(in alloc; "{}", status.code)?;
    assert_eq!(rt; ended.as_str(), code, "{row}");
    let mut wanted = Vec::new(alloc);
    push_told(&mut wanted, told)?;
    if status.code == 0 {
        assert_eq!(rt; sink.written(), wanted.as_slice(), "{row}");
    } else {
        let mut note = Vec::new(alloc);
        status.note.write(&mut note)?;
        assert_eq!(rt; note.as_slice(), wanted.as_slice(), "{row}");
        assert_eq!(rt; sink.written(), b"".as_slice(), "{row}");
    }
    Ok(())
}

fn check_all(
    rt: &impl Abort,
    alloc: Global,
    journal: &str,
    table: &'static str,
) -> Result<NoFailKeeper, Fail> {
    let mut keeper = keeper_of(alloc, journal)?;
    for row in table.trim().split('\n') {
        check(rt, alloc, &mut keeper, row)?;
    }
    Ok(keeper)
}

#[test]
fn a_journal_from_its_first_row(rt: HostRuntime) -> Result<(), Fail> {
    let alloc = rt.alloc();
    let keeper = check_all(&rt, alloc, "", BEGUN)?;
    assert_eq!(rt; keeper.rows().len(), 6, "rows");
    let second = row_of(alloc, "edit /a put v1")?;
    let kept = keeper.rows().get(1).ok_or("no second row")?;
    assert_eq!(rt; kept.as_slice(), second.as_slice());
    Ok(())
}

#[test]
fn conflicts_are_shown_and_resolved(rt: HostRuntime) -> Result<(), Fail> {
    let keeper = check_all(&rt, rt.alloc(), WITH_CONFLICTS, CONFLICTS)?;
    assert_eq!(rt; keeper.rows().len(), 11);
    Ok(())
}

#[test]
fn edits_stay_in_scope(rt: HostRuntime) -> Result<(), Fail> {
    check_all(&rt, rt.alloc(), "connect notes:rw", SCOPED)?;
    Ok(())
}

#[test]
fn words_in_no_form_are_told(rt: HostRuntime) -> Result<(), Fail> {
    let keeper = check_all(&rt, rt.alloc(), "", WRONG)?;
    assert_eq!(rt; keeper.rows().len(), 0);
    Ok(())
}
