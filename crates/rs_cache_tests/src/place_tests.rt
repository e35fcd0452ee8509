//! Each event at places where it may stand, and at places where it may not.

use crate::spelling::keeper_of;
use rs_cache::{Client, OpenFault};
use std::alloc::Global;
use std::process::Abort;
use std::test::Fail;

// What the journal comes to: the documents of the base, the changes that wait, those of them that are held, and the conflicts that
// aren't resolved; or the index of the first event that may not stand where it does.
const CONNECTED: &str = r#"
                                                  | 0 0 0 0
connect *:rw                                      | 0 0 0 0
connect *:rw; connect *:rw                        | unlawful 1
edit /a put v                                     | unlawful 0
settled / 3                                       | unlawful 0
"#;

// Behind `connect *:rw`, whose index is 0.
const ANYWHERE: &str = r#"
edit /a put v                                     | 0 1 0 0
edit /a put v; edit /a put w                      | 0 1 0 0
edit /a put v; edit /b put v                      | 0 2 0 0
edit /a put v; edit /a/b put w                    | unlawful 2
edit /a/b put v; edit /a put w                    | unlawful 2
edit /a/b put v; edit /a/c put w; edit /b put x   | 0 3 0 0
pulled /a 3 v; edit /a/b put w                    | unlawful 2
pulled /a/b 3 v; edit /a put w                    | unlawful 2
edit /a remove                                    | unlawful 1
edit /a put v; edit /a remove                     | 0 1 0 0
edit /a put v; edit /a remove; edit /a remove     | unlawful 3
edit /a put v; edit /a remove; edit /a/b put w    | 0 2 0 0
pulled /a 3 v; edit /a remove; edit /a/b put w    | 1 2 0 0
edit /a/ put v                                    | row
sent /a                                           | unlawful 1
pulled /a 3 v; sent /a                            | unlawful 2
edit /a put v; sent /a                            | 0 1 0 0
edit /a put v; sent /a; sent /a                   | 0 1 0 0
edit /a put v; sent /b                            | unlawful 2
sent /a/                                          | row
accepted /a 3                                     | unlawful 1
edit /a put v; accepted /a 3                      | unlawful 2
edit /a put v; sent /a; accepted /a 3             | 1 0 0 0
edit /a put v; sent /a; accepted /a -             | unlawful 3
edit /a put v; sent /a; edit /a put w; accepted /a 3 | unlawful 4
edit /a put v; sent /a; edit /a put w; edit /a put v; accepted /a 3 | 1 0 0 0
edit /a put v; sent /a; edit /a remove; accepted /a - | unlawful 4
pulled /a 3 v; edit /a remove; sent /a; accepted /a - | 0 0 0 0
pulled /a 3 v; edit /a remove; sent /a; accepted /a 4 | unlawful 4
absorbed /a 3                                     | unlawful 1
edit /a put v; absorbed /a 3                      | 1 0 0 0
edit /a put v; absorbed /a -                      | unlawful 2
pulled /a 3 v; edit /a remove; absorbed /a -      | 0 0 0 0
pulled /a 3 v; edit /a remove; absorbed /a 4      | unlawful 3
pulled /a 3 v; absorbed /a 4                      | unlawful 2
held /a 409                                       | unlawful 1
edit /a put v; held /a 409                        | unlawful 2
edit /a put v; sent /a; held /a 403               | 0 1 1 0
edit /a put v; sent /a; held /a 409               | 0 1 1 0
edit /a put v; sent /a; held /a 413               | 0 1 1 0
edit /a put v; sent /a; held /a 414               | 0 1 1 0
edit /a put v; sent /a; held /a 507               | 0 1 1 0
edit /a put v; sent /a; held /a 400               | unlawful 3
edit /a put v; sent /a; held /a 404               | unlawful 3
edit /a put v; sent /a; held /a 412               | unlawful 3
edit /a put v; sent /a; held /a 500               | unlawful 3
edit /a put v; sent /a; held /a 0                 | unlawful 3
edit /a put v; sent /a; held /a 409; held /a 507  | 0 1 1 0
edit /a put v; sent /a; held /a 409; edit /a put v | 0 1 0 0
edit /a put v; sent /a; edit /a put w; held /a 409 | unlawful 4
conflict /a 5 w                                   | unlawful 1
conflict /a -                                     | unlawful 1
edit /a put v; conflict /a 5 w                    | 1 0 0 1
edit /a put v; conflict /a 5 v                    | unlawful 2
edit /a put v; conflict /a -                      | unlawful 2
pulled /a 5 w; edit /a put v; conflict /a 5 x     | unlawful 3
pulled /a 5 w; edit /a put v; conflict /a 6 x     | 1 0 0 1
pulled /a 5 w; edit /a put v; conflict /a -       | 0 0 0 1
pulled /a 5 w; edit /a remove; conflict /a 6 x    | 1 0 0 1
pulled /a 5 w; edit /a remove; conflict /a -      | unlawful 3
pulled /a 5 w; conflict /a 6 x                    | unlawful 2
pulled /a 3 v                                     | 1 0 0 0
pulled /a - v                                     | unlawful 1
pulled /a 3 v; pulled /a 3 w                      | unlawful 2
pulled /a 3 v; pulled /a 4 v                      | 1 0 0 0
pulled /a/ 3 v                                    | row
edit /a put v; pulled /a 3 w                      | unlawful 2
edit /a put v; sent /a; pulled /a 3 v             | unlawful 3
edit /a put v; sent /a; edit /a put w; pulled /a 3 v | 1 1 0 0
edit /a put v; sent /a; edit /a put w; pulled /a 3 u | unlawful 4
edit /a put v; sent /a; edit /a remove; pulled /a 3 v | 1 1 0 0
gone /a                                           | unlawful 1
pulled /a 3 v; gone /a                            | 0 0 0 0
pulled /a 3 v; gone /a; gone /a                   | unlawful 3
pulled /a 3 v; edit /a put w; gone /a             | unlawful 3
pulled /a 3 v; edit /a remove; sent /a; gone /a   | unlawful 4
pulled /a 3 v; edit /a remove; sent /a; edit /a put w; gone /a | 0 1 0 0
gone /a/                                          | row
settled / 3                                       | 0 0 0 0
settled /a/ 3                                     | 0 0 0 0
settled / -                                       | unlawful 1
settled /a 3                                      | unlawful 1
unsettled /                                       | 0 0 0 0
unsettled /a                                      | unlawful 1
resolved 1 keep                                   | unlawful 1
resolved 0 drop                                   | unlawful 1
edit /a put v; conflict /a 5 w; resolved 1 keep   | 1 1 0 0
edit /a put v; conflict /a 5 w; resolved 1 drop   | 1 0 0 0
edit /a put v; conflict /a 5 w; resolved 2 drop   | unlawful 3
edit /a put v; conflict /a 5 w; resolved 1 drop; resolved 1 keep | unlawful 4
edit /a put v; conflict /a 5 w; gone /a; edit /a/b put x; resolved 1 keep | unlawful 5
edit /a put v; conflict /a 5 w; gone /a; edit /a/b put x; resolved 1 drop | 0 1 0 0
pulled /a 5 w; edit /a remove; conflict /a 6 x; resolved 1 keep | 1 1 0 0
pulled /a 5 w; edit /a remove; conflict /a 6 x; gone /a; resolved 1 keep | 0 0 0 0
edit /a put v; conflict /a 5 w; edit /a put x; conflict /a 6 y; resolved 1 keep; resolved 2 drop | 1 1 0 0
"#;

// Behind `connect notes:rw todo:r`.
const IN_SCOPE: &str = r#"
edit /notes/a put v                               | 0 1 0 0
edit /todo/a put v                                | 0 1 0 0
edit /notes put v                                 | unlawful 1
edit /a put v                                     | unlawful 1
edit /notes2/a put v                              | unlawful 1
edit /public/notes/a put v                        | 0 1 0 0
pulled /notes/a 3 v                               | 1 0 0 0
pulled /other/a 3 v                               | unlawful 1
settled /notes/ 3                                 | 0 0 0 0
settled /notes/a/b/ 3                             | 0 0 0 0
settled / 3                                       | unlawful 1
settled /public/notes/ 3                          | 0 0 0 0
settled /public/ 3                                | unlawful 1
unsettled /todo/                                  | 0 0 0 0
unsettled /other/                                 | unlawful 1
"#;

fn outcome(alloc: Global, journal: &str) -> Result<String, Fail> {
    let mut keeper = keeper_of(alloc, journal)?;
    Ok(match Client::open(alloc, &mut keeper) {
        Ok(client) => {
            let counts = client.summary();
            format!(in alloc;
                "{} {} {} {}",
                counts.documents, counts.pending, counts.held, counts.conflicts
            )?
        }
        Err(OpenFault::Unlawful { index }) => format!(in alloc; "unlawful {index}")?,
        Err(OpenFault::BadRow { .. }) => format!(in alloc; "row")?,
        Err(_) => format!(in alloc; "another fault")?,
    })
}

// Each journal of the table, behind this start, comes to what its row says.
fn check(rt: &impl Abort, alloc: Global, start: &str, table: &'static str) -> Result<(), Fail> {
    for line in table.trim_matches('\n').split('\n') {
        let (journal, wanted) = line.split_once('|').ok_or("no outcome")?;
        let whole = format!(in alloc; "{start}{journal}")?;
        let came = outcome(alloc, whole.as_str())?;
        assert_eq!(rt; came.as_str(), wanted.trim(), "{journal}");
    }
    Ok(())
}

#[test]
fn a_journal_begins_with_connect(rt: HostRuntime) -> Result<(), Fail> {
    check(&rt, rt.alloc(), "", CONNECTED)
}

#[test]
fn events_stand_where_they_may(rt: HostRuntime) -> Result<(), Fail> {
    check(&rt, rt.alloc(), "connect *:rw; ", ANYWHERE)
}

#[test]
fn events_stand_in_scope(rt: HostRuntime) -> Result<(), Fail> {
    check(&rt, rt.alloc(), "connect notes:rw todo:r; ", IN_SCOPE)
}
