//! What a client tells after a journal.

use crate::spelling::keeper_of;
use rs_cache::{Client, Conflict};
use rs_path::{Bytes, Kind, Path};
use rs_talk::{Base, Change};
use std::alloc::Global;
use std::process::Abort;
use std::test::Fail;

// Behind `connect *:rw`: a journal, what is asked, and the answer.
//
// `view` is the body, `base` the tag and the body, `pending` the change, `kept` the tag of the folder, each `-` where there is
// none; `waits` are the paths of all changes that wait, `bases` those of the base below a folder, `ls` the children of a folder;
// `doubted` and `other` are yes or no; `conflicts` has each with its number, path, own change and what the server had.
const ANSWERS: &str = r#"
                                                   | view /a            | -
                                                   | base /a            | -
                                                   | kept /             | -
                                                   | waits              |
                                                   | bases /            |
                                                   | ls /               |
                                                   | ls /a/b/           |
                                                   | conflicts          |
edit /a put v                                      | view /a            | v
edit /a put v                                      | base /a            | -
edit /a put v                                      | pending /a         | put v
edit /a put v                                      | doubted /a put v   | no
edit /a put v; sent /a                             | doubted /a put v   | yes
edit /a put v; sent /a                             | other /a           | no
edit /a put v; sent /a; edit /a put w              | view /a            | w
edit /a put v; sent /a; edit /a put w              | doubted /a put v   | yes
edit /a put v; sent /a; edit /a put w              | doubted /a put w   | no
edit /a put v; sent /a; edit /a put w              | other /a           | yes
edit /a put v; sent /a; edit /a put w; sent /a     | doubted /a put v   | yes
edit /a put v; sent /a; edit /a put w; sent /a; accepted /a 3 | doubted /a put v | no
edit /a put v; sent /a; edit /a put w; sent /a; accepted /a 3 | base /a     | 3 w
edit /a put v; sent /a; edit /a put w; pulled /a 2 v | base /a          | 2 v
edit /a put v; sent /a; edit /a put w; pulled /a 2 v | view /a          | w
edit /a put v; sent /a; edit /a put w; pulled /a 2 v | other /a         | no
edit /a put v; absorbed /a 3                       | base /a            | 3 v
edit /a put v; absorbed /a 3                       | pending /a         | -
edit /a put v; sent /a; held /a 409                | pending /a         | put v
edit /a put v; sent /a; held /a 409                | view /a            | v
edit /a put v; edit /a remove                      | view /a            | -
edit /a put v; edit /a remove                      | pending /a         | remove
pulled /a 3 v                                      | view /a            | v
pulled /a 3 v; edit /a remove                      | view /a            | -
pulled /a 3 v; edit /a remove                      | base /a            | 3 v
pulled /a 3 v; edit /a put w                       | base /a            | 3 v
pulled /a 3 v; edit /a put w                       | view /a            | w
pulled /a 3 v; gone /a                             | base /a            | -
edit /a put v; conflict /a 5 w                     | base /a            | 5 w
edit /a put v; conflict /a 5 w                     | view /a            | w
edit /a put v; conflict /a 5 w                     | pending /a         | -
edit /a put v; conflict /a 5 w                     | conflicts          | 1 /a put v 5 w
pulled /a 5 w; edit /a put v; conflict /a -        | conflicts          | 1 /a put v -
pulled /a 5 w; edit /a put v; conflict /a -        | view /a            | -
pulled /a 5 w; edit /a remove; conflict /a 6 x     | conflicts          | 1 /a remove 6 x
edit /a put v; conflict /a 5 w; edit /b put x; conflict /b 6 y | conflicts | 1 /a put v 5 w 2 /b put x 6 y
edit /a put v; conflict /a 5 w; edit /b put x; conflict /b 6 y; resolved 1 drop | conflicts | 2 /b put x 6 y
edit /a put v; conflict /a 5 w; resolved 1 drop; edit /a put x; conflict /a 6 y | conflicts | 2 /a put x 6 y
edit /a put v; conflict /a 5 w; resolved 1 keep    | view /a            | v
edit /a put v; conflict /a 5 w; resolved 1 keep    | pending /a         | put v
edit /a put v; conflict /a 5 w; resolved 1 drop    | view /a            | w
pulled /a 5 w; edit /a remove; conflict /a 6 x; resolved 1 keep | pending /a | remove
settled / 3                                        | kept /             | 3
settled / 3; settled / 4                           | kept /             | 4
settled / 3; unsettled /                           | kept /             | -
settled / 3; settled /n/ 2; unsettled /            | kept /n/           | 2
settled / 3; edit /a put v                         | kept /             | 3
settled / 3; edit /a put v; sent /a                | kept /             | 3
settled / 3; edit /a put v; sent /a; accepted /a 4 | kept /             | -
settled / 3; edit /a put v; absorbed /a 4          | kept /             | -
settled / 3; edit /a put v; conflict /a 4 w        | kept /             | -
settled / 3; pulled /a 4 v                         | kept /             | -
settled / 3; settled /n/ 3; settled /m/ 3; pulled /n/a 4 v | kept /     | -
settled / 3; settled /n/ 3; settled /m/ 3; pulled /n/a 4 v | kept /n/   | -
settled / 3; settled /n/ 3; settled /m/ 3; pulled /n/a 4 v | kept /m/   | 3
pulled /n/a 4 v; settled / 4; settled /n/ 4; gone /n/a | kept /n/       | -
edit /b put v; edit /a put v; edit /a.b/c put v    | waits              | /a /a.b/c /b
edit /b put v; sent /b; accepted /b 3; edit /a put v | waits            | /a
pulled /a 3 v; pulled /n/b 4 v; pulled /n/a/x 5 v; pulled /o 6 v | bases /   | /a /n/a/x /n/b /o
pulled /a 3 v; pulled /n/b 4 v; pulled /n/a/x 5 v; pulled /o 6 v | bases /n/ | /n/a/x /n/b
pulled /a 3 v; pulled /n/b 4 v; pulled /n/a/x 5 v; pulled /o 6 v | bases /n/a/ | /n/a/x
pulled /a 3 v; edit /b put v                       | bases /            | /a
pulled /a 3 v; edit /n/b put v; edit /n/a/x put v; edit /o put v | ls /   | a n/ o
pulled /a 3 v; edit /n/b put v; edit /n/a/x put v; edit /o put v | ls /n/ | a/ b
pulled /a 3 v; edit /n/b put v; edit /n/a/x put v; edit /o put v | ls /n/a/ | x
pulled /a 3 v; edit /n/b put v; edit /n/a/x put v; edit /o put v | ls /m/ |
pulled /n/a 3 v; edit /n/a remove                  | ls /               |
pulled /n/a 3 v; edit /n/a remove; edit /n/b put w | ls /n/             | b
pulled /n/a 3 v; edit /n/a remove; edit /n put w   | ls /               | n
pulled /n/a 3 v; edit /n/a put w                   | ls /n/             | a
edit /a/x put v; edit /a.b put v; edit /a0 put v   | ls /               | a.b a/ a0
pulled /n/a/x 3 v; pulled /n/a/y 3 v; pulled /n/b/x 3 v; edit /n/b/y put v | ls /n/ | a/ b/
"#;

// ---- answers as texts

fn push_path(out: &mut Vec<u8>, path: &Path) -> Result<(), Fail> {
    path.write_plain(out)?;
    out.push(b' ')?;
    Ok(())
}

fn push_document(out: &mut Vec<u8>, base: Option<&Base>) -> Result<(), Fail> {
    match base {
        None => out.extend_from_slice(b"- ")?,
        Some(base) => {
            out.extend_from_slice(base.tag.as_slice())?;
            out.push(b' ')?;
            out.extend_from_slice(base.body.as_slice())?;
            out.push(b' ')?;
        }
    }
    Ok(())
}

fn push_change(out: &mut Vec<u8>, change: Option<&Change>) -> Result<(), Fail> {
    match change {
        None => out.extend_from_slice(b"- ")?,
        Some(Change::Remove) => out.extend_from_slice(b"remove ")?,
        Some(Change::Put { body, .. }) => {
            out.extend_from_slice(b"put ")?;
            out.extend_from_slice(body.as_slice())?;
            out.push(b' ')?;
        }
    }
    Ok(())
}

fn push_conflict(alloc: Global, out: &mut Vec<u8>, conflict: &Conflict) -> Result<(), Fail> {
    let number = format!(in alloc; "{} ", conflict.n)?;
    out.extend_from_slice(number.as_bytes())?;
    push_path(out, &conflict.path)?;
    push_change(out, Some(&conflict.local))?;
    push_document(out, conflict.remote.as_ref())
}

fn push_waits(out: &mut Vec<u8>, client: &Client) -> Result<(), Fail> {
    let mut next = client.next_pending(None);
    for _ in 0..20 {
        if let Some(path) = next {
            push_path(out, path)?;
            next = client.next_pending(Some(path));
        }
    }
    Ok(())
}

fn push_bases(out: &mut Vec<u8>, client: &Client, folder: &Path) -> Result<(), Fail> {
    if !folder.is_folder() {
        return Err("no folder".into());
    }
    let mut next = client.next_base(folder, None);
    for _ in 0..20 {
        if let Some(path) = next {
            push_path(out, path)?;
            next = client.next_base(folder, Some(path));
        }
    }
    Ok(())
}

fn push_list(out: &mut Vec<u8>, client: &Client, folder: &Path) -> Result<(), Fail> {
    if !folder.is_folder() {
        return Err("no folder".into());
    }
    for child in client.list(folder)?.iter() {
        out.extend_from_slice(child.name.as_slice())?;
        out.extend_from_slice(if child.folder { b"/ " } else { b" " })?;
    }
    Ok(())
}

fn change_of(alloc: Global, text: &str) -> Result<Change, Fail> {
    match text.split_once(' ') {
        None => Ok(Change::Remove),
        Some((_, body)) => Ok(Change::Put {
            kind: Kind::read(alloc, b"text/plain")?.ok_or("no content type")?,
            body: Bytes::of(body.as_bytes().to_vec(alloc)?),
        }),
    }
}

fn push_answer_at(
    alloc: Global,
    out: &mut Vec<u8>,
    client: &Client,
    name: &str,
    parts: &str,
) -> Result<(), Fail> {
    let (path, change) = parts.split_once(' ').unwrap_or((parts, ""));
    let path = Path::read_plain(alloc, path.as_bytes())?;
    match name {
        "view" => match client.view(&path) {
            Some((_, body)) => out.extend_from_slice(body.as_slice())?,
            None => out.push(b'-')?,
        },
        "base" => push_document(out, client.base(&path))?,
        "pending" => push_change(out, client.pending(&path))?,
        "kept" => match client.kept(&path) {
            Some(tag) => out.extend_from_slice(tag.as_slice())?,
            None => out.push(b'-')?,
        },
        "doubted" => push_word(out, client.doubted(&path, &change_of(alloc, change)?))?,
        "other" => push_word(out, client.doubted_other(&path))?,
        "bases" => push_bases(out, client, &path)?,
        "ls" => push_list(out, client, &path)?,
        _ => return Err("no question".into()),
    }
    Ok(())
}

fn push_word(out: &mut Vec<u8>, is_so: bool) -> Result<(), Fail> {
    out.extend_from_slice(if is_so { b"yes" } else { b"no" })?;
    Ok(())
}

fn answer_of(alloc: Global, client: &Client, question: &str) -> Result<Vec<u8>, Fail> {
    let mut out = Vec::new(alloc);
    match question.split_once(' ') {
        Some((name, parts)) => push_answer_at(alloc, &mut out, client, name, parts)?,
        None if question == "waits" => push_waits(&mut out, client)?,
        None => {
            for conflict in client.conflicts() {
                push_conflict(alloc, &mut out, conflict)?;
            }
        }
    }
    Ok(out)
}

fn check(rt: &impl Abort, alloc: Global, line: &str) -> Result<(), Fail> {
    let mut cells = line.split('|');
    let journal = cells.next().ok_or("no journal")?;
    let question = cells.next().ok_or("no question")?.trim();
    let wanted = cells.next().ok_or("no answer")?.trim();
    let whole = format!(in alloc; "connect *:rw; {journal}")?;
    let mut keeper = keeper_of(alloc, whole.as_str())?;
    let client = Client::open(alloc, &mut keeper)?;
    let told = answer_of(alloc, &client, question)?;
    assert_eq!(rt;
        told.as_slice().trim_ascii_end(),
        wanted.as_bytes(),
        "{line}"
    );
    Ok(())
}

#[test]
fn a_client_tells_what_its_journal_says(rt: HostRuntime) -> Result<(), Fail> {
    for line in ANSWERS.trim_matches('\n').split('\n') {
        check(&rt, rt.alloc(), line)?;
    }
    Ok(())
}
