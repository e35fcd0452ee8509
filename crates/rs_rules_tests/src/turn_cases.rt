//! The tables of requests and replies: a table is one run, over the token's grant as record 1.
//!
//! A row is `method | path | who | If-Match | If-None-Match | body | reply`; its content type is `text/plain`.

/// A first document, its listing, and the same again.
pub const FIRST: &str = r#"
GET    | /          | owner |     |   |       | Folder 0
PUT    | /notes/x   | owner |     | * | hello | Stored 2 created
GET    | /notes/x   | owner |     |   |       | Found 2 text/plain hello
HEAD   | /notes/x   | owner |     |   |       | Found 2 text/plain hello
PUT    | /notes/x   | owner |     | * | hello | Unmet
GET    | /notes/    | owner |     |   |       | Folder 2, x 2 text/plain 5
PUT    | /notes/x   | owner |     |   | again | Stored 3 replaced
GET    | /          | owner |     |   |       | Folder 3, notes/ 3
"#;

/// Emptied folders vanish, and `/` keeps its version.
pub const EMPTIED: &str = r#"
PUT    | /a/b/c/d   | owner |     |   | 1     | Stored 2 created
DELETE | /a/b/c/d   | owner |     |   |       | Removed 2
GET    | /a/b/      | owner |     |   |       | Folder 0
GET    | /          | owner |     |   |       | Folder 3
GET    | /a/b/c/d   | owner |     |   |       | Absent
"#;

/// Documents and folders in each other's way.
pub const CLASHES: &str = r#"
PUT    | /notes/a   | owner |     |   | 1     | Stored 2 created
PUT    | /notes/a/b | owner | "9" |   | 1     | Clash /notes/a
PUT    | /notes     | owner |     |   | 1     | Clash /notes/
GET    | /notes/a/  | owner |     |   |       | Folder 0
PUT    | /notes/    | owner |     |   | 1     | FolderWrite
"#;

/// What is not there, and what is not met.
pub const ABSENT: &str = r#"
DELETE | /x         | owner | "9" |   |       | Absent
PUT    | /x         | owner | "9" |   | 1     | Unmet
PUT    | /x         | owner | *   |   | 1     | Unmet
"#;

/// Entity tags, strong and weak.
pub const TAGS: &str = r#"
PUT    | /x | owner |            |            | 1 | Stored 2 created
GET    | /x | owner |            | "1", W/"2" |   | Same 2
GET    | /x | owner |            | *          |   | Same 2
GET    | /x | owner |            | "1"        |   | Found 2 text/plain 1
GET    | /x | owner | "1"        |            |   | Unmet
PUT    | /x | owner | W/"2"      |            | 2 | Unmet
PUT    | /x | owner | "1", "2"   |            | 2 | Stored 3 replaced
PUT    | /x | owner |            | "3"        | 3 | Unmet
"#;

/// A quota of 10 bytes.
pub const QUOTA: &str = r#"
PUT    | /x         | owner |     |   | 0123456789  | Stored 2 created
PUT    | /y         | owner |     |   | 0           | OverQuota 10
PUT    | /x         | owner |     |   | 0123456789a | OverQuota 10
PUT    | /x         | owner |     |   | 9876543210  | Stored 3 replaced
DELETE | /x         | owner |     |   |             | Removed 3
"#;

/// The token reaches `notes:r` alone.
pub const NARROW: &str = r#"
GET    | /notes/        | owner |  |  |   | Folder 0
GET    | /notes2/       | owner |  |  |   | Forbidden
PUT    | /notes/x       | owner |  |  | 1 | Forbidden
GET    | /public/notes/ | owner |  |  |   | Folder 0
GET    | /public/       | owner |  |  |   | Forbidden
GET    | /              | owner |  |  |   | Forbidden
GET    | /notes         | owner |  |  |   | Forbidden
"#;

/// Public documents are read without a token, public folders are not.
pub const PUBLIC: &str = r#"
PUT    | /public/notes/x | owner    |  |  | 1 | Stored 2 created
GET    | /public/notes/x | nobody   |  |  |   | Found 2 text/plain 1
GET    | /public/notes/  | nobody   |  |  |   | NoToken
DELETE | /public/notes/x | nobody   |  |  |   | NoToken
GET    | /               | strange  |  |  |   | BadToken
GET    | /               | stranger |  |  |   | BadToken
"#;

/// The second append fails, the first of them the grant's.
pub const SECOND_FAILS: &str = r#"
PUT    | /x | owner |  |  | 1 | StoreFailed
GET    | /  | owner |  |  |   | Folder 0
PUT    | /x | owner |  |  | 1 | Stored 2 created
DELETE | /x | owner |  |  |   | Removed 2
"#;

/// The third append fails.
pub const THIRD_FAILS: &str = r#"
PUT    | /x | owner |  |  | 1 | Stored 2 created
PUT    | /x | owner |  |  | 2 | StoreFailed
GET    | /x | owner |  |  |   | Found 2 text/plain 1
PUT    | /x | owner |  |  | 2 | Stored 3 replaced
GET    | /  | owner |  |  |   | Folder 3, x 3 text/plain 1
"#;

/// The fourth append fails.
pub const FOURTH_FAILS: &str = r#"
PUT    | /x | owner |  |  | 1 | Stored 2 created
PUT    | /x | owner |  |  | 2 | Stored 3 replaced
DELETE | /x | owner |  |  |   | StoreFailed
DELETE | /x | owner |  |  |   | Removed 3
GET    | /  | owner |  |  |   | Folder 4
"#;
