//! The tables of requests and replies: those of a full history are one run, and so are those of a full folder.
//!
//! A row is `method | path | who | If-Match | If-None-Match | body | reply`; its content type is `text/plain`. The path of
//! a GRANT are the scopes.

/// The last record is a Put, and then there is room for none. The quota is six bytes.
pub const LAST_RECORD: &str = r#"
PUT    | /notes/x | owner | | | hallo   | Stored 4294967295 replaced
PUT    | /notes/x | owner | | | hello   | RecordsFull
PUT    | /notes/x | owner | | | hello!! | RecordsFull
PUT    | /notes/y | owner | | |         | RecordsFull
DELETE | /notes/x | owner | | |         | RecordsFull
"#;

/// Steps that come before the room for a record.
pub const BEFORE_THE_RECORDS: &str = r#"
DELETE | /notes/y   | owner    | | |       | Absent
PUT    | /other/x   | owner    | | | hello | Forbidden
PUT    | /notes/x   | stranger | | | hello | BadToken
PUT    | /notes/x/y | owner    | | | hello | Clash /notes/x
"#;

/// Conditions on the version that the last record has given.
pub const CONDITIONS: &str = r#"
PUT    | /notes/x | owner | "2"          |              | hello | Unmet
DELETE | /notes/x | owner | "4294967295" |              |       | RecordsFull
DELETE | /notes/x | owner |              | "4294967295" |       | Unmet
"#;

/// What is read: the document is as it was, and so is its folder.
pub const READINGS: &str = r#"
GET | /notes/x | owner | | "4294967295" | | Same 4294967295
GET | /notes/  | owner | |              | | Folder 4294967295, x 4294967295 text/plain 5
"#;

/// Nothing is granted, and nothing taken away.
pub const NO_GRANT: &str = r#"
GRANT  | notes:rw | owner    | | | | RecordsFull
GRANT  | notes:rw | stranger | | | | RecordsFull
REVOKE |          | owner    | | | | RecordsFull
REVOKE |          | stranger | | | | NotGranted
"#;

/// The first record after the 50,000 documents is the token's grant.
pub const GRANT: &str = r#"
GRANT | *:rw | owner | | | | Granted
"#;

/// There is room for no document and for no folder. The quota leaves room for one byte more.
pub const NO_ITEM: &str = r#"
PUT | /new   | owner | | | 1  | FolderFull /
PUT | /new   | owner | | |    | FolderFull /
PUT | /new/x | owner | | | 1  | FolderFull /
PUT | /new   | owner | | | 11 | OverQuota 50000
"#;

/// Steps that come before the room for an item.
pub const BEFORE_THE_ITEMS: &str = r#"
PUT | /new | owner    | * | | 1 | Unmet
PUT | /0/x | owner    |   | | 1 | Clash /0
PUT | /new | stranger |   | | 1 | BadToken
"#;

/// A document is replaced, and where one was removed a folder has room, with all that is below it.
pub const ROOM_AGAIN: &str = r#"
PUT    | /49999 | owner | | | 11 | Stored 50002 replaced
DELETE | /0     | owner | | |    | Removed 1
PUT    | /new/x | owner | | |    | Stored 50004 created
PUT    | /new/y | owner | | |    | Stored 50005 created
PUT    | /0     | owner | | |    | FolderFull /
"#;
