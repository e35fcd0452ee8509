//! The table of cases over the fifteen steps: what each case shows, the request, and the reply that the rules give.
//!
//! A row is `name | method | path | who | If-Match | If-None-Match | body | reply`; of grants it is `name | what | who | reply`.
//! The replies were written down from the rules. `StepTable` of the proofs has the same cases under the same names.

/// 1, alone and before 4 to 7 and 9. It and 2 can't both apply, since a request brings one token at most; nor it
/// and 3.
pub const NO_TOKEN: &str = r#"
get_without_token               | GET    | /x          | nobody |     |     |       | NoToken
head_of_root_without_token      | HEAD   | /           | nobody |     |     |       | NoToken
put_without_token               | PUT    | /y          | nobody |     |     | hello | NoToken
delete_without_token            | DELETE | /x          | nobody |     |     |       | NoToken
public_folder_needs_a_token     | GET    | /public/n/  | nobody |     |     |       | NoToken
name_public_alone_needs_a_token | GET    | /public     | nobody |     |     |       | NoToken
public_put_needs_a_token        | PUT    | /public/n/d | nobody |     |     | hello | NoToken
public_delete_needs_a_token     | DELETE | /public/n/d | nobody |     |     |       | NoToken
no_token_before_folder_write    | PUT    | /a/         | nobody |     |     | hello | NoToken
no_token_before_clash           | PUT    | /a          | nobody |     |     | hello | NoToken
no_token_before_absent          | GET    | /y          | nobody |     |     |       | NoToken
no_token_before_unmet           | GET    | /x          | nobody | "9" |     |       | NoToken
no_token_before_same            | GET    | /x          | nobody |     | "4" |       | NoToken
"#;

/// Free reads go past 1 to 3, whatever they bring, and meet 6, 7, 9 and 13.
pub const FREE_READS: &str = r#"
free_read_without_token         | GET  | /public/n/d | nobody   |     |     |  | Found 5 text/plain hello
free_read_with_a_strange_token  | HEAD | /public/n/d | strange  |     |     |  | Found 5 text/plain hello
free_read_with_an_unknown_token | GET  | /public/n/d | stranger |     |     |  | Found 5 text/plain hello
free_read_with_a_revoked_token  | GET  | /public/n/d | former   |     |     |  | Found 5 text/plain hello
free_read_beyond_the_scopes     | GET  | /public/n/d | reader   |     |     |  | Found 5 text/plain hello
free_read_of_what_is_absent     | GET  | /public/n/e | nobody   |     |     |  | Absent
free_read_unmet                 | GET  | /public/n/d | strange  | "4" |     |  | Unmet
free_read_same                  | GET  | /public/n/d | nobody   |     | "5" |  | Same 5
"#;

/// 2, alone and before 4 to 7 and 9. It and 3 can't both apply: a token that isn't granted has no scopes.
pub const BAD_TOKEN: &str = r#"
strange_token                 | GET    | /x   | strange  |     |   |       | BadToken
token_never_granted           | GET    | /x   | stranger |     |   |       | BadToken
token_revoked                 | GET    | /x   | former   |     |   |       | BadToken
bad_token_before_folder_write | PUT    | /a/  | strange  |     |   | hello | BadToken
bad_token_before_clash        | PUT    | /x/y | stranger |     |   | hello | BadToken
bad_token_before_absent       | DELETE | /y   | former   |     |   |       | BadToken
bad_token_before_unmet        | PUT    | /x   | strange  | "9" |   | hello | BadToken
bad_token_before_same         | GET    | /x   | former   |     | * |       | BadToken
"#;

/// 3, alone and before 4 to 7 and 9; and what the scopes do reach.
pub const FORBIDDEN: &str = r#"
scopes_of_another_module      | GET | /x             | reader |     |     |       | Forbidden
scopes_that_only_read         | PUT | /notes/q       | reader |     |     | hello | Forbidden
scopes_below_root             | GET | /              | reader |     |     |       | Forbidden
scopes_below_public           | GET | /public/       | reader |     |     |       | Forbidden
scopes_of_whole_names         | GET | /notes2/       | reader |     |     |       | Forbidden
name_of_the_module_alone      | GET | /notes         | reader |     |     |       | Forbidden
folder_of_the_module          | GET | /notes/        | reader |     |     |       | Folder 0
public_folder_of_the_module   | GET | /public/notes/ | reader |     |     |       | Folder 0
within_the_module             | GET | /notes/q       | reader |     |     |       | Absent
forbidden_before_folder_write | PUT | /notes/        | reader |     |     | hello | Forbidden
forbidden_before_clash        | PUT | /a             | reader |     |     | hello | Forbidden
forbidden_before_absent       | GET | /y             | reader |     |     |       | Forbidden
forbidden_before_unmet        | GET | /x             | reader | "9" |     |       | Forbidden
forbidden_before_same         | GET | /x             | reader |     | "4" |       | Forbidden
"#;

/// 4, alone and before 5, 7 and 8. It and 6 can't both apply: 6 is of documents.
pub const FOLDER_WRITE: &str = r#"
put_of_a_folder                           | PUT    | /z/   | owner |     |   | hello | FolderWrite
put_of_root                               | PUT    | /     | owner |     |   | hello | FolderWrite
delete_of_a_folder                        | DELETE | /a/   | owner |     |   |       | FolderWrite
delete_of_an_absent_folder                | DELETE | /z/   | owner |     |   |       | FolderWrite
folder_write_before_clash_with_a_folder   | PUT    | /a/   | owner |     |   | hello | FolderWrite
folder_write_before_clash_with_a_document | PUT    | /x/y/ | owner |     |   | hello | FolderWrite
folder_write_before_unmet                 | PUT    | /a/   | owner | "9" |   | hello | FolderWrite
folder_write_before_unmet_by_none         | DELETE | /a/   | owner |     | * |       | FolderWrite
"#;

/// 5, alone and before 7 and 11. It and 6 can't both apply, since 5 is of a Put alone; nor it and 8: where it
/// applies no document is there.
pub const CLASH: &str = r#"
clash_with_a_document             | PUT | /x/y      | owner |     |   |       | Clash /x
clash_with_a_document_far_above   | PUT | /x/y/z    | owner |     |   |       | Clash /x
clash_with_a_document_in_a_folder | PUT | /a/b/c    | owner |     |   |       | Clash /a/b
clash_with_a_folder               | PUT | /a        | owner |     |   |       | Clash /a/
clash_with_a_folder_in_a_folder   | PUT | /public/n | owner |     |   |       | Clash /public/n/
no_clash_with_an_emptied_folder   | PUT | /gone     | owner |     |   |       | Stored 11 created
no_clash_with_a_removed_document  | PUT | /gone/g/h | owner |     |   |       | Stored 11 created
clash_before_unmet                | PUT | /x/y      | owner | "9" |   |       | Clash /x
clash_before_unmet_by_any         | PUT | /a        | owner | *   | * |       | Clash /a/
clash_before_over_quota           | PUT | /x/y      | owner |     |   | hello | Clash /x
"#;

/// 6, alone and before 7. It and 8 or 9 can't both apply: If-None-Match names only what is there.
pub const ABSENT: &str = r#"
get_of_an_absent_document           | GET    | /y      | owner |     |   |  | Absent
head_of_an_absent_document          | HEAD   | /y      | owner |     |   |  | Absent
delete_of_an_absent_document        | DELETE | /y      | owner |     |   |  | Absent
document_with_the_names_of_a_folder | GET    | /a      | owner |     |   |  | Absent
document_below_a_document           | GET    | /x/y    | owner |     |   |  | Absent
document_that_was_removed           | GET    | /gone/g | owner |     |   |  | Absent
second_delete                       | DELETE | /gone/g | owner |     |   |  | Absent
absent_before_unmet                 | DELETE | /y      | owner | "9" |   |  | Absent
absent_before_unmet_by_any          | GET    | /y      | owner | *   | * |  | Absent
"#;

/// 7, alone and before 8, 9 and 11. It and 8 have one reply, so their order shows nowhere.
pub const UNMET: &str = r#"
match_of_another_version     | PUT    | /x     | owner | "9"      |     | 0123456789  | Unmet
match_by_a_weak_tag          | PUT    | /x     | owner | W/"4"    |     | 0123456789  | Unmet
match_of_any_where_none_is   | PUT    | /y     | owner | *        |     |             | Unmet
match_of_no_tag              | DELETE | /x     | owner | ""       |     |             | Unmet
match_of_a_folder            | GET    | /a/    | owner | "9"      |     |             | Unmet
match_of_one_in_a_list       | PUT    | /x     | owner | "9", "4" |     | 0123456789  | Stored 11 replaced
match_of_any                 | PUT    | /x     | owner | *        |     | 0123456789  | Stored 11 replaced
match_of_version_of_a_folder | GET    | /gone/ | owner | "0"      |     |             | Folder 0
unmet_by_both                | PUT    | /x     | owner | "9"      | "4" | 0123456789  | Unmet
unmet_before_same            | GET    | /x     | owner | "9"      | *   |             | Unmet
unmet_before_over_quota      | PUT    | /x     | owner | "9"      |     | 0123456789a | Unmet
"#;

/// 8, alone and before 11. It and 9 can't both apply: 8 is of writing, 9 of reading.
pub const UNMET_BY_NONE: &str = r#"
none_match_of_any               | PUT    | /x | owner |     | *     | 0123456789  | Unmet
none_match_by_a_weak_tag        | PUT    | /x | owner |     | W/"4" | 0123456789  | Unmet
none_match_of_a_delete          | DELETE | /x | owner |     | "4"   |             | Unmet
none_match_behind_a_match       | PUT    | /x | owner | "4" | "4"   | 0123456789  | Unmet
none_match_of_another_version   | PUT    | /x | owner |     | "9"   | 0123456789  | Stored 11 replaced
none_match_of_any_where_none_is | PUT    | /y | owner |     | *     |             | Stored 11 created
unmet_by_none_before_over_quota | PUT    | /x | owner |     | *     | 0123456789a | Unmet
"#;

/// 9, before 13, and 13 where 9 doesn't apply. 9 and 10 can't both apply: 10 is of writing.
pub const SAME: &str = r#"
same_document_before_found     | GET  | /x   | owner |     | "4"        |  | Same 4
same_by_a_weak_tag             | GET  | /a/  | owner |     | W/"6"      |  | Same 6
same_by_one_in_a_list          | GET  | /x   | owner |     | "1", W/"4" |  | Same 4
same_root_before_folder        | HEAD | /    | owner |     | "8"        |  | Same 8
same_empty_folder              | GET  | /z/  | owner |     | "0"        |  | Same 0
same_by_any_behind_a_match     | GET  | /x   | owner | "4" | *          |  | Same 4
none_match_of_an_older_version | GET  | /a/b | owner |     | "3"        |  | Found 6 text/plain hello
"#;

/// 10, alone, before 11, 14 and 15, and behind 4 to 8; reading needs no record.
pub const RECORDS_FULL: &str = r#"
records_full_before_stored        | PUT    | /y   | owner |     |   |             | RecordsFull
records_full_before_stored_again  | PUT    | /x   | owner |     |   | 0123456789  | RecordsFull
records_full_before_removed       | DELETE | /x   | owner |     |   |             | RecordsFull
records_full_before_over_quota    | PUT    | /x   | owner |     |   | 0123456789a | RecordsFull
folder_write_before_records_full  | PUT    | /a/  | owner |     |   |             | FolderWrite
clash_before_records_full         | PUT    | /x/y | owner |     |   |             | Clash /x
absent_before_records_full        | DELETE | /y   | owner |     |   |             | Absent
unmet_before_records_full         | PUT    | /x   | owner | "9" |   | 0123456789  | Unmet
unmet_by_none_before_records_full | PUT    | /x   | owner |     | * | 0123456789  | Unmet
document_at_the_end               | GET    | /x   | owner |     |   |             | Found 4294967289 text/plain 0123456789
folder_at_the_end                 | GET    | /a/  | owner |     |   |             | Folder 4294967291, b 4294967291 text/plain 5
"#;

/// One record fewer: the last one.
pub const LAST_RECORD: &str = r#"
last_put    | PUT    | /y | owner |  |  | hello | Stored 4294967295 created
last_delete | DELETE | /x | owner |  |  |       | Removed 4294967288
"#;

/// 11, before 14, and what still fits.
pub const OVER_QUOTA: &str = r#"
over_quota_before_created  | PUT | /y | owner |  |  | 0           | OverQuota 20
over_quota_before_replaced | PUT | /x | owner |  |  | 0123456789a | OverQuota 20
quota_just_reached         | PUT | /x | owner |  |  | 0123456789  | Stored 11 replaced
empty_body_at_the_quota    | PUT | /y | owner |  |  |             | Stored 11 created
"#;

/// Above a quota that was lowered, a Put is refused though it frees room; reading and removing go on.
pub const LOWERED_QUOTA: &str = r#"
empty_put_above_the_quota   | PUT    | /x | owner |  |  |       | OverQuota 20
shorter_put_above_the_quota | PUT    | /x | owner |  |  | hello | OverQuota 20
delete_above_the_quota      | DELETE | /x | owner |  |  |       | Removed 4
get_above_the_quota         | GET    | /x | owner |  |  |       | Found 4 text/plain 0123456789
"#;

/// 13 to 15, of which each method has one.
pub const LAST_STEPS: &str = r#"
document_found                          | GET    | /x      | owner |     |  |       | Found 4 text/plain 0123456789
head_has_the_reply_of_get               | HEAD   | /x      | owner |     |  |       | Found 4 text/plain 0123456789
document_found_as_put_last              | GET    | /a/b    | owner |     |  |       | Found 6 text/plain hello
folder_found                            | GET    | /a/     | owner |     |  |       | Folder 6, b 6 text/plain 5
root_found                              | GET    | /       | owner |     |  |       | Folder 8, a/ 6, public/ 5, x 4 text/plain 10
emptied_folder_found                    | GET    | /gone/  | owner |     |  |       | Folder 0
folder_found_at_the_names_of_a_document | HEAD   | /x/     | owner |     |  |       | Folder 0
document_created                        | PUT    | /y      | owner |     |  | hello | Stored 11 created
document_created_in_a_folder            | PUT    | /a/c    | owner |     |  | hello | Stored 11 created
document_created_where_one_was_removed  | PUT    | /gone/g | owner |     |  | hello | Stored 11 created
document_replaced                       | PUT    | /x      | owner |     |  | hello | Stored 11 replaced
document_removed                        | DELETE | /x      | owner |     |  |       | Removed 4
document_removed_as_put_last            | DELETE | /a/b    | owner | "6" |  |       | Removed 6
"#;

/// 12, before 14, and behind 5 and 7, where the folder `/f/` has 50,000 items. It and 8 can't both apply: If-
/// None-Match names only what is there, and that takes no room. 12 and 13 can't both apply: 12 is of a Put.
pub const FOLDER_FULL: &str = r#"
folder_full_before_created       | PUT    | /f/new   | owner |   |  | hello | FolderFull /f/
folder_full_by_a_folder          | PUT    | /f/new/x | owner |   |  | hello | FolderFull /f/
replaced_in_a_full_folder        | PUT    | /f/1     | owner |   |  | hello | Stored 50002 replaced
created_beside_a_full_folder     | PUT    | /g       | owner |   |  | hello | Stored 50002 created
created_in_a_folder_of_that_name | PUT    | /g/f/new | owner |   |  | hello | Stored 50002 created
removed_from_a_full_folder       | DELETE | /f/50000 | owner |   |  |       | Removed 50001
clash_before_folder_full         | PUT    | /f/1/x   | owner |   |  | hello | Clash /f/1
unmet_before_folder_full         | PUT    | /f/new   | owner | * |  | hello | Unmet
"#;

/// 11 before 12, where four bytes more are within the quota.
pub const FULL_OVER_QUOTA: &str = r#"
over_quota_before_folder_full | PUT | /f/new | owner |  |  | hello | OverQuota 100000
folder_full_within_the_quota  | PUT | /f/new | owner |  |  | four  | FolderFull /f/
"#;

/// 10 before 12, at the greatest number of records.
pub const FULL_AT_END: &str = r#"
records_full_before_folder_full | PUT | /f/new | owner |  |  | hello | RecordsFull
records_full_in_a_full_folder   | PUT | /f/1   | owner |  |  | hello | RecordsFull
"#;

/// One item fewer: the last one.
pub const LAST_ITEM: &str = r#"
last_document | PUT | /f/new   | owner |  |  | hello | Stored 50001 created
last_folder   | PUT | /f/new/x | owner |  |  | hello | Stored 50001 created
"#;

/// Grant and Revoke.
pub const GRANTS: &str = r#"
grant_of_a_granted_token   | GRANT  | owner    | TokenTaken
grant_of_an_unknown_token  | GRANT  | stranger | Granted
grant_after_a_revoke       | GRANT  | former   | Granted
revoke_of_a_granted_token  | REVOKE | owner    | Revoked
revoke_of_an_unknown_token | REVOKE | stranger | NotGranted
second_revoke              | REVOKE | former   | NotGranted
"#;

/// A grant finds the records full before the token taken; a revoke finds the token not granted before the records
/// full.
pub const GRANTS_AT_END: &str = r#"
records_full_before_token_taken | GRANT  | owner    | RecordsFull
records_full_before_granted     | GRANT  | stranger | RecordsFull
records_full_before_revoked     | REVOKE | owner    | RecordsFull
not_granted_before_records_full | REVOKE | stranger | NotGranted
second_revoke_at_the_end        | REVOKE | former   | NotGranted
"#;

/// One record fewer: the last one.
pub const LAST_GRANTS: &str = r#"
last_grant  | GRANT  | stranger | Granted
last_revoke | REVOKE | owner    | Revoked
"#;
