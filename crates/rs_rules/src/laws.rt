//! Laws of histories. Each function does nothing: its contract is the law.

ghost use Rattle.std.specs.Prelude.{◌≡◌, ◌≢◌, ℕ, ◌+◌, ◌*◌, ◌^◌, ◌<◌, ◌≤◌, max, Bool, true, false, List, [], ◌∷◌, length, fold, Option, Some, None, is_some, if◌then◌else◌};
ghost use Rattle.std.specs.List.{list_any, list_all};
ghost use Rattle.rs_path.specs.declared.child.Child.{Child};
ghost use Rattle.rs_path.specs.Limits.{max_body};
ghost use Rattle.rs_path.specs.Paths.{Path, is_path};
ghost use Rattle.rs_path.specs.Children.{same_child, child_at, child_towards};
ghost use Rattle.rs_path.specs.Items.{is_item, is_ascending};
ghost use Rattle.rs_path.specs.declared.log_entry.LogEntry.{LogEntry};
ghost use Rattle.rs_scope.specs.declared.method.Method.TheVariants.{Put as PutMethod, Delete as DeleteMethod};
ghost use Rattle.rs_scope.specs.Reach.{is_free_read};
ghost use Rattle.rs_record.specs.declared.records.Record.{Record};
ghost use Rattle.rs_record.specs.declared.records.Record.TheVariants.{Put as PutRecord, Remove as RemoveRecord};
ghost use Rattle.rs_rules.specs.declared.call.Call.{Call};
ghost use Rattle.rs_rules.specs.declared.doc.Doc.{Doc};
ghost use Rattle.rs_rules.specs.declared.pass.Pass.{Pass};
ghost use Rattle.rs_rules.specs.declared.placed.Placed.{Placed};
ghost use Rattle.rs_rules.specs.declared.reply.Reply.{Reply};
ghost use Rattle.rs_rules.specs.declared.request.Request.{Request};
ghost use Rattle.rs_rules.specs.declared.request.Request.TheVariants.{Store};
ghost use Rattle.rs_rules.specs.Limits.{max_len, max_items};
ghost use Rattle.rs_rules.specs.Histories.{History, len, with_entry, with_entries, up_to, IsPoint, IsFront};
ghost use Rattle.rs_rules.specs.Documents.{others, docs, docs_after, doc_in, has_below, live_in};
ghost use Rattle.rs_rules.specs.Clashes.{is_full};
ghost use Rattle.rs_rules.specs.Versions.{writes_below, last_below, folder_version, ver};
ghost use Rattle.rs_rules.specs.Tokens.{scopes_of, scopes_after};
ghost use Rattle.rs_rules.specs.Contents.{Contents, contents, contents_after, paths_in};
ghost use Rattle.rs_rules.specs.Listings.{children, items_in};
ghost use Rattle.rs_rules.specs.Snapshots.{snapshot};
ghost use Rattle.rs_rules.specs.Requests.{is_within_limit};
ghost use Rattle.rs_rules.specs.Answers.{answer, taken, entry_of, brought};
ghost use Rattle.rs_rules.specs.Lawful.{may_follow, AllFollow, IsLawful};
ghost use Rattle.rs_rules.specs.Growth.{Grows, GrowsByOthers, is_store_failed};
ghost use Rattle.rs_rules.specs.Settled.{settled, settle};
ghost use Rattle.rs_rules.specs.Sound.{AreDistinct, are_documents, HasVersions};
ghost use Rattle.rs_rules.specs.Laws.{IsVersionStep, SameBelow, HasReach, numbers_below, is_sorted, is_child};

/// What one more entry does to the length, the documents, the versions, the scopes, and the items of a folder.
pub fn step_laws()
    ensures length { (h : History) (e : LogEntry Record) → len (with_entry h e) ≡ len h + 1 }
    ensures documents { (h : History) (e : LogEntry Record) → docs (with_entry h e) ≡ docs_after (len h + 1) e.what (docs h) }
    ensures contents { (h : History) (e : LogEntry Record) → contents (with_entry h e) ≡ contents_after (len h + 1) e.what (contents h) }
    ensures scopes { (h : History) (e : LogEntry Record) (token : List ℕ)
        → scopes_of (with_entry h e) token ≡ scopes_after token (len h + 1) e.what (scopes_of h token) }
    ensures items { (h : History) (e : LogEntry Record) (folder : Path)
        → items_in (contents (with_entry h e)) folder ≡ items_in (contents_after (len h + 1) e.what (contents h)) folder }
{}

/// What one accepted write does to the version of every path.
pub fn version_law()
    ensures put { (h : History) (who : ℕ) (path : Path) (kind body : List ℕ) (writer : Option (List ℕ)) → path.folder ≡ false
        → IsVersionStep h (with_entry h (record { who = who; what = PutRecord path kind body writer })) (len h + 1) path true }
    ensures remove { (h : History) (who : ℕ) (path : Path) (writer : Option (List ℕ)) → path.folder ≡ false
        → IsVersionStep h (with_entry h (record { who = who; what = RemoveRecord path writer })) (len h + 1) path false }
{}

/// A version is at most the length. A folder's last number is the greatest of those of the entries that write below it.
pub fn version_bounds()
    ensures most { (h : History) (path : Path) → IsLawful h → ver h path ≤ len h }
    ensures folder_most { (h : History) (folder : Path) → HasVersions h.base → folder_version h folder ≤ len h }
    ensures greatest { (h : History) (folder : Path) → HasVersions h.base
        → last_below h folder ≡ fold max (h.base.versions folder) (numbers_below folder h.base.cut h.entries) }
    ensures base { (h : History) → IsLawful h → HasVersions h.base }
{}

/// Two points of one history at which a folder has the same version have the same documents below it, and the same
/// versions of all that is below it.
pub fn same_version_law()
    ensures below { (h : History) (more : List (LogEntry Record)) (folder : Path) → HasVersions h.base
        → folder_version (with_entries h more) folder ≡ folder_version h folder → SameBelow folder h (with_entries h more) }
{}

/// A folder's version that has passed never returns, but for 0, at which nothing is below.
pub fn never_returns_law()
    ensures passed { (h : History) (more later : List (LogEntry Record)) (folder : Path) → HasVersions h.base
        → folder_version (with_entries h more) folder ≢ folder_version h folder
        → folder_version (with_entries (with_entries h more) later) folder ≡ folder_version h folder
        → folder_version h folder ≡ 0 }
{}

/// A history that was settled at a point shows at every later point what the whole one shows, and so has its answers.
pub fn settle_law()
    ensures shows { (h : History) (n m : ℕ) → IsPoint n h → n ≤ m → snapshot (up_to m (settle h n)) ≡ snapshot (up_to m h) }
    ensures answers { (h : History) (n m : ℕ) (quota : ℕ) (r : Request) → IsPoint n h → n ≤ m
        → answer (up_to m (settle h n)) quota r ≡ answer (up_to m h) quota r }
    ensures follow { (h : History) (more : List (LogEntry Record)) → AllFollow h more → AllFollow (settled h []) more }
{}

/// A front of a lawful history is lawful, and so is one more entry that may follow.
pub fn lawful_laws()
    ensures front { (h : History) (n : ℕ) → IsLawful h → IsLawful (up_to n h) }
    ensures more { (h : History) (e : LogEntry Record) → IsLawful h → may_follow (snapshot h) e.what ≡ true → len h < max_len
        → IsLawful (with_entry h e) }
    ensures distinct { (h : History) → IsLawful h → AreDistinct (docs h) }
    ensures documents { (h : History) → IsLawful h → are_documents (docs h) ≡ true }
    ensures room { (h : History) (body : List ℕ) → IsLawful h → length body ≤ max_body → live_in (docs h) + length body < 2 ^ 64 }
{}

/// The sum of the lengths of the bodies without the document at a path.
pub fn live_laws()
    ensures absent { (path : Path) (documents : List Placed) → doc_in path documents ≡ None → live_in (others path documents) ≡ live_in documents }
    ensures present { (path : Path) (documents : List Placed) (doc : Doc) → AreDistinct documents → doc_in path documents ≡ Some doc
        → live_in (others path documents) + length doc.body ≡ live_in documents }
{}

/// The record that a request adds is the one that it brings, which stands rightly after the history and finds room there.
/// The writer of a document's record is the request's token, which is granted, with scopes that reach.
pub fn taken_laws()
    ensures only { (h : History) (quota : ℕ) (r : Request) (what : Record) → taken h quota r ≡ Some what → brought r ≡ Some what }
    ensures may { (h : History) (quota : ℕ) (r : Request) (what : Record) → is_within_limit r ≡ true → taken h quota r ≡ Some what
        → may_follow (snapshot h) what ≡ true }
    ensures room { (h : History) (quota : ℕ) (r : Request) (what : Record) → taken h quota r ≡ Some what → len h < max_len }
    ensures lawful { (h : History) (quota who : ℕ) (r : Request) (what : Record) → IsLawful h → is_within_limit r ≡ true
        → taken h quota r ≡ Some what → IsLawful (with_entry h (record { who = who; what = what })) }
    ensures reach_put { (h : History) (quota : ℕ) (r : Request) (path : Path) (kind body : List ℕ) (writer : Option (List ℕ))
        → taken h quota r ≡ Some (PutRecord path kind body writer) → HasReach h writer PutMethod path }
    ensures reach_remove { (h : History) (quota : ℕ) (r : Request) (path : Path) (writer : Option (List ℕ))
        → taken h quota r ≡ Some (RemoveRecord path writer) → HasReach h writer DeleteMethod path }
{}

/// The children of a folder ascend, so each stands there once. A document is listed just where it is there, a folder just
/// where a document is below it. The items ascend by their keys, and a folder's item has neither kind nor length. There
/// are at most as many children as paths, so fewer documents than items of a full folder fill none.
pub fn listing_laws()
    ensures members { (folder : Path) (paths : List Path) (child : Child) → list_any (same_child child) (children folder paths)
        ≡ list_any (λ path. is_child child (child_towards folder path)) paths }
    ensures sorted { (folder : Path) (paths : List Path) → is_sorted (children folder paths) ≡ true }
    ensures documents { (folder : Path) (child : Child) (documents : List Placed) → child.folder ≡ false
        → list_any (same_child child) (children folder (paths_in documents)) ≡ is_some (doc_in (child_at folder child) documents) }
    ensures folders { (folder : Path) (child : Child) (documents : List Placed) → child.folder ≡ true → are_documents documents ≡ true
        → list_any (same_child child) (children folder (paths_in documents)) ≡ has_below (child_at folder child) documents }
    ensures ascending { (w : Contents) (folder : Path) → list_all is_path (paths_in w.docs) ≡ true → is_ascending (items_in w folder) ≡ true }
    ensures plain { (w : Contents) (folder : Path) → list_all is_item (items_in w folder) ≡ true }
    ensures few { (folder : Path) (paths : List Path) → length (children folder paths) ≤ length paths }
    ensures room { (documents : List Placed) (path : Path) (names : List (List ℕ)) → length documents < max_items → is_full documents path names ≡ false }
{}

/// No answer is StoreFailed. Where reading is free, the answer doesn't depend on the token that the request shows.
pub fn answer_laws()
    ensures kept { (h : History) (quota : ℕ) (r : Request) → is_store_failed (answer h quota r) ≡ false }
    ensures free { (h : History) (quota : ℕ) (c : Call) (pass : Pass) → is_free_read c.method c.path ≡ true
        → answer h quota (Store (record c { pass = pass })) ≡ answer h quota (Store c) }
{}

/// A desk that is alone grows its history by the record that the request adds to it. Growth by others and then by a turn
/// is growth by a turn; what stood before a turn is a prefix of what stands after it.
pub fn growth_laws()
    ensures alone { (h : History) (quota me : ℕ) (r : Request)
        → Grows h (with_entries h (entry_of me (taken h quota r))) quota me r (answer h quota r) (len h) }
    ensures still { (h : History) (me : ℕ) → GrowsByOthers h h me }
    ensures others { (a b c : History) (me : ℕ) → GrowsByOthers a b me → GrowsByOthers b c me → GrowsByOthers a c me }
    ensures after { (a b c : History) (quota me : ℕ) (r : Request) (reply : Reply) (front : ℕ) → GrowsByOthers a b me
        → Grows b c quota me r reply front → Grows a c quota me r reply front }
    ensures prefix { (old new : History) (quota me : ℕ) (r : Request) (reply : Reply) (front : ℕ)
        → Grows old new quota me r reply front → IsFront old new }
    ensures joined { (a b c : History) → IsFront a b → IsFront b c → IsFront a c }
{}
