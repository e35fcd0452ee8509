//! Laws of folder descriptions. Each function does nothing: its contract is the law.

ghost use Rattle.std.specs.Prelude.{◌≡◌, List, ℕ, [], ◌∷◌, Some, Ok, Err, true, option_and_then, codes};
ghost use Rattle.std.specs.List.{list_all};
ghost use Rattle.serde_json.specs.Data.{Data, Members};
ghost use Rattle.serde_json.specs.Read.{read};
ghost use Rattle.serde_json.specs.Find.{get, as_object};
ghost use Rattle.rs_path.specs.declared.entry.Entry.{Entry};
ghost use Rattle.rs_path.specs.Items.{is_ascending, is_item, is_entry};
ghost use Rattle.rs_folder.specs.Descriptions.{folder_text};
ghost use Rattle.rs_folder.specs.FolderReadings.{items_from, folder_reading};
ghost use Rattle.rs_folder.specs.Keys.{keys_ascend, wrong_keys};
ghost use Rattle.rs_folder.specs.declared.folder_fault.FolderFault.TheVariants.{BadItem};

/// The text of items is read as these items.
pub fn folder_laws()
    ensures back { (items : List Entry) → is_ascending items ≡ true → list_all is_item items ≡ true
        → list_all is_entry items ≡ true
        → folder_reading (folder_text items) ≡ Ok items }
{}

/// The keys of an object `items` ascend, and the first at which no item is, is the one that is refused.
pub fn key_laws()
    ensures ascend { (bytes : List ℕ) (value : Data) (members : Members) → read bytes ≡ Some value
        → option_and_then as_object (get (codes "items") value) ≡ Some members
        → keys_ascend members ≡ true }
    ensures refused { (items : List Entry) (members : Members) (key : List ℕ)
        → items_from items members ≡ Err (BadItem key)
        → (others : List (List ℕ)) × (wrong_keys members ≡ key ∷ others) }
    ensures read { (items all : List Entry) (members : Members) → items_from items members ≡ Ok all
        → wrong_keys members ≡ [] }
{}
