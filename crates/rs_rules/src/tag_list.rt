//! Lists of entity tags.

ghost use Rattle.std.specs.Prelude.{◌≡◌, [], ◌∷◌, ◌++◌, IfOk, OnOk, OnErr};

use crate::entity_tag::EntityTag;
use rs_path::NoMemory;
use std::alloc::Global;
use std::marker::Model;

/// The entity tags that a condition lists, in their order. A contract sees them as a list.
#[derive(Debug, Drop)]
pub struct TagList {
    list: Vec<EntityTag>,
}

impl Model for TagList {
    ghost use Rattle.std.specs.Prelude.{List};
    ghost use Rattle.rs_rules.specs.declared.entity_tag.EntityTag.{EntityTag};

    ghost Value = { List EntityTag };

    ghost view = { λ l. l.list.items };
}

impl TagList {
    /// No tags.
    pub fn new(alloc: Global) -> TagList
        ensures empty { result ≡ [] }
    {
        TagList {
            list: Vec::new(alloc),
        }
    }

    /// Appends a tag. Where memory runs out, the list is as before and the tag is dropped.
    pub fn push(&mut self, tag: EntityTag) -> Result<(), NoMemory>
        ensures ok { OnOk result (self.new ≡ self.old ++ tag ∷ []) }
        ensures err { OnErr result (self.new ≡ self.old) }
    {
        self.list.push(tag)?;
        Ok(())
    }

    /// The tags.
    pub fn as_slice(&self) -> &[EntityTag]
        ensures tags { result.now ≡ self.now }
    {
        self.list.as_slice()
    }
}
