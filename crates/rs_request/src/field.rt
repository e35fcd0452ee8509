//! The fields of a message (RFC 9110, section 5).

ghost use Rattle.std.specs.Prelude.{◌≡◌, [], ◌∷◌, ◌++◌, IfOk, OnOk, OnErr};

use crate::text_part::TextPart;
use rs_path::{Bytes, NoMemory};
use std::alloc::Global;
use std::marker::Model;

/// A field of a message: a name and a value without white space around it.
#[derive(Debug, Drop, PartialEq, Eq)]
pub struct Field {
    pub name: TextPart,
    pub value: TextPart,
}

impl Field {
    /// A field of this name and this value.
    pub fn new(name: Bytes, value: Bytes) -> Field
        ensures { result ≡ record { name = name; value = value } }
    {
        Field {
            name: TextPart::of(name),
            value: TextPart::of(value),
        }
    }
}

/// The fields of a message, in their order. A contract sees them as their list.
#[derive(Debug, Drop)]
pub struct Fields {
    list: Vec<Field>,
}

impl Model for Fields {
    ghost use Rattle.std.specs.Prelude.{List};
    ghost use Rattle.rs_request.specs.declared.field.Field.{Field};

    ghost Value = { List Field };

    ghost view = { λ f. f.list.items };
}

impl Fields {
    /// No fields.
    pub fn new(alloc: Global) -> Fields
        ensures empty { result ≡ [] }
    {
        Fields {
            list: Vec::new(alloc),
        }
    }

    /// No fields, and room for so many.
    pub(crate) fn with_room(alloc: Global, count: usize) -> Result<Fields, NoMemory>
        ensures { IfOk result (λ fields. fields ≡ []) }
    {
        let list = Vec::with_capacity(alloc, count)?;
        Ok(Fields { list })
    }

    /// Puts a field at the end. Where there is no memory, the field is dropped.
    pub fn push(&mut self, field: Field) -> Result<(), NoMemory>
        ensures ok { OnOk result (self.new ≡ self.old ++ field ∷ []) }
        ensures err { OnErr result (self.new ≡ self.old) }
    {
        self.list.push(field)?;
        Ok(())
    }

    /// The fields.
    pub fn as_slice(&self) -> &[Field]
        ensures fields { result.now ≡ self.now }
    {
        self.list.as_slice()
    }
}
