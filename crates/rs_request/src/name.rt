//! Names without case (RFC 9110, section 5.1).

ghost use Rattle.std.specs.Prelude.{◌≡◌, count_by, option_copied};
ghost use Rattle.std.specs.List.{find, list_any};
ghost use Rattle.rs_request.specs.Names.{same_name, is_field_named, says};

use crate::field::Field;

/// Whether two texts are the same where letters of ASCII have no case, as names of fields and schemes are compared. It takes no memory.
#[tactic(auto, using(crate::proofs::NameLemmas::same_by_test), unfolding(crate::specs::Names::same_name))]
pub fn same_name(a: &[u8], b: &[u8]) -> bool
    ensures { result ≡ same_name a.now b.now }
{
    a.eq_ignore_ascii_case(b)
}

impl Field {
    /// Whether the field has this name, whatever the case of its letters. It takes no memory.
    pub fn is_named(&self, name: &[u8]) -> bool
        ensures { result ≡ is_field_named name.now self.now }
    {
        if self.name.len() != name.len() {
            return false;
        }
        same_name(self.name.as_slice(), name)
    }

    /// Whether the field has this name and, without case, this value.
    pub(crate) fn says(&self, name: &[u8], value: &[u8]) -> bool
        ensures { result ≡ says name.now value.now self.now }
    {
        self.is_named(name) && same_name(self.value.as_slice(), value)
    }
}

/// How many of the fields have this name.
pub(crate) fn count_named(fields: &[Field], name: &[u8]) -> usize
    ensures { result ≡ count_by (is_field_named name.now) fields.now }
{
    fields.iter().filter(|f| f.is_named(name)).count()
}

/// Whether a field has this name.
pub(crate) fn has_named(fields: &[Field], name: &[u8]) -> bool
    ensures { result ≡ list_any (is_field_named name.now) fields.now }
{
    fields.iter().any(|f| f.is_named(name))
}

/// Whether a field has this name and, without case, this value.
pub(crate) fn some_says(fields: &[Field], name: &[u8], value: &[u8]) -> bool
    ensures { result ≡ list_any (says name.now value.now) fields.now }
{
    fields.iter().any(|f| f.says(name, value))
}

/// The first field of this name.
pub(crate) fn first_named<'f>(fields: &'f [Field], name: &[u8]) -> Option<&'f Field>
    ensures { option_copied result ≡ find (is_field_named name.now) fields.now }
{
    for field in fields {
        if field.is_named(name) {
            return Some(field);
        }
    }
    None
}
