//! What the types of a record's parts promise.

ghost use Rattle.std.specs.Prelude.{◌≡◌, IsTrue};
ghost use Rattle.rs_record.specs.Records.{has_parts, is_writer};

use crate::records::Record;
use rs_scope::Token;

// It reads nothing: it says what the types of a record's parts promise.
pub(crate) fn look_at_parts(it: &Record)
    ensures { IsTrue (has_parts it.now) }
{
    match it {
        Record::Put {
            path,
            kind,
            writer,
            ..
        } => {
            path.names();
            kind.as_slice();
            look_at_writer(writer);
        }
        Record::Remove { path, writer } => {
            path.names();
            look_at_writer(writer);
        }
        Record::Grant { token, scopes } => {
            token.as_bytes();
            scopes.as_slice();
        }
        Record::Revoke { token } => {
            token.as_bytes();
        }
    }
}

fn look_at_writer(writer: &Option<Token>)
    ensures { IsTrue (is_writer writer.now) }
{
    if let Some(writer) = writer {
        writer.as_bytes();
    }
}
