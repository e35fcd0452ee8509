//! Asks, written as requests (RFC 9112, sections 3 to 6).

ghost use Rattle.std.specs.Prelude.{◌≡◌, ◌++◌, ◌∷◌, [], true, Ok, IfOk, OnOk, OnErr};
ghost use Rattle.rs_path.specs.Readings.{target_reading};
ghost use Rattle.rs_path.specs.Targets.{target_text};
ghost use Rattle.rs_request.specs.Writing.{fields_text, request_head_text};
ghost use Rattle.rs_talk.specs.Asks.{is_ask, ask_path, ask_message, ask_text, ask_target, ask_method, host_sent, token_sent, kind_sent, kinds_sent, conditions_sent, length_sent, lengths_sent, close_sent, unless_known, while_based, strong_text};
ghost use Rattle.rs_talk.specs.AskRequests.{IsAsking};
ghost use Rattle.rs_talk.specs.AskLines.{ask_start, lines_sent};

use crate::ask::Ask;
use crate::bearer::Bearer;
use crate::root::Root;
use rs_path::{Kind, NoMemory, Tag};
use rs_request::{put_both, put_text};
use rs_wire::{FieldValue, put_empty_line, put_field_line};
use std::alloc::Global;

/// Appends the request of an ask, below this root and with this token (RFC 6750, section 2.1). Where memory runs out, `out` is
/// as before.
///
/// The request has the fields Host and Authorization, Content-Type of a Put, If-Match with the version of a base or
/// If-None-Match with a known version, or with `*` where a Put has no base, Content-Length of a Put, and `Connection: close`.
pub fn encode_request(
    alloc: Global,
    root: &Root,
    token: &Bearer,
    ask: &Ask,
    out: &mut Vec<u8>,
) -> Result<(), NoMemory>
    ensures ok { OnOk result (out.new.items ≡ out.old.items ++ ask_text root.now token.now ask.now) }
    ensures err { OnErr result (out.new.items ≡ out.old.items) }
    ensures asking { OnOk result (is_ask ask.now ≡ true → IsAsking root.now token.now ask.now) }
{
    look(root, token, ask);
    let head = ask_head(alloc, root, token, ask)?;
    put_both(head.as_slice(), ask.body(), out)
}

// Reads nothing: it says what the types of the parts promise.
fn look(root: &Root, token: &Bearer, ask: &Ask)
    ensures asking { is_ask ask.now ≡ true → target_reading (target_text (ask_path ask.now)) ≡ Ok (ask_path ask.now)
        → IsAsking root.now token.now ask.now }
{
    root.as_slice();
    token.as_slice();
    ask.look();
}

// The head of the request.
fn ask_head(alloc: Global, root: &Root, token: &Bearer, ask: &Ask) -> Result<Vec<u8>, NoMemory>
    ensures head { IfOk result (λ head. head.items ≡ request_head_text (ask_message root.now token.now ask.now)) }
    ensures back { OnOk result (target_reading (target_text (ask_path ask.now)) ≡ Ok (ask_path ask.now)) }
{
    let mut head = Vec::new(alloc);
    put_request_line(&mut head, root, ask)?;
    put_sender(&mut head, root, token)?;
    put_kind(&mut head, ask)?;
    put_condition(&mut head, ask)?;
    put_length(&mut head, ask)?;
    put_close(&mut head)?;
    Ok(head)
}

// Appends the method and the target.
#[tactic(auto, using(std::proofs::Common::append_assoc))]
fn put_request_line(out: &mut Vec<u8>, root: &Root, ask: &Ask) -> Result<(), NoMemory>
    ensures put { OnOk result (out.new.items ≡ out.old.items ++ ask_start root.now ask.now) }
    ensures back { OnOk result (target_reading (target_text (ask_path ask.now)) ≡ Ok (ask_path ask.now)) }
{
    put_text(out, ask.method())?;
    put_text(out, b" ")?;
    put_target(out, root, ask)?;
    put_text(out, b" HTTP/1.1\r\n")?;
    Ok(())
}

#[tactic(auto, using(std::proofs::Common::append_assoc))]
fn put_target(out: &mut Vec<u8>, root: &Root, ask: &Ask) -> Result<(), NoMemory>
    ensures put { OnOk result (out.new.items ≡ out.old.items ++ ask_target root.now ask.now) }
    ensures back { OnOk result (target_reading (target_text (ask_path ask.now)) ≡ Ok (ask_path ask.now)) }
{
    put_text(out, root.path())?;
    ask.path().write_target(out)?;
    Ok(())
}

// Appends where the request goes to and by whom it is sent.
fn put_sender(out: &mut Vec<u8>, root: &Root, token: &Bearer) -> Result<(), NoMemory>
    ensures put { OnOk result (out.new.items ≡ out.old.items ++ lines_sent (host_sent root.now ∷ token_sent token.now ∷ [])) }
{
    put_line(out, b"Host", root.host())?;
    put_token(out, token)?;
    Ok(())
}

#[tactic(auto, using(std::proofs::Common::append_assoc, crate::proofs::AskLemmas::one_line))]
fn put_token(out: &mut Vec<u8>, token: &Bearer) -> Result<(), NoMemory>
    ensures put { OnOk result (out.new.items ≡ out.old.items ++ lines_sent (token_sent token.now ∷ [])) }
{
    put_text(out, b"Authorization: Bearer ")?;
    put_text(out, token.as_slice())?;
    put_text(out, b"\r\n")?;
    Ok(())
}

// Appends the content type that a Put brings.
fn put_kind(out: &mut Vec<u8>, ask: &Ask) -> Result<(), NoMemory>
    ensures put { OnOk result (out.new.items ≡ out.old.items ++ lines_sent (kinds_sent ask.now)) }
{
    match ask {
        Ask::Put { kind, .. } => put_type(out, kind),
        Ask::Folder { .. } => Ok(()),
        Ask::Document { .. } => Ok(()),
        Ask::Remove { .. } => Ok(()),
    }
}

fn put_type(out: &mut Vec<u8>, kind: &Kind) -> Result<(), NoMemory>
    ensures put { OnOk result (out.new.items ≡ out.old.items ++ lines_sent (kind_sent kind.now ∷ [])) }
{
    put_line(out, b"Content-Type", kind.as_slice())
}

// Appends the condition, where there is one.
fn put_condition(out: &mut Vec<u8>, ask: &Ask) -> Result<(), NoMemory>
    ensures put { OnOk result (out.new.items ≡ out.old.items ++ lines_sent (conditions_sent ask.now)) }
{
    match ask {
        Ask::Folder { known, .. } => put_known(out, known),
        Ask::Document { known, .. } => put_known(out, known),
        Ask::Put { base, .. } => put_base(out, base),
        Ask::Remove { base, .. } => put_tag(out, b"If-Match", base),
    }
}

fn put_known(out: &mut Vec<u8>, known: &Option<Tag>) -> Result<(), NoMemory>
    ensures put { OnOk result (out.new.items ≡ out.old.items ++ lines_sent (unless_known known.now)) }
{
    match known {
        Some(tag) => put_tag(out, b"If-None-Match", tag),
        None => Ok(()),
    }
}

fn put_base(out: &mut Vec<u8>, base: &Option<Tag>) -> Result<(), NoMemory>
    ensures put { OnOk result (out.new.items ≡ out.old.items ++ lines_sent (while_based base.now ∷ [])) }
{
    match base {
        Some(tag) => put_tag(out, b"If-Match", tag),
        None => put_line(out, b"If-None-Match", b"*"),
    }
}

// Appends the length of the body that a Put brings.
fn put_length(out: &mut Vec<u8>, ask: &Ask) -> Result<(), NoMemory>
    ensures put { OnOk result (out.new.items ≡ out.old.items ++ lines_sent (lengths_sent ask.now)) }
{
    match ask {
        Ask::Put { body, .. } => put_size(out, body.as_slice().len()),
        Ask::Folder { .. } => Ok(()),
        Ask::Document { .. } => Ok(()),
        Ask::Remove { .. } => Ok(()),
    }
}

#[tactic(auto, using(crate::proofs::AskLemmas::one_line), unfolding(rs_request::specs::FieldValues::line_text))]
fn put_size(out: &mut Vec<u8>, size: usize) -> Result<(), NoMemory>
    ensures put { OnOk result (out.new.items ≡ out.old.items ++ lines_sent (length_sent size ∷ [])) }
{
    put_field_line(out, b"Content-Length", FieldValue::Number(size as u64))
}

// Appends that the connection ends behind the reply, and the empty line.
#[tactic(auto, using(std::proofs::Common::append_assoc))]
fn put_close(out: &mut Vec<u8>) -> Result<(), NoMemory>
    ensures put { OnOk result (out.new.items ≡ out.old.items ++ fields_text (close_sent ∷ [])) }
{
    put_line(out, b"Connection", b"close")?;
    put_empty_line(out)?;
    Ok(())
}

// Appends a field line with this text.
#[tactic(auto, using(crate::proofs::AskLemmas::one_line), unfolding(rs_request::specs::FieldValues::line_text))]
fn put_line(out: &mut Vec<u8>, name: &[u8], text: &[u8]) -> Result<(), NoMemory>
    ensures put { OnOk result (out.new.items ≡ out.old.items ++ lines_sent (record { name = name.now; value = text.now } ∷ [])) }
{
    put_field_line(out, name, FieldValue::Text(text))
}

// Appends a field line with this entity tag.
#[tactic(auto, using(std::proofs::Common::append_assoc, crate::proofs::AskLemmas::one_line))]
fn put_tag(out: &mut Vec<u8>, name: &[u8], tag: &Tag) -> Result<(), NoMemory>
    ensures put { OnOk result (out.new.items ≡ out.old.items ++ lines_sent (record { name = name.now; value = strong_text tag.now } ∷ [])) }
{
    put_text(out, name)?;
    put_text(out, b": \"")?;
    put_text(out, tag.as_slice())?;
    put_text(out, b"\"\r\n")?;
    Ok(())
}
