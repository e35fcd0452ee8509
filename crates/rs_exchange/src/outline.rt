//! What an answer says: its status, and the fields that are its own.

ghost use Rattle.std.specs.Prelude.{◌≡◌, ◌≤◌, true, false, ◌∷◌, [], length};
ghost use Rattle.rs_request.specs.Writing.{field_text};
ghost use Rattle.rs_exchange.specs.declared.answer.Answer.TheVariants.{Decided};
ghost use Rattle.rs_exchange.specs.Outlines.{own_fields, is_shown, IsShort};
ghost use Rattle.rs_exchange.specs.Replies.{tag_field, fresh_field, challenge_field, shown_fields, has_content, outline_of, reply_outline, refusal_outline};

use crate::answer::Answer;
use crate::refusal::{Methods, Refusal};
use rs_rules::Reply;

/// A reply but for its body, and for what its manner adds.
#[derive(Clone, Copy, Debug)]
pub(crate) struct Outline<'a> {
    pub(crate) status: u16,
    pub(crate) fields: OwnFields<'a>,
}

/// The fields that are an answer's own.
#[derive(Clone, Copy, Debug)]
pub(crate) enum OwnFields<'a> {
    Nothing,
    /// The entity tag of a version.
    Tag(u64),
    /// The entity tag of what is there and wasn't changed.
    Same(u64),
    /// The entity tag and the content type of what is shown.
    Shown { version: u64, kind: &'a [u8] },
    /// What token is to be brought (RFC 6750, section 3).
    Challenge(&'a [u8]),
    /// The methods of a target that doesn't take the one that was sent.
    Allow(Methods),
    /// What another origin's page may send.
    Preflight,
    /// The content type of a text that was made.
    Typed(&'a [u8]),
    /// Where the browser goes on.
    Location(&'a [u8]),
}

/// What the answer says.
pub(crate) fn outline_of(answer: &Answer) -> Outline<'_>
    ensures status { result.status ≡ (outline_of answer.now).status }
    ensures fields { own_fields result.fields ≡ (outline_of answer.now).fields }
    ensures short { IsShort result.fields }
    ensures content { is_shown result.fields ≡ has_content answer.now }
{
    match answer {
        Answer::Decided(reply) => reply_outline(reply),
        Answer::Preflight => said(204, OwnFields::Preflight),
        Answer::Refused(refusal) => refusal_outline(refusal),
        Answer::Made { sheet, .. } => said(sheet.status(), OwnFields::Typed(sheet.kind())),
        Answer::Redirect { address } => said(302, OwnFields::Location(address.as_slice())),
    }
}

// This status with these fields.
fn said(status: u16, fields: OwnFields<'_>) -> Outline<'_>
    ensures status { result.status ≡ status }
    ensures fields { own_fields result.fields ≡ own_fields fields.entry }
    ensures short { IsShort fields.entry → IsShort result.fields }
    ensures content { is_shown result.fields ≡ is_shown fields.entry }
{
    Outline { status, fields }
}

fn reply_outline(reply: &Reply) -> Outline<'_>
    ensures status { result.status ≡ (reply_outline reply.now).status }
    ensures fields { own_fields result.fields ≡ (reply_outline reply.now).fields }
    ensures short { IsShort result.fields }
    ensures content { is_shown result.fields ≡ has_content (Decided reply.now) }
{
    match reply {
        Reply::Found { version, kind, .. } => shown(*version, kind.as_slice()),
        Reply::Folder { version, .. } => shown(*version, b"application/ld+json"),
        Reply::Stored {
            version,
            created: true,
        } => tagged(201, *version),
        Reply::Stored {
            version,
            created: false,
        } => tagged(200, *version),
        Reply::Removed { version } => tagged(200, *version),
        Reply::Same { version } => unchanged(*version),
        Reply::NoToken => challenge(401, b"Bearer realm=\"remotestorage\""),
        Reply::BadToken => challenge(
            401,
            b"Bearer realm=\"remotestorage\", error=\"invalid_token\"",
        ),
        Reply::Forbidden => challenge(
            403,
            b"Bearer realm=\"remotestorage\", error=\"insufficient_scope\"",
        ),
        Reply::FolderWrite => said(400, OwnFields::Nothing),
        Reply::Clash { .. } => said(409, OwnFields::Nothing),
        Reply::Absent => said(404, OwnFields::Nothing),
        Reply::Unmet => said(412, OwnFields::Nothing),
        Reply::RecordsFull => said(507, OwnFields::Nothing),
        Reply::OverQuota { .. } => said(507, OwnFields::Nothing),
        Reply::FolderFull { .. } => said(507, OwnFields::Nothing),
        Reply::StoreFailed => said(500, OwnFields::Nothing),
        Reply::Granted => said(500, OwnFields::Nothing),
        Reply::TokenTaken => said(500, OwnFields::Nothing),
        Reply::Revoked => said(500, OwnFields::Nothing),
        Reply::NotGranted => said(500, OwnFields::Nothing),
    }
}

fn tagged(status: u16, version: u64) -> Outline<'static>
    ensures status { result.status ≡ status }
    ensures fields { own_fields result.fields ≡ tag_field version ∷ [] }
    ensures short { IsShort result.fields }
    ensures content { is_shown result.fields ≡ false }
{
    look_at_tag(version);
    Outline {
        status,
        fields: OwnFields::Tag(version),
    }
}

fn unchanged(version: u64) -> Outline<'static>
    ensures status { result.status ≡ 304 }
    ensures fields { own_fields result.fields ≡ tag_field version ∷ fresh_field ∷ [] }
    ensures short { IsShort result.fields }
    ensures content { is_shown result.fields ≡ false }
{
    look_at_tag(version);
    Outline {
        status: 304,
        fields: OwnFields::Same(version),
    }
}

fn shown(version: u64, kind: &[u8]) -> Outline<'_>
    ensures status { result.status ≡ 200 }
    ensures fields { own_fields result.fields ≡ shown_fields version kind.now }
    ensures short { IsShort result.fields }
    ensures content { is_shown result.fields ≡ true }
{
    Outline {
        status: 200,
        fields: OwnFields::Shown { version, kind },
    }
}

fn challenge(status: u16, text: &[u8]) -> Outline<'_>
    requires short { length text.now ≤ 100 }
    ensures status { result.status ≡ status }
    ensures fields { own_fields result.fields ≡ challenge_field text.now ∷ [] }
    ensures short { IsShort result.fields }
    ensures content { is_shown result.fields ≡ false }
{
    Outline {
        status,
        fields: OwnFields::Challenge(text),
    }
}

fn refusal_outline(refusal: &Refusal) -> Outline<'static>
    ensures status { result.status ≡ (refusal_outline refusal.now).status }
    ensures fields { own_fields result.fields ≡ (refusal_outline refusal.now).fields }
    ensures short { IsShort result.fields }
    ensures content { is_shown result.fields ≡ false }
{
    match refusal {
        Refusal::NotFound => said(404, OwnFields::Nothing),
        Refusal::NotAllowed { methods } => said(405, OwnFields::Allow(*methods)),
        Refusal::BadPath => said(400, OwnFields::Nothing),
        Refusal::BadCondition => said(400, OwnFields::Nothing),
        Refusal::BadKind => said(400, OwnFields::Nothing),
        Refusal::PartOnly => said(400, OwnFields::Nothing),
        Refusal::BadResource => said(400, OwnFields::Nothing),
        Refusal::BadAddress => said(400, OwnFields::Nothing),
    }
}

// The line of an entity tag is short.
#[tactic(auto, using(crate::proofs::RoomLemmas::tag_line_short))]
fn look_at_tag(version: u64)
    ensures short { length (field_text (tag_field version)) ≤ 40 }
{}
