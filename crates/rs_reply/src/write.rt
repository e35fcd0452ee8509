//! Replies, written (RFC 9112, sections 4 to 6).

ghost use Rattle.std.specs.Prelude.{◌≡◌, ◌++◌, IfOk, OnOk, OnErr};
ghost use Rattle.rs_reply.specs.Writing.{reply_head_text, reply_text, IsWritableReply};

use crate::message::ReplyMessage;
use crate::reply_head::put_status_line;
use rs_path::NoMemory;
use rs_request::{put_both, put_fields};
use std::alloc::Global;

/// Writes a reply of version 1.1 at the end of `out`. Where there is no memory, `out` is as before.
///
/// The status has a phrase and the reply a spelling with no Transfer-Encoding field; `bodiless` says that it answers a HEAD.
pub fn write_reply(
    alloc: Global,
    it: &ReplyMessage,
    bodiless: bool,
    out: &mut Vec<u8>,
) -> Result<(), NoMemory>
    requires { IsWritableReply bodiless it.now }
    ensures ok { OnOk result (out.new.items ≡ out.old.items ++ reply_text it.now) }
    ensures err { OnErr result (out.new.items ≡ out.old.items) }
{
    let head = reply_head(alloc, it)?;
    put_both(head.as_slice(), it.body.as_slice(), out)
}

/// The head of a reply.
#[tactic(auto, using(crate::proofs::StatusLemmas::reply_head_lines))]
fn reply_head(alloc: Global, it: &ReplyMessage) -> Result<Vec<u8>, NoMemory>
    ensures { IfOk result (λ head. head.items ≡ reply_head_text it.now) }
{
    let mut head = Vec::new(alloc);
    put_status_line(&mut head, it.status)?;
    put_fields(it.fields.as_slice(), &mut head)?;
    Ok(head)
}
