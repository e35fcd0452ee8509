//! The page that asks the user.

ghost use Rattle.std.specs.Prelude.{◌≡◌, ◌++◌, IfOk, OnOk, OnErr, string_bytes};
ghost use Rattle.std.specs.List.{flat_map};
ghost use Rattle.rs_scope.specs.Scopes.{scopes_text};
ghost use Rattle.rs_grant.specs.Pages.{shown_parts, hidden_parts, state_parts, part_text, page_text};

use crate::ask::Ask;
use crate::escaping::push_escaped;
use rs_path::{Bytes, NoMemory};
use std::alloc::Global;

const HEAD: &str =
    "<!DOCTYPE html>\n<html><head><meta charset=\"utf-8\"><title>Grant access</title></head><body>\n<p>";

const CLIENT: &str =
    "\">\n<input type=\"hidden\" name=\"response_type\" value=\"token\">\n<input type=\"hidden\" name=\"client_id\" value=\"";

const END: &str =
    "\">\n<input type=\"password\" name=\"password\">\n<button name=\"choice\" value=\"allow\">Allow</button>\n<button name=\"choice\" value=\"deny\">Deny</button>\n</form></body></html>\n";

/// Appends the page that shows the user what is asked, with a form for the password and the choice.
///
/// It is fixed parts with escaped texts between them: no text of the request becomes markup. Where memory runs out,
/// `out` is as before. RFC 6749, sections 4.2 and 10.12 to 10.14.
pub fn consent_page(
    alloc: Global,
    user: &[u8],
    ask: &Ask,
    out: &mut Vec<u8>,
) -> Result<(), NoMemory>
    ensures ok { OnOk result (out.new.items ≡ out.old.items ++ page_text user.now ask.now) }
    ensures err { OnErr result (out.new.items ≡ out.old.items) }
{
    let page = page_of(alloc, user, ask)?;
    out.extend_from_slice(page.as_slice())?;
    Ok(())
}

fn page_of(alloc: Global, user: &[u8], ask: &Ask) -> Result<Vec<u8>, NoMemory>
    ensures { IfOk result (λ page. page.items ≡ page_text user.now ask.now) }
{
    let mut scopes = Vec::new(alloc);
    ask.scopes.write(&mut scopes)?;
    let mut page = Vec::new(alloc);
    push_shown(&mut page, user, ask.origin.as_slice(), scopes.as_slice())?;
    push_hidden(&mut page, user, ask, scopes.as_slice())?;
    push_state(&mut page, &ask.state)?;
    page.extend_from_slice(END.as_bytes())?;
    Ok(page)
}

// Who asks for what.
fn push_shown(page: &mut Vec<u8>, user: &[u8], origin: &[u8], scopes: &[u8]) -> Result<(), NoMemory>
    ensures ok { OnOk result (page.new.items ≡ page.old.items ++ flat_map part_text (shown_parts user.now origin.now scopes.now)) }
{
    push_part(page, HEAD, origin)?;
    push_part(page, " asks for ", scopes)?;
    push_part(page, " on the storage of ", user)?;
    Ok(())
}

// The form's fields that come back.
fn push_hidden(page: &mut Vec<u8>, user: &[u8], ask: &Ask, scopes: &[u8]) -> Result<(), NoMemory>
    ensures ok { OnOk result (page.new.items ≡ page.old.items
        ++ flat_map part_text (hidden_parts user.now ask.now.client ask.now.redirect scopes.now)) }
{
    push_part(page, ".</p>\n<form method=\"post\" action=\"/oauth/", user)?;
    push_part(page, CLIENT, ask.client.as_slice())?;
    push_part(
        page,
        "\">\n<input type=\"hidden\" name=\"redirect_uri\" value=\"",
        ask.redirect.as_slice(),
    )?;
    push_part(
        page,
        "\">\n<input type=\"hidden\" name=\"scope\" value=\"",
        scopes,
    )?;
    Ok(())
}

fn push_state(page: &mut Vec<u8>, state: &Option<Bytes>) -> Result<(), NoMemory>
    ensures ok { OnOk result (page.new.items ≡ page.old.items ++ flat_map part_text (state_parts state.now)) }
{
    let Some(state) = state else {
        return Ok(());
    };
    push_part(
        page,
        "\">\n<input type=\"hidden\" name=\"state\" value=\"",
        state.as_slice(),
    )?;
    Ok(())
}

// A fixed part and the escaped text behind it.
fn push_part(page: &mut Vec<u8>, fixed: &str, text: &[u8]) -> Result<(), NoMemory>
    ensures ok { OnOk result (page.new.items ≡ page.old.items ++ part_text (fixed.now, text.now)) }
{
    page.extend_from_slice(fixed.as_bytes())?;
    push_escaped(page, text)?;
    Ok(())
}
