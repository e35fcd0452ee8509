//! Discovery answers read.

ghost use Rattle.std.specs.Prelude.{◌≡◌, Some, IfOk, codes, option_map, option_and_then};
ghost use Rattle.serde_json.specs.Find.{get};
ghost use Rattle.serde_json.specs.View.{view, items_view};
ghost use Rattle.rs_finger.specs.Jrds.{dialog_key};
ghost use Rattle.rs_finger.specs.JrdReadings.{string_at, has_rel, links_with, both_links, link_reading, first_link, links_reading, value_links, jrd_reading, ReadsJrd};

use crate::finger_fault::FingerFault;
use crate::links::Links;
use crate::writing::{DIALOG_KEY, STORAGE_REL};
use rs_path::{Bytes, NoMemory};
use serde_json::{Category, Value};
use std::alloc::Global;

/// The first link of a discovery answer to a storage, whatever the order of the keys and the layout.
///
/// Such a link has the draft's `rel`, a text `href` and a text property for the dialog; what else there is, is ignored.
/// `NoLink` comes where the bytes are no JSON or hold no such link.
///
/// RFC 7033, section 4.4; draft-dejong-remotestorage, section 10.
pub fn read_jrd(alloc: Global, bytes: &[u8]) -> Result<Links, FingerFault>
    ensures read { ReadsJrd result (jrd_reading bytes.now) }
{
    match Value::from_slice(alloc, bytes) {
        Ok(value) => read_value(alloc, &value),
        Err(error) => match error.classify() {
            Category::Memory => Err(FingerFault::NoMemory),
            _ => Err(FingerFault::NoLink),
        },
    }
}

fn read_value(alloc: Global, value: &Value) -> Result<Links, FingerFault>
    ensures { ReadsJrd result (value_links (Some (view value.now))) }
{
    match links_of(value) {
        Some(links) => read_links(alloc, links.as_slice()),
        None => Err(FingerFault::NoLink),
    }
}

// The items of an array `links`.
fn links_of(value: &Value) -> Option<&Vec<Value>>
    ensures { links_reading (option_map (λ links. items_view links.now.items) result)
        ≡ value_links (Some (view value.now)) }
{
    match value.get("links") {
        Some(links) => links.as_array(),
        None => None,
    }
}

fn read_links(alloc: Global, links: &[Value]) -> Result<Links, FingerFault>
    ensures { ReadsJrd result (first_link (items_view links.now)) }
{
    for link in links {
        if let Some((root, dialog)) = link_texts(link) {
            return Ok(copy_links(alloc, root, dialog)?);
        }
    }
    Err(FingerFault::NoLink)
}

fn copy_links(alloc: Global, root: &str, dialog: &str) -> Result<Links, NoMemory>
    ensures { IfOk result (λ links. links ≡ links_with root.now dialog.now) }
{
    Ok(Links {
        root: Bytes::of(Vec::from_slice(alloc, root.as_bytes())?),
        dialog: Bytes::of(Vec::from_slice(alloc, dialog.as_bytes())?),
    })
}

// The two addresses of a link to a storage.
fn link_texts(link: &Value) -> Option<(&str, &str)>
    ensures { option_map (λ texts. links_with texts.0.now texts.1.now) result ≡ link_reading (view link.now) }
{
    if !has_rel(link) {
        return None;
    }
    both(string_at(link, "href"), dialog_of(link))
}

fn both<'a>(root: Option<&'a str>, dialog: Option<&'a str>) -> Option<(&'a str, &'a str)>
    ensures { option_map (λ texts. links_with texts.0.now texts.1.now) result
        ≡ both_links (option_map (λ text. text.now) root.entry) (option_map (λ text. text.now) dialog.entry) }
{
    let Some(root) = root else {
        return None;
    };
    match dialog {
        Some(dialog) => Some((root, dialog)),
        None => None,
    }
}

// The property that has the address of the grant.
fn dialog_of(link: &Value) -> Option<&str>
    ensures { option_map (λ text. text.now) result ≡ option_and_then (string_at dialog_key) (get (codes "properties") (view link.now)) }
{
    match link.get("properties") {
        Some(properties) => string_at(properties, DIALOG_KEY),
        None => None,
    }
}

fn has_rel(link: &Value) -> bool
    ensures { result ≡ has_rel (view link.now) }
{
    match string_at(link, "rel") {
        Some(rel) => rel == STORAGE_REL,
        None => false,
    }
}

fn string_at<'a>(value: &'a Value, key: &str) -> Option<&'a str>
    ensures { option_map (λ text. text.now) result ≡ string_at key.now (view value.now) }
{
    match value.get(key) {
        Some(found) => found.as_str(),
        None => None,
    }
}
