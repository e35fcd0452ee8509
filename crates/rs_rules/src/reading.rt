//! Texts read as lists of entity tags.

ghost use Rattle.std.specs.Prelude.{◌≡◌, ◌+◌, ◌<◌, ◌≤◌, ◌^◌, ◌∷◌, [], false, not, length, take, drop, Some, None, Ok, Err, IfSome, position, option_copied, if◌then◌else◌};
ghost use Rattle.std.specs.List.{list_all};
ghost use Rattle.rs_rules.specs.CondReadings.{is_blank, is_quote, is_tag_byte, cut_items, item_len, rest_items, closed_at, quoted_text, is_marked, unmarked, cond_item_reading, tags_reading, listed, ReadsAsCond, AddsItem};

use crate::cond::Cond;
use crate::cond_fault::CondFault;
use crate::entity_tag::EntityTag;
use crate::tag_list::TagList;
use rs_path::Tag;
use std::alloc::Global;

/// The entity tags of a text.
pub(crate) fn read_tags(alloc: Global, text: &[u8]) -> Result<Cond, CondFault>
    requires short { length text.now < 2 ^ 32 }
    ensures read { ReadsAsCond result (listed (tags_reading text.now)) }
{
    let mut tags = TagList::new(alloc);
    let mut some = false;
    let mut place: u32 = 0;
    let mut rest = text;
    'items: loop {
        let (item, more) = cut(rest);
        let found = add_item(alloc, &mut tags, item, place)?;
        some = some || found;
        let Some(after) = more else {
            return finished(some, tags);
        };
        place += item.len() as u32 + 1;
        rest = after;
    }
}

// The condition of the tags; whether there was an item at all is the flag.
fn finished(some: bool, tags: TagList) -> Result<Cond, CondFault>
    ensures read { ReadsAsCond result (listed (if some then Ok tags else Err 0)) }
{
    if some {
        Ok(Cond::Tags(tags))
    } else {
        Err(CondFault::Bad { place: 0 })
    }
}

// What stands before the first comma that isn't in quotes, and what follows it.
fn cut(text: &[u8]) -> (&[u8], Option<&[u8]>)
    ensures parts { cut_items false text.now ≡ result.0.now ∷ rest_items (option_copied result.1) }
    ensures within { length result.0.now ≤ length text.now }
    ensures shorter { IfSome result.1 (λ after. length result.0.now + length after.now + 1 ≤ length text.now) }
{
    let end = item_len(text);
    if end < text.len() {
        (&text[..end], Some(&text[end + 1..]))
    } else {
        (text, None)
    }
}

fn item_len(text: &[u8]) -> usize
    ensures len { result ≡ item_len false text.now }
{
    let mut quoted = false;
    for (i, byte) in text.iter().enumerate() {
        if *byte == b',' && !quoted {
            return i;
        }
        quoted = quoted != (*byte == b'"');
    }
    text.len()
}

// Adds the tag of an item that begins at the place; whether there is one.
fn add_item(alloc: Global, tags: &mut TagList, item: &[u8], place: u32) -> Result<bool, CondFault>
    requires short { place + length item.now < 2 ^ 32 }
    ensures adds { AddsItem result tags.old tags.new place (cond_item_reading item.now) }
{
    let Some(start) = first_word(item) else {
        return Ok(false);
    };
    let word = &item[start..];
    let Some(text) = tag_text(word) else {
        return Err(CondFault::Bad {
            place: place + start as u32,
        });
    };
    match Tag::read(alloc, text)? {
        Some(tag) => {
            tags.push(EntityTag {
                weak: is_marked(word),
                tag,
            })?;
            Ok(true)
        }
        None => Ok(true),
    }
}

fn first_word(item: &[u8]) -> Option<usize>
    ensures { result ≡ position (λ byte. not (is_blank byte)) item.now }
{
    item.iter()
        .position(|byte| !(*byte == b' ' || *byte == b'\t'))
}

fn is_marked(item: &[u8]) -> bool
    ensures { result ≡ is_marked item.now }
{
    match item {
        [first, second, ..] => *first == b'W' && *second == b'/',
        _ => false,
    }
}

// The text of an entity tag, weak or not.
fn tag_text(item: &[u8]) -> Option<&[u8]>
    ensures text { option_copied result ≡ quoted_text (unmarked item.now) }
{
    if is_marked(item) {
        quoted_text(&item[2..])
    } else {
        quoted_text(item)
    }
}

// The text between quotes.
fn quoted_text(item: &[u8]) -> Option<&[u8]>
    ensures text { option_copied result ≡ quoted_text item.now }
{
    match item {
        [b'"', rest @ ..] => closed_text(rest),
        _ => None,
    }
}

// The text before the closing quote.
fn closed_text(rest: &[u8]) -> Option<&[u8]>
    ensures text { option_copied result ≡ closed_at (position is_quote rest.now) rest.now }
{
    let end = first_quote(rest)?;
    let text = &rest[..end];
    if has_tag_bytes(text) && has_blanks(&rest[end + 1..]) {
        Some(text)
    } else {
        None
    }
}

fn first_quote(text: &[u8]) -> Option<usize>
    ensures { result ≡ position is_quote text.now }
{
    text.iter().position(|byte| *byte == b'"')
}

fn has_tag_bytes(text: &[u8]) -> bool
    ensures { result ≡ list_all is_tag_byte text.now }
{
    text.iter().all(|byte| *byte == 0x21 || (0x23 <= *byte && *byte <= 0x7E) || 0x80 <= *byte)
}

fn has_blanks(text: &[u8]) -> bool
    ensures { result ≡ list_all is_blank text.now }
{
    text.iter().all(|byte| *byte == b' ' || *byte == b'\t')
}
