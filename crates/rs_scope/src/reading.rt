//! Texts read as scopes.

ghost use Rattle.std.specs.Prelude.{◌≡◌, ◌+◌, ◌<◌, ◌≤◌, ◌∷◌, [], length, IfOk, IfSome, IsTrue, option_copied, position};
ghost use Rattle.std.specs.List.{slice_split};
ghost use Rattle.rs_scope.specs.Limits.{max_scopes};
ghost use Rattle.rs_scope.specs.Scopes.{is_scopes};
ghost use Rattle.rs_scope.specs.ScopeReadings.{scope_over, scope_reading, scopes_with, scopes_reading, words_reading, some_scopes, scopes_made, is_space, rest_words, ReadsAsScopes, ReadsScope, ReadsWord};

use crate::limits::MAX_SCOPES;
use crate::module::Module;
use crate::scope::{Reach, Scope};
use crate::scope_fault::ScopeFault;
use std::alloc::Global;

/// The scopes of a text, in their order.
pub(crate) fn read_scopes(alloc: Global, text: &[u8]) -> Result<Vec<Scope>, ScopeFault>
    ensures read { ReadsAsScopes (scopes_made result) (scopes_reading text.now) }
    ensures scopes { IfOk result (λ scopes. IsTrue (is_scopes scopes.items)) }
{
    if text.len() > MAX_SCOPES {
        return Err(ScopeFault::Bad {
            place: MAX_SCOPES as u32,
        });
    }
    read_words(alloc, text)
}

// The scopes of the words between the spaces.
fn read_words(alloc: Global, text: &[u8]) -> Result<Vec<Scope>, ScopeFault>
    requires { length text.now ≤ max_scopes }
    ensures { ReadsAsScopes (scopes_made result) (words_reading 0 [] (slice_split is_space text.now)) }
{
    let mut scopes = Vec::new(alloc);
    let mut place = 0;
    let mut rest = text;
    'words: loop {
        let (word, more) = cut(rest);
        push_word(alloc, &mut scopes, word, place)?;
        let Some(after) = more else {
            return some_scopes(scopes);
        };
        place += word.len() as u32 + 1;
        rest = after;
    }
}

// The scopes, unless there is none.
fn some_scopes(scopes: Vec<Scope>) -> Result<Vec<Scope>, ScopeFault>
    ensures { scopes_made result ≡ some_scopes scopes.items }
{
    if scopes.is_empty() {
        return Err(ScopeFault::Bad { place: 0 });
    }
    Ok(scopes)
}

// What stands before the first space, and what follows it.
fn cut(text: &[u8]) -> (&[u8], Option<&[u8]>)
    ensures parts { slice_split is_space text.now ≡ result.0.now ∷ rest_words (option_copied result.1) }
    ensures shorter { IfSome result.1 (λ after. length after.now + length result.0.now + 1 ≡ length text.now) }
{
    match first_space(text) {
        Some(end) => (&text[..end], Some(&text[end + 1..])),
        None => (text, None),
    }
}

fn first_space(text: &[u8]) -> Option<usize>
    ensures { result ≡ position is_space text.now }
{
    text.iter().position(|byte| *byte == b' ')
}

// Appends the scope that the word at the place spells; an empty word, beside a space, spells none.
fn push_word(
    alloc: Global,
    scopes: &mut Vec<Scope>,
    word: &[u8],
    place: u32,
) -> Result<(), ScopeFault>
    ensures word { ReadsWord result place scopes.new.items (scopes_with scopes.old.items word.now) }
{
    if word.is_empty() {
        return Ok(());
    }
    let scope = read_scope(alloc, word, place)?;
    scopes.push(scope)?;
    Ok(())
}

// The scope that the word at the place spells.
fn read_scope(alloc: Global, word: &[u8], place: u32) -> Result<Scope, ScopeFault>
    ensures { ReadsScope result place (scope_reading word.now) }
{
    if let Some(text) = word.strip_suffix(b":rw") {
        return read_scope_over(alloc, text, true, place);
    }
    if let Some(text) = word.strip_suffix(b":r") {
        return read_scope_over(alloc, text, false, place);
    }
    Err(ScopeFault::Bad { place })
}

// The scope over what the text names.
fn read_scope_over(alloc: Global, text: &[u8], write: bool, place: u32) -> Result<Scope, ScopeFault>
    ensures { ReadsScope result place (scope_over text.now write) }
{
    if text == b"*".as_slice() {
        return Ok(Scope {
            reach: Reach::Star,
            write,
        });
    }
    match Module::read(alloc, text)? {
        Some(module) => Ok(Scope {
            reach: Reach::Module(module),
            write,
        }),
        None => Err(ScopeFault::Bad { place }),
    }
}
