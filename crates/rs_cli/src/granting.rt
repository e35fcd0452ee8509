//! The commands `grant` and `revoke`.

ghost use Rattle.rs_face.specs.Courses.{course};
ghost use Rattle.rs_cli.specs.Grants.{RevokeEnds, GrantEnds};
ghost use Rattle.rs_cli.specs.Asking.{RevokedOr, GrantedOr};

use crate::asking::{ask, open_rows};
use crate::note::Note;
use crate::printing::print_line;
use crate::reading::DEFAULT_QUOTA;
use rs_face::{Entropy, Keeper, Sink};
use rs_front::draw_token;
use rs_rules::{Request, Tree};
use rs_scope::{Scopes, Token};
use std::alloc::Global;

/// `grant SCOPES`: opens the rows, draws two words, grants their token these scopes, and prints the token's 32 digits and a
/// line end.
///
/// The note says how it ended. The rows are opened first: `RowAt` and `RowUnlawful` name the first row that is wrong. Then
/// the words are drawn, and `EntropyFailed` comes only where the entropy's count of faults rose. `Limit` comes where
/// 4,294,967,295 records are there, and then `TokenTaken` where the token drawn is granted. `KeeperFailed` comes only where
/// the keeper's count of faults rose, `SinkFailed` only where the sink's did. Where the token is granted the rows have
/// grown by the row of its record, also where it could not be printed whole. Else they are as before, and nothing is printed.
pub fn grant<T: Tree, K: Keeper, E: Entropy, W: Sink>(
    alloc: Global,
    scopes: Scopes,
    keeper: &mut K,
    entropy: &mut E,
    sink: &mut W,
) -> Note
    ensures ends { GrantEnds scopes
        (course K.rows K.faults keeper.old keeper.new)
        (course E.words E.faults entropy.old entropy.new)
        (course W.written W.faults sink.old sink.new)
        result }
{
    match grant_token::<T, K, E>(alloc, scopes, keeper, entropy) {
        Ok(token) => print_line(sink, &token.digits()),
        Err(note) => note,
    }
}

/// `revoke TOKEN`: opens the rows, takes the token's scopes away, and prints `revoked` and a line end.
///
/// The note says how it ended. The rows are opened first: `RowAt` and `RowUnlawful` name the first row that is wrong.
/// `NotThere` comes where the token isn't granted, and then `Limit` where 4,294,967,295 records are there. `KeeperFailed`
/// comes only where the keeper's count of faults rose, `SinkFailed` only where the sink's did. Where the scopes are taken
/// away the rows have grown by the row of the record, also where it could not be printed whole. Else they are as before,
/// and nothing is printed.
pub fn revoke<T: Tree, K: Keeper, W: Sink>(
    alloc: Global,
    token: Token,
    keeper: &mut K,
    sink: &mut W,
) -> Note
    ensures ends { RevokeEnds token
        (course K.rows K.faults keeper.old keeper.new)
        (course W.written W.faults sink.old sink.new)
        result }
{
    match revoke_token::<T, K>(alloc, token, keeper) {
        Ok(()) => print_line(sink, b"revoked"),
        Err(note) => note,
    }
}

// Grants a token of two words, or says why not; then the rows are as before.
fn grant_token<T: Tree, K: Keeper, E: Entropy>(
    alloc: Global,
    scopes: Scopes,
    keeper: &mut K,
    entropy: &mut E,
) -> Result<Token, Note>
    ensures granted { GrantedOr scopes
        (course K.rows K.faults keeper.old keeper.new)
        (course E.words E.faults entropy.old entropy.new)
        result }
{
    let mut state = open_rows::<T, K>(alloc, keeper, DEFAULT_QUOTA)?;
    let token = draw_token(entropy)?;
    let request = Request::Grant { token, scopes };
    ask(&mut state, keeper, &request, token)?;
    Ok(token)
}

// Takes the token's scopes away, or says why not; then the rows are as before.
fn revoke_token<T: Tree, K: Keeper>(alloc: Global, token: Token, keeper: &mut K) -> Result<(), Note>
    ensures revoked { RevokedOr token
        (course K.rows K.faults keeper.old keeper.new)
        result }
{
    let mut state = open_rows::<T, K>(alloc, keeper, DEFAULT_QUOTA)?;
    let request = Request::Revoke { token };
    ask(&mut state, keeper, &request, token)?;
    Ok(())
}
