//! Tokens of random words.

ghost use Rattle.std.specs.Prelude.{◌≡◌, ◌∷◌, [], IfOk, OnErr};
ghost use Rattle.std.specs.Io.KnownBytes.{prepend_known};
ghost use Rattle.rs_face.specs.Causes.{HasCause};
ghost use Rattle.rs_face.specs.Courses.{course, IsLater};
ghost use Rattle.rs_front.specs.Drawing.{DrawsFew, DrawsOrFails};

use rs_face::{Entropy, EntropyFault};
use rs_scope::Token;

/// The token of the next two words.
pub fn draw_token<E: Entropy>(entropy: &mut E) -> Result<Token, EntropyFault>
    ensures drawn { DrawsOrFails (course E.words E.faults entropy.old entropy.new) result }
    ensures later { IsLater (course E.words E.faults entropy.old entropy.new) }
{
    match draw_words(entropy) {
        Ok((first, second)) => Ok(Token::of_words(first, second)),
        Err(fault) => Err(fault),
    }
}

fn draw_words<E: Entropy>(entropy: &mut E) -> Result<(u64, u64), EntropyFault>
    ensures drawn { IfOk result (λ drawn. E.words entropy.old ≡ prepend_known (drawn.0 ∷ drawn.1 ∷ []) (E.words entropy.new)) }
    ensures few { OnErr result (DrawsFew (course E.words E.faults entropy.old entropy.new)) }
    ensures cause { HasCause (E.faults entropy.old) (E.faults entropy.new) EntropyFault.Failed result }
{
    let first = entropy.word()?;
    let second = entropy.word()?;
    Ok((first, second))
}
