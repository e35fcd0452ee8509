//! A message, answered.

ghost use Rattle.std.specs.Prelude.{◌≡◌, ◌+◌, ◌++◌, ◌<◌, ◌≤◌, ◌^◌, ℕ, IfOk, true, length};
ghost use Rattle.rs_path.specs.Limits.{max_body};
ghost use Rattle.rs_face.specs.declared.sink.SinkFault.TheVariants as SinkFault;
ghost use Rattle.rs_face.specs.Causes.{HasCause};
ghost use Rattle.rs_face.specs.Courses.{course};
ghost use Rattle.rs_rules.specs.Desks.{ForHistories};
ghost use Rattle.rs_rules.specs.Requests.{is_within_limit};
ghost use Rattle.rs_exchange.specs.declared.asked.Asked.TheVariants.{Desk, Consent};
ghost use Rattle.rs_exchange.specs.Accounts.{IsAccount, IsConfig};
ghost use Rattle.rs_exchange.specs.Asking.{AsksOf, AsksShort};
ghost use Rattle.rs_exchange.specs.Grants.{sent_back, not_granted};
ghost use Rattle.rs_exchange.specs.Replies.{reply_bytes};
ghost use Rattle.rs_exchange.specs.Requests.{asked_line};
ghost use Rattle.rs_exchange.specs.Targets.{line_seen};
ghost use Rattle.rs_front.specs.Due.{is_granted, users_of_desk};
ghost use Rattle.rs_front.specs.Settling.{AsksGrant, Decides, Settles, SettlesDrawn, RepliesTo};

use crate::drawing::draw_token;
use crate::sending::{send, send_fixed};
use rs_exchange::{
    Answer, Asked, Config, Manner, RequestLine, Written, asked_laws, head_room, manner_of,
    read_line, read_request, redirect_to, starved_lines, write_answer,
};
use rs_face::{Entropy, Sink, SinkFault};
use rs_grant::{Ask, GrantWord, Outcome};
use rs_path::{Bytes, NoMemory};
use rs_rules::{Desk, DeskFault, Reply, Request};
use rs_scope::Token;
use rs_wire::{Field, RequestMessage};
use std::alloc::Global;

/// Answers the message, and writes the reply after so many others. Where memory is wanted, the fixed 503 is written, and
/// nothing was taken.
pub(crate) fn reply_to<W: Sink, D: Desk, E: Entropy>(
    alloc: Global,
    config: &Config,
    desk: &mut D,
    entropy: &mut E,
    message: RequestMessage,
    count: u64,
    sink: &mut W,
) -> Result<(), SinkFault>
    requires served { (user : ℕ) → IsAccount config.now.accounts user → D.serves desk.old user }
    requires config { IsConfig config.now }
    requires short { length message.body ≤ max_body }
    requires few { count + 1 < 2 ^ 64 }
    ensures replies { ForHistories (IsAccount config.now.accounts) (D.stands desk.old) (D.stands desk.new) (λ old now.
        RepliesTo (users_of_desk D.quota D.me D.alone desk.old now) config.now count message old
        (D.faults desk.old) (D.faults desk.new) (course E.words E.faults entropy.old entropy.new)
        (course W.written W.faults sink.old sink.new) result) }
    ensures cause { HasCause (W.faults sink.old) (W.faults sink.new) SinkFault.Failed result }
    ensures want { HasCause (W.wants sink.old) (W.wants sink.new) SinkFault.NoMemory result }
    ensures is_later { D.is_later desk.old desk.new }
{
    asked_laws();
    let RequestMessage {
        method,
        target,
        fields,
        body,
        close,
        ..
    } = message;
    let line = read_line(&config.accounts, method.as_slice(), target.as_slice());
    let manner = manner_of(&line, close, count);
    match settle(
        alloc,
        config,
        desk,
        entropy,
        line,
        fields.as_slice(),
        body,
        manner,
    ) {
        Ok(written) => send(sink, written.head.as_slice(), written.body.as_slice()),
        Err(NoMemory) => send_fixed(sink, 503, starved_lines(manner.closing)),
    }
}

// Does what is asked, and makes the reply.
fn settle<D: Desk, E: Entropy>(
    alloc: Global,
    config: &Config,
    desk: &mut D,
    entropy: &mut E,
    line: RequestLine,
    fields: &[Field],
    body: Bytes,
    manner: Manner,
) -> Result<Written, NoMemory>
    requires served { (user : ℕ) → IsAccount config.now.accounts user → D.serves desk.old user }
    requires config { IsConfig config.now }
    requires user { AsksOf (IsAccount config.now.accounts) (asked_line config.now fields.now body (line_seen line)) }
    requires short { AsksShort (asked_line config.now fields.now body (line_seen line)) }
    ensures settles { ForHistories (IsAccount config.now.accounts) (D.stands desk.old) (D.stands desk.new) (λ old now.
        SettlesDrawn (users_of_desk D.quota D.me D.alone desk.old now) manner (asked_line config.now fields.now body (line_seen line.entry)) old
        (D.faults desk.old) (D.faults desk.new) (course E.words E.faults entropy.old entropy.new) result) }
    ensures is_later { D.is_later desk.old desk.new }
{
    let asked = read_request(alloc, config, line, fields, body)?;
    settle_asked(alloc, desk, entropy, asked, manner)
}

fn settle_asked<D: Desk, E: Entropy>(
    alloc: Global,
    desk: &mut D,
    entropy: &mut E,
    asked: Asked,
    manner: Manner,
) -> Result<Written, NoMemory>
    requires served { AsksOf (D.serves desk.old) asked }
    requires short { AsksShort asked }
    ensures settles { (n : ℕ) → AsksOf (λ user. user < n) asked
        → ForHistories (λ user. user < n) (D.stands desk.old) (D.stands desk.new) (λ old now.
        SettlesDrawn (users_of_desk D.quota D.me D.alone desk.old now) manner asked old
        (D.faults desk.old) (D.faults desk.new) (course E.words E.faults entropy.old entropy.new) result) }
    ensures is_later { D.is_later desk.old desk.new }
{
    match asked {
        Asked::Desk { user, request } => settle_request(alloc, desk, user, &request, manner),
        Asked::Now(answer) => reply_with(alloc, manner, answer),
        Asked::Consent { user, ask } => settle_consent(alloc, desk, entropy, user, ask, manner),
    }
}

// What a request comes to. The room for the reply's head is there before the desk is asked, so that only a reply to a read can
// want memory afterwards.
fn settle_request<D: Desk>(
    alloc: Global,
    desk: &mut D,
    user: u32,
    request: &Request,
    manner: Manner,
) -> Result<Written, NoMemory>
    requires served { D.serves desk.old user }
    requires short { is_within_limit request.now ≡ true }
    ensures settles { (n : ℕ) → user < n
        → ForHistories (λ user. user < n) (D.stands desk.old) (D.stands desk.new) (λ old now.
        Settles (users_of_desk D.quota D.me D.alone desk.old now) manner (Desk user request.now) old
        (D.faults desk.old) (D.faults desk.new) result) }
    ensures is_later { D.is_later desk.old desk.new }
{
    let room = head_room(alloc)?;
    let answer = ask_desk(desk, user, request)?;
    write_answer(alloc, room, manner, answer)
}

// What a consent comes to: a token of two random words is to have the scopes that were asked for. What the app is told is made
// before the desk is asked.
fn settle_consent<D: Desk, E: Entropy>(
    alloc: Global,
    desk: &mut D,
    entropy: &mut E,
    user: u32,
    ask: Ask,
    manner: Manner,
) -> Result<Written, NoMemory>
    requires served { D.serves desk.old user }
    ensures settles { (n : ℕ) → user < n
        → ForHistories (λ user. user < n) (D.stands desk.old) (D.stands desk.new) (λ old now.
        SettlesDrawn (users_of_desk D.quota D.me D.alone desk.old now) manner (Consent user ask) old
        (D.faults desk.old) (D.faults desk.new) (course E.words E.faults entropy.old entropy.new) result) }
    ensures is_later { D.is_later desk.old desk.new }
{
    let refused = tell(alloc, manner, &ask, &Outcome::Word(GrantWord::ServerError))?;
    match draw_token(entropy) {
        Ok(token) => grant(alloc, desk, user, ask, token, refused, manner),
        Err(_) => Ok(refused),
    }
}

// Asks that the token has the scopes, and says what the app is told; that it hasn't is at hand.
fn grant<D: Desk>(
    alloc: Global,
    desk: &mut D,
    user: u32,
    ask: Ask,
    token: Token,
    refused: Written,
    manner: Manner,
) -> Result<Written, NoMemory>
    requires served { D.serves desk.old user }
    requires refused { refused.head.items ++ refused.body ≡ reply_bytes manner (not_granted ask) }
    ensures granted { (n : ℕ) → user < n
        → ForHistories (λ user. user < n) (D.stands desk.old) (D.stands desk.new) (λ old now.
        AsksGrant (users_of_desk D.quota D.me D.alone desk.old now) manner user ask token old
        (D.faults desk.old) (D.faults desk.new) result) }
    ensures is_later { D.is_later desk.old desk.new }
{
    let granted = tell(alloc, manner, &ask, &Outcome::Token(token))?;
    let Ask { scopes, .. } = ask;
    let answer = ask_desk(desk, user, &Request::Grant { token, scopes })?;
    if is_granted(&answer) {
        Ok(granted)
    } else {
        Ok(refused)
    }
}

fn is_granted(answer: &Answer) -> bool
    ensures granted { result ≡ is_granted answer.now }
{
    match answer {
        Answer::Decided(Reply::Granted) => true,
        _ => false,
    }
}

// The reply that tells the app this outcome.
fn tell(alloc: Global, manner: Manner, ask: &Ask, outcome: &Outcome) -> Result<Written, NoMemory>
    ensures told { IfOk result (λ written. written.head.items ++ written.body ≡ reply_bytes manner (sent_back ask.now outcome.now)) }
{
    let answer = redirect_to(alloc, ask, outcome)?;
    reply_with(alloc, manner, answer)
}

// The reply that an answer is.
fn reply_with(alloc: Global, manner: Manner, answer: Answer) -> Result<Written, NoMemory>
    ensures bytes { IfOk result (λ written. written.head.items ++ written.body ≡ reply_bytes manner answer) }
{
    let room = head_room(alloc)?;
    write_answer(alloc, room, manner, answer)
}

// What the desk answers.
fn ask_desk<D: Desk>(desk: &mut D, user: u32, request: &Request) -> Result<Answer, NoMemory>
    requires served { D.serves desk.old user }
    requires short { is_within_limit request.now ≡ true }
    ensures decides { (n : ℕ) → user < n
        → ForHistories (λ user. user < n) (D.stands desk.old) (D.stands desk.new) (λ old now.
        Decides (users_of_desk D.quota D.me D.alone desk.old now) (Desk user request.now) old (D.faults desk.old) (D.faults desk.new) result) }
    ensures is_later { D.is_later desk.old desk.new }
{
    match desk.turn(user, request) {
        Ok(turn) => Ok(Answer::Decided(turn.reply)),
        Err(DeskFault::NoMemory) => Err(NoMemory),
    }
}
