//! What is asked where a user grants access (RFC 6749, section 4.2).

ghost use Rattle.std.specs.Prelude.{◌≡◌, [], IfOk, is_some, ◌&&◌, option_map};
ghost use Rattle.rs_grant.specs.Asks.{ask_reading};
ghost use Rattle.rs_grant.specs.Consents.{consent_reading};
ghost use Rattle.rs_grant.specs.Pages.{page_text};
ghost use Rattle.rs_grant.specs.Redirects.{redirect_text};
ghost use Rattle.rs_exchange.specs.declared.answer.Answer.TheVariants.{Made, Redirect};
ghost use Rattle.rs_exchange.specs.declared.asked.Asked.TheVariants.{Now};
ghost use Rattle.rs_exchange.specs.Grants.{asked_page, asked_consent, asked_by_choice, asked_by_method, asked_grant, fits_account, may_enter, sent_back, Refuses};
ghost use Rattle.rs_exchange.specs.Refusals.{refused, with_conditions};
ghost use Rattle.rs_exchange.specs.declared.refusal.Methods.TheVariants.{Grant};
ghost use Rattle.rs_exchange.specs.declared.refusal.Refusal.TheVariants.{NotAllowed};

use crate::account::{Account, Accounts};
use crate::answer::{Answer, Sheet};
use crate::asked::{Asked, refused};
use crate::condition::are_conditions;
use crate::refusal::{Methods, Refusal};
use crate::verb::Verb;
use rs_grant::{
    Ask, Choice, GrantFault, GrantWord, Outcome, consent_page, password_fits, read_ask,
    read_consent, redirect,
};
use rs_path::{Bytes, NoMemory};
use rs_scope::Method;
use rs_wire::Field;
use std::alloc::Global;

/// What is asked with this method, this query and this body where the user with this number grants access: the page, a
/// redirect that refuses, or a consent.
pub(crate) fn read_grant(
    alloc: Global,
    accounts: &Accounts,
    user: u32,
    fields: &[Field],
    verb: Verb,
    query: &[u8],
    body: Bytes,
) -> Result<Asked, NoMemory>
    ensures asked { IfOk result (λ asked. asked ≡ asked_grant accounts.now user fields.now verb query.now body) }
{
    match accounts.at(user) {
        Some(account) => read_account_grant(alloc, account, user, fields, verb, query, body),
        None => Ok(refused(Refusal::NotFound)),
    }
}

fn read_account_grant(
    alloc: Global,
    account: &Account,
    user: u32,
    fields: &[Field],
    verb: Verb,
    query: &[u8],
    body: Bytes,
) -> Result<Asked, NoMemory>
    ensures asked { IfOk result (λ asked. asked ≡ asked_by_method account.now user fields.now verb query.now body) }
{
    match verb {
        Verb::Data(Method::Get) => page_unless_bad(alloc, account, fields, query),
        Verb::Data(Method::Head) => page_unless_bad(alloc, account, fields, query),
        Verb::Data(Method::Put) => Ok(not_allowed()),
        Verb::Data(Method::Delete) => Ok(not_allowed()),
        Verb::Options => Ok(not_allowed()),
        Verb::Post => form_unless_bad(alloc, account, user, fields, body.as_slice()),
        Verb::Other => Ok(not_allowed()),
    }
}

fn not_allowed() -> Asked
    ensures refused { result ≡ refused (NotAllowed Grant) }
{
    refused(Refusal::NotAllowed {
        methods: Methods::Grant,
    })
}

// The page, where the conditions are conditions.
fn page_unless_bad(
    alloc: Global,
    account: &Account,
    fields: &[Field],
    query: &[u8],
) -> Result<Asked, NoMemory>
    ensures asked { IfOk result (λ asked. asked ≡ with_conditions fields.now (asked_page account.now.name (ask_reading query.now))) }
{
    if are_conditions(alloc, fields)? {
        read_page(alloc, account, query)
    } else {
        Ok(refused(Refusal::BadCondition))
    }
}

// What a form asks for, where the conditions are conditions.
fn form_unless_bad(
    alloc: Global,
    account: &Account,
    user: u32,
    fields: &[Field],
    body: &[u8],
) -> Result<Asked, NoMemory>
    ensures asked { IfOk result (λ asked. asked ≡ with_conditions fields.now (asked_consent account.now user (consent_reading body.now))) }
{
    if are_conditions(alloc, fields)? {
        read_form(alloc, account, user, body)
    } else {
        Ok(refused(Refusal::BadCondition))
    }
}

// The page that asks the user for what the query asks.
fn read_page(alloc: Global, account: &Account, query: &[u8]) -> Result<Asked, NoMemory>
    ensures asked { IfOk result (λ asked. asked ≡ asked_page account.now.name (ask_reading query.now)) }
{
    match read_ask(alloc, query) {
        Ok(ask) => show(alloc, account, &ask, Sheet::ConsentPage),
        Err(fault) => refuse(alloc, &fault),
    }
}

// What the form of a page asks for.
fn read_form(alloc: Global, account: &Account, user: u32, body: &[u8]) -> Result<Asked, NoMemory>
    ensures asked { IfOk result (λ asked. asked ≡ asked_consent account.now user (consent_reading body.now)) }
{
    match read_consent(alloc, body) {
        Ok((ask, choice)) => take_choice(alloc, account, user, ask, &choice),
        Err(fault) => refuse(alloc, &fault),
    }
}

// What the user chose of what is asked for.
fn take_choice(
    alloc: Global,
    account: &Account,
    user: u32,
    ask: Ask,
    choice: &Choice,
) -> Result<Asked, NoMemory>
    ensures asked { IfOk result (λ asked. asked ≡ asked_by_choice account.now user ask choice.now) }
{
    match choice {
        Choice::Deny => tell(alloc, &ask, &Outcome::Word(GrantWord::AccessDenied)),
        Choice::Other => tell(alloc, &ask, &Outcome::Word(GrantWord::InvalidRequest)),
        Choice::Allow { password } => {
            if may_enter(account, password) {
                return Ok(Asked::Consent { user, ask });
            }
            show(alloc, account, &ask, Sheet::DeniedPage)
        }
    }
}

// Whether the password is the user's. It is digested also where the user has none, so that this takes as long.
fn may_enter(account: &Account, password: &Option<Bytes>) -> bool
    ensures fits { result ≡ may_enter account.now password.now }
{
    match password {
        Some(password) => fits(account, password.as_slice()),
        None => false,
    }
}

fn fits(account: &Account, password: &[u8]) -> bool
    ensures fits { result ≡ fits_account account.now password.now }
{
    match &account.secret {
        Some(secret) => password_fits(account.salt.as_slice(), secret, password),
        None => {
            password_fits(account.salt.as_slice(), &[0; 32], password);
            false
        }
    }
}

// The page about what is asked for.
fn show(alloc: Global, account: &Account, ask: &Ask, sheet: Sheet) -> Result<Asked, NoMemory>
    ensures shown { IfOk result (λ asked. asked ≡ Now (Made sheet (page_text account.now.name ask.now))) }
{
    let text = page_of(alloc, account, ask)?;
    Ok(Asked::Now(Answer::Made { sheet, text }))
}

fn page_of(alloc: Global, account: &Account, ask: &Ask) -> Result<Bytes, NoMemory>
    ensures page { IfOk result (λ page. page ≡ page_text account.now.name ask.now) }
{
    let mut text = Vec::new(alloc);
    consent_page(alloc, account.name.as_slice(), ask, &mut text)?;
    Ok(Bytes::of(text))
}

// The app is told at once.
fn tell(alloc: Global, ask: &Ask, outcome: &Outcome) -> Result<Asked, NoMemory>
    ensures told { IfOk result (λ asked. asked ≡ Now (sent_back ask.now outcome.now)) }
{
    Ok(Asked::Now(redirect_to(alloc, ask, outcome)?))
}

// Why nothing is asked of the user.
fn refuse(alloc: Global, fault: &GrantFault) -> Result<Asked, NoMemory>
    ensures refused { IfOk result (λ asked. Refuses fault.now asked) }
{
    match fault {
        GrantFault::BadRedirect => Ok(refused(Refusal::BadAddress)),
        GrantFault::Word {
            word,
            redirect,
            state,
        } => {
            let address = address_of(alloc, redirect, &Outcome::Word(*word), state)?;
            Ok(Asked::Now(Answer::Redirect { address }))
        }
        GrantFault::NoMemory => Err(NoMemory),
    }
}

/// The redirect that tells the app this outcome of what it asked for.
pub fn redirect_to(alloc: Global, ask: &Ask, outcome: &Outcome) -> Result<Answer, NoMemory>
    ensures sent { IfOk result (λ answer. answer ≡ sent_back ask.now outcome.now) }
{
    let address = address_of(alloc, &ask.redirect, outcome, &ask.state)?;
    Ok(Answer::Redirect { address })
}

fn address_of(
    alloc: Global,
    to: &Bytes,
    outcome: &Outcome,
    state: &Option<Bytes>,
) -> Result<Bytes, NoMemory>
    ensures address { IfOk result (λ address. address ≡ redirect_text to.now outcome.now state.now) }
{
    let mut address = Vec::new(alloc);
    redirect(alloc, to, outcome, state, &mut address)?;
    Ok(Bytes::of(address))
}
