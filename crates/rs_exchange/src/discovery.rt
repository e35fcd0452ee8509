//! What is asked of discovery (RFC 7033, section 4).

ghost use Rattle.std.specs.Prelude.{◌≡◌, [], ◌∷◌, ◌++◌, IfOk, OnOk, true};
ghost use Rattle.std.specs.List.{list_all};
ghost use Rattle.rs_finger.specs.Answers.{finger_answer};
ghost use Rattle.rs_path.specs.Users.{is_user};
ghost use Rattle.rs_exchange.specs.Accounts.{IsConfig, names_of};
ghost use Rattle.rs_exchange.specs.Discoveries.{asked_account, asked_discovery};
ghost use Rattle.rs_exchange.specs.Refusals.{refused, with_conditions};
ghost use Rattle.rs_exchange.specs.declared.refusal.Methods.TheVariants.{Discovery};
ghost use Rattle.rs_exchange.specs.declared.refusal.Refusal.TheVariants.{NotAllowed};

use crate::account::{Account, Config};
use crate::answer::{Answer, Sheet};
use crate::asked::{Asked, refused};
use crate::condition::are_conditions;
use crate::refusal::{Methods, Refusal};
use crate::verb::Verb;
use rs_finger::{FingerFault, Names, answer_finger};
use rs_path::{Bytes, NoMemory};
use rs_scope::Method;
use rs_wire::Field;
use std::alloc::Global;

/// What is asked with this method and this query: the account that the query names, in the answer itself.
pub(crate) fn read_discovery(
    alloc: Global,
    config: &Config,
    fields: &[Field],
    verb: Verb,
    query: &[u8],
) -> Result<Asked, NoMemory>
    requires config { IsConfig config.now }
    ensures asked { IfOk result (λ asked. asked ≡ asked_discovery config.now fields.now verb query.now) }
{
    match verb {
        Verb::Data(Method::Get) => find_unless_bad(alloc, config, fields, query),
        Verb::Data(Method::Head) => find_unless_bad(alloc, config, fields, query),
        Verb::Data(Method::Put) => Ok(not_allowed()),
        Verb::Data(Method::Delete) => Ok(not_allowed()),
        Verb::Options => Ok(Asked::Now(Answer::Preflight)),
        Verb::Post => Ok(not_allowed()),
        Verb::Other => Ok(not_allowed()),
    }
}

fn not_allowed() -> Asked
    ensures refused { result ≡ refused (NotAllowed Discovery) }
{
    refused(Refusal::NotAllowed {
        methods: Methods::Discovery,
    })
}

// The account that the query names, where the conditions are conditions.
fn find_unless_bad(
    alloc: Global,
    config: &Config,
    fields: &[Field],
    query: &[u8],
) -> Result<Asked, NoMemory>
    requires config { IsConfig config.now }
    ensures found { IfOk result (λ asked. asked ≡ with_conditions fields.now (asked_account config.now query.now)) }
{
    if are_conditions(alloc, fields)? {
        find(alloc, config, query)
    } else {
        Ok(refused(Refusal::BadCondition))
    }
}

// The account that the query names.
fn find(alloc: Global, config: &Config, query: &[u8]) -> Result<Asked, NoMemory>
    requires config { IsConfig config.now }
    ensures found { IfOk result (λ asked. asked ≡ asked_account config.now query.now) }
{
    let users = names_of(alloc, config.accounts.as_slice())?;
    let mut text = Vec::new(alloc);
    match answer_finger(alloc, &config.base, &config.host, &users, query, &mut text) {
        Ok(()) => Ok(Asked::Now(Answer::Made {
            sheet: Sheet::Description,
            text: Bytes::of(text),
        })),
        Err(FingerFault::NoResource) => Ok(refused(Refusal::BadResource)),
        Err(FingerFault::BadResource) => Ok(refused(Refusal::BadResource)),
        Err(FingerFault::Unknown) => Ok(refused(Refusal::NotFound)),
        Err(FingerFault::NoLink) => Ok(refused(Refusal::NotFound)),
        Err(FingerFault::NoMemory) => Err(NoMemory),
    }
}

// The names of the users.
fn names_of(alloc: Global, accounts: &[Account]) -> Result<Names, NoMemory>
    ensures names { IfOk result (λ names. names ≡ names_of accounts.now) }
{
    let mut names = Names::new(alloc);
    for account in accounts {
        push_name(&mut names, account)?;
    }
    Ok(names)
}

fn push_name(names: &mut Names, account: &Account) -> Result<(), NoMemory>
    ensures ok { OnOk result (names.new ≡ names.old ++ account.now.name ∷ []) }
{
    names.push(account.name.copy()?)
}
