//! The target of a discovery query.

ghost use Rattle.std.specs.Prelude.{◌≡◌, ◌++◌, IfOk, OnOk, OnErr};
ghost use Rattle.rs_finger.specs.Queries.{finger_target, target_query, resource_of};

use rs_form::append_field;
use rs_path::NoMemory;
use std::alloc::Global;

/// Where discovery is asked for, without the query (RFC 7033, section 4).
const PLACE: &[u8] = b"/.well-known/webfinger?";

/// Appends the target that asks for the storage of an account, as `alice@localhost`.
///
/// Where memory runs out, `out` is as before. RFC 7033, section 4.1.
pub fn finger_target(alloc: Global, account: &[u8], out: &mut Vec<u8>) -> Result<(), NoMemory>
    ensures ok { OnOk result (out.new.items ≡ out.old.items ++ finger_target account.now) }
    ensures err { OnErr result (out.new.items ≡ out.old.items) }
{
    let target = target_of(alloc, account)?;
    out.extend_from_slice(target.as_slice())?;
    Ok(())
}

fn target_of(alloc: Global, account: &[u8]) -> Result<Vec<u8>, NoMemory>
    ensures { IfOk result (λ target. target.items ≡ finger_target account.now) }
{
    let query = query_of(alloc, account)?;
    let mut target = Vec::from_slice(alloc, PLACE)?;
    target.extend_from_slice(query.as_slice())?;
    Ok(target)
}

fn query_of(alloc: Global, account: &[u8]) -> Result<Vec<u8>, NoMemory>
    ensures { IfOk result (λ query. query.items ≡ target_query account.now) }
{
    let resource = resource_of(alloc, account)?;
    let mut query = Vec::new(alloc);
    append_field(&mut query, "resource", resource.as_slice())?;
    Ok(query)
}

// The account as a URI.
fn resource_of(alloc: Global, account: &[u8]) -> Result<Vec<u8>, NoMemory>
    ensures { IfOk result (λ resource. resource.items ≡ resource_of account.now) }
{
    let mut resource = Vec::from_slice(alloc, b"acct:")?;
    resource.extend_from_slice(account)?;
    Ok(resource)
}
