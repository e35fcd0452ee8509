//! The limits of scopes, in bytes.

ghost use Rattle.std.specs.Prelude.{◌≡◌};
ghost use Rattle.rs_scope.specs.Limits.{max_module, max_scopes};

/// The name of a module.
pub const MAX_MODULE: usize = 64;

/// The text of scopes.
pub const MAX_SCOPES: usize = 1024;

/// The limits are these numbers. The function does nothing: its contract is the law.
pub fn limit_laws()
    ensures module_name { MAX_MODULE ≡ max_module }
    ensures scopes { MAX_SCOPES ≡ max_scopes }
{}
