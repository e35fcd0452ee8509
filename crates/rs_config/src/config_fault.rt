//! Why a configuration is refused.

ghost use Rattle.std.specs.Prelude.{◌≡◌};

use crate::config_key::ConfigKey;
use rs_path::NoMemory;
use std::alloc::{AllocError, AllocFailed};

/// Why a configuration is refused.
#[derive(Debug, Clone, Copy, PartialEq, Eq)]
pub enum ConfigFault {
    /// The file is no TOML (TOML 1.0.0), or no UTF-8.
    Toml,
    /// This key is the first that is missing, or whose value has a wrong type, is wrong, or is another user's.
    Key { key: ConfigKey },
    /// Memory ran out.
    NoMemory,
}

impl From<ConfigKey> for ConfigFault {
    ghost use Rattle.rs_config.specs.declared.config_fault.ConfigFault.TheVariants.{Key};

    ghost from_gives = { λ key fault. fault ≡ Key key };

    fn from(key: ConfigKey) -> ConfigFault {
        ConfigFault::Key { key }
    }
}

impl From<NoMemory> for ConfigFault {
    ghost use Rattle.rs_config.specs.declared.config_fault.ConfigFault.TheVariants.{NoMemory};

    ghost from_gives = { λ _ fault. fault ≡ NoMemory };

    fn from(_e: NoMemory) -> ConfigFault {
        ConfigFault::NoMemory
    }
}

impl From<AllocError> for ConfigFault {
    ghost use Rattle.rs_config.specs.declared.config_fault.ConfigFault.TheVariants.{NoMemory};

    ghost from_gives = { λ _ fault. fault ≡ NoMemory };

    fn from(_e: AllocError) -> ConfigFault {
        ConfigFault::NoMemory
    }
}

impl<T: Drop> From<AllocFailed<T>> for ConfigFault {
    ghost use Rattle.rs_config.specs.declared.config_fault.ConfigFault.TheVariants.{NoMemory};

    ghost from_gives = { λ _ fault. fault ≡ NoMemory };

    fn from(_e: AllocFailed<T>) -> ConfigFault {
        ConfigFault::NoMemory
    }
}
