//! Laws of configurations. Each function does nothing: its contract is the law.

ghost use Rattle.std.specs.Prelude.{◌≡◌, ◌≤◌, ℕ, List, length, Ok, Err};
ghost use Rattle.clap.specs.Words.{Text};
ghost use Rattle.rs_config.specs.declared.serve_config.ServeConfig.{ServeConfig};
ghost use Rattle.rs_config.specs.declared.config_fault.ConfigFault.{ConfigFault};
ghost use Rattle.rs_config.specs.declared.config_fault.ConfigFault.TheVariants.{NoMemory};
ghost use Rattle.rs_config.specs.declared.words.ServeFault.{ServeFault};
ghost use Rattle.rs_config.specs.declared.words.ServeFault.TheVariants.{NoMemory as NoMemoryForWords};
ghost use Rattle.rs_config.specs.declared.words.ServeWords.{ServeWords};
ghost use Rattle.rs_config.specs.ConfigReadings.{ReadsConfig};
ghost use Rattle.rs_config.specs.ServeWordings.{ReadsServe};

/// A configuration that was read has a room for each account and at most 1,000 of them, and what a file says of the accounts
/// is the same whenever it is read. A file and words that were read once are refused only where memory runs out.
pub fn config_laws()
    ensures rooms { (text : List ℕ) (config : ServeConfig) → ReadsConfig text (Ok config) → length config.rooms.items ≡ length config.front.accounts }
    ensures few { (text : List ℕ) (config : ServeConfig) → ReadsConfig text (Ok config) → length config.front.accounts ≤ 1000 }
    ensures one { (text : List ℕ) (config other : ServeConfig) → ReadsConfig text (Ok config) → ReadsConfig text (Ok other) → other.front ≡ config.front }
    ensures refused { (text : List ℕ) (config : ServeConfig) (fault : ConfigFault) → ReadsConfig text (Ok config) → ReadsConfig text (Err fault) → fault ≡ NoMemory }
    ensures words { (words : List Text) (read : ServeWords) (fault : ServeFault) → ReadsServe words (Ok read) → ReadsServe words (Err fault) → fault ≡ NoMemoryForWords }
{}
