//! What the command `serve` is told: by its words, and by its configuration file.
#![tactic(auto)]

mod config_fault;
mod config_key;
mod laws;
mod origin;
mod reading;
mod secret;
mod serve_config;
mod served;
mod settings;
mod unknown;
mod user_settings;
mod values;
mod words;

pub use config_fault::ConfigFault;
pub use config_key::ConfigKey;
pub use laws::config_laws;
pub use origin::{host_of, is_origin};
pub use reading::read_config;
pub use secret::read_secret;
pub use serve_config::{Room, ServeConfig};
pub use settings::{DEFAULT_WAIT, MAX_USERS, MAX_WAIT};
pub use user_settings::USUAL_QUOTA;
pub use words::{MAX_WORKERS, ServeFault, ServeWords, read_serve, serve_help_text};
