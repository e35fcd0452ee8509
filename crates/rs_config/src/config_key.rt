//! The keys of the configuration file.

ghost use Rattle.std.specs.Prelude.{◌≡◌};
ghost use Rattle.std.specs.Str.{bytes_eq};
ghost use Rattle.std.specs.List.{list_any};
ghost use Rattle.rs_config.specs.ConfigKeys.{config_key_text, is_known};

/// A key of the configuration file.
#[derive(Debug, Clone, Copy, PartialEq, Eq)]
pub enum ConfigKey {
    /// `base`: the server's own address.
    Base,
    /// `listen`: where the server listens.
    Listen,
    /// `wait`: how long a read or a write of a connection may wait, in seconds.
    Wait,
    /// `user`: the tables of the users.
    User,
    /// `name` of a user.
    Name,
    /// `file` of a user: where the rows are kept.
    File,
    /// `salt` of a user: what stands before the password where its digest is made.
    Salt,
    /// `secret` of a user: the SHA-256 of the salt followed by the password.
    Secret,
    /// `quota` of a user, in bytes.
    Quota,
}

/// The keys that stand at the top of the file.
pub const TOP_KEYS: [ConfigKey; 4] = [
    ConfigKey::Base,
    ConfigKey::Listen,
    ConfigKey::Wait,
    ConfigKey::User,
];

/// The keys of a user.
pub const USER_KEYS: [ConfigKey; 5] = [
    ConfigKey::Name,
    ConfigKey::File,
    ConfigKey::Salt,
    ConfigKey::Secret,
    ConfigKey::Quota,
];

impl ConfigKey {
    /// The key as it stands in the file.
    pub fn text(self) -> &'static str
        ensures text { result.now ≡ config_key_text self }
    {
        match self {
            ConfigKey::Base => "base",
            ConfigKey::Listen => "listen",
            ConfigKey::Wait => "wait",
            ConfigKey::User => "user",
            ConfigKey::Name => "name",
            ConfigKey::File => "file",
            ConfigKey::Salt => "salt",
            ConfigKey::Secret => "secret",
            ConfigKey::Quota => "quota",
        }
    }
}

/// Whether the text is one of these keys.
pub(crate) fn is_known(known: &[ConfigKey], text: &str) -> bool
    ensures known { result ≡ is_known known.now text.now }
{
    known.iter().any(|key| is_key(*key, text))
}

fn is_key(key: ConfigKey, text: &str) -> bool
    ensures same { result ≡ bytes_eq (config_key_text key) text.now }
{
    key.text() == text
}
