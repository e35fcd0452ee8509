//! The texts of `--help` and `--version`.

ghost use Rattle.std.specs.Prelude.{◌≡◌};
ghost use Rattle.rs_cli.specs.Texts.{help_text, version_text};

/// What `--help` prints: the forms of the words, a line each. It has no last line end.
#[tactic(auto, unfolding(crate::specs::Texts::help_text))]
pub fn help_text() -> &'static [u8]
    ensures text { result.now ≡ help_text }
{
    b"rs pipe USER TOKEN SCOPES [QUOTA [BASE SALT SECRET]]\nrs grant SCOPES\nrs revoke TOKEN\nrs connect ROOT TOKEN SCOPES\nrs put PATH TYPE\nrs get PATH\nrs rm PATH\nrs ls FOLDER\nrs status\nrs conflicts\nrs resolve N keep|drop\nrs serve --config FILE [--workers N]\nrs --help\nrs --version"
}

/// What `--version` prints. It has no line end.
#[tactic(auto, unfolding(crate::specs::Texts::version_text))]
pub fn version_text() -> &'static [u8]
    ensures text { result.now ≡ version_text }
{
    b"rs 0.1.0"
}
