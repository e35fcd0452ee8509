//! What is said at the end of a command.

ghost use Rattle.std.specs.Prelude.{◌≡◌, ◌++◌, OnOk, OnErr, decimal};

use itoa::Buffer;
use rs_config::ConfigKey;
use rs_path::{NoMemory, Path};
use rs_scope::Token;

/// What is said about a status. Each variant but `Empty` has a text.
#[derive(Debug, PartialEq, Eq, Drop)]
pub enum Note {
    /// Code 0: nothing.
    Empty,
    /// Code 2: the words are in no form, and the word at this index, counted from 0, is the first wrong one.
    /// Where a word is missing this is the number of words.
    Word { index: u64 },
    /// Code 2: the word behind `connect` is an `https` address.
    Https,
    /// Code 2: the words after `serve` aren't what that command takes.
    Words,
    /// Code 3: the keeper failed.
    KeeperFailed,
    /// Code 5: memory was wanted.
    NoMemory,
    /// Code 8: the token isn't granted; or the view has no such document.
    NotThere,
    /// Code 9: the document has no place in the view, since this one is in its way.
    Clash { path: Path },
    /// Code 10: the row at this index, counted from 0, spells no record or event; the place of its fault in it.
    RowAt { index: u64, place: u32 },
    /// Code 10: the record or event of the row at this index doesn't stand rightly after those before it.
    RowUnlawful { index: u64 },
    /// Code 11: the sink failed.
    SinkFailed,
    /// Code 12: the source failed.
    SourceFailed,
    /// Code 13: no root of the scopes holds the path.
    OutOfScope,
    /// Code 14: `pipe` wrote 1,000 replies; or the command wants to add a record or an event where 4,294,967,295 are.
    Limit,
    /// Code 15: the source of `put` has more than 67,108,864 bytes.
    TooLong,
    /// Code 16: no conflict that isn't resolved has the number.
    NoConflict { n: u64 },
    /// Code 17: the entropy failed.
    EntropyFailed,
    /// Code 17: the token that was drawn is granted already.
    TokenTaken { token: Token },
    /// Code 18: at this place of the input, counted in bytes from 0, is a message that can't be served, or the input ended
    /// inside a message.
    Message { place: u64 },
    /// Code 19: `connect` found a journal that isn't empty.
    Connected,
    /// Code 20: another command found an empty journal.
    NotConnected,
    /// Code 21: the configuration of `serve` is refused at this key.
    Config { key: ConfigKey },
    /// Code 21: the configuration of `serve` is no TOML.
    ConfigToml,
    /// Code 22: a listener failed.
    ListenerFailed,
}

impl Note {
    ghost use Rattle.std.specs.Prelude.{◌≡◌, ◌++◌, OnOk, OnErr};
    ghost use Rattle.rs_cli.specs.Notes.{code_of, note_text};

    /// The code that the program ends with.
    pub fn code(&self) -> u8
        ensures code { result ≡ code_of self.now }
    {
        match self {
            Note::Empty => 0,
            Note::Word { .. } | Note::Https | Note::Words => 2,
            Note::KeeperFailed => 3,
            Note::NoMemory => 5,
            Note::NotThere => 8,
            Note::Clash { .. } => 9,
            Note::RowAt { .. } | Note::RowUnlawful { .. } => 10,
            Note::SinkFailed => 11,
            Note::SourceFailed => 12,
            Note::OutOfScope => 13,
            Note::Limit => 14,
            Note::TooLong => 15,
            Note::NoConflict { .. } => 16,
            Note::EntropyFailed | Note::TokenTaken { .. } => 17,
            Note::Message { .. } => 18,
            Note::Connected => 19,
            Note::NotConnected => 20,
            Note::Config { .. } | Note::ConfigToml => 21,
            Note::ListenerFailed => 22,
        }
    }

    /// Appends the note's text, without a line end. After an error `out` is as before.
    pub fn write(&self, out: &mut Vec<u8>) -> Result<(), NoMemory>
        ensures ok { OnOk result (out.new.items ≡ out.old.items ++ note_text self.now) }
        ensures err { OnErr result (out.new.items ≡ out.old.items) }
    {
        let mut text = Vec::new(*out.allocator());
        self.put(&mut text)?;
        out.extend_from_slice(text.as_slice())?;
        Ok(())
    }

    // Appends the note's text, or a front of it after an error.
    #[tactic(auto, using(std::proofs::Common::append_assoc), unfolding(crate::specs::Notes::note_text))]
    fn put(&self, out: &mut Vec<u8>) -> Result<(), NoMemory>
        ensures ok { OnOk result (out.new.items ≡ out.old.items ++ note_text self.now) }
    {
        match self {
            Note::Empty => {}
            Note::Word { index } => put_numbered(out, b"word ", *index)?,
            Note::Https => put_text(out, b"https is not served")?,
            Note::Words => put_text(out, b"words")?,
            Note::KeeperFailed => put_text(out, b"keeper failed")?,
            Note::NoMemory => put_text(out, b"no memory")?,
            Note::NotThere => put_text(out, b"not there")?,
            Note::Clash { path } => {
                put_text(out, b"clash ")?;
                path.write_target(out)?;
            }
            Note::RowAt { index, place } => {
                put_numbered(out, b"row ", *index)?;
                put_numbered(out, b" at ", u64::from(*place))?;
            }
            Note::RowUnlawful { index } => {
                put_numbered(out, b"row ", *index)?;
                put_text(out, b" unlawful")?;
            }
            Note::SinkFailed => put_text(out, b"sink failed")?,
            Note::SourceFailed => put_text(out, b"source failed")?,
            Note::OutOfScope => put_text(out, b"out of scope")?,
            Note::Limit => put_text(out, b"limit")?,
            Note::TooLong => put_text(out, b"too long")?,
            Note::NoConflict { n } => put_numbered(out, b"no conflict ", *n)?,
            Note::EntropyFailed => put_text(out, b"entropy failed")?,
            Note::TokenTaken { token } => {
                put_text(out, b"token taken ")?;
                put_text(out, &token.digits())?;
            }
            Note::Message { place } => put_numbered(out, b"message at ", *place)?,
            Note::Connected => put_text(out, b"connected")?,
            Note::NotConnected => put_text(out, b"not connected")?,
            Note::Config { key } => {
                put_text(out, b"config ")?;
                put_text(out, key.text().as_bytes())?;
            }
            Note::ConfigToml => put_text(out, b"config toml")?,
            Note::ListenerFailed => put_text(out, b"listener failed")?,
        }
        Ok(())
    }
}

fn put_text(out: &mut Vec<u8>, text: &[u8]) -> Result<(), NoMemory>
    ensures ok { OnOk result (out.new.items ≡ out.old.items ++ text.now) }
{
    out.extend_from_slice(text)?;
    Ok(())
}

fn put_numbered(out: &mut Vec<u8>, text: &[u8], number: u64) -> Result<(), NoMemory>
    ensures ok { OnOk result (out.new.items ≡ out.old.items ++ (text.now ++ decimal number)) }
{
    put_text(out, text)?;
    put_text(out, Buffer::new().format(number).as_bytes())?;
    Ok(())
}
