//! What is said of each cause.

ghost use Rattle.std.specs.Prelude.{◌≡◌};
ghost use Rattle.rs_cli.specs.Causes.{note_of_printing};

use crate::command::WordFault;
use crate::note::Note;
use crate::request_fault::RequestFault;
use rs_client::ClientFault;
use rs_config::ConfigFault;
use rs_face::{EntropyFault, SinkFault};
use rs_front::End;
use rs_rules::OpenFault;

impl From<WordFault> for Note {
    ghost use Rattle.std.specs.Prelude.{◌≡◌};
    ghost use Rattle.rs_cli.specs.Causes.{note_of_words};

    ghost from_gives = { λ fault note. note ≡ note_of_words fault };

    fn from(fault: WordFault) -> Note {
        match fault {
            WordFault::Word { index } => Note::Word { index },
            WordFault::Https => Note::Https,
            WordFault::NoMemory => Note::NoMemory,
        }
    }
}

impl From<ClientFault> for Note {
    ghost use Rattle.std.specs.Prelude.{◌≡◌};
    ghost use Rattle.rs_cli.specs.Causes.{note_of_client};

    ghost from_gives = { λ fault note. note ≡ note_of_client fault };

    fn from(fault: ClientFault) -> Note {
        match fault {
            ClientFault::BadRow { index, place } => Note::RowAt { index, place },
            ClientFault::Unlawful { index } => Note::RowUnlawful { index },
            ClientFault::Connected => Note::Connected,
            ClientFault::NotConnected => Note::NotConnected,
            ClientFault::SourceFailed => Note::SourceFailed,
            ClientFault::TooLong => Note::TooLong,
            ClientFault::OutOfScope => Note::OutOfScope,
            ClientFault::Clash { path } => Note::Clash { path },
            ClientFault::NotThere => Note::NotThere,
            ClientFault::NoConflict { n } => Note::NoConflict { n },
            ClientFault::JournalFull => Note::Limit,
            ClientFault::KeeperFailed => Note::KeeperFailed,
            ClientFault::NoMemory => Note::NoMemory,
        }
    }
}

impl From<ConfigFault> for Note {
    ghost use Rattle.std.specs.Prelude.{◌≡◌};
    ghost use Rattle.rs_cli.specs.Causes.{note_of_config};

    ghost from_gives = { λ fault note. note ≡ note_of_config fault };

    fn from(fault: ConfigFault) -> Note {
        match fault {
            ConfigFault::Toml => Note::ConfigToml,
            ConfigFault::Key { key } => Note::Config { key },
            ConfigFault::NoMemory => Note::NoMemory,
        }
    }
}

impl From<OpenFault> for Note {
    ghost use Rattle.std.specs.Prelude.{◌≡◌};
    ghost use Rattle.rs_cli.specs.Causes.{note_of_opening};

    ghost from_gives = { λ fault note. note ≡ note_of_opening fault };

    fn from(fault: OpenFault) -> Note {
        match fault {
            OpenFault::BadRow { index, place } => Note::RowAt { index, place },
            OpenFault::Unlawful { index } => Note::RowUnlawful { index },
            OpenFault::KeeperFailed => Note::KeeperFailed,
            OpenFault::NoMemory => Note::NoMemory,
        }
    }
}

impl From<RequestFault> for Note {
    ghost use Rattle.std.specs.Prelude.{◌≡◌};
    ghost use Rattle.rs_cli.specs.Causes.{note_of_request};

    ghost from_gives = { λ fault note. note ≡ note_of_request fault };

    fn from(fault: RequestFault) -> Note {
        match fault {
            RequestFault::NotGranted => Note::NotThere,
            RequestFault::RecordsFull => Note::Limit,
            RequestFault::TokenTaken { token } => Note::TokenTaken { token },
            RequestFault::KeeperFailed => Note::KeeperFailed,
            RequestFault::NoMemory => Note::NoMemory,
        }
    }
}

impl From<EntropyFault> for Note {
    ghost use Rattle.std.specs.Prelude.{◌≡◌};
    ghost use Rattle.rs_cli.specs.declared.note.Note.TheVariants.{EntropyFailed};

    ghost from_gives = { λ fault note. note ≡ EntropyFailed };

    fn from(fault: EntropyFault) -> Note {
        match fault {
            EntropyFault::Failed => Note::EntropyFailed,
        }
    }
}

impl From<End> for Note {
    ghost use Rattle.std.specs.Prelude.{◌≡◌};
    ghost use Rattle.rs_cli.specs.Causes.{note_of_end};

    ghost from_gives = { λ end note. note ≡ note_of_end end };

    fn from(end: End) -> Note {
        match end {
            End::Closed => Note::Empty,
            End::Limit => Note::Limit,
            End::ReadFault => Note::SourceFailed,
            End::WriteFault => Note::SinkFailed,
            End::NoMemory => Note::NoMemory,
            End::BadMessage { fault } => Note::Message { place: fault.place },
        }
    }
}

/// What is said of a printed line.
pub fn note_of_printing(printed: Result<(), SinkFault>) -> Note
    ensures note { result ≡ note_of_printing printed }
{
    match printed {
        Ok(()) => Note::Empty,
        Err(SinkFault::Failed) => Note::SinkFailed,
        Err(SinkFault::NoMemory) => Note::NoMemory,
    }
}
