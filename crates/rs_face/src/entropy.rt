//! Where random words come from.
ghost use Rattle.std.specs.Prelude.{◌≡◌, ℕ, List, [], ◌∷◌, Option, OnOk, OnErr, IfOk};
ghost use Rattle.std.specs.Io.KnownBytes.{prepend_known};
ghost use Rattle.rs_face.specs.Causes.{HasCause};

/// Why no word was drawn.
#[derive(Clone, Copy, Debug, PartialEq, Eq)]
pub enum EntropyFault {
    /// The entropy failed, and counted a fault.
    Failed,
}

/// Random words, as the system's random device gives them.
pub trait Entropy {
    /// The words that are left, where the entropy tells them.
    ghost words: { Self → Option (List ℕ) };

    /// How many draws failed so far.
    ghost faults: { Self → ℕ };

    /// Draws the next word. A failed draw takes none.
    fn word(&mut self) -> Result<u64, EntropyFault>
        ensures ok { IfOk result (λ word.
            words self.old ≡ prepend_known (word ∷ []) (words self.new)) }
        ensures err { OnErr result (words self.new ≡ words self.old) }
        ensures cause { HasCause (faults self.old) (faults self.new) EntropyFault.Failed result }
        ensures quiet { OnOk result (faults self.new ≡ faults self.old) };
}
