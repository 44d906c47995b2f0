//! The token of a key whose state is out of its table.
ghost use Rattle.std.specs.Prelude.{◌≡◌};

use crate::key::Key;
use std::marker::Model;

/// The token of a key whose state was taken out of its table. It must be spent, by `SessionTable::put_back` or
/// `SessionTable::end`.
pub struct Held {
    key: Key,
}

impl Model for Held {
    ghost use Rattle.session_table.specs.declared.key.Key.{Key};

    ghost Value = { Key };

    ghost view = { λ h. h.key };
}

impl Held {
    pub(crate) fn new(key: Key) -> Held
        ensures { result ≡ key }
    {
        Held { key }
    }

    /// The key that is held.
    pub fn key(&self) -> Key
        ensures { result ≡ self.now }
    {
        self.key
    }

    pub(crate) fn spend(self) -> Key
        ensures { result ≡ self }
    {
        let Held { key } = self;
        key
    }
}
