// Where files come from.

ghost use Rattle.std.specs.Prelude.{◌≡◌, ℕ, Bool, IsTrue, ◌≤◌, ◌<◌, List, [], length, take, Option, OnOk, IfSome};
ghost use Rattle.vale_outside.specs.Outside.{Rose};

use thiserror::Error;

/// Why a file was not fetched.
#[derive(Clone, Copy, Debug, PartialEq, Eq, Drop, Error)]
pub enum FetchFault {
    /// The store failed.
    #[error("the file can't be read")]
    Failed,
    /// The file has more bytes than were asked for.
    #[error("the file is too long")]
    TooLong,
    /// Memory ran out.
    #[error("out of memory")]
    NoMemory,
}

/// A place that files are fetched from.
pub trait Store {
    /// Whether a name may be asked for. No call changes that.
    ghost may_ask: { Self → List ℕ → Bool };

    /// What a name is told to hold: `None` where nothing is told. No call changes that.
    ghost tells: { Self → List ℕ → Option (List ℕ) };

    /// How many faults there were, at most 2^64 - 1. The count never falls.
    ghost faults: { Self → ℕ };

    /// Puts what a file holds into an empty `into`, at most `limit` bytes. After every answer `into` holds the
    /// first bytes of the file.
    fn fetch(&mut self, name: &str, limit: usize, into: &mut Vec<u8>) -> Result<(), FetchFault>
        requires askable { IsTrue (may_ask self.old name.now) }
        requires empty { into.old.items ≡ [] }

        ensures found { OnOk result (IfSome (tells self.old name.now) (λ held. into.new.items ≡ held)) }
        ensures too_long { result ≡ Err FetchFault.TooLong → IfSome (tells self.old name.now) (λ held. limit < length held) }
        ensures full { result ≡ Err FetchFault.TooLong → length into.new.items ≡ limit }
        ensures failed { result ≡ Err FetchFault.Failed → Rose (faults self.old) (faults self.new) }

        ensures front { IfSome (tells self.old name.now) (λ held. into.new.items ≡ take (length into.new.items) held) }
        ensures within { length into.new.items ≤ limit }

        ensures count { faults self.old ≤ faults self.new }
        ensures same_names { (n : List ℕ) → may_ask self.new n ≡ may_ask self.old n }
        ensures same_files { (n : List ℕ) → tells self.new n ≡ tells self.old n };
}
