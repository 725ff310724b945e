//! The outside as traits: texts that are read, files that are put, bytes that are written.

ghost use Rattle.std.specs.Prelude.{◌≡◌, ◌+◌, ◌<◌, ◌≤◌, length, take, true, false, IsSome, IfOk, OnOk, OnErr, IsErrOf, is_some};
ghost use Rattle.std.specs.Io.KnownBytes.{IsAtEnd, append_known, prepend_known};
ghost use Rattle.io_shelf.specs.Outside.{SeenSource, SeenShelf, SeenSink, HasCause, HasPutCause, IsMissing, named, with_file, without_file};

use stg_net::NoMemory;

/// A call to the outside failed.
#[derive(Clone, Copy, Debug, PartialEq, Eq)]
pub struct Failed;

/// Why a file wasn't put.
#[derive(Clone, Copy, Debug, PartialEq, Eq)]
pub enum PutError {
    /// The call failed.
    Failed,
    /// Memory ran out.
    NoMemory,
}

impl From<NoMemory> for PutError {
    ghost use Rattle.io_shelf.specs.declared.outside.PutError.TheVariants as put_error;

    ghost from_gives = { λ _ e. e ≡ put_error.NoMemory };

    fn from(_: NoMemory) -> Self {
        PutError::NoMemory
    }
}

/// Texts by name, one of which is selected and then read piece by piece.
pub trait Source {
    ghost seen: { Self → SeenSource };

    /// Selects the text of that name, all of which is then left. At most eight calls may come.
    fn select(&mut self, name: &str) -> Result<bool, Failed>
        requires { (seen self.old).selects < 8 }

        // With true the text of that name is left, and a form that tells its texts tells it.
        ensures found { result ≡ Ok true
            → (seen self.new).left ≡ named (seen self.old).texts name.now }
        ensures there { result ≡ Ok true
            → IsSome (seen self.old).texts → IsSome (seen self.new).left }

        // With false the texts are told and none has that name. All else stays.
        ensures missing { result ≡ Ok false → IsMissing name.now (seen self.old) }
        ensures same_left { result ≡ Ok false → (seen self.new).left ≡ (seen self.old).left }
        ensures no_fault { result ≡ Ok false → (seen self.new).faults ≡ (seen self.old).faults }

        // After a failure what is left isn't said, but that it is told where it was told before.
        ensures failed { OnErr result
            (is_some (seen self.new).left ≡ is_some (seen self.old).left) }
        ensures cause { HasCause (seen self.old).faults (seen self.new).faults result }
        ensures selects { (seen self.new).selects ≡ (seen self.old).selects + 1 }
        ensures kept { (seen self.new).texts ≡ (seen self.old).texts };

    /// Reads the next bytes of what is left, none only at its end.
    fn read(&mut self, buf: &mut [u8]) -> Result<usize, Failed>
        requires { 0 < length buf.old }
        ensures bytes { IfOk result (λ n.
            (seen self.old).left ≡ prepend_known (take n buf.new) (seen self.new).left) }
        ensures within { IfOk result (λ n. n ≤ length buf.new) }
        ensures end { IfOk result (λ n. n ≡ 0 → IsAtEnd (seen self.new).left) }

        // After a failure what is left isn't said, but that it is told where it was told before.
        ensures failed { OnErr result
            (is_some (seen self.new).left ≡ is_some (seen self.old).left) }
        ensures cause { HasCause (seen self.old).faults (seen self.new).faults result }
        ensures selects { (seen self.new).selects ≡ (seen self.old).selects }
        ensures kept { (seen self.new).texts ≡ (seen self.old).texts };
}

/// Files by name.
pub trait Shelf {
    ghost seen: { Self → SeenShelf };

    /// Sets the bytes of that name.
    fn put(&mut self, name: &str, bytes: &[u8]) -> Result<(), PutError>
        ensures ok { OnOk result
            ((seen self.new).files ≡ with_file (seen self.old).files name.now bytes.now) }

        // After a failure nothing is said of that name, and all others are as before.
        ensures failed { IsErrOf result PutError.Failed
            → without_file (seen self.new).files name.now
            ≡ without_file (seen self.old).files name.now }
        ensures no_memory { IsErrOf result PutError.NoMemory
            → (seen self.new).files ≡ (seen self.old).files }
        ensures cause { HasPutCause (seen self.old).faults (seen self.new).faults result };
}

/// Bytes that are written one after the other.
pub trait Sink {
    ghost seen: { Self → SeenSink };

    /// Appends the first bytes of a piece, at least one, and tells how many.
    fn write(&mut self, bytes: &[u8]) -> Result<usize, Failed>
        requires { 0 < length bytes.now }
        ensures taken { IfOk result (λ n.
            (seen self.new).written ≡ append_known (seen self.old).written (take n bytes.now)) }
        ensures within { IfOk result (λ n. (0 < n) × (n ≤ length bytes.now)) }
        ensures failed { OnErr result ((seen self.new).written ≡ (seen self.old).written) }
        ensures cause { HasCause (seen self.old).faults (seen self.new).faults result };
}
