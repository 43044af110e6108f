//! The files that commands read.
ghost use Rattle.std.specs.Prelude.{◌≡◌, ◌≢◌, ℕ, List, Option, None, Bool, false, IfOk, IfErr};
ghost use Rattle.std.specs.Prelude.{IfSome, OnOk, OnErr, Some};
ghost use Rattle.std.specs.IoError.{error_kind};
ghost use Rattle.std.specs.declared.io.ErrorKind.TheVariants as error_kinds;
ghost use Rattle.fidl_commands.specs.Files.{IsWritten};

use fidl_streams::Source;
use std::alloc::{AllocError, Global};
use std::io;

/// A file that was read: its name on the command line, and its bytes.
#[derive(Clone, Copy, Debug, Drop)]
pub struct File<'f> {
    pub name: &'f str,
    pub bytes: &'f [u8],
}

/// Where the program reads its files from, and writes them to.
pub trait Files {
    /// What a service reads the standard input by.
    type Input: Source + Drop;

    // The bytes of the file of a name, where they are known.
    ghost bytes_of: { Self → List ℕ → Option (List ℕ) } = { λ _ _. None };

    // The names and the bytes of the files that were written, the newest first, where they are
    // known.
    ghost written: { Self → Option (List (List ℕ × List ℕ)) } = { λ _. None };

    // The bytes of the standard input, where they are known.
    ghost input: { Self → Option (List ℕ) } = { λ _. None };

    // Whether the file of a name is known to be written wherever memory is left for it.
    ghost can_write: { Self → List ℕ → Bool } = { λ _ _. false };

    /// The bytes of a file.
    fn read(&self, alloc: Global, name: &str) -> io::Result<Vec<u8>>
        ensures bytes { IfOk result (λ read. IfSome (bytes_of self.now name.now)
            (λ bytes. read.items ≡ bytes)) }
        ensures fault { IfErr result
            (λ e. error_kind e ≢ error_kinds.OutOfMemory → bytes_of self.now name.now ≡ None) };

    /// The bytes of the standard input.
    fn read_input(&self, alloc: Global) -> io::Result<Vec<u8>>
        ensures bytes { IfOk result (λ read. IfSome (input self.now)
            (λ bytes. read.items ≡ bytes)) }
        ensures fault { IfErr result
            (λ e. error_kind e ≢ error_kinds.OutOfMemory → input self.now ≡ None) };

    /// The standard input, for a service that reads it as it comes.
    fn open_input(&self, alloc: Global) -> Result<Self::Input, AllocError>
        ensures { IfOk result (λ reader. IfSome (input self.now)
            (λ bytes. Self.Input.remaining reader ≡ Some bytes)) };

    /// Writes a file that has just these bytes.
    fn write(&mut self, name: &str, bytes: &[u8]) -> io::Result<()>
        ensures ok { OnOk result
            (IsWritten (written self.old) (written self.new) name.now bytes.now) }
        ensures err { OnErr result (written self.new ≡ written self.old) }
        ensures fault { IfErr result (λ e. error_kind e ≢ error_kinds.OutOfMemory
            → can_write self.old name.now ≡ false) };
}
