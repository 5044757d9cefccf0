// Where files are opened.
ghost use Rattle.std.specs.Prelude.{ℕ, List, Option, None, IfOk};
ghost use Rattle.std.specs.Io.KnownBytes.{Keeps};

use std::io::Read;
use std::rt::Files;
use std::{fs, io};

/// Where files are opened by their paths.
pub trait Folder {
    type File: Read + Drop;

    /// The bytes of the file of a path, where they are known.
    ghost known: { Self → List ℕ → Option (List ℕ) };

    /// Opens the file of the path, of which nothing is read yet.
    fn open(&self, path: &str) -> io::Result<Self::File>
        ensures { IfOk result (λ file. Keeps (known self.now path.now) (Self.File.remaining file)) };
}

/// The files of the system, of which nothing is known.
impl<R: Files> Folder for &R {
    type File = R::File;

    ghost known = { λ _ _. None };

    fn open(&self, path: &str) -> io::Result<R::File> {
        fs::open(*self, path)
    }
}
