//! The directory of an index: its files, and what may be left if the program stops.
ghost use Rattle.std.specs.Prelude.{◌≡◌, ◌≤◌, [], ℕ, IfOk, IsSome, None, OnOk, Some};
ghost use Rattle.ii_directory.specs.Directory.{Elapses, Elsewhere, Files, IsFinished, IsListing, IsOpened, IsPut, IsRefusal, IsRenamed, MayBeRenamed, Obeys, Same, found_bytes, is_obeyed};

use crate::faults::DirectoryFault;
use crate::name::Name;
use crate::read_at::ReadAt;
use std::alloc::Global;
use std::io::Write;

/// Reads, writes, renames and removes complete files, and writes files piece by piece.
///
/// The clauses hold for directories that behave as documented (`is_known`). Of a folder this is proved if its
/// file system does (`Folder`).
///
/// After an error, a stop may leave other files than `read` returns. Open the directory again before
/// writing to it.
pub trait Directory {
    /// A file that was opened.
    type File: ReadAt + Drop;

    /// A file that is being written. It has no name yet.
    type NewFile: Write + Drop;

    // The directory behaves as documented, and no call failed.
    ghost is_known: { Self → Type 0 };

    // The directory may refuse calls.
    ghost may_refuse: { Self → Type 0 };

    // The files and their bytes. A stop now leaves exactly these.
    ghost seen: { Self → Files };

    // The time, as a number that never decreases.
    ghost moment: { Self → ℕ };

    // What a stop at or after the given time may have left, during a call or between calls.
    ghost left_since: { Self → ℕ → Files → Type 0 };

    /// Returns the bytes of a file, or `None` if there is no such file.
    fn read(&self, alloc: Global, name: Name) -> Result<Option<Vec<u8>>, DirectoryFault>
        ensures found { is_known self.now → IfOk result (λ found. found_bytes found ≡ seen self.now name) }
        ensures obeys { is_obeyed IsRefusal (may_refuse self.now) result };

    /// Opens a file, which is read by ranges. Returns `None` if there is no such file.
    ///
    /// The open file has the bytes that it had when it was opened, also after it is renamed or removed.
    fn open(&self, alloc: Global, name: Name) -> Result<Option<Self::File>, DirectoryFault>
        ensures opened { is_known self.now → IfOk result (λ found. IsOpened Self.File.bytes (seen self.now name) found) }
        ensures obeys { is_obeyed IsRefusal (may_refuse self.now) result };

    /// Returns the names of all files, each once. Files with other names than those of `Name` aren't among them.
    fn list(&self, alloc: Global) -> Result<Vec<Name>, DirectoryFault>
        ensures listed { is_known self.now → IfOk result (λ names. IsListing names.items (seen self.now)) }
        ensures obeys { is_obeyed IsRefusal (may_refuse self.now) result };

    /// Writes a complete file, replacing any old one, and flushes it. A stop may leave any bytes in the
    /// file.
    fn write(&mut self, name: Name, bytes: &[u8]) -> Result<(), DirectoryFault>
        ensures known { is_known self.old → OnOk result (is_known self.new) }
        ensures obeys { Obeys IsRefusal (may_refuse self.old) (may_refuse self.new) result }
        ensures written { is_known self.old → OnOk result (IsPut name (Some bytes.now) (seen self.old) (seen self.new)) }
        ensures time { is_known self.old → Elapses (moment self.old) (moment self.new) (left_since self.old) (left_since self.new) (Elsewhere name (seen self.old)) };

    /// Creates an empty file without a name, which is written piece by piece. What is left in a folder of one that isn't
    /// finished is removed when the folder is locked again (`FolderLock`).
    fn create(&self, alloc: Global) -> Result<Self::NewFile, DirectoryFault>
        ensures created { is_known self.now → IfOk result (λ file. Self.NewFile.contents file ≡ Some []) }
        ensures obeys { is_obeyed IsRefusal (may_refuse self.now) result };

    /// Returns why a write to a file that was created failed last.
    fn write_fault(&self, file: &Self::NewFile) -> DirectoryFault
        ensures obeys { IsRefusal result → may_refuse self.now };

    /// Gives a file that was created its name, replacing any old file of that name, and flushes it. A stop may leave any
    /// bytes in the file of that name.
    fn finish(&mut self, name: Name, file: Self::NewFile) -> Result<(), DirectoryFault>
        ensures known { is_known self.old → OnOk result (is_known self.new) }
        ensures obeys { Obeys IsRefusal (may_refuse self.old) (may_refuse self.new) result }
        ensures finished { is_known self.old → OnOk result (IsFinished name (Self.NewFile.contents file) (seen self.old) (seen self.new)) }
        ensures time { is_known self.old → Elapses (moment self.old) (moment self.new) (left_since self.old) (left_since self.new) (Elsewhere name (seen self.old)) };

    /// Atomically renames a file, replacing any file of that name. A stop leaves the state before or after.
    fn rename(&mut self, from: Name, to: Name) -> Result<(), DirectoryFault>
        ensures known { is_known self.old → OnOk result (is_known self.new) }
        ensures obeys { IsSome (seen self.old from) → Obeys IsRefusal (may_refuse self.old) (may_refuse self.new) result }
        ensures renamed { is_known self.old → OnOk result (IsRenamed from to (seen self.old) (seen self.new)) }
        ensures time { is_known self.old → Elapses (moment self.old) (moment self.new) (left_since self.old) (left_since self.new) (MayBeRenamed from to (seen self.old)) };

    /// Removes a file, if it exists. A stop leaves the state before or after.
    fn remove(&mut self, name: Name) -> Result<(), DirectoryFault>
        ensures known { is_known self.old → OnOk result (is_known self.new) }
        ensures obeys { Obeys IsRefusal (may_refuse self.old) (may_refuse self.new) result }
        ensures removed { is_known self.old → OnOk result (IsPut name None (seen self.old) (seen self.new)) }
        ensures time { is_known self.old → Elapses (moment self.old) (moment self.new) (left_since self.old) (left_since self.new) (Elsewhere name (seen self.old)) };

    // A stop now counts as a stop since any earlier time.
    ghost counts_now: { (d : Self) (t : ℕ) → is_known d → t ≤ moment d → left_since d t (seen d) };

    // A stop since now, before any further call, leaves the current files.
    ghost only_now: { (d : Self) (c : Files) → is_known d → left_since d (moment d) c → Same (seen d) c };
}
