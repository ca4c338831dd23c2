//! The calls of a file system on the files of one folder, whose changes are durable only once they are flushed.
ghost use Rattle.std.specs.Prelude.{◌≡◌, ◌≤◌, ◌↔◌, [], ℕ, IfOk, IsSome, IsTrue, None, OnOk, Some};
ghost use Rattle.ii_directory.specs.Directory.{Elapses, Files, IsFinished, IsListing, IsOpened, IsPut, IsRefusal, Obeys, Same, found_bytes, is_obeyed};
ghost use Rattle.ii_directory.specs.FileSystem.{HasFlushedNames, IsFlushed, IsMoved, IsUnflushed, MayBeMoved, MayBeRemoved};

use crate::faults::DirectoryFault;
use crate::name::Name;
use crate::read_at::ReadAt;
use std::alloc::Global;
use std::io::Write;

/// Reads and changes the files of one folder. If the power fails, a change that isn't flushed may be lost, in
/// whole or in part: the bytes of a file before `sync_file`, and its name, a renaming or a removal before
/// `sync_names`.
///
/// The clauses hold for a system that behaves as documented (`is_known`). For a real folder this is trusted
/// (`SystemFiles`).
pub trait FileSystem {
    /// A file that was opened.
    type File: ReadAt + Drop;

    /// A file that is being written. It has no name yet.
    type NewFile: Write + Drop;

    // The system behaves as documented, and no call failed.
    ghost is_known: { Self → Type 0 };

    // The system may refuse calls.
    ghost may_refuse: { Self → Type 0 };

    // The files and the bytes that reads find.
    ghost seen: { Self → Files };

    // The time, as a number that never decreases.
    ghost moment: { Self → ℕ };

    // What a stop at or after the given time may have left, during a call or between calls.
    ghost left_since: { Self → ℕ → Files → Type 0 };

    /// Returns the bytes of a file, or `None` if there is no such file.
    fn read(&self, alloc: Global, name: Name) -> Result<Option<Vec<u8>>, DirectoryFault>
        ensures found { is_known self.now → IfOk result (λ found. found_bytes found ≡ seen self.now name) }
        ensures obeys { is_obeyed IsRefusal (may_refuse self.now) result };

    /// Opens a file, which is read by ranges. Returns `None` if there is no such file.
    ///
    /// The open file has the bytes that it had when it was opened, also after it is renamed or removed.
    fn open(&self, alloc: Global, name: Name) -> Result<Option<Self::File>, DirectoryFault>
        ensures opened { is_known self.now → IfOk result (λ found. IsOpened Self.File.bytes (seen self.now name) found) }
        ensures obeys { is_obeyed IsRefusal (may_refuse self.now) result };

    /// Returns the names of all files, each once. Files with other names than those of `Name` aren't among them.
    fn list(&self, alloc: Global) -> Result<Vec<Name>, DirectoryFault>
        ensures listed { is_known self.now → IfOk result (λ names. IsListing names.items (seen self.now)) }
        ensures obeys { is_obeyed IsRefusal (may_refuse self.now) result };

    /// Writes a complete file, replacing any old one, and flushes neither its bytes nor its name.
    fn put(&mut self, name: Name, bytes: &[u8]) -> Result<(), DirectoryFault>
        ensures known { is_known self.old → OnOk result (is_known self.new) }
        ensures obeys { Obeys IsRefusal (may_refuse self.old) (may_refuse self.new) result }
        ensures written { is_known self.old → OnOk result (IsPut name (Some bytes.now) (seen self.old) (seen self.new)) }
        ensures left { is_known self.old → OnOk result ((c : Files) → left_since self.new (moment self.new) c → IsUnflushed name (left_since self.old (moment self.old)) c) }
        ensures time { is_known self.old → Elapses (moment self.old) (moment self.new) (left_since self.old) (left_since self.new) (IsUnflushed name (left_since self.old (moment self.old))) };

    /// Creates an empty file without a name.
    fn create(&self, alloc: Global) -> Result<Self::NewFile, DirectoryFault>
        ensures created { is_known self.now → IfOk result (λ file. Self.NewFile.contents file ≡ Some []) }
        ensures obeys { is_obeyed IsRefusal (may_refuse self.now) result };

    /// Returns why a write to a file that was created failed last.
    fn write_fault(&self, file: &Self::NewFile) -> DirectoryFault
        ensures obeys { IsRefusal result → may_refuse self.now };

    /// Gives a file that was created its name, replacing any old file of that name, and flushes neither its bytes nor its
    /// name.
    fn put_new(&mut self, name: Name, file: Self::NewFile) -> Result<(), DirectoryFault>
        ensures known { is_known self.old → OnOk result (is_known self.new) }
        ensures obeys { Obeys IsRefusal (may_refuse self.old) (may_refuse self.new) result }
        ensures finished { is_known self.old → OnOk result (IsFinished name (Self.NewFile.contents file) (seen self.old) (seen self.new)) }
        ensures left { is_known self.old → OnOk result ((c : Files) → left_since self.new (moment self.new) c → IsUnflushed name (left_since self.old (moment self.old)) c) }
        ensures time { is_known self.old → Elapses (moment self.old) (moment self.new) (left_since self.old) (left_since self.new) (IsUnflushed name (left_since self.old (moment self.old))) };

    /// Flushes the bytes of a file, not its name.
    fn sync_file(&mut self, name: Name) -> Result<(), DirectoryFault>
        ensures known { is_known self.old → OnOk result (is_known self.new) }
        ensures obeys { Obeys IsRefusal (may_refuse self.old) (may_refuse self.new) result }
        ensures same { is_known self.old → OnOk result (Same (seen self.old) (seen self.new)) }
        ensures left { is_known self.old → OnOk result ((c : Files) → left_since self.new (moment self.new) c → IsFlushed name (seen self.old) (left_since self.old (moment self.old)) c) }
        ensures time { is_known self.old → Elapses (moment self.old) (moment self.new) (left_since self.old) (left_since self.new) (left_since self.old (moment self.old)) };

    /// Atomically renames a file, replacing any file of that name, and flushes no name. Fails if there is no
    /// such file.
    fn rename(&mut self, from: Name, to: Name) -> Result<(), DirectoryFault>
        ensures known { is_known self.old → OnOk result (is_known self.new) }
        ensures obeys { IsSome (seen self.old from) → Obeys IsRefusal (may_refuse self.old) (may_refuse self.new) result }
        ensures there { is_known self.old → OnOk result (IsSome (seen self.old from)) }
        ensures renamed { is_known self.old → OnOk result (IsMoved from to (seen self.old) (seen self.new)) }
        ensures left { is_known self.old → OnOk result ((c : Files) → left_since self.new (moment self.new) c → MayBeMoved from to (left_since self.old (moment self.old)) c) }
        ensures time { is_known self.old → Elapses (moment self.old) (moment self.new) (left_since self.old) (left_since self.new) (MayBeMoved from to (left_since self.old (moment self.old))) };

    /// Removes a file, and flushes no name. Returns whether there was such a file.
    fn remove(&mut self, name: Name) -> Result<bool, DirectoryFault>
        ensures known { is_known self.old → OnOk result (is_known self.new) }
        ensures obeys { Obeys IsRefusal (may_refuse self.old) (may_refuse self.new) result }
        ensures found { is_known self.old → IfOk result (λ found. IsTrue found ↔ IsSome (seen self.old name)) }
        ensures removed { is_known self.old → OnOk result (IsPut name None (seen self.old) (seen self.new)) }
        ensures left { is_known self.old → OnOk result ((c : Files) → left_since self.new (moment self.new) c → MayBeRemoved name (left_since self.old (moment self.old)) c) }
        ensures time { is_known self.old → Elapses (moment self.old) (moment self.new) (left_since self.old) (left_since self.new) (MayBeRemoved name (left_since self.old (moment self.old))) };

    /// Flushes the names of all files, and the renamings and removals before.
    fn sync_names(&mut self) -> Result<(), DirectoryFault>
        ensures known { is_known self.old → OnOk result (is_known self.new) }
        ensures obeys { Obeys IsRefusal (may_refuse self.old) (may_refuse self.new) result }
        ensures same { is_known self.old → OnOk result (Same (seen self.old) (seen self.new)) }
        ensures left { is_known self.old → OnOk result ((c : Files) → left_since self.new (moment self.new) c → HasFlushedNames (seen self.old) (left_since self.old (moment self.old)) c) }
        ensures time { is_known self.old → Elapses (moment self.old) (moment self.new) (left_since self.old) (left_since self.new) (left_since self.old (moment self.old)) };

    // A stop now counts as a stop since any earlier time.
    ghost counts_now: { (d : Self) (t : ℕ) → is_known d → t ≤ moment d → left_since d t (seen d) };
}
