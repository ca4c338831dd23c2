ghost use Rattle.std.specs.Prelude.{◌≡◌};
ghost use Rattle.ii_docset.specs.Cursor.{doc_at, from_doc, IsSound, IsTarget};

use crate::docset::DocSet;
use crate::lent::Lent;
use ii_base::DocId;

/// A cursor with a bound on the cost of one seek, however many documents it skips.
///
/// The default `DocSet::seek` advances step by step, so its clause promises only the cost of these steps.
/// This trait is for cursors that skip.
pub trait SeekOnce: DocSet {
    // A bound on what a single seek from one state to another decoded.
    ghost sought: { Self → Self → Type 0 };

    /// Seeks as `DocSet::seek` does, in one seek.
    fn seek_once(&mut self, target: DocId) -> DocId
        requires { IsTarget target (Self.rest self.old) }
        ensures doc { result ≡ doc_at (Self.rest self.new) }
        ensures rest { Self.rest self.new ≡ from_doc target (Self.rest self.old) }
        ensures sound { IsSound (Self.rest self.new) }
        ensures kind { Self.always_one self.new ≡ Self.always_one self.old }
        ensures work { Self.went self.old self.new }
        ensures once { sought self.old self.new };
}

impl<T: SeekOnce> SeekOnce for Lent<'_, T> {
    ghost use Rattle.std.specs.Prelude.{◌≡◌};

    // Both states borrow the same cursor.
    ghost sought = { λ a b. (b.inner.ghost_name ≡ a.inner.ghost_name) × T.sought a.inner.now b.inner.now };

    fn seek_once(&mut self, target: DocId) -> DocId {
        self.inner.seek_once(target)
    }
}

impl<T: SeekOnce> SeekOnce for Box<T> {
    ghost sought = { λ a b. T.sought a.value b.value };

    fn seek_once(&mut self, target: DocId) -> DocId {
        (**self).seek_once(target)
    }
}
