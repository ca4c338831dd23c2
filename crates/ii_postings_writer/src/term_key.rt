ghost use Rattle.std.specs.Prelude.{◌≡◌, ◌∷◌, [], IfOk};
ghost use Rattle.std.proofs.Common.{ap};
ghost use Rattle.std.specs.Cmp.{on_equiv, on_per, partial_equiv_from_equiv};
ghost use Rattle.std.specs.Cmp.Lexicographic.{bytes_decides, nat_list_eq_equiv};
ghost use Rattle.std.specs.Str.{bytes_eq};
ghost use Rattle.ii_io.specs.Faults.{OnlyMemory};

use ii_base::Fault;
use indexmap::Equivalent;
use std::alloc::Global;
use std::hash::{Hash, Hasher};
use std::marker::Model;

// The maximum number of bytes that a key holds itself.
const INLINE_LEN: usize = 23;

// The bytes of a key: few of them inline, more on the heap.
#[derive(Drop)]
enum KeyBytes {
    Inline(u8, [u8; 23]),
    Heap(Vec<u8>),
}

/// The bytes of a term, as the key of a map. They are hashed by one write.
#[derive(Drop)]
pub(crate) struct TermKey {
    bytes: KeyBytes,
}

impl Model for TermKey {
    ghost use Rattle.std.specs.Prelude.{ℕ, List};
    ghost use Rattle.ii_postings_writer.specs.TermKeys.{bytes_of_key, fits_inline};

    ghost Value = { List ℕ };

    ghost view = { λ k. bytes_of_key k.bytes };

    ghost invariant = { λ k. fits_inline k.bytes };
}

impl TermKey {
    // Creates the key of these bytes. It allocates only if they don't fit inline.
    pub fn new(alloc: Global, bytes: &[u8]) -> Result<TermKey, Fault>
        ensures ok { IfOk result (λ key. key ≡ bytes.now) }
        ensures only { OnlyMemory result }
    {
        if bytes.len() > INLINE_LEN {
            let heap = Vec::from_slice(alloc, bytes)?;
            return Ok(TermKey {
                bytes: KeyBytes::Heap(heap),
            });
        }
        let mut inline = [0; 23];
        inline[..bytes.len()].copy_from_slice(bytes);
        Ok(TermKey {
            bytes: KeyBytes::Inline(bytes.len() as u8, inline),
        })
    }

    // Returns the bytes.
    #[inline(always)]
    pub fn as_slice(&self) -> &[u8]
        ensures { result.now ≡ self.now }
    {
        match &self.bytes {
            KeyBytes::Inline(len, inline) => &inline[..*len as usize],
            KeyBytes::Heap(heap) => heap.as_slice(),
        }
    }
}

impl PartialEq for TermKey {
    ghost eq = { bytes_eq };

    ghost laws = { partial_equiv_from_equiv nat_list_eq_equiv };

    fn eq(&self, other: &Self) -> bool {
        self.as_slice() == other.as_slice()
    }
}

impl Eq for TermKey {
    ghost laws = { nat_list_eq_equiv };
}

impl Hash for TermKey {
    ghost hash_input = { λ k. k ∷ [] };

    ghost respects_eq = { λ x y h. ap (λ b. b ∷ []) ((bytes_decides x y).0 h) };

    fn hash<H: Hasher>(&self, state: &mut H) {
        state.write(self.as_slice());
    }
}

/// The bytes of a term by which its key is looked up.
#[derive(Clone, Copy)]
pub(crate) struct TermBytes<'a> {
    pub bytes: &'a [u8],
}

impl<'a> PartialEq for TermBytes<'a> {
    ghost eq = { λ x y. bytes_eq x.bytes.now y.bytes.now };

    ghost laws = { on_per (λ x. x.bytes.now) (partial_equiv_from_equiv nat_list_eq_equiv) };

    fn eq(&self, other: &Self) -> bool {
        self.bytes == other.bytes
    }
}

impl<'a> Eq for TermBytes<'a> {
    ghost laws = { on_equiv (λ x. x.bytes.now) nat_list_eq_equiv };
}

impl<'a> Hash for TermBytes<'a> {
    ghost hash_input = { λ k. k.bytes.now ∷ [] };

    ghost respects_eq = { λ x y h. ap (λ b. b ∷ []) ((bytes_decides x.bytes.now y.bytes.now).0 h) };

    fn hash<H: Hasher>(&self, state: &mut H) {
        state.write(self.bytes);
    }
}

impl<'a> Equivalent<TermKey> for TermBytes<'a> {
    ghost equivalent = { λ q k. bytes_eq q.bytes.now k };

    ghost respects_hash = { λ q k h. ap (λ b. b ∷ []) ((bytes_decides q.bytes.now k).0 h) };

    ghost respects_eq = { λ q x y. nat_list_eq_equiv.congr q.bytes.now x y };

    fn equivalent(&self, key: &TermKey) -> bool {
        self.bytes == key.as_slice()
    }
}
