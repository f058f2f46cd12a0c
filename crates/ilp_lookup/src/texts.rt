//! The place of a text among distinct texts.
ghost use Rattle.std.specs.Prelude.{◌≡◌, ◌↔◌, ◌+◌, ◌^◌, ◌<◌, [], ◌∷◌, ◌++◌, length, Contains, IfOk, OnOk, OnErr, Err, IsTrue};
ghost use Rattle.ilp_lookup.specs.Texts.{IsPlaceOf};
ghost use Rattle.ilp_lookup.specs.declared.fault.LookupFault.{LookupFault};

use crate::fault::LookupFault;
use indexmap::IndexSet;
use std::alloc::{AllocError, Allocator, Global};
use std::hash::{BuildHasherDefault, FoldHasher};
use std::marker::Model;

/// Texts in the order in which they were added, no two of them equal, such as the tokens of the
/// peers. A look-up hashes the text once, however many there are.
#[derive(Drop)]
pub struct TextIndex<A: Allocator = Global> {
    texts: IndexSet<Vec<u8, A>, BuildHasherDefault<FoldHasher>, A>,
}

impl<A: Allocator> Model for TextIndex<A> {
    ghost use Rattle.std.specs.Prelude.{ℕ, List, map};
    ghost use Rattle.ilp_lookup.specs.Texts.{AreIndexed};

    ghost Value = { List (List ℕ) };

    ghost view = { λ t. map (λ v. v.items) t.texts.keys };

    ghost invariant = { λ t. AreIndexed (map (λ v. v.items) t.texts.keys) };
}

impl<A: Allocator + Copy> TextIndex<A> {
    /// No text: it takes no memory.
    pub fn new(alloc: A) -> TextIndex<A>
        ensures { result ≡ [] }
    {
        TextIndex {
            texts: IndexSet::new(alloc),
        }
    }

    /// How many texts there are: the place that the next one gets.
    pub fn len(&self) -> u32
        ensures { result ≡ length self.now }
    {
        self.texts.len() as u32
    }

    /// Whether there is no text.
    pub fn is_empty(&self) -> bool
        ensures { IsTrue result ↔ (self.now ≡ []) }
    {
        self.texts.is_empty()
    }

    /// The place of the one text that equals `text`, from 0; none where no text does.
    pub fn find(&self, text: &[u8]) -> Option<u32>
        ensures { IsPlaceOf self.now text.now result }
    {
        let place = self.texts.get_index_of(text)?;
        Some(place as u32)
    }

    /// Adds a text, as the last.
    ///
    /// It is refused with `Double` exactly where the text is there already, and with `Memory` for
    /// want of memory. Then all is as before.
    pub fn insert(&mut self, text: &[u8]) -> Result<(), LookupFault>
        requires few { length self.old + 1 < 2 ^ 32 }
        ensures ok { OnOk result (self.new ≡ self.old ++ text.now ∷ []) }
        ensures double { (result ≡ Err LookupFault.Double) ↔ Contains self.old text.now }
        ensures err { OnErr result (self.new ≡ self.old) }
    {
        if self.has(text) {
            return Err(LookupFault::Double);
        }
        let text = Vec::from_slice(*self.texts.allocator(), text)?;
        self.texts.insert(text)?;
        Ok(())
    }

    /// An equal index. `AllocError` tells that memory is short.
    pub fn copy(&self) -> Result<TextIndex<A>, AllocError>
        ensures { IfOk result (λ copy. copy ≡ self.now) }
    {
        let texts = self.texts.clone()?;
        Ok(TextIndex { texts })
    }

    // Whether the text is among them.
    fn has(&self, text: &[u8]) -> bool
        ensures { IsTrue result ↔ Contains self.now text.now }
    {
        self.texts.contains(text)
    }
}
