ghost use Rattle.std.specs.Prelude.{◌≡◌, [], IfOk, length};

use crate::content::Content;
use pol_shared_bytes::SharedBytes;
use pol_types::{OutOfMemory, Text};
use std::alloc::Global;
use std::marker::Model;
use std::mem::size_of;

/// An object as it is kept: the text of its path, and its bytes. Contracts see the two.
#[derive(Drop)]
pub(crate) struct Entry {
    content: Content,
}

impl Model for Entry {
    ghost use Rattle.std.specs.Prelude.{List, ℕ};
    ghost use Rattle.pol_objects.specs.Contents.{IsContent, entry_of};

    ghost Value = { List ℕ × List ℕ };

    ghost view = { λ entry. entry_of entry.content };

    ghost invariant = { λ entry. IsContent entry.content };
}

impl Entry {
    /// An object of these bytes, whose path has this text.
    pub(crate) fn new(alloc: Global, text: &Text, bytes: SharedBytes) -> Result<Self, OutOfMemory>
        ensures { IfOk result (λ entry. entry ≡ (text.now, bytes)) }
    {
        let content = Content::new(alloc, text, bytes)?;
        Ok(Entry { content })
    }

    /// An entry that stands in place of another one for a moment. It takes no memory.
    pub(crate) fn empty(alloc: Global) -> Self
        ensures { result ≡ ([], []) }
    {
        Entry {
            content: Content::empty(alloc),
        }
    }

    pub(crate) fn text(&self) -> &[u8]
        ensures { result.now ≡ self.now.0 }
    {
        self.content.text()
    }

    pub(crate) fn as_str(&self) -> &str
        ensures { result.now ≡ self.now.0 }
    {
        self.content.as_str()
    }

    /// How many bytes the object has.
    pub(crate) fn len(&self) -> usize
        ensures { result ≡ length self.now.1 }
    {
        self.content.len()
    }

    /// The entry and the object's bytes, which have one owner more.
    pub(crate) fn share(self, alloc: Global) -> (Self, Result<SharedBytes, OutOfMemory>)
        ensures entry { result.0 ≡ self }
        ensures bytes { IfOk result.1 (λ bytes. bytes ≡ self.1) }
    {
        let (content, bytes) = self.content.share(alloc);
        (Entry { content }, bytes)
    }
}

/// An entry is small, since a block has up to 32 of them.
const _: () = prove!(size_of::<Entry>() <= 32);
