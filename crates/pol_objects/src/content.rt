ghost use Rattle.std.specs.Prelude.{◌≡◌, ◌≤◌, [], IfOk, length};
ghost use Rattle.std.specs.Arc.{arc_value};
ghost use Rattle.pol_objects.specs.Contents.{IsContent, IsTextFirst, entry_of, parted};

use pol_shared_bytes::SharedBytes;
use pol_types::{Bytes, OutOfMemory, Text};
use std::alloc::Global;
use std::str;
use std::sync::Arc;

/// The most bytes of an object that lie in one block of memory with its text.
const SHORT: usize = 4_096;

/// How the text of an object's path and the object's bytes lie in memory.
#[derive(Drop)]
pub(crate) enum Content {
    /// Of a short object the text, which has `text_length` bytes, and the object's bytes behind it. They have one
    /// owner, until they are read.
    Alone {
        text_length: u32,
        bytes: Bytes,
    },
    /// The same, once they were read: they have as many owners as hold them.
    Shared {
        text_length: u32,
        bytes: Arc<Bytes, Global>,
    },
    /// A longer object.
    Apart {
        long: Box<Long, Global>,
    },
}

/// An object whose text and bytes lie apart.
#[derive(Drop)]
pub(crate) struct Long {
    text: Text,
    bytes: SharedBytes,
}

impl Content {
    /// The content of an object of these bytes, whose path has this text.
    pub(crate) fn new(alloc: Global, text: &Text, bytes: SharedBytes) -> Result<Self, OutOfMemory>
        ensures content { IfOk result IsContent }
        ensures entry { IfOk result (λ content. entry_of content ≡ (text.now, bytes)) }
    {
        if text.len() <= SHORT && bytes.len() <= SHORT {
            return together(alloc, text.as_str(), bytes.as_slice());
        }
        apart(alloc, text, bytes)
    }

    /// No text and no bytes. It takes no memory.
    pub(crate) fn empty(alloc: Global) -> Self
        ensures content { IsContent result }
        ensures entry { entry_of result ≡ ([], []) }
    {
        Content::Alone {
            text_length: 0,
            bytes: Bytes::from(Vec::new(alloc)),
        }
    }

    pub(crate) fn text(&self) -> &[u8]
        requires { IsContent self.now }
        ensures { result.now ≡ (entry_of self.now).0 }
    {
        match self {
            Content::Alone { text_length, bytes } => front(bytes, *text_length),
            Content::Shared { text_length, bytes } => front(bytes, *text_length),
            Content::Apart { long } => long.as_ref().text.as_bytes(),
        }
    }

    pub(crate) fn as_str(&self) -> &str
        requires { IsContent self.now }
        ensures { result.now ≡ (entry_of self.now).0 }
    {
        match self {
            Content::Alone { text_length, bytes } => front_text(bytes, *text_length),
            Content::Shared { text_length, bytes } => front_text(bytes, *text_length),
            Content::Apart { long } => long.as_ref().text.as_str(),
        }
    }

    /// How many bytes the object has.
    pub(crate) fn len(&self) -> usize
        requires { IsContent self.now }
        ensures { result ≡ length (entry_of self.now).1 }
    {
        match self {
            Content::Alone { text_length, bytes } => bytes.len() - *text_length as usize,
            Content::Shared { text_length, bytes } => bytes.len() - *text_length as usize,
            Content::Apart { long } => long.as_ref().bytes.len(),
        }
    }

    /// The content and the object's bytes, which have one owner more.
    pub(crate) fn share(self, alloc: Global) -> (Self, Result<SharedBytes, OutOfMemory>)
        requires { IsContent self }
        ensures content { IsContent result.0 }
        ensures entry { entry_of result.0 ≡ entry_of self }
        ensures bytes { IfOk result.1 (λ bytes. bytes ≡ (entry_of self).1) }
    {
        match self {
            Content::Alone { text_length, bytes } => first_share(alloc, text_length, bytes),
            Content::Shared { text_length, bytes } => share_behind(text_length, bytes),
            Content::Apart { long } => share_long(long),
        }
    }
}

/// A text and bytes in one block of memory of their length.
fn together(alloc: Global, text: &str, bytes: &[u8]) -> Result<Content, OutOfMemory>
    requires text { length text.now ≤ 4096 }
    requires bytes { length bytes.now ≤ 4096 }
    ensures content { IfOk result IsContent }
    ensures entry { IfOk result (λ content. entry_of content ≡ (text.now, bytes.now)) }
{
    let text = text.as_bytes();
    let mut both = Vec::with_capacity(alloc, text.len() + bytes.len())?;
    both.extend_from_slice(text)?;
    both.extend_from_slice(bytes)?;
    Ok(Content::Alone {
        text_length: text.len() as u32,
        bytes: Bytes::from(both),
    })
}

/// A text and bytes in blocks of memory of their own.
fn apart(alloc: Global, text: &Text, bytes: SharedBytes) -> Result<Content, OutOfMemory>
    ensures content { IfOk result IsContent }
    ensures entry { IfOk result (λ content. entry_of content ≡ (text.now, bytes)) }
{
    let text = text.clone()?;
    let long = Box::new(alloc, Long { text, bytes })?;
    Ok(Content::Apart { long })
}

/// So many bytes at the front.
fn front(bytes: &Bytes, count: u32) -> &[u8]
    requires { count ≤ length bytes.now }
    ensures { result.now ≡ (parted count bytes.now).0 }
{
    &bytes.as_slice()[..count as usize]
}

/// The text of so many bytes at the front.
fn front_text(bytes: &Bytes, count: u32) -> &str
    requires { IsTextFirst count bytes.now }
    ensures { result.now ≡ (parted count bytes.now).0 }
{
    match str::from_utf8(front(bytes, count)) {
        Ok(text) => text,
        Err(_) => unreachable!(),
    }
}

/// Gives bytes that had one owner a count of owners, and shares them. Where memory is wanting, they have one owner.
fn first_share(
    alloc: Global,
    text_length: u32,
    bytes: Bytes,
) -> (Content, Result<SharedBytes, OutOfMemory>)
    requires { IsTextFirst text_length bytes }
    ensures content { IsContent result.0 }
    ensures entry { entry_of result.0 ≡ parted text_length bytes }
    ensures bytes { IfOk result.1 (λ shared. shared ≡ (parted text_length bytes).1) }
{
    match Arc::new(alloc, bytes) {
        Ok(bytes) => share_behind(text_length, bytes),
        Err(failed) => {
            let bytes = failed.value;
            (Content::Alone { text_length, bytes }, Err(OutOfMemory))
        }
    }
}

/// Shares what is behind a text.
fn share_behind(
    text_length: u32,
    bytes: Arc<Bytes, Global>,
) -> (Content, Result<SharedBytes, OutOfMemory>)
    requires { IsTextFirst text_length (arc_value bytes) }
    ensures content { IsContent result.0 }
    ensures entry { entry_of result.0 ≡ parted text_length (arc_value bytes) }
    ensures bytes { IfOk result.1 (λ shared. shared ≡ (parted text_length (arc_value bytes)).1) }
{
    let shared = SharedBytes::behind(&bytes, text_length as usize);
    (Content::Shared { text_length, bytes }, shared)
}

/// Shares the bytes of a longer object.
fn share_long(long: Box<Long, Global>) -> (Content, Result<SharedBytes, OutOfMemory>)
    ensures content { IsContent result.0 }
    ensures entry { entry_of result.0 ≡ (long.value.text, long.value.bytes) }
    ensures bytes { IfOk result.1 (λ shared. shared ≡ long.value.bytes) }
{
    let shared = match long.as_ref().bytes.clone() {
        Ok(bytes) => Ok(bytes),
        Err(_) => Err(OutOfMemory),
    };
    (Content::Apart { long }, shared)
}
