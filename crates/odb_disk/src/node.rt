//! What is at a path: files, directories and links.
use crate::meta::{Kind, Meta};
use odb_base::{ByteList, NoMemory, PathText, Shared};
use std::alloc::Global;

/// What a node holds.
#[derive(Debug, Drop)]
pub enum Content {
    /// The bytes of a file are shared by its copies.
    File { bytes: Shared<ByteList>, time: u64 },
    Dir,
    Link(PathText),
}

/// A file, a directory or a link, with its device and inode numbers.
#[derive(Debug, Drop)]
pub struct Node {
    pub dev: u64,
    pub ino: u64,
    pub content: Content,
}

impl Content {
    ghost use Rattle.std.specs.Prelude.{◌≡◌, IfOk};

    /// A copy of the contents, which shares the bytes of a file.
    pub fn try_clone(&self, alloc: Global) -> Result<Content, NoMemory>
        ensures copy { IfOk result (λ content. content ≡ self.now) }
    {
        match self {
            Content::File { bytes, time } => Ok(Content::File {
                bytes: bytes.try_clone()?,
                time: *time,
            }),
            Content::Dir => Ok(Content::Dir),
            Content::Link(target) => Ok(Content::Link(target.try_clone(alloc)?)),
        }
    }
}

impl Node {
    ghost use Rattle.std.specs.Prelude.{◌≡◌, IfOk, OnOk, OnErr, Some};
    ghost use Rattle.odb_disk.specs.Tree.{is_directory};
    ghost use Rattle.odb_disk.specs.Tree.Follow.{meta_of};
    ghost use Rattle.odb_disk.specs.Entries.{kind_of};
    ghost use Rattle.odb_disk.specs.Tree.Way.{is_link_content};
    ghost use Rattle.odb_disk.specs.Tree.Change.{is_file_content, longer, timed};

    /// The result of a stat of the node.
    pub fn meta(&self) -> Meta
        ensures meta { result ≡ meta_of self.now }
    {
        let (kind, len, time) = match &self.content {
            Content::File { bytes, time } => (Kind::File, bytes.value().len() as u64, *time),
            Content::Dir => (Kind::Dir, 0, 0),
            Content::Link(_) => (Kind::Link, 0, 0),
        };
        Meta {
            kind,
            dev: self.dev,
            ino: self.ino,
            len,
            time,
        }
    }

    /// Whether it is a directory.
    pub fn is_dir(&self) -> bool
        ensures directory { result ≡ is_directory (Some self.now) }
    {
        matches!(&self.content, Content::Dir)
    }

    /// Whether it is a file.
    pub fn is_file(&self) -> bool
        ensures file { result ≡ is_file_content self.now.content }
    {
        matches!(&self.content, Content::File { .. })
    }

    /// Whether it is a link.
    pub fn is_link(&self) -> bool
        ensures link { result ≡ is_link_content self.now.content }
    {
        matches!(&self.content, Content::Link(_))
    }

    /// Appends bytes to a file; copies of the node stay as they were. A call that fails changes nothing.
    pub fn append(&mut self, alloc: Global, more: &[u8]) -> Result<(), NoMemory>
        ensures made { OnOk result (self.new ≡ record self.old { content = longer self.old.content more.now }) }
        ensures kept { OnErr result (self.new ≡ self.old) }
    {
        match &mut self.content {
            Content::File { bytes, .. } => bytes.extend_from_slice(alloc, more),
            Content::Dir | Content::Link(_) => Ok(()),
        }
    }

    /// Sets the time of a file.
    pub fn set_time(&mut self, at: u64)
        ensures timed { self.new ≡ record self.old { content = timed at self.old.content } }
    {
        match &mut self.content {
            Content::File { time, .. } => *time = at,
            Content::Dir | Content::Link(_) => {}
        }
    }

    /// The kind of the node.
    pub fn kind(&self) -> Kind
        ensures kind { result ≡ kind_of self.now.content }
    {
        match &self.content {
            Content::File { .. } => Kind::File,
            Content::Dir => Kind::Dir,
            Content::Link(_) => Kind::Link,
        }
    }

    /// A copy of the node.
    pub fn try_clone(&self, alloc: Global) -> Result<Node, NoMemory>
        ensures copy { IfOk result (λ node. node ≡ self.now) }
    {
        Ok(Node {
            dev: self.dev,
            ino: self.ino,
            content: self.content.try_clone(alloc)?,
        })
    }
}
