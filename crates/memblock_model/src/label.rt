//! What a byte of memory carries: its node and whether it is mirrored.

use address_runs::RunValue;
use std::marker::Model;

/// The flags of mirrored memory in a record of a table (`MEMBLOCK_MIRROR`). Other memory has
/// flags 0.
pub const MIRROR_FLAG: u32 = 2;

/// The label in a record of a memblock table: the node, or `None` if the memory has none yet, and
/// whether the memory is mirrored.
///
/// The type guarantees that a node's number is below 1,024 (the greatest `MAX_NUMNODES` of x86-64)
/// and that the flags are [`MIRROR_FLAG`] or 0.
#[derive(Clone, Copy, Debug, PartialEq, Eq)]
pub struct Label {
    node: Option<u32>,
    flags: u32,
}

impl Model for Label {
    ghost use Rattle.std.specs.Prelude.{◌≡◌, ◌<◌, ◌==◌, if◌then◌else◌, unwrap_or};
    ghost use Rattle.memblock_model.specs.Labels.{LabelView};

    ghost Value = { LabelView };

    ghost view = { λ l. record { node = l.node; mirror = l.flags == 2 } };

    ghost invariant = { λ l. (unwrap_or l.node 0 < 1024) × (l.flags
        ≡ (if l.flags == 2 then 2 else 0)) };

    ghost inverse = { λ l. record { node = l.node; flags = if l.mirror then 2 else 0 } };
}

impl RunValue for Label {
    fn is_same(first: Label, second: Label) -> bool {
        first == second
    }
}

impl Label {
    ghost use Rattle.std.specs.Prelude.{◌≡◌, ◌<◌, ◌==◌, if◌then◌else◌, Option, Some, unwrap_or};
    ghost use Rattle.memblock_model.specs.Labels.{plain_label, with_node, with_mirror};

    /// Returns the label of new memory: no node, not mirrored.
    pub fn new() -> Label
        ensures { result ≡ plain_label }
    {
        Label {
            node: None,
            flags: 0,
        }
    }

    /// Returns a label with this node, or without a node if `node` is `None`. The node must be
    /// below 1,024. The label is mirrored if `flags` equals [`MIRROR_FLAG`], and not mirrored
    /// otherwise.
    pub fn from_parts(node: Option<u32>, flags: u32) -> Label
        requires { unwrap_or node 0 < 1024 }
        ensures { result ≡ record { node = node; mirror = flags == 2 } }
    {
        let flags = if flags == MIRROR_FLAG { MIRROR_FLAG } else { 0 };
        Label { node, flags }
    }

    /// Returns the same label with this node, which must be below 1,024.
    pub fn with_node(self, node: u32) -> Label
        requires { node < 1024 }
        ensures { result ≡ with_node (Some node) self }
    {
        Label {
            node: Some(node),
            flags: self.flags,
        }
    }

    /// Returns the same label, marked as mirrored.
    pub fn with_mirror(self) -> Label
        ensures { result ≡ with_mirror self }
    {
        Label {
            node: self.node,
            flags: MIRROR_FLAG,
        }
    }

    /// Returns the node, or `None` if the memory has none yet.
    pub fn node(self) -> Option<u32>
        ensures { result ≡ self.node }
    {
        self.node
    }

    /// Tests whether the memory is mirrored.
    pub fn has_mirror_flag(self) -> bool
        ensures { result ≡ self.mirror }
    {
        self.flags == MIRROR_FLAG
    }

    /// Returns [`MIRROR_FLAG`] for mirrored memory, else 0.
    pub fn flags(self) -> u32
        ensures { result ≡ (if self.mirror then 2 else 0) }
    {
        self.flags
    }
}

/// The marks of a byte of memory: its node, if it has one, and whether it is mirrored. The
/// journal's items set them. A [`Label`] says the same, but its node must be below 1,024. Here the
/// node may be any u32, as in [`crate::Item::Node`].
#[derive(Clone, Copy, PartialEq, Eq)]
pub struct Marks {
    node: Option<u32>,
    mirror: bool,
}

impl Model for Marks {
    ghost use Rattle.memblock_model.specs.Labels.{LabelView};

    ghost Value = { LabelView };

    ghost view = { λ m. record { node = m.node; mirror = m.mirror } };

    ghost inverse = { λ l. record { node = l.node; mirror = l.mirror } };
}

impl Marks {
    ghost use Rattle.std.specs.Prelude.{◌≡◌, Some};
    ghost use Rattle.memblock_model.specs.Labels.{plain_label, tag_for, with_node, with_mirror};

    /// Returns the marks of new memory: no node, not mirrored.
    pub fn new() -> Marks
        ensures { result ≡ plain_label }
    {
        Marks {
            node: None,
            mirror: false,
        }
    }

    /// Returns the same marks with this node.
    pub fn with_node(self, node: u32) -> Marks
        ensures { result ≡ with_node (Some node) self }
    {
        Marks {
            node: Some(node),
            ..self
        }
    }

    /// Returns the same marks, with the byte mirrored.
    pub fn with_mirror(self) -> Marks
        ensures { result ≡ with_mirror self }
    {
        Marks {
            mirror: true,
            ..self
        }
    }

    /// Returns the tag of a memory byte with these marks: [`Tag::Memory`] with the same node and
    /// mirror flag.
    pub fn tag(self) -> Tag
        ensures { result ≡ tag_for (Some self) }
    {
        Tag::Memory {
            node: self.node,
            mirror: self.mirror,
        }
    }
}

/// The tag of a byte: whether it is memory and, if so, its node and whether it is mirrored.
#[derive(Clone, Copy, Debug, PartialEq, Eq)]
pub enum Tag {
    /// The byte isn't memory.
    Absent,
    /// The byte is memory. `node` is its node, or `None` if it has none yet (`MAX_NUMNODES` in the
    /// kernel). `mirror` is true if it is mirrored (`MEMBLOCK_MIRROR`).
    Memory { node: Option<u32>, mirror: bool },
}
