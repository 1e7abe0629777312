//! What stands before a block of a file.

use crate::kind::Kind;

/// What stands before a block: the block right before it, and all of the file's earlier ones counted.
#[derive(Clone, Copy)]
pub(crate) struct Before {
    /// The kind of the block right before, if there is one.
    pub(crate) kind: Option<Kind>,
    /// The number in the block right before.
    pub(crate) number: u32,
    /// How many participants and Resources were read.
    pub(crate) participants: usize,
    pub(crate) resources: usize,
    /// The last participant and the last Resource.
    pub(crate) participant: Option<u32>,
    pub(crate) resource: Option<u32>,
}
