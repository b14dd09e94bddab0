//! The layout of a compact copy: the pages that a tree of buckets gets at a page size, and their
//! bytes. There are two, which `Layout` names. The definitions are in `specs`. `laws` says what holds
//! of them: there is exactly one layout; it is a sound file that lists the same tree; and a file that
//! has only a part of it is refused.
#![tactic(auto)]

pub mod laws;

/// How the last run of a level of branches is cut (docs/LAYOUT.md, "The cut").
#[derive(Clone, Copy, Debug)]
pub enum Layout {
    /// The last branch of a level may have a single child.
    Plain,
    /// Each branch has at least two children. bbolt assumes that, so it can write to the copy.
    Balanced,
}
