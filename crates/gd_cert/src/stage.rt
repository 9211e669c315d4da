// Which line of a certificate comes next.
use gd_base::Counts;

/// Which line comes next.
#[derive(Clone, Copy, Debug)]
pub(crate) enum Stage {
    /// `gdcert 1`.
    Title,
    /// `plain`, or `probe NAME T`.
    Heading,
    /// `share N`.
    Share,
    /// `groups G`.
    Told,
    /// `group K ..`, or `end`.
    Group,
    /// The witness of an accept.
    Witness,
    /// The counts of an open group.
    Counts,
    /// A line of a reject's tree, or one that ends it.
    Reject,
    /// A line of an open group's tree, or one that ends it.
    Open(Counts),
    /// None: `end` was read.
    Done,
}
