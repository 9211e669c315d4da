// The task of a group.
use gd_fit::PlacementTask;
use gd_form::FormTask;

/// A group as a task. A witness is one of a form, or a placement: a root, three ratios in 2^-30, and the translation
/// and the offsets in fine units of 2^-16 unit.
#[derive(Drop)]
pub enum GroupTask<'a> {
    /// A form of a feature, or of one section of it.
    Form(FormTask<'a>),
    /// A placement at which all conditions of the group hold.
    Placed(PlacementTask<'a>),
}
