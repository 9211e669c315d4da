// What a search finds, and what a run ends with.

/// Why a search ended without a verdict.
#[derive(Clone, Copy, Debug, PartialEq, Eq)]
pub enum Reason {
    /// To split the undecided cells once more would pass the budget.
    Budget,
    /// The undecided cells are as small as cells become.
    Floor,
}

/// Where a search stood when it ended without a verdict. Levels count how often cells were halved, from 0 on.
#[derive(Clone, Copy, Debug, PartialEq, Eq)]
pub struct Counts {
    pub level: u32,
    /// The undecided cells of that level.
    pub undecided: u32,
    /// The cells that were split before that level.
    pub spent: u32,
    pub reason: Reason,
}

/// What a search found. Levels count how often cells were halved, from 0 on.
#[derive(Clone, Copy, Debug, PartialEq, Eq)]
pub enum Verdict {
    /// At this level the centre of a cell holds.
    Accept { level: u32 },
    /// Every cell was refuted, and so many were.
    Reject { leaves: u32 },
    /// Neither.
    StillOpen(Counts),
}

/// The status that a run ends with, 0 to 8. `docs/FORMATS.md` says where each comes.
#[derive(Clone, Copy, Debug, PartialEq, Eq)]
pub struct Status(pub u8);
