// Which placements a group is judged at.
ghost use Rattle.std.specs.Prelude.{◌≡◌};
ghost use Rattle.std.specs.List.{All};
ghost use Rattle.gd_base.specs.Limits.{COORDINATE};
ghost use Rattle.gd_frames.specs.Facts.{IsFile};
ghost use Rattle.gd_group.specs.Ranges.{base_of, centre_or, ranges_of, turned};
ghost use Rattle.gd_tables.specs.Kinds.{file_of};
ghost use Rattle.gd_turn.specs.Ranges.{AreRanges};
ghost use Rattle.gd_vec.specs.Vector.{IsWithin};
ghost use Rattle.gd_zone.specs.Conditions.{IsCondition};

use crate::asked::offsets_of;
use gd_frames::{FrameFile, Turn};
use gd_points::PointIndex;
use gd_turn::{Ranges, TurnRange};
use gd_vec::V3;
use gd_zone::Condition;

/// The part's first point, in units of 0.1 micrometre, about which placements turn the part. It's the origin where the
/// table has no point.
pub fn base_of(index: &PointIndex<'_>) -> V3
    ensures base { result ≡ base_of index.now.table.now.rows }
    ensures within { IsWithin COORDINATE result }
{
    match index.table().row(0) {
        Some(row) => row.at,
        None => V3 { x: 0, y: 0, z: 0 },
    }
}

// How far a file turns the part.
fn turned(turn: Turn) -> TurnRange
    ensures { result ≡ turned turn }
{
    match turn {
        Turn::All => TurnRange::All,
        Turn::Within(k) => TurnRange::Within(k),
    }
}

// Where shifts are counted from.
fn centre_or(base: V3, centre: Option<V3>) -> V3
    ensures { result ≡ centre_or base centre }
{
    match centre {
        Some(centre) => centre,
        None => base,
    }
}

/// The placements that a group with these conditions is judged at (docs/FORMATS.md, "The frame file"): its offsets are
/// those that its conditions name. The file was read beside the table of the index.
pub fn ranges_of(file: &FrameFile, index: &PointIndex<'_>, conditions: &[Condition]) -> Ranges
    requires file { IsFile index.now.table.now (file_of file.now) }
    requires conditions { All IsCondition conditions.now }
    ensures value { result ≡ ranges_of (file_of file.now) index.now.table.now.rows conditions.now }
    ensures ranges { AreRanges result }
{
    Ranges {
        turn: turned(file.turn),
        shift: file.shift,
        centre: centre_or(base_of(index), file.centre),
        offsets: offsets_of(conditions),
    }
}
