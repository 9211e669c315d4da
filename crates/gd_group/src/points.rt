// What a table says of its points.
ghost use Rattle.std.specs.Prelude.{◌≤◌, length};
ghost use Rattle.std.specs.List.{All};
ghost use Rattle.gd_base.specs.Limits.{GROUP};
ghost use Rattle.gd_points.specs.Table.{HasRows};

use gd_points::PointIndex;

// That each feature of a table has a point, and that each group is at most 999.
pub(crate) fn show_points(index: &PointIndex<'_>)
    ensures used { HasRows index.now.table.now.rows (length index.now.table.now.names) }
    ensures groups { All (λ row. row.group ≤ GROUP) index.now.table.now.rows }
{
    let table = index.table();
    let _ = table.features();
    let _ = table.row(0);
}
