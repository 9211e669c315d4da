// Forms of features through the search, their certificates, and ties of their written tests.
use gd_base::{Verdict, limits};
use gd_cells::{MOST_DIMS, Task, Witness};
use gd_cert::{read_cert, write_cert};
use gd_check::{CheckAnswer, check};
use gd_dir::FormShape;
use gd_form::{FormDef, FormTask, form_task};
use gd_judge::{Judgement, judge_tasks};
use gd_points::{PointIndex, read_points};
use gd_vec::V3;
use std::alloc::Global;
use std::test::Fail;
use std::thread::Threads;

// Two circles in a plane: seven points at 5,000 units from the origin, and one at 5,010. A point of the second section is
// far out.
const ROUND: &[u8] =
    b"feature,group,x,y,z\nc,1,3006,4008,0\nc,1,4000,3000,0\nc,1,-3000,4000,0\nc,1,-4000,3000,0\nc,1,3000,-4000,0\nc,1,4000,-3000,0\nc,1,-3000,-4000,0\nc,1,-4000,-3000,0\nc,2,9000,0,0\n";

const STRAIGHT: &[u8] = b"feature,group,x,y,z\nl,1,0,0,0\nl,1,100000,3,0\nl,1,200000,0,0\n";

const CORNER: &[u8] = b"feature,group,x,y,z\nl,1,0,0,0\nl,1,1000,0,0\nl,1,0,1000,0\n";

const PIPE: &[u8] =
    b"feature,group,x,y,z\np,1,1000,0,0\np,1,-1000,0,0\np,1,0,1000,5000\np,1,0,-1000,5000\n";

const DENTED: &[u8] =
    b"feature,group,x,y,z\np,1,1000,0,0\np,1,-1000,0,0\np,1,0,1003,5000\np,1,0,-1000,5000\n";

// The corner of a cube, between points of the next group.
const CUBE: &[u8] =
    b"feature,group,x,y,z\ns,2,7,7,700\ns,1,0,0,0\ns,1,1000,0,0\ns,2,7,7,-700\ns,1,0,1000,0\ns,1,0,0,1000\n";

// Four points that no plane holds, the fourth 10 units above that of the others, between points of the next group.
const SADDLE: &[u8] =
    b"feature,group,x,y,z\ns,2,7,7,700\ns,1,0,0,0\ns,1,1000,0,0\ns,2,7,7,-700\ns,1,0,1000,0\ns,1,1000,1000,10\n";

// Two points whose coordinates have the sums 14, -15 and 0.
const SEVENS: &[u8] = b"feature,group,x,y,z\ns,1,0,0,0\ns,1,7,7,0\n";

const EIGHT: &[u8] = b"feature,group,x,y,z\ns,1,0,0,0\ns,1,-8,-7,0\n";

const ACROSS: &[u8] = b"feature,group,x,y,z\ns,1,0,0,0\ns,1,1000,-1000,0\n";

// A form of the first group of the first feature, about the origin and within 16 units of it. None where the group has no
// point.
fn task_of<'a>(
    index: &'a PointIndex<'a>,
    shape: FormShape,
    tolerance: u32,
) -> Option<FormTask<'a>> {
    if index.rows_of_group(0, 1).is_empty() {
        return None;
    }
    let def = FormDef {
        shape,
        feature: 0,
        group: Some(1),
        direction: V3 { x: 0, y: 0, z: 1 },
        point: V3 { x: 0, y: 0, z: 0 },
        shift: 4,
        tolerance: tolerance.min(limits::TOLERANCE),
    };
    Some(form_task(index, &def))
}

// What a budget of 1,000 finds.
fn judged<R: Threads + Sync>(rt: &R, alloc: Global, task: FormTask<'_>) -> Result<Judgement, Fail> {
    Ok(judge_tasks(rt, alloc, &[task], 1000)?)
}

// Whether a text is a valid certificate of a task.
fn is_valid(alloc: Global, task: FormTask<'_>, text: &[u8]) -> Result<bool, Fail> {
    if text.len() > 1000 {
        return Ok(false);
    }
    let Ok(cert) = read_cert(alloc, text) else {
        return Ok(false);
    };
    Ok(check(alloc, &[task], &cert)? == CheckAnswer::Valid)
}

// A certificate of one group, by its lines.
fn text_of(alloc: Global, group: &str) -> Result<String, Fail> {
    Ok(format!(in alloc; "gdcert 1\nplain\nshare 1000\ngroups 1\ngroup 1 {group}\nend\n")?)
}

// By hand. The last column is the group with one number changed. The evidence of the line's corner: along x its third point
// lies 1,000 units from each axis near the first, and along y and z its second. That of the cube's corner names points by
// their numbers in the table.
#[test]
fn certificates(rt: HostRuntime) -> Result<(), Fail> {
    let accept = Verdict::Accept { level: 0 };
    let reject = Verdict::Reject { leaves: 3 };
    let cases = [
        (
            ROUND,
            FormShape::Circle,
            10,
            accept,
            "accept\nw 1 0 0",
            "accept\nw 1 0 1000000",
        ),
        (
            STRAIGHT,
            FormShape::Line,
            10,
            accept,
            "accept\nw 1 0 0 0 0",
            "accept\nw 2 0 0 0 0",
        ),
        (
            CORNER,
            FormShape::Line,
            1,
            reject,
            "reject\nr 1 3 0\nr 1 2 0\nr 1 2 0",
            "reject\nr 1 1 0\nr 1 2 0\nr 1 2 0",
        ),
        (
            PIPE,
            FormShape::Cylinder,
            10,
            accept,
            "accept\nw 3 0 0 0 0",
            "accept\nw 1 0 0 0 0",
        ),
        (
            CUBE,
            FormShape::Flat,
            10,
            reject,
            "reject\nr 1 3 2\nr 1 5 2\nr 1 6 2",
            "reject\nr 1 1 2\nr 1 5 2\nr 1 6 2",
        ),
        (
            SADDLE,
            FormShape::Flat,
            10,
            accept,
            "accept\nw 3 0 0",
            "accept\nw 1 0 0",
        ),
    ];
    for (file, shape, tolerance, verdict, group, changed) in cases {
        let table = read_points(rt.alloc(), file).expect(&rt, "a table");
        let index = PointIndex::of(rt.alloc(), &table)?;
        let task = task_of(&index, shape, tolerance).expect(&rt, "a point");
        let judgement = judged(&rt, rt.alloc(), task)?;
        assert!(rt;
            judgement.verdicts.as_slice() == [verdict].as_slice(),
            "{group}"
        );
        let written = write_cert(rt.alloc(), &judgement.certificate)?;
        let text = text_of(rt.alloc(), group)?;
        assert!(rt; written.as_slice() == text.as_bytes(), "{group}");
        assert!(rt; is_valid(rt.alloc(), task, written.as_slice())?, "{group}");
        let other = text_of(rt.alloc(), changed)?;
        assert!(rt; !is_valid(rt.alloc(), task, other.as_bytes())?, "{changed}");
    }
    Ok(())
}

// By hand. At the centre of a root: across z the points of the saddle lie within 10 units; the distances from the origin
// are 5,000 and 5,010, from the x axis at most 3, and from the z axis 1,000 and 1,003. At the end of the first ratio a
// distance is (x + y) over the root of 2: for 14 it is at most 10, and for 15 it isn't.
#[test]
fn ties(rt: HostRuntime) -> Result<(), Fail> {
    let end = 1 << 30;
    let cases = [
        (SADDLE, FormShape::Flat, 3, 0, 10, true),
        (SADDLE, FormShape::Flat, 3, 0, 9, false),
        (SEVENS, FormShape::Flat, 1, end, 10, true),
        (EIGHT, FormShape::Flat, 1, end, 10, false),
        (ACROSS, FormShape::Flat, 1, end, 0, true),
        (ROUND, FormShape::Circle, 1, 0, 10, true),
        (ROUND, FormShape::Circle, 1, 0, 9, false),
        (STRAIGHT, FormShape::Line, 1, 0, 6, true),
        (STRAIGHT, FormShape::Line, 1, 0, 5, false),
        (DENTED, FormShape::Cylinder, 3, 0, 3, true),
        (DENTED, FormShape::Cylinder, 3, 0, 2, false),
    ];
    for (file, shape, root, ratio, tolerance, want) in cases {
        let table = read_points(rt.alloc(), file).expect(&rt, "a table");
        let index = PointIndex::of(rt.alloc(), &table)?;
        let task = task_of(&index, shape, tolerance).expect(&rt, "a point");
        let mut place = Witness {
            root,
            at: [0; MOST_DIMS],
        };
        place.at[0] = ratio;
        let holds = task.in_range(&place) && task.holds(&place);
        assert_eq!(rt; holds, want, "{file:?} {tolerance}");
    }
    Ok(())
}
