// Reading a frame file at all its limits: 1,024 features, 64 datums, and 256 frames of 64 features and 3 datum words.
use gd_frames::{FrameFile, read_frames};
use gd_points::{PointTable, read_points};
use std::alloc::{AllocError, Global};

/// How many features are planes, which are the datums; the others are axes.
const PLANES: u32 = 64;

const FEATURES: u32 = 1_024;

const FRAMES: u32 = 256;
/// How many features each frame has.
const MEMBERS: u32 = 64;

/// A points file with three contact groups of each plane and a point of each axis.
pub fn points_text(alloc: Global) -> Result<String, AllocError> {
    let mut text = String::new(alloc);
    text.push_str("feature,group,x,y,z\n")?;
    for at in 0..PLANES {
        let rows = format!(in alloc; "f{at},1,0,0,{at}\nf{at},2,9,0,{at}\nf{at},3,0,9,{at}\n")?;
        text.push_str(rows.as_str())?;
    }
    for at in PLANES..FEATURES {
        let row = format!(in alloc; "f{at},0,{at},0,0\n")?;
        text.push_str(row.as_str())?;
    }
    Ok(text)
}

/// A feature, of which the first are planes and the others axes.
pub fn feature_text(alloc: Global, at: u32, planes: u32) -> Result<String, AllocError> {
    let shape = if at < planes { "plane" } else { "axis" };
    format!(in alloc;
        "[[feature]]\nname = 'f{at}'\nshape = '{shape}'\ndirection = [0, 0, 1]\npoint = [{at}, 0, 0]\n"
    )
}

/// The datum of a plane.
pub fn datum_text(alloc: Global, at: u32) -> Result<String, AllocError> {
    format!(in alloc; "[[datum]]\nname = 'd{at}'\nfeature = 'f{at}'\nslack = 20\n")
}

fn frame_text(alloc: Global, at: u32) -> Result<String, AllocError> {
    let first = at % 62;
    let (second, third) = (first + 1, first + 2);
    let mut text = format!(in alloc;
        "[[frame]]\nname = 'frame{at}'\nkind = 'position'\ntolerance = 100\nseparate = true\n"
    )?;
    let words = format!(in alloc; "datums = ['d{first}', 'd{second}', 'd{third}']\nfeatures = [")?;
    text.push_str(words.as_str())?;
    for member in 0..MEMBERS {
        let feature = PLANES + (at % 15) * MEMBERS + member;
        let name = format!(in alloc; "'f{feature}', ")?;
        text.push_str(name.as_str())?;
    }
    text.push_str("]\n")?;
    Ok(text)
}

/// The frame file.
pub fn frames_text(alloc: Global) -> Result<String, AllocError> {
    let mut text = String::new(alloc);
    text.push_str("version = 1\nturn = 'all'\n")?;
    for at in 0..FEATURES {
        text.push_str(feature_text(alloc, at, PLANES)?.as_str())?;
    }
    for at in 0..PLANES {
        text.push_str(datum_text(alloc, at)?.as_str())?;
    }
    for at in 0..FRAMES {
        text.push_str(frame_text(alloc, at)?.as_str())?;
    }
    Ok(text)
}

/// The table of the points, or none where they are refused.
pub fn table_of(alloc: Global, text: &str) -> Option<PointTable> {
    read_points(alloc, text.as_bytes()).ok()
}

/// What is kept of a file that was read, as one number.
fn sum_of(file: &FrameFile) -> i128 {
    let mut sum = file.features.len() as i128;
    for frame in &file.frames {
        sum = sum.wrapping_add(i128::from(frame.tolerance));
        for place in &frame.features {
            sum = sum.wrapping_add(i128::from(*place));
        }
        for word in &frame.datums {
            sum = sum.wrapping_add(i128::from(word.datum));
        }
    }
    sum
}

/// One turn, from a checksum to the next: the file is read once. A refused one gives -1.
#[inline(never)]
pub fn read_once(alloc: Global, text: &str, points: &PointTable, start: i128) -> i128 {
    match read_frames(alloc, text.as_bytes(), points) {
        Ok(file) => start.wrapping_add(sum_of(&file)),
        Err(_) => -1,
    }
}
