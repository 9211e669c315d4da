// The reader of a frame file.
ghost use Rattle.std.specs.Prelude.{◌≡◌, ◌<◌, ◌≤◌, ◌+◌, [], false, length, map, OnOk, IfOk};
ghost use Rattle.toml.specs.View.{table_view};
ghost use Rattle.gd_frames.specs.Counts.{limits};
ghost use Rattle.gd_frames.specs.Entries.{datums_read, features_read, frames_read, placed, rest_in, whole};
ghost use Rattle.gd_frames.specs.Facts.{IsFile};
ghost use Rattle.gd_frames.specs.Files.{and_judged, file_in, frames, in_table, limits_from, tables_from, with_datum};
ghost use Rattle.gd_frames.specs.Files.{with_feature, with_frame};
ghost use Rattle.gd_keys.specs.Keys.{is_among};
ghost use Rattle.gd_base.specs.Causes.{Gives, input_cause};
ghost use Rattle.gd_base.specs.Limits.{DATUMS, FEATURES, FRAMES};
ghost use Rattle.gd_keys.specs.Rules.{key_cause};
ghost use Rattle.gd_tables.specs.Grammar.{frame_in, top_in};
ghost use Rattle.gd_tables.specs.Kinds.{file_of, frame_of};
ghost use Rattle.gd_tables.specs.Listed.{no_entries};
ghost use Rattle.gd_tables.specs.Seen.{seen_top};

use crate::counts::limits;
use crate::groups::{GroupCounts, count_groups};
use crate::needs::judge;
use gd_base::ReadFault;
use gd_keys::{KeyFault, again, read_document};
use gd_points::PointTable;
use gd_tables::{
    DatumDef, FeatureDef, FrameDef, FrameFile, Listed, Ranges, Top, read_datum, read_feature,
    read_frame, read_top,
};
use std::alloc::Global;
use toml::Table;

// The columns of faults.
const FEATURE_COLUMN: u32 = 1;

const DATUM_COLUMN: u32 = 2;

const FRAME_COLUMN: u32 = 3;

/// The frame file (docs/FORMATS.md, "The frame file") that stands for the bytes beside a table of points, or its first
/// fault. `Memory` is free.
pub fn read_frames(alloc: Global, bytes: &[u8], table: &PointTable) -> Result<FrameFile, ReadFault>
    ensures file { Gives input_cause file_of result (frames bytes.now table.now) }
    ensures facts { IfOk result (λ file. IsFile table.now (file_of file)) }
{
    match read_document(alloc, bytes) {
        Ok(document) => read_file(alloc, table, &document),
        Err(fault) => Err(placed(fault, 0, 0)),
    }
}

// A fault of the table of this row and column.
fn placed(fault: KeyFault, row: u32, column: u32) -> ReadFault
    ensures { result ≡ placed fault row column }
{
    match fault {
        KeyFault::Rule(broken) => broken.broken_at(row, column),
        KeyFault::Memory => ReadFault::Memory,
    }
}

#[tactic(auto, unfolding(crate::specs::Files::file_in))]
fn read_file(alloc: Global, points: &PointTable, table: &Table) -> Result<FrameFile, ReadFault>
    ensures { Gives input_cause file_of result (file_in points.now (table_view table.now)) }
{
    let top = read_top_level(alloc, table)?;
    let features = read_features(alloc, points, &top.ranges, top.features.as_slice())?;
    let datums = read_datums(alloc, &features, &top.ranges, top.datums.as_slice())?;
    read_rest(alloc, points, top, features, datums)
}

// Reads the frames behind the features and the datums.
fn read_rest(
    alloc: Global,
    points: &PointTable,
    top: Top<'_>,
    features: Listed<FeatureDef>,
    datums: Listed<DatumDef>,
) -> Result<FrameFile, ReadFault>
    requires few { length top.frames.items ≤ FRAMES }
    requires features { length features.names.keys ≤ FEATURES }
    requires datums { length datums.names.keys ≤ DATUMS }
    ensures { Gives input_cause file_of result
        (rest_in points.now (seen_top top.entry) (features_read features) (datums_read datums)) }
{
    let counts = count_groups(alloc, points)?;
    let frames = read_all_frames(alloc, &features, &datums, &counts, top.frames.as_slice())?;
    test_limits(&features, &datums, &counts, frames.items.as_slice())?;
    Ok(whole_file(top, features, datums, frames))
}

// The file of the lists that were read.
fn whole_file(
    top: Top<'_>,
    features: Listed<FeatureDef>,
    datums: Listed<DatumDef>,
    frames: Listed<FrameDef>,
) -> FrameFile
    ensures { file_of result ≡ whole (seen_top top.entry) (features_read features) (datums_read datums)
        (frames_read frames) }
{
    FrameFile {
        turn: top.turn,
        shift: top.shift,
        centre: top.centre,
        features: features.items,
        datums: datums.items,
        frames: frames.items,
    }
}

fn read_top_level<'a>(alloc: Global, table: &'a Table) -> Result<Top<'a>, ReadFault>
    ensures top { Gives input_cause seen_top result (in_table 0 0 (top_in (table_view table.now))) }
    ensures features { IfOk result (λ top. length top.features.items ≤ FEATURES) }
    ensures datums { IfOk result (λ top. length top.datums.items ≤ DATUMS) }
    ensures frames { IfOk result (λ top. length top.frames.items ≤ FRAMES) }
{
    match read_top(alloc, table) {
        Ok(top) => Ok(top),
        Err(fault) => Err(placed(fault, 0, 0)),
    }
}

// Reads a feature table behind the others.
fn add_feature(
    alloc: Global,
    points: &PointTable,
    ranges: &Ranges,
    features: &mut Listed<FeatureDef>,
    table: &Table,
) -> Result<(), ReadFault>
    requires { length features.old.items.items < FEATURES }
    ensures names { OnOk result (length features.new.names.keys ≡ length features.old.names.keys + 1) }
    ensures items { OnOk result (length features.new.items.items ≡ length features.old.items.items + 1) }
    ensures feature { Gives input_cause (λ _. features_read features.new) result
        (in_table (length features.old.items.items + 1) 1 (with_feature points.now ranges.now
        (features_read features.old) (table_view table.now))) }
{
    let row = features.items.len() as u32 + 1;
    match read_feature(alloc, points, ranges, features, table) {
        Ok((name, stated)) => Ok(features.add(name, stated)?),
        Err(fault) => Err(placed(fault, row, FEATURE_COLUMN)),
    }
}

fn read_features(
    alloc: Global,
    points: &PointTable,
    ranges: &Ranges,
    tables: &[&Table],
) -> Result<Listed<FeatureDef>, ReadFault>
    requires { length tables.now ≤ FEATURES }
    ensures features { Gives input_cause features_read result
        (tables_from 1 (with_feature points.now ranges.now) no_entries (map (λ t. table_view t.now) tables.now)) }
    ensures few { IfOk result (λ features. length features.names.keys ≤ FEATURES) }
{
    let mut features = Listed::new(alloc);
    for table in tables {
        match add_feature(alloc, points, ranges, &mut features, table) {
            Ok(()) => {}
            Err(fault) => return Err(fault),
        }
    }
    Ok(features)
}

// Reads a datum table behind the others.
fn add_datum(
    alloc: Global,
    features: &Listed<FeatureDef>,
    ranges: &Ranges,
    datums: &mut Listed<DatumDef>,
    table: &Table,
) -> Result<(), ReadFault>
    requires few { length datums.old.items.items < DATUMS }
    requires features { length features.now.names.keys ≤ FEATURES }
    ensures names { OnOk result (length datums.new.names.keys ≡ length datums.old.names.keys + 1) }
    ensures items { OnOk result (length datums.new.items.items ≡ length datums.old.items.items + 1) }
    ensures datum { Gives input_cause (λ _. datums_read datums.new) result
        (in_table (length datums.old.items.items + 1) 2 (with_datum features.now.names.keys ranges.now
        (datums_read datums.old) (table_view table.now))) }
{
    let row = datums.items.len() as u32 + 1;
    match read_datum(alloc, features, ranges, datums, table) {
        Ok(datum) => {
            let name = again(alloc, &datum.name)?;
            Ok(datums.add(name, datum)?)
        }
        Err(fault) => Err(placed(fault, row, DATUM_COLUMN)),
    }
}

fn read_datums(
    alloc: Global,
    features: &Listed<FeatureDef>,
    ranges: &Ranges,
    tables: &[&Table],
) -> Result<Listed<DatumDef>, ReadFault>
    requires few { length tables.now ≤ DATUMS }
    requires features { length features.now.names.keys ≤ FEATURES }
    ensures datums { Gives input_cause datums_read result (tables_from 2
        (with_datum features.now.names.keys ranges.now) no_entries (map (λ t. table_view t.now) tables.now)) }
    ensures few { IfOk result (λ datums. length datums.names.keys ≤ DATUMS) }
{
    let mut datums = Listed::new(alloc);
    for table in tables {
        match add_datum(alloc, features, ranges, &mut datums, table) {
            Ok(()) => {}
            Err(fault) => return Err(fault),
        }
    }
    Ok(datums)
}

// A frame table that may state what it states.
fn read_right_frame(
    alloc: Global,
    features: &Listed<FeatureDef>,
    datums: &Listed<DatumDef>,
    counts: &GroupCounts<'_>,
    earlier: &Listed<FrameDef>,
    table: &Table,
) -> Result<FrameDef, KeyFault>
    requires features { length features.now.names.keys ≤ FEATURES }
    requires datums { length datums.now.names.keys ≤ DATUMS }
    ensures frame { Gives key_cause frame_of result (and_judged features.now.items.items datums.now.items.items
        counts.now.points.now.rows (frame_in features.now.names.keys datums.now.names.keys earlier.now.names.keys
        (table_view table.now))) }
    ensures new { IfOk result (λ f. is_among earlier.now.names.keys f.name ≡ false) }
{
    let frame = read_frame(alloc, features, datums, earlier, table)?;
    judge(
        features.items.as_slice(),
        datums.items.as_slice(),
        counts,
        &frame,
    )?;
    Ok(frame)
}

// Reads a frame table behind the others.
fn add_frame(
    alloc: Global,
    features: &Listed<FeatureDef>,
    datums: &Listed<DatumDef>,
    counts: &GroupCounts<'_>,
    frames: &mut Listed<FrameDef>,
    table: &Table,
) -> Result<(), ReadFault>
    requires few { length frames.old.items.items < FRAMES }
    requires features { length features.now.names.keys ≤ FEATURES }
    requires datums { length datums.now.names.keys ≤ DATUMS }
    ensures names { OnOk result (length frames.new.names.keys ≡ length frames.old.names.keys + 1) }
    ensures items { OnOk result (length frames.new.items.items ≡ length frames.old.items.items + 1) }
    ensures frame { Gives input_cause (λ _. frames_read frames.new) result
        (in_table (length frames.old.items.items + 1) 3 (with_frame (features_read features.now)
        (datums_read datums.now) counts.now.points.now.rows (frames_read frames.old) (table_view table.now))) }
{
    let row = frames.items.len() as u32 + 1;
    match read_right_frame(alloc, features, datums, counts, frames, table) {
        Ok(frame) => {
            let name = again(alloc, &frame.name)?;
            Ok(frames.add(name, frame)?)
        }
        Err(fault) => Err(placed(fault, row, FRAME_COLUMN)),
    }
}

fn read_all_frames(
    alloc: Global,
    features: &Listed<FeatureDef>,
    datums: &Listed<DatumDef>,
    counts: &GroupCounts<'_>,
    tables: &[&Table],
) -> Result<Listed<FrameDef>, ReadFault>
    requires few { length tables.now ≤ FRAMES }
    requires features { length features.now.names.keys ≤ FEATURES }
    requires datums { length datums.now.names.keys ≤ DATUMS }
    ensures frames { Gives input_cause frames_read result (tables_from 3
        (with_frame (features_read features.now) (datums_read datums.now) counts.now.points.now.rows) no_entries
        (map (λ t. table_view t.now) tables.now)) }
    ensures few { IfOk result (λ frames. length frames.items.items ≤ FRAMES) }
{
    let mut frames = Listed::new(alloc);
    for table in tables {
        match add_frame(alloc, features, datums, counts, &mut frames, table) {
            Ok(()) => {}
            Err(fault) => return Err(fault),
        }
    }
    Ok(frames)
}

// The limits of a frame's groups, with its place where they are passed.
fn test_frame(
    features: &[FeatureDef],
    datums: &[DatumDef],
    counts: &GroupCounts<'_>,
    earlier: &[FrameDef],
    frame: &FrameDef,
) -> Result<(), ReadFault>
    requires { length earlier.now ≤ FRAMES }
    ensures { Gives input_cause (λ u. u) result (in_table (length (map frame_of earlier.now) + 1) 3
        (limits features.now datums.now counts.now.points.now.rows (map frame_of earlier.now) (frame_of frame.now))) }
{
    match limits(features, datums, counts, earlier, frame) {
        Ok(()) => Ok(()),
        Err(fault) => Err(placed(fault, earlier.len() as u32 + 1, FRAME_COLUMN)),
    }
}

fn test_limits(
    features: &Listed<FeatureDef>,
    datums: &Listed<DatumDef>,
    counts: &GroupCounts<'_>,
    frames: &[FrameDef],
) -> Result<(), ReadFault>
    requires { length frames.now ≤ FRAMES }
    ensures { Gives input_cause (λ u. u) result (limits_from features.now.items.items datums.now.items.items
        counts.now.points.now.rows [] (map frame_of frames.now)) }
{
    for (at, frame) in frames.iter().enumerate() {
        match test_frame(
            features.items.as_slice(),
            datums.items.as_slice(),
            counts,
            &frames[..at],
            frame,
        ) {
            Ok(()) => {}
            Err(fault) => return Err(fault),
        }
    }
    Ok(())
}
