// The reader of a points file.
ghost use Rattle.std.specs.Prelude.{◌≡◌, ◌<◌, ◌≤◌, ◌≤ℤ◌, ◌<ℤ◌, ℤ, pos, negsuc, Some, None, IfOk, length, option_map};
ghost use Rattle.std.specs.Prelude.{unsigned_abs};
ghost use Rattle.gd_base.specs.Causes.{Gives, input_cause};
ghost use Rattle.gd_base.specs.Limits.{COORDINATE, GROUP};
ghost use Rattle.csv.specs.Reading.{default_config, records, strip_bom};
ghost use Rattle.csv.specs.Records.{fields_of, field_at};
ghost use Rattle.gd_base.specs.Names.{name_of};
ghost use Rattle.gd_points.specs.Fields.{seen, shown};
ghost use Rattle.gd_points.specs.Named.{IsNamed, name_in};
ghost use Rattle.gd_points.specs.Points.{coordinate_in, five_of, group_in, is_header, next_row, number_in};
ghost use Rattle.gd_points.specs.Points.{or_fault, place_in, point_in, points, with_record, with_records};
ghost use Rattle.gd_points.specs.Reader.{IsBetween, TakesHeader, TakesNext, records_left};
ghost use Rattle.gd_points.specs.Rules.{fault};
ghost use Rattle.gd_points.specs.Table.{empty_table};
ghost use Rattle.gd_points.specs.declared.rule.Rule.TheVariants as rule;
ghost use Rattle.gd_vec.specs.Vector.{IsWithin};

use crate::number::read_number;
use crate::{Named, PointTable, Rule};
use csv::{ByteRecord, Reader, ReaderBuilder};
use gd_base::{Name, ReadFault, limits};
use gd_vec::V3;
use std::alloc::Global;

// The fields of a record of five.
#[derive(Drop)]
struct Fields<'a> {
    name: &'a [u8],
    group: &'a [u8],
    x: &'a [u8],
    y: &'a [u8],
    z: &'a [u8],
}

// A point that was read and isn't in the table yet.
#[derive(Drop)]
struct PointRead {
    name: Named,
    group: u32,
    at: V3,
}

/// The table of a points file (docs/FORMATS.md, "Points file"), or the first fault of it.
/// A byte order mark is dropped, and `csv` drops one more.
/// `Memory` is answered for each error of `csv` too: over bytes in memory it has no other cause.
pub fn read_points(alloc: Global, bytes: &[u8]) -> Result<PointTable, ReadFault>
    ensures { Gives input_cause (λ t. t) result (points bytes.now) }
{
    let mut reader = records_in(alloc, without_mark(bytes));
    let mut entry = ByteRecord::new(alloc);
    read_header(&mut reader, &mut entry)?;
    let table = read_records(alloc, &mut reader, &mut entry)?;
    if table.is_empty() {
        return Err(Rule::NoPoints.broken_at(2, 0));
    }
    Ok(table)
}

// The table of the records that are left.
fn read_records(
    alloc: Global,
    reader: &mut Reader<&[u8]>,
    entry: &mut ByteRecord,
) -> Result<PointTable, ReadFault>
    requires { IsBetween reader.old }
    ensures { Gives input_cause (λ t. t) result (with_records empty_table (records_left reader.old)) }
{
    let mut table = PointTable::new(alloc);
    while read_next(reader, entry)? {
        add_record(alloc, &mut table, entry)?;
    }
    Ok(table)
}

// The bytes without a byte order mark at their start.
fn without_mark(bytes: &[u8]) -> &[u8]
    ensures { result.now ≡ strip_bom bytes.now }
{
    match bytes.strip_prefix(b"\xEF\xBB\xBF".as_slice()) {
        Some(rest) => rest,
        None => bytes,
    }
}

// A reader of the records, each of any length.
fn records_in(alloc: Global, bytes: &[u8]) -> Reader<&[u8]>
    ensures between { IsBetween result }
    ensures records { records_left result ≡ records default_config (strip_bom bytes.now) }
{
    ReaderBuilder::new()
        .has_headers(false)
        .flexible(true)
        .from_reader(alloc, bytes)
}

// Takes the next record, and tells whether there was one.
fn read_next(reader: &mut Reader<&[u8]>, entry: &mut ByteRecord) -> Result<bool, ReadFault>
    requires { IsBetween reader.old }
    ensures { TakesNext reader.old reader.new (fields_of entry.new) result }
{
    let Ok(found) = reader.read_byte_record(entry) else {
        return Err(ReadFault::Memory);
    };
    Ok(found)
}

// Takes the header.
fn read_header(reader: &mut Reader<&[u8]>, entry: &mut ByteRecord) -> Result<(), ReadFault>
    requires { IsBetween reader.old }
    ensures { TakesHeader reader.old reader.new result }
{
    if read_next(reader, entry)? && names_columns(entry) {
        Ok(())
    } else {
        Err(Rule::Header.broken_at(1, 0))
    }
}

// Whether a record is the header.
fn names_columns(entry: &ByteRecord) -> bool
    ensures { result ≡ is_header (five_of (fields_of entry.now)) }
{
    match fields_in(entry) {
        None => false,
        Some(fields) => are_columns(&fields),
    }
}

fn are_columns(fields: &Fields<'_>) -> bool
    ensures { result ≡ is_header (Some (seen fields.now)) }
{
    fields.name == b"feature".as_slice()
        && fields.group == b"group".as_slice()
        && fields.x == b"x".as_slice()
        && fields.y == b"y".as_slice()
        && fields.z == b"z".as_slice()
}

// Adds the point of a record.
fn add_record(alloc: Global, table: &mut PointTable, entry: &ByteRecord) -> Result<(), ReadFault>
    ensures { Gives input_cause (λ t. table.new) result (with_record table.old (fields_of entry.now)) }
{
    let count = table.len();
    let row = count as u32 + 2;
    let Some(fields) = fields_in(entry) else {
        return Err(Rule::Fields.broken_at(row, 0));
    };
    if count >= limits::POINTS {
        return Err(Rule::TooManyPoints.broken_at(row, 0));
    }
    let point = read_point(alloc, table, &fields, row)?;
    let PointRead { name, group, at } = point;
    table.push(name, group, at)?;
    Ok(())
}

// The fields of a record, if there are five.
fn fields_in(entry: &ByteRecord) -> Option<Fields<'_>>
    ensures { option_map seen result ≡ five_of (fields_of entry.now) }
{
    if entry.len() != 5 {
        return None;
    }
    Some(Fields {
        name: field_of(entry, 0),
        group: field_of(entry, 1),
        x: field_of(entry, 2),
        y: field_of(entry, 3),
        z: field_of(entry, 4),
    })
}

#[inline(always)]
fn field_of(entry: &ByteRecord, at: usize) -> &[u8]
    requires { at < length (fields_of entry.now) }
    ensures { field_at (fields_of entry.now) at ≡ Some result.now }
{
    entry.get(at).unwrap()
}

fn read_point(
    alloc: Global,
    table: &PointTable,
    fields: &Fields<'_>,
    row: u32,
) -> Result<PointRead, ReadFault>
    ensures answers { Gives input_cause (shown table.now) result (point_in row (seen fields.now)) }
    ensures named { IfOk result (λ point. IsNamed table.now.names point.name) }
    ensures group { IfOk result (λ point. point.group ≤ GROUP) }
    ensures within { IfOk result (λ point. IsWithin COORDINATE point.at) }
{
    let name = read_name(alloc, table, fields.name, row)?;
    let group = read_group(fields.group, row)?;
    let at = read_place(fields, row)?;
    Ok(PointRead { name, group, at })
}

// The name that a field spells. Most points have that of the point before them, which needs no memory.
fn read_name(alloc: Global, table: &PointTable, field: &[u8], row: u32) -> Result<Named, ReadFault>
    ensures answers { Gives input_cause (name_in table.now.names) result (or_fault (name_of field.now) (fault rule.Name row 1)) }
    ensures named { IfOk result (λ name. IsNamed table.now.names name) }
{
    if let Some(feature) = table.last_named(field) {
        return Ok(Named::Again(feature));
    }
    match Name::of(alloc, field)? {
        Some(name) => Ok(Named::Other(name)),
        None => Err(Rule::Name.broken_at(row, 1)),
    }
}

fn read_group(field: &[u8], row: u32) -> Result<u32, ReadFault>
    ensures answers { Gives input_cause (λ group. group) result (group_in row field.now) }
    ensures within { IfOk result (λ group. group ≤ GROUP) }
{
    let group = read_within(field, row, 2, 0, i64::from(limits::GROUP))?;
    Ok(group.unsigned_abs() as u32)
}

fn read_place(fields: &Fields<'_>, row: u32) -> Result<V3, ReadFault>
    ensures answers { Gives input_cause (λ at. at) result (place_in row (seen fields.now)) }
    ensures within { IfOk result (λ at. IsWithin COORDINATE at) }
{
    let x = read_coordinate(fields.x, row, 3)?;
    let y = read_coordinate(fields.y, row, 4)?;
    let z = read_coordinate(fields.z, row, 5)?;
    Ok(V3 { x, y, z })
}

fn read_coordinate(field: &[u8], row: u32, column: u32) -> Result<i64, ReadFault>
    ensures answers { Gives input_cause (λ x. x) result (coordinate_in row column field.now) }
    ensures within { IfOk result (λ x. unsigned_abs x ≤ COORDINATE) }
{
    read_within(field, row, column, -limits::COORDINATE, limits::COORDINATE)
}

// The number of a field, from `low` to `high`.
fn read_within(field: &[u8], row: u32, column: u32, low: i64, high: i64) -> Result<i64, ReadFault>
    requires low { negsuc 999999999 <ℤ low }
    requires high { high <ℤ pos 1000000000 }
    ensures answers { Gives input_cause (λ n. n) result (number_in row column low high field.now) }
    ensures low { IfOk result (λ n. low ≤ℤ n) }
    ensures high { IfOk result (λ n. n ≤ℤ high) }
{
    match read_number(field) {
        None => Err(Rule::Number.broken_at(row, column)),
        Some(n) => {
            if low <= n && n <= high {
                Ok(n)
            } else {
                Err(Rule::Range.broken_at(row, column))
            }
        }
    }
}
