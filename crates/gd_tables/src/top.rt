// The top level of a frame file.
ghost use Rattle.std.specs.Prelude.{◌≡◌, ◌≤◌, [], codes, length, map, IfOk, IfSome};
ghost use Rattle.toml.specs.View.{table_view, view};
ghost use Rattle.gd_tables.specs.Grammar.{some_tables_to, tables_to, top_in, turn_in, version};
ghost use Rattle.gd_tables.specs.Ranges.{ranges_of};
ghost use Rattle.gd_tables.specs.Seen.{seen_tables, seen_top};
ghost use Rattle.gd_tables.specs.declared.kind.Turn.TheVariants as turn;
ghost use Rattle.gd_keys.specs.Keys.{default_to, needed};
ghost use Rattle.gd_base.specs.Causes.{Gives};
ghost use Rattle.gd_base.specs.Limits.{DATUMS, FEATURES, FRAMES};
ghost use Rattle.gd_keys.specs.Rules.{key_cause, or_broken};
ghost use Rattle.gd_keys.specs.declared.rule.Rule.TheVariants as rule;

use crate::kind::Turn;
use crate::ranges::{Ranges, ranges_of};
use gd_base::limits;
use gd_keys::{
    KeyFault, Rule, needed, number_in, number_or, only_keys, optional_three, tables_in, value_at,
};
use gd_vec::V3;
use std::alloc::Global;
use toml::{Table, Value};

/// What the top level states, and the tables of its lists.
#[derive(Drop)]
pub struct Top<'a> {
    pub ranges: Ranges,
    pub turn: Turn,
    pub shift: u32,
    pub centre: Option<V3>,
    pub features: Vec<&'a Table>,
    pub datums: Vec<&'a Table>,
    pub frames: Vec<&'a Table>,
}

/// The top level, its keys from `version` to `frame`.
#[tactic(auto, unfolding(crate::specs::Grammar::top_in))]
pub fn read_top<'a>(alloc: Global, table: &'a Table) -> Result<Top<'a>, KeyFault>
    ensures top { Gives key_cause seen_top result (top_in (table_view table.now)) }
    ensures features { IfOk result (λ top. length top.features.items ≤ FEATURES) }
    ensures datums { IfOk result (λ top. length top.datums.items ≤ DATUMS) }
    ensures frames { IfOk result (λ top. length top.frames.items ≤ FRAMES) }
{
    only_keys(
        table,
        &[
            "version", "turn", "shift", "centre", "feature", "datum", "frame",
        ],
    )?;
    let ranges = read_version(table)?;
    let turn = read_turn(table)?;
    let shift = number_or(table, "shift", ranges.shift, ranges.shift)?;
    let centre = optional_three(alloc, table, "centre", ranges.place)?;
    let features = read_tables(alloc, table, "feature", limits::FEATURES)?;
    let datums = read_tables(alloc, table, "datum", limits::DATUMS)?;
    let frames = read_some_tables(alloc, table, "frame", limits::FRAMES)?;
    Ok(Top {
        ranges,
        turn,
        shift,
        centre,
        features,
        datums,
        frames,
    })
}

fn read_version(table: &Table) -> Result<Ranges, KeyFault>
    ensures { Gives key_cause (λ r. r) result (needed (codes "version") version (table_view table.now)) }
{
    version_in(needed(table, "version")?)
}

fn version_in(value: &Value) -> Result<Ranges, KeyFault>
    ensures { Gives key_cause (λ r. r) result (version (view value.now)) }
{
    match value.as_integer() {
        Some(version) => ranges_in(version),
        None => Err(KeyFault::Rule(Rule::Kind)),
    }
}

fn ranges_in(version: i64) -> Result<Ranges, KeyFault>
    ensures { Gives key_cause (λ r. r) result (or_broken (ranges_of version) rule.Version) }
{
    match ranges_of(version) {
        Some(ranges) => Ok(ranges),
        None => Err(KeyFault::Rule(Rule::Version)),
    }
}

fn read_turn(table: &Table) -> Result<Turn, KeyFault>
    ensures { Gives key_cause (λ t. t) result (default_to turn.All (codes "turn") turn_in (table_view table.now)) }
{
    match value_at(table, "turn") {
        Some(value) => turn_in(value),
        None => Ok(Turn::All),
    }
}

fn turn_in(value: &Value) -> Result<Turn, KeyFault>
    ensures { Gives key_cause (λ t. t) result (turn_in (view value.now)) }
{
    match value.as_str() {
        Some("all") => Ok(Turn::All),
        Some(_) => Err(KeyFault::Rule(Rule::Range)),
        None => Ok(Turn::Within(number_in(value, limits::TURN)?)),
    }
}

// The tables at a key that may be absent.
fn read_tables<'a>(
    alloc: Global,
    table: &'a Table,
    key: &str,
    most: usize,
) -> Result<Vec<&'a Table>, KeyFault>
    ensures tables { Gives key_cause (λ v. seen_tables v) result (default_to [] key.now (tables_to most) (table_view table.now)) }
    ensures most { IfOk result (λ v. length v.items ≤ most) }
{
    match value_at(table, key) {
        Some(value) => tables_to(alloc, value, most),
        None => Ok(Vec::new(alloc)),
    }
}

fn tables_to<'a>(alloc: Global, value: &'a Value, most: usize) -> Result<Vec<&'a Table>, KeyFault>
    ensures tables { Gives key_cause (λ v. seen_tables v) result (tables_to most (view value.now)) }
    ensures most { IfOk result (λ v. length v.items ≤ most) }
{
    let tables = tables_in(alloc, value)?;
    if tables.len() <= most {
        Ok(tables)
    } else {
        Err(KeyFault::Rule(Rule::Range))
    }
}

// The tables at a key that has to stand there, one or more.
fn read_some_tables<'a>(
    alloc: Global,
    table: &'a Table,
    key: &str,
    most: usize,
) -> Result<Vec<&'a Table>, KeyFault>
    ensures tables { Gives key_cause (λ v. seen_tables v) result (needed key.now (some_tables_to most) (table_view table.now)) }
    ensures most { IfOk result (λ v. length v.items ≤ most) }
{
    let tables = tables_in(alloc, needed(table, key)?)?;
    if tables.is_empty() {
        Err(KeyFault::Rule(Rule::Needed))
    } else if tables.len() <= most {
        Ok(tables)
    } else {
        Err(KeyFault::Rule(Rule::Range))
    }
}
