// The keys of a table.
ghost use Rattle.std.specs.Prelude.{◌≡◌, ◌≤◌, map, option_map, IfOk, IfSome, string_bytes};
ghost use Rattle.std.specs.List.{list_all};
ghost use Rattle.toml.specs.Data.{get_member};
ghost use Rattle.toml.specs.View.{table_view, view};
ghost use Rattle.gd_keys.specs.Contents.{number, three};
ghost use Rattle.gd_keys.specs.Keys.{are_listed, default_to, is_among, needed, only, optional};
ghost use Rattle.gd_base.specs.Causes.{Gives};
ghost use Rattle.gd_keys.specs.Rules.{key_cause};
ghost use Rattle.gd_vec.specs.Vector.{IsWithin};

use crate::content::{number_in, three_in};
use crate::{KeyFault, Rule};
use gd_vec::V3;
use std::alloc::Global;
use toml::{Table, Value};

/// The value at a key, if it stands in the table.
pub fn value_at<'a>(table: &'a Table, key: &str) -> Option<&'a Value>
    ensures { option_map (λ v. view v.now) result ≡ get_member key.now (table_view table.now) }
{
    table.get(key)
}

/// The value at a key that has to stand in the table, or else `Rule::Needed`.
pub fn needed<'a>(table: &'a Table, key: &str) -> Result<&'a Value, KeyFault>
    ensures { Gives key_cause (λ v. view v.now) result (needed key.now Ok (table_view table.now)) }
{
    match value_at(table, key) {
        Some(value) => Ok(value),
        None => Err(KeyFault::Rule(Rule::Needed)),
    }
}

// Whether a key is one of these.
fn is_listed(keys: &[&str], key: &str) -> bool
    ensures { result ≡ is_among (map (λ k. k.now) keys.now) key.now }
{
    for listed in keys {
        if key == *listed {
            return true;
        }
    }
    false
}

// Whether each key of a table is one of these.
fn are_listed(table: &Table, keys: &[&str]) -> bool
    ensures { result ≡ are_listed (map (λ k. k.now) keys.now) (table_view table.now) }
{
    for (key, _) in table.iter() {
        if !is_listed(keys, key.as_str()) {
            return false;
        }
    }
    true
}

/// Nothing where each key of the table is one of these, or else `Rule::Listed`.
pub fn only_keys(table: &Table, keys: &[&str]) -> Result<(), KeyFault>
    ensures { Gives key_cause (λ u. u) result (only (map (λ k. k.now) keys.now) (table_view table.now)) }
{
    if are_listed(table, keys) {
        Ok(())
    } else {
        Err(KeyFault::Rule(Rule::Listed))
    }
}

/// The number from 0 to `limit` at a key, or `default` where the key is absent.
pub fn number_or(table: &Table, key: &str, limit: u32, default: u32) -> Result<u32, KeyFault>
    ensures number { Gives key_cause (λ n. n) result (default_to default key.now (number limit) (table_view table.now)) }
    ensures limit { default ≤ limit → IfOk result (λ n. n ≤ limit) }
{
    match value_at(table, key) {
        Some(value) => number_in(value, limit),
        None => Ok(default),
    }
}

/// The number from 0 to `limit` at a key that may be absent.
pub fn optional_number(table: &Table, key: &str, limit: u32) -> Result<Option<u32>, KeyFault>
    ensures number { Gives key_cause (λ n. n) result (optional key.now (number limit) (table_view table.now)) }
    ensures limit { IfOk result (λ number. IfSome number (λ n. n ≤ limit)) }
{
    match value_at(table, key) {
        Some(value) => Ok(Some(number_in(value, limit)?)),
        None => Ok(None),
    }
}

/// The three numbers of at most `limit` in size at a key that may be absent.
pub fn optional_three(
    alloc: Global,
    table: &Table,
    key: &str,
    limit: u32,
) -> Result<Option<V3>, KeyFault>
    ensures three { Gives key_cause (λ v. v) result (optional key.now (three limit) (table_view table.now)) }
    ensures within { IfOk result (λ numbers. IfSome numbers (IsWithin limit)) }
{
    match value_at(table, key) {
        Some(value) => Ok(Some(three_in(alloc, value, limit)?)),
        None => Ok(None),
    }
}
