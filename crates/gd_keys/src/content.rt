// Single values: numbers, texts, truth values, and three numbers.
ghost use Rattle.std.specs.Prelude.{◌≡◌, ◌≤◌, map, option_map, IfOk, IfSome, true, string_bytes};
ghost use Rattle.toml.specs.Data.{as_integer};
ghost use Rattle.toml.specs.View.{view, items_view, array_view};
ghost use Rattle.gd_base.specs.Names.{is_name};
ghost use Rattle.gd_keys.specs.Contents.{all_of, in_range, is_within, list_of, name, number, text, three, three_of, truth, up_to};
ghost use Rattle.gd_base.specs.Causes.{Gives};
ghost use Rattle.gd_keys.specs.Rules.{key_cause, or_broken};
ghost use Rattle.gd_keys.specs.declared.rule.Rule.TheVariants as rule;
ghost use Rattle.gd_vec.specs.Vector.{IsWithin};

use crate::{KeyFault, Rule};
use gd_base::{Memory, Name};
use gd_vec::V3;
use std::alloc::Global;
use toml::Value;

/// A whole number from 0 to `limit`. Another kind of value is `Rule::Kind`, another number `Rule::Range`.
pub fn number_in(value: &Value, limit: u32) -> Result<u32, KeyFault>
    ensures number { Gives key_cause (λ n. n) result (number limit (view value.now)) }
    ensures limit { IfOk result (λ n. n ≤ limit) }
{
    match value.as_integer() {
        Some(n) => up_to(n, limit),
        None => Err(KeyFault::Rule(Rule::Kind)),
    }
}

fn up_to(n: i64, limit: u32) -> Result<u32, KeyFault>
    ensures number { Gives key_cause (λ n. n) result (up_to limit n) }
    ensures limit { IfOk result (λ n. n ≤ limit) }
{
    if 0 <= n && n <= i64::from(limit) {
        Ok(n as u32)
    } else {
        Err(KeyFault::Rule(Rule::Range))
    }
}

/// A truth value, or else `Rule::Kind`.
pub fn truth_in(value: &Value) -> Result<bool, KeyFault>
    ensures { Gives key_cause (λ b. b) result (truth (view value.now)) }
{
    match value.as_bool() {
        Some(truth) => Ok(truth),
        None => Err(KeyFault::Rule(Rule::Kind)),
    }
}

/// A text, or else `Rule::Kind`.
pub fn text_in(value: &Value) -> Result<&str, KeyFault>
    ensures { Gives key_cause (λ t. t.now) result (text (view value.now)) }
{
    match value.as_str() {
        Some(text) => Ok(text),
        None => Err(KeyFault::Rule(Rule::Kind)),
    }
}

/// A name. Another kind of value is `Rule::Kind`, another text `Rule::Range`.
pub fn name_in(alloc: Global, value: &Value) -> Result<Name, KeyFault>
    ensures { Gives key_cause (λ n. n) result (name (view value.now)) }
{
    let text = text_in(value)?;
    match Name::of(alloc, text.as_bytes())? {
        Some(name) => Ok(name),
        None => Err(KeyFault::Rule(Rule::Range)),
    }
}

/// Three whole numbers of at most `limit` in size. An element of another kind is `Rule::Kind`, another count or
/// another size `Rule::Range`.
pub fn three_in(alloc: Global, value: &Value, limit: u32) -> Result<V3, KeyFault>
    ensures three { Gives key_cause (λ v. v) result (three limit (view value.now)) }
    ensures within { IfOk result (λ v. IsWithin limit v) }
{
    let numbers = whole_numbers(alloc, value)?;
    match *numbers.as_slice() {
        [x, y, z] => three_of(V3 { x, y, z }, limit),
        _ => Err(KeyFault::Rule(Rule::Range)),
    }
}

fn three_of(v: V3, limit: u32) -> Result<V3, KeyFault>
    ensures three { Gives key_cause (λ v. v) result (in_range (is_within limit v) v) }
    ensures within { IfOk result (λ v. IsWithin limit v) }
{
    if is_within(&v, limit) {
        Ok(v)
    } else {
        Err(KeyFault::Rule(Rule::Range))
    }
}

fn is_within(v: &V3, limit: u32) -> bool
    ensures { result ≡ is_within limit v.now }
{
    let limit = u64::from(limit);
    v.x.unsigned_abs() <= limit && v.y.unsigned_abs() <= limit && v.z.unsigned_abs() <= limit
}

// A list of whole numbers.
fn whole_numbers(alloc: Global, value: &Value) -> Result<Vec<i64>, KeyFault>
    ensures { Gives key_cause (λ v. v.items) result (list_of as_integer (view value.now)) }
{
    match value.as_array() {
        Some(items) => integers(alloc, items.as_slice()),
        None => Err(KeyFault::Rule(Rule::Kind)),
    }
}

fn integers(alloc: Global, items: &[Value]) -> Result<Vec<i64>, KeyFault>
    ensures { Gives key_cause (λ v. v.items) result (or_broken (all_of as_integer (items_view items.now)) rule.Kind) }
{
    let mut numbers = Vec::new(alloc);
    for item in items {
        match item.as_integer() {
            Some(number) => numbers.push(number)?,
            None => return Err(KeyFault::Rule(Rule::Kind)),
        }
    }
    Ok(numbers)
}

/// A name once more.
pub fn again(alloc: Global, name: &Name) -> Result<Name, Memory>
    ensures { IfOk result (λ other. other ≡ name.now) }
{
    match Name::of(alloc, name.bytes())? {
        Some(other) => Ok(other),
        // the bytes of a name are a name's
        None => Err(Memory),
    }
}
