// Lists of texts and of tables.
ghost use Rattle.std.specs.Prelude.{◌≡◌, map};
ghost use Rattle.toml.specs.Data.{as_str, as_table};
ghost use Rattle.toml.specs.View.{view, items_view, table_view};
ghost use Rattle.gd_keys.specs.Contents.{all_of, tables, texts};
ghost use Rattle.gd_base.specs.Causes.{Gives};
ghost use Rattle.gd_keys.specs.Rules.{key_cause, or_broken};
ghost use Rattle.gd_keys.specs.declared.rule.Rule.TheVariants as rule;

use crate::{KeyFault, Rule};
use std::alloc::Global;
use toml::{Table, Value};

/// A list of texts. Another kind of value or of element is `Rule::Kind`.
pub fn texts_in<'a>(alloc: Global, value: &'a Value) -> Result<Vec<&'a str>, KeyFault>
    ensures { Gives key_cause (λ v. map (λ t. t.now) v.items) result (texts (view value.now)) }
{
    match value.as_array() {
        Some(items) => texts_of(alloc, items.as_slice()),
        None => Err(KeyFault::Rule(Rule::Kind)),
    }
}

fn texts_of<'a>(alloc: Global, items: &'a [Value]) -> Result<Vec<&'a str>, KeyFault>
    ensures { Gives key_cause (λ v. map (λ t. t.now) v.items) result (or_broken (all_of as_str (items_view items.now)) rule.Kind) }
{
    let mut texts = Vec::new(alloc);
    for item in items {
        match item.as_str() {
            Some(text) => texts.push(text)?,
            None => return Err(KeyFault::Rule(Rule::Kind)),
        }
    }
    Ok(texts)
}

/// A list of tables. Another kind of value or of element is `Rule::Kind`.
pub fn tables_in<'a>(alloc: Global, value: &'a Value) -> Result<Vec<&'a Table>, KeyFault>
    ensures { Gives key_cause (λ v. map (λ t. table_view t.now) v.items) result (tables (view value.now)) }
{
    match value.as_array() {
        Some(items) => tables_of(alloc, items.as_slice()),
        None => Err(KeyFault::Rule(Rule::Kind)),
    }
}

fn tables_of<'a>(alloc: Global, items: &'a [Value]) -> Result<Vec<&'a Table>, KeyFault>
    ensures { Gives key_cause (λ v. map (λ t. table_view t.now) v.items) result (or_broken (all_of as_table (items_view items.now)) rule.Kind) }
{
    let mut tables = Vec::new(alloc);
    for item in items {
        match item.as_table() {
            Some(table) => tables.push(table)?,
            None => return Err(KeyFault::Rule(Rule::Kind)),
        }
    }
    Ok(tables)
}
