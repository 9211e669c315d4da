// A datum table.
ghost use Rattle.std.specs.Prelude.{◌≡◌, ◌<◌, ◌≤◌, codes, length, false, IfOk, IfSome};
ghost use Rattle.toml.specs.View.{table_view, view};
ghost use Rattle.gd_tables.specs.Grammar.{datum_in, known_feature};
ghost use Rattle.gd_keys.specs.Keys.{is_among, needed};
ghost use Rattle.gd_base.specs.Causes.{Gives};
ghost use Rattle.gd_base.specs.Limits.{FEATURES};
ghost use Rattle.gd_keys.specs.Rules.{key_cause};

use crate::feature::new_name;
use crate::file::{DatumDef, FeatureDef};
use crate::listed::Listed;
use crate::ranges::Ranges;
use gd_base::limits;
use gd_keys::{KeyFault, Rule, name_in, needed, number_or, only_keys, optional_number};
use std::alloc::Global;
use toml::Table;

/// A datum table, whose name none of the earlier ones has.
#[tactic(auto, unfolding(crate::specs::Grammar::datum_in))]
pub fn read_datum(
    alloc: Global,
    features: &Listed<FeatureDef>,
    ranges: &Ranges,
    earlier: &Listed<DatumDef>,
    table: &Table,
) -> Result<DatumDef, KeyFault>
    requires { length features.now.names.keys ≤ FEATURES }
    ensures datum { Gives key_cause (λ d. d) result (datum_in features.now.names.keys ranges.now earlier.now.names.keys (table_view table.now)) }
    ensures new { IfOk result (λ d. is_among earlier.now.names.keys d.name ≡ false) }
    ensures feature { IfOk result (λ d. d.feature < length features.now.names.keys) }
{
    only_keys(table, &["name", "feature", "slack", "boundary"])?;
    let name = new_name(alloc, earlier, table)?;
    let feature = read_place(alloc, features, table)?;
    let slack = number_or(table, "slack", limits::SLACK, limits::USUAL_SLACK)?;
    let boundary = optional_number(table, "boundary", ranges.diameter)?;
    Ok(DatumDef {
        name,
        feature,
        slack,
        boundary,
    })
}

// The place of the feature that a datum names.
fn read_place(alloc: Global, features: &Listed<FeatureDef>, table: &Table) -> Result<u32, KeyFault>
    requires { length features.now.names.keys ≤ FEATURES }
    ensures place { Gives key_cause (λ p. p) result (needed (codes "feature") (known_feature features.now.names.keys) (table_view table.now)) }
    ensures within { IfOk result (λ p. p < length features.now.names.keys) }
{
    let name = name_in(alloc, needed(table, "feature")?)?;
    match features.place_of(&name) {
        Some(place) => Ok(place as u32),
        None => Err(KeyFault::Rule(Rule::Feature)),
    }
}
