// Lists of names: the features of a frame, and its datum words.
ghost use Rattle.std.specs.Prelude.{◌≡◌, ◌<◌, ◌≤◌, ◌&&◌, nat_le, length, map, option_map, IfOk, None, if◌then◌else◌};
ghost use Rattle.std.specs.List.{All};
ghost use Rattle.toml.specs.View.{view};
ghost use Rattle.gd_base.specs.Names.{name_of};
ghost use Rattle.gd_tables.specs.Grammar.{datum_of, features_in, most_features, word_named, word_of, words_in};
ghost use Rattle.gd_tables.specs.Listed.{place_of};
ghost use Rattle.gd_tables.specs.Seen.{seen};
ghost use Rattle.gd_keys.specs.Contents.{each_as};
ghost use Rattle.gd_keys.specs.Keys.{are_new, is_among, once};
ghost use Rattle.gd_base.specs.Causes.{Gives};
ghost use Rattle.gd_base.specs.Limits.{DATUMS, FEATURES, WORDS};
ghost use Rattle.gd_keys.specs.Rules.{key_cause, or_broken};
ghost use Rattle.gd_keys.specs.declared.rule.Rule.TheVariants as rule;

use crate::file::DatumRef;
use crate::kind::Kind;
use crate::listed::Listed;
use gd_base::{Memory, Name, limits};
use gd_keys::{KeyFault, Rule, again, texts_in};
use indexmap::IndexSet;
use std::alloc::Global;
use toml::Value;

// A datum word, whose name isn't looked up yet.
#[derive(Drop)]
struct Word {
    name: Name,
    at_mmb: bool,
}

/// The places of 1 to 64 features, of one for a form kind.
#[tactic(auto, unfolding(crate::specs::Grammar::features_in))]
pub fn features_in<T: Drop>(
    alloc: Global,
    value: &Value,
    kind: Kind,
    features: &Listed<T>,
) -> Result<Vec<u32>, KeyFault>
    requires { length features.now.names.keys ≤ FEATURES }
    ensures { Gives key_cause (λ v. v.items) result (features_in features.now.names.keys kind (view value.now)) }
{
    let texts = texts_in(alloc, value)?;
    let names = feature_names(alloc, kind, texts.as_slice())?;
    let names = once(alloc, names)?;
    places_of(alloc, features, &names)
}

fn most_features(kind: Kind) -> usize
    ensures { result ≡ most_features kind }
{
    if kind.is_form() {
        1
    } else {
        limits::FRAME_FEATURES
    }
}

fn feature_names(alloc: Global, kind: Kind, texts: &[&str]) -> Result<Vec<Name>, KeyFault>
    ensures { Gives key_cause (λ v. v.items) result (or_broken
        (if nat_le 1 (length texts.now) && nat_le (length texts.now) (most_features kind) then each_as name_of
        (map (λ t. t.now) texts.now) else None) rule.Range) }
{
    if 1 <= texts.len() && texts.len() <= most_features(kind) {
        names_of(alloc, texts)
    } else {
        Err(KeyFault::Rule(Rule::Range))
    }
}

// The names that texts are.
fn names_of(alloc: Global, texts: &[&str]) -> Result<Vec<Name>, KeyFault>
    ensures { Gives key_cause (λ v. v.items) result (or_broken (each_as name_of (map (λ t. t.now) texts.now))
        rule.Range) }
{
    let mut names = Vec::new(alloc);
    for text in texts {
        match Name::of(alloc, text.as_bytes())? {
            Some(name) => names.push(name)?,
            None => return Err(KeyFault::Rule(Rule::Range)),
        }
    }
    Ok(names)
}

// The names, if none stands twice.
fn once(alloc: Global, names: Vec<Name>) -> Result<IndexSet<Name>, KeyFault>
    ensures once { Gives key_cause (λ _. tt) result (once names.items) }
    ensures names { IfOk result (λ set. set.keys ≡ names.items) }
{
    let mut set = IndexSet::new(alloc);
    for name in names {
        if !set.insert(name)? {
            return Err(KeyFault::Rule(Rule::Once));
        }
    }
    Ok(set)
}

// The places of features.
fn places_of<T: Drop>(
    alloc: Global,
    features: &Listed<T>,
    names: &IndexSet<Name>,
) -> Result<Vec<u32>, KeyFault>
    requires { length features.now.names.keys ≤ FEATURES }
    ensures { Gives key_cause (λ v. v.items) result (or_broken
        (each_as (place_of features.now.names.keys) names.now.keys) rule.Feature) }
{
    let mut places = Vec::new(alloc);
    for name in names {
        match features.place_of(name) {
            Some(place) => places.push(place as u32)?,
            None => return Err(KeyFault::Rule(Rule::Feature)),
        }
    }
    Ok(places)
}

/// The datums of 0 to 3 words.
#[tactic(auto, unfolding(crate::specs::Grammar::words_in))]
pub fn words_in<T: Drop>(
    alloc: Global,
    value: &Value,
    datums: &Listed<T>,
) -> Result<Vec<DatumRef>, KeyFault>
    requires { length datums.now.names.keys ≤ DATUMS }
    ensures { Gives key_cause (λ v. v.items) result (words_in datums.now.names.keys (view value.now)) }
{
    let texts = texts_in(alloc, value)?;
    let words = few_words(alloc, texts.as_slice())?;
    let _names = once(alloc, names_in(alloc, words.as_slice())?)?;
    datums_of(alloc, datums, words.as_slice())
}

fn few_words(alloc: Global, texts: &[&str]) -> Result<Vec<Word>, KeyFault>
    ensures { Gives key_cause (λ v. map seen v.items) result
        (or_broken (if nat_le (length texts.now) WORDS then each_as word_of (map (λ t. t.now) texts.now) else None)
        rule.Range) }
{
    if texts.len() <= limits::WORDS {
        words_of(alloc, texts)
    } else {
        Err(KeyFault::Rule(Rule::Range))
    }
}

// The words that texts are.
fn words_of(alloc: Global, texts: &[&str]) -> Result<Vec<Word>, KeyFault>
    ensures { Gives key_cause (λ v. map seen v.items) result
        (or_broken (each_as word_of (map (λ t. t.now) texts.now)) rule.Range) }
{
    let mut words = Vec::new(alloc);
    for text in texts {
        match word_of(alloc, text.as_bytes())? {
            Some(word) => words.push(word)?,
            None => return Err(KeyFault::Rule(Rule::Range)),
        }
    }
    Ok(words)
}

// The word that a text is, if it is a name or a name and `(M)`.
fn word_of(alloc: Global, text: &[u8]) -> Result<Option<Word>, Memory>
    ensures { IfOk result (λ word. option_map seen word ≡ word_of text.now) }
{
    match text.strip_suffix(b"(M)".as_slice()) {
        Some(name) => word_named(alloc, true, name),
        None => word_named(alloc, false, text),
    }
}

fn word_named(alloc: Global, at_mmb: bool, name: &[u8]) -> Result<Option<Word>, Memory>
    ensures { IfOk result (λ word. option_map seen word ≡ word_named at_mmb name.now) }
{
    match Name::of(alloc, name)? {
        Some(name) => Ok(Some(Word { name, at_mmb })),
        None => Ok(None),
    }
}

// The names of words.
fn names_in(alloc: Global, words: &[Word]) -> Result<Vec<Name>, Memory>
    ensures { IfOk result (λ v. v.items ≡ map (λ w. w.name) (map seen words.now)) }
{
    let mut names = Vec::new(alloc);
    for word in words {
        names.push(again(alloc, &word.name)?)?;
    }
    Ok(names)
}

// The datums of words.
fn datums_of<T: Drop>(
    alloc: Global,
    datums: &Listed<T>,
    words: &[Word],
) -> Result<Vec<DatumRef>, KeyFault>
    requires { length datums.now.names.keys ≤ DATUMS }
    ensures { Gives key_cause (λ v. v.items) result (or_broken
        (each_as (datum_of datums.now.names.keys) (map seen words.now)) rule.Datum) }
{
    let mut refs = Vec::new(alloc);
    for word in words {
        match datums.place_of(&word.name) {
            Some(place) => refs.push(DatumRef {
                datum: place as u32,
                at_mmb: word.at_mmb,
            })?,
            None => return Err(KeyFault::Rule(Rule::Datum)),
        }
    }
    Ok(refs)
}
