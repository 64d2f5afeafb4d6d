//! The fields of a table.

ghost use Rattle.std.specs.Prelude.{◌≡◌, option_map, map};
ghost use Rattle.mp_checks.specs.Checks.{Reads};
ghost use Rattle.toml.specs.Data.{get_member};
ghost use Rattle.toml.specs.View.{table_view, view};
ghost use Rattle.mp_topology.specs.Fields.{at, is_missing, integer_at, text_at, truth_at, list_at, number_checks, number_of, optional_checks, optional_of};

use crate::errors::{Field, Place, TopologyError};
use toml::value::Array;
use toml::{Table, Value};

/// The place of a field.
pub(crate) fn at(field: Field, index: u32) -> Place
    ensures { result ≡ at field index }
{
    Place { field, index }
}

/// The value at a key.
pub(crate) fn value_at<'a>(table: &'a Table, key: &str) -> Option<&'a Value>
    ensures { option_map (λ v. view v.now) result ≡ get_member key.now (table_view table.now) }
{
    table.get(key)
}

/// Whether there is no value at a key.
#[tactic(auto, unfolding(crate::specs::Fields::is_missing))]
pub(crate) fn is_missing(table: &Table, key: &str) -> bool
    ensures { result ≡ is_missing key.now (table_view table.now) }
{
    match value_at(table, key) {
        Some(_) => false,
        None => true,
    }
}

/// The whole number at a key.
#[tactic(auto, unfolding(crate::specs::Fields::integer_at))]
pub(crate) fn integer_at(table: &Table, key: &str) -> Option<i64>
    ensures { result ≡ integer_at key.now (table_view table.now) }
{
    match value_at(table, key) {
        Some(value) => value.as_integer(),
        None => None,
    }
}

/// The text at a key.
#[tactic(auto, unfolding(crate::specs::Fields::text_at))]
pub(crate) fn text_at<'a>(table: &'a Table, key: &str) -> Option<&'a str>
    ensures { option_map (λ s. s.now) result ≡ text_at key.now (table_view table.now) }
{
    match value_at(table, key) {
        Some(value) => value.as_str(),
        None => None,
    }
}

/// The truth value at a key.
#[tactic(auto, unfolding(crate::specs::Fields::truth_at))]
pub(crate) fn truth_at(table: &Table, key: &str) -> Option<bool>
    ensures { result ≡ truth_at key.now (table_view table.now) }
{
    match value_at(table, key) {
        Some(value) => value.as_bool(),
        None => None,
    }
}

/// The list at a key.
pub(crate) fn list_at<'a>(table: &'a Table, key: &str) -> Option<&'a Array>
    ensures { option_map (λ v. map view v.now.items) result ≡ list_at key.now (table_view table.now) }
{
    match value_at(table, key) {
        Some(value) => value.as_array(),
        None => None,
    }
}

/// A number from `low` to `high`.
///
/// # Errors
///
/// `Field` where there is no whole number, and `Range` where it is another number.
pub(crate) fn number_in(
    table: &Table,
    key: &str,
    low: u32,
    high: u32,
    place: Place,
) -> Result<u32, TopologyError>
    ensures { Reads TopologyError.NoMemory result (number_checks key.now low high place (table_view table.now)) (number_of (integer_at key.now (table_view table.now))) }
{
    let number = match integer_at(table, key) {
        Some(number) => number,
        None => return Err(TopologyError::Field(place)),
    };
    if number < i64::from(low) || number > i64::from(high) {
        return Err(TopologyError::Range(place));
    }
    Ok(number as u32)
}

/// A number from `low` to `high`, or nothing where the field is missing.
///
/// # Errors
///
/// `Field` where there is something else than a whole number, and `Range` where it is another number.
#[tactic(auto, unfolding(crate::specs::Fields::integer_at, crate::specs::Fields::is_missing))]
pub(crate) fn optional_in(
    table: &Table,
    key: &str,
    low: u32,
    high: u32,
    place: Place,
) -> Result<Option<u32>, TopologyError>
    ensures { Reads TopologyError.NoMemory result (optional_checks key.now low high place (table_view table.now)) (optional_of (integer_at key.now (table_view table.now))) }
{
    if value_at(table, key).is_none() {
        return Ok(None);
    }
    let number = match integer_at(table, key) {
        Some(number) => number,
        None => return Err(TopologyError::Field(place)),
    };
    if number < i64::from(low) || number > i64::from(high) {
        return Err(TopologyError::Range(place));
    }
    Ok(Some(number as u32))
}
