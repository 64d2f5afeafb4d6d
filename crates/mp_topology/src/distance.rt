//! The distances between the nodes.

ghost use Rattle.std.specs.Prelude.{◌≡◌, ◌≤◌, ◌==◌, [], length, map, take, option_map};
ghost use Rattle.std.specs.List.{list_all};
ghost use Rattle.mp_checks.specs.Checks.{Reads, each_from};
ghost use Rattle.toml.specs.View.{table_view, view};
ghost use Rattle.mp_topology.specs.Distance.{row_of, is_number, distance_of, is_distance, distances_in, filled, grid, row_value, list_checks, row_checks, rows_checks, distance_checks, distances_of};

use crate::errors::{Field, TopologyError};
use crate::fields::{at, list_at};
use toml::value::Array;
use toml::{Table, Value};

fn row_of(item: &Value) -> Option<&Array>
    ensures { option_map (λ v. map view v.now.items) result ≡ row_of (view item.now) }
{
    item.as_array()
}

fn is_number(item: &Value) -> bool
    ensures { result ≡ is_number (view item.now) }
{
    item.as_integer().is_some()
}

/// A distance, from 1 to 255.
#[tactic(auto, unfolding(crate::specs::Distance::distance_of))]
fn distance_of(item: &Value) -> Option<u8>
    ensures { result ≡ distance_of (view item.now) }
{
    match item.as_integer() {
        Some(number) => {
            if number >= 1 && number <= 255 {
                Some(number as u8)
            } else {
                None
            }
        }
        None => None,
    }
}

fn are_numbers(items: &[Value]) -> bool
    ensures { result ≡ list_all is_number (map view items.now) }
{
    for item in items {
        if !is_number(item) {
            return false;
        }
    }
    true
}

fn are_distances(items: &[Value]) -> bool
    ensures { result ≡ list_all is_distance (map view items.now) }
{
    for item in items {
        if distance_of(item).is_none() {
            return false;
        }
    }
    true
}

#[tactic(auto, unfolding(crate::specs::Distance::filled))]
fn no_distances() -> [u8; 8]
    ensures { result ≡ filled 8 0 [] }
{
    [0; 8]
}

#[tactic(auto, unfolding(crate::specs::Distance::filled, crate::specs::Distance::grid))]
fn no_rows() -> [[u8; 8]; 8]
    ensures { result ≡ grid [] }
{
    [[0; 8]; 8]
}

/// The distances of a row, with 0 past its end.
fn distances_in(items: &[Value]) -> [u8; 8]
    requires { length items.now ≤ 8 }
    ensures { result ≡ filled 8 0 (distances_in (map view items.now)) }
{
    let mut row = no_distances();
    for (i, item) in items.iter().enumerate() {
        row[i] = distance_of(item).unwrap_or(0);
    }
    row
}

#[tactic(auto, unfolding(crate::specs::Distance::list_checks))]
fn row_from(nodes: usize, index: u32, items: &[Value]) -> Result<[u8; 8], TopologyError>
    requires { nodes ≤ 8 }
    ensures { Reads TopologyError.NoMemory result (list_checks nodes index (map view items.now)) (filled 8 0 (distances_in (map view items.now))) }
{
    if !are_numbers(items) {
        return Err(TopologyError::Field(at(Field::Distance, index)));
    }
    if items.len() != nodes {
        return Err(TopologyError::Range(at(Field::Distance, index)));
    }
    if !are_distances(items) {
        return Err(TopologyError::Range(at(Field::Distance, index)));
    }
    Ok(distances_in(items))
}

#[tactic(auto, unfolding(crate::specs::Distance::row_checks, crate::specs::Distance::row_value))]
fn row_in(nodes: usize, index: u32, item: &Value) -> Result<[u8; 8], TopologyError>
    requires { nodes ≤ 8 }
    ensures { Reads TopologyError.NoMemory result (row_checks nodes index (view item.now)) (row_value (view item.now)) }
{
    match row_of(item) {
        Some(items) => row_from(nodes, index, items),
        None => Err(TopologyError::Field(at(Field::Distance, index))),
    }
}

fn rows_in(nodes: usize, items: &[Value]) -> Result<[[u8; 8]; 8], TopologyError>
    requires nodes { nodes ≤ 8 }
    requires few { length items.now ≤ 8 }
    ensures { Reads TopologyError.NoMemory result (each_from (row_checks nodes) 0 (map view items.now)) (grid (map row_value (map view items.now))) }
{
    let mut rows = no_rows();
    for (i, item) in items.iter().enumerate() {
        let row = row_in(nodes, i as u32, item)?;
        rows[i] = row;
    }
    Ok(rows)
}

/// The first `n` items, or all where there are fewer.
fn front(items: &[Value], n: usize) -> &[Value]
    ensures items { map view result.now ≡ take n (map view items.now) }
    ensures few { length result.now ≤ n }
{
    if items.len() <= n {
        return items;
    }
    let (front, _) = items.split_at(n);
    front
}

fn has_rows(nodes: u32, items: &[Value]) -> bool
    ensures { result ≡ (length (map view items.now) == nodes) }
{
    items.len() == nodes as usize
}

#[tactic(auto, using(mp_checks::proofs::CheckLaws::fault_append), unfolding(crate::specs::Distance::rows_checks))]
fn distance_from(nodes: u32, items: &[Value]) -> Result<[[u8; 8]; 8], TopologyError>
    requires { nodes ≤ 8 }
    ensures { Reads TopologyError.NoMemory result (rows_checks nodes (map view items.now)) (grid (map row_value (take nodes (map view items.now)))) }
{
    let rows = rows_in(nodes as usize, front(items, nodes as usize))?;
    if !has_rows(nodes, items) {
        return Err(TopologyError::Range(at(Field::Distance, nodes)));
    }
    Ok(rows)
}

/// The distances, with 0 past the nodes.
///
/// # Errors
///
/// `Field` and `Range` at the first row that isn't a list of `nodes` numbers from 1 to 255, and `Range` at `nodes`
/// where there is another number of rows.
#[tactic(auto, unfolding(crate::specs::Distance::distance_checks, crate::specs::Distance::distances_of))]
pub(crate) fn distance_in(nodes: u32, table: &Table) -> Result<[[u8; 8]; 8], TopologyError>
    requires { nodes ≤ 8 }
    ensures { Reads TopologyError.NoMemory result (distance_checks nodes (table_view table.now)) (distances_of nodes (table_view table.now)) }
{
    match list_at(table, "distance") {
        Some(items) => distance_from(nodes, items),
        None => Err(TopologyError::Field(at(Field::Distance, 0))),
    }
}
