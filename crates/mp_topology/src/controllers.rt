//! The controllers of a table.

ghost use Rattle.std.specs.Prelude.{◌≡◌, ◌≤◌, map, true, length, IfOk};
ghost use Rattle.std.specs.List.{list_all};
ghost use Rattle.std.specs.Str.{bytes_eq};
ghost use Rattle.mp_checks.specs.Checks.{Reads, each_from};
ghost use Rattle.toml.specs.View.{table_view, view};
ghost use Rattle.mp_topology.specs.Controllers.{is_name, is_name_byte, place_of, name_checks, name_of, node_checks, node_of, ana_checks, ana_of, state_checks, state_of, page_checks, page_of};
ghost use Rattle.mp_topology.specs.Controllers.{is_table, controller_checks, controller_of, each_controller, controllers_in, items_checks, controllers_checks, controllers_of};

use crate::errors::{Field, TopologyError};
use crate::fields::{at, is_missing, list_at, optional_in, text_at, truth_at};
use crate::topology::Controller;
use mp_words::name::Name;
use mp_words::names::cstate_named;
use mp_words::numbers::{Ctrl, Node};
use mp_words::row::CState;
use sqlite_items::Items;
use std::alloc::Global;
use toml::{Table, Value};

fn is_name_byte(c: u8) -> bool
    ensures { result ≡ is_name_byte c }
{
    c.is_ascii_lowercase() || c.is_ascii_digit() || c == b'-' || c == b'_'
}

fn are_name_bytes(others: &[u8]) -> bool
    ensures { result ≡ list_all is_name_byte others.now }
{
    others.iter().all(|c| is_name_byte(*c))
}

/// Whether the bytes are a name: 1 to 16 of a to z, 0 to 9, `-` and `_`, the first a letter.
fn is_name(name: &[u8]) -> bool
    ensures { result ≡ is_name name.now }
{
    match name {
        [] => false,
        [first, others @ ..] => {
            first.is_ascii_lowercase() && others.len() <= 15 && are_name_bytes(others)
        }
    }
}

fn has_name(controller: &Controller, name: &str) -> bool
    ensures { result ≡ bytes_eq controller.now.name name.now }
{
    controller.name.as_str() == name
}

/// The controller of a name: `None` exactly where none has it.
pub(crate) fn place_of(controllers: &[Controller], name: &str) -> Option<Ctrl>
    requires { length controllers.now ≤ 64 }
    ensures { result ≡ place_of name.now (map (λ c. c.name) controllers.now) }
{
    for (i, controller) in controllers.iter().enumerate() {
        if has_name(controller, name) {
            return Ctrl::make(i as u32);
        }
    }
    None
}

/// The name, which no earlier controller has.
#[tactic(auto, unfolding(crate::specs::Controllers::name_checks, crate::specs::Controllers::name_of))]
fn name_in(
    alloc: Global,
    earlier: &[Controller],
    index: u32,
    table: &Table,
) -> Result<Name, TopologyError>
    requires { length earlier.now ≤ 64 }
    ensures { Reads TopologyError.NoMemory result (name_checks (map (λ c. c.name) earlier.now) index (table_view table.now)) (name_of (table_view table.now)) }
{
    let name = match text_at(table, "name") {
        Some(name) => name,
        None => return Err(TopologyError::Field(at(Field::Name, index))),
    };
    if !is_name(name.as_bytes()) {
        return Err(TopologyError::Range(at(Field::Name, index)));
    }
    if place_of(earlier, name).is_some() {
        return Err(TopologyError::Duplicate(at(Field::Name, index)));
    }
    let text = String::from_str(alloc, name)?;
    Ok(Name::from_string(text))
}

/// The node, below `nodes`, if there is one.
#[tactic(auto, unfolding(crate::specs::Controllers::node_checks, crate::specs::Controllers::node_of))]
fn node_in(nodes: u32, index: u32, table: &Table) -> Result<Option<Node>, TopologyError>
    requires least { 1 ≤ nodes }
    requires most { nodes ≤ 8 }
    ensures { Reads TopologyError.NoMemory result (node_checks nodes index (table_view table.now)) (node_of (table_view table.now)) }
{
    match optional_in(table, "node", 0, nodes - 1, at(Field::Node, index))? {
        Some(node) => Ok(Node::make(node)),
        None => Ok(None),
    }
}

/// Whether the controller reports ANA: it doesn't where the field is missing.
#[tactic(auto, unfolding(crate::specs::Controllers::ana_checks, crate::specs::Controllers::ana_of))]
fn ana_in(index: u32, table: &Table) -> Result<bool, TopologyError>
    ensures { Reads TopologyError.NoMemory result (ana_checks index (table_view table.now)) (ana_of (table_view table.now)) }
{
    match truth_at(table, "ana") {
        Some(ana) => Ok(ana),
        None => {
            if is_missing(table, "ana") {
                return Ok(false);
            }
            Err(TopologyError::Field(at(Field::Ana, index)))
        }
    }
}

/// The state, live where the field is missing.
#[tactic(auto, unfolding(crate::specs::Controllers::state_checks, crate::specs::Controllers::state_of))]
fn state_in(index: u32, table: &Table) -> Result<CState, TopologyError>
    ensures { Reads TopologyError.NoMemory result (state_checks index (table_view table.now)) (state_of (table_view table.now)) }
{
    match text_at(table, "state") {
        Some(name) => match cstate_named(name.as_bytes()) {
            Some(state) => Ok(state),
            None => Err(TopologyError::Range(at(Field::State, index))),
        },
        None => {
            if is_missing(table, "state") {
                return Ok(CState::Live);
            }
            Err(TopologyError::Field(at(Field::State, index)))
        }
    }
}

/// The number of the box with the log page, from 0 to 1023, if there is one.
#[tactic(auto, unfolding(crate::specs::Controllers::page_checks, crate::specs::Controllers::page_of))]
fn page_in(index: u32, table: &Table) -> Result<Option<u32>, TopologyError>
    ensures { Reads TopologyError.NoMemory result (page_checks index (table_view table.now)) (page_of (table_view table.now)) }
{
    optional_in(table, "page", 0, 1023, at(Field::Page, index))
}

#[tactic(auto, using(mp_checks::proofs::CheckLaws::fault_append), unfolding(crate::specs::Controllers::controller_checks))]
fn controller_in(
    alloc: Global,
    nodes: u32,
    earlier: &[Controller],
    index: u32,
    table: &Table,
) -> Result<Controller, TopologyError>
    requires least { 1 ≤ nodes }
    requires most { nodes ≤ 8 }
    requires earlier { length earlier.now ≤ 64 }
    ensures { Reads TopologyError.NoMemory result (controller_checks nodes (map (λ c. c.name) earlier.now) index (table_view table.now)) (controller_of (table_view table.now)) }
{
    let name = name_in(alloc, earlier, index, table)?;
    let node = node_in(nodes, index, table)?;
    let ana = ana_in(index, table)?;
    let state = state_in(index, table)?;
    let page = page_in(index, table)?;
    Ok(Controller {
        name,
        node,
        ana,
        state,
        page,
    })
}

fn are_tables(items: &[Value]) -> bool
    ensures { result ≡ list_all is_table (map view items.now) }
{
    for item in items {
        if item.as_table().is_none() {
            return false;
        }
    }
    true
}

fn each_in(alloc: Global, nodes: u32, items: &[Value]) -> Result<Items<Controller>, TopologyError>
    requires least { 1 ≤ nodes }
    requires most { nodes ≤ 8 }
    requires few { length items.now ≤ 64 }
    requires tables { list_all is_table (map view items.now) ≡ true }
    ensures read { Reads TopologyError.NoMemory result (each_from (each_controller nodes (map view items.now)) 0 (map view items.now)) (controllers_in (map view items.now)) }
    ensures few { IfOk result (λ cs. length cs ≤ 64) }
{
    let mut found = Vec::new(alloc);
    for (i, item) in items.iter().enumerate() {
        match item.as_table() {
            Some(table) => {
                let controller = controller_in(alloc, nodes, &found, i as u32, table)?;
                found.push(controller)?;
            }
            None => return Err(TopologyError::Field(at(Field::Controllers, 0))),
        }
    }
    Ok(Items::from_vec(found))
}

#[tactic(auto, unfolding(crate::specs::Controllers::items_checks))]
fn controllers_from(
    alloc: Global,
    nodes: u32,
    items: &[Value],
) -> Result<Items<Controller>, TopologyError>
    requires least { 1 ≤ nodes }
    requires most { nodes ≤ 8 }
    ensures read { Reads TopologyError.NoMemory result (items_checks nodes (map view items.now)) (controllers_in (map view items.now)) }
    ensures few { IfOk result (λ cs. length cs ≤ 64) }
{
    if !are_tables(items) {
        return Err(TopologyError::Field(at(Field::Controllers, 0)));
    }
    if items.is_empty() {
        return Err(TopologyError::Range(at(Field::Controllers, 0)));
    }
    if items.len() > 64 {
        return Err(TopologyError::Limit(at(Field::Controllers, 0)));
    }
    each_in(alloc, nodes, items)
}

/// The controllers, in their order.
///
/// # Errors
///
/// `Field` where the field is no list of tables, `Range` where it is empty and `Limit` above 64; then the first fault
/// of the first controller that has one.
#[tactic(auto, unfolding(crate::specs::Controllers::controllers_checks, crate::specs::Controllers::controllers_of))]
pub(crate) fn controllers_in(
    alloc: Global,
    nodes: u32,
    table: &Table,
) -> Result<Items<Controller>, TopologyError>
    requires least { 1 ≤ nodes }
    requires most { nodes ≤ 8 }
    ensures read { Reads TopologyError.NoMemory result (controllers_checks nodes (table_view table.now)) (controllers_of (table_view table.now)) }
    ensures few { IfOk result (λ cs. length cs ≤ 64) }
{
    match list_at(table, "controllers") {
        Some(items) => controllers_from(alloc, nodes, items),
        None => Err(TopologyError::Field(at(Field::Controllers, 0))),
    }
}
