//! The controllers whose paths are there at the start.

ghost use Rattle.std.specs.Prelude.{◌≡◌, ◌==◌, ◌≤◌, map, length, unwrap_or};
ghost use Rattle.std.specs.List.{list_any};
ghost use Rattle.mp_checks.specs.Checks.{Reads, each_from};
ghost use Rattle.toml.specs.View.{table_view, view};
ghost use Rattle.mp_topology.specs.Opening.{opening_item_checks, named_place, each_opening, places_in, opening_checks, opening_of, has_page, paged_checks, opening_page_checks};

use crate::controllers::place_of;
use crate::errors::{Field, TopologyError};
use crate::fields::{at, list_at};
use crate::topology::Controller;
use mp_words::numbers::Ctrl;
use sqlite_items::Items;
use std::alloc::Global;
use toml::{Table, Value};

fn has_place(earlier: &[Ctrl], found: Ctrl) -> bool
    ensures { result ≡ list_any (λ q. q == found) earlier.now }
{
    earlier.iter().any(|q| q.get() == found.get())
}

/// The controller that an item names, and that no earlier item names.
#[tactic(auto, unfolding(crate::specs::Opening::opening_item_checks))]
fn opening_item(
    controllers: &[Controller],
    earlier: &[Ctrl],
    index: u32,
    item: &Value,
) -> Result<Ctrl, TopologyError>
    requires { length controllers.now ≤ 64 }
    ensures { Reads TopologyError.NoMemory result (opening_item_checks (map (λ c. c.name) controllers.now) earlier.now index (view item.now)) (unwrap_or (named_place (map (λ c. c.name) controllers.now) (view item.now)) 0) }
{
    let name = match item.as_str() {
        Some(name) => name,
        None => return Err(TopologyError::Field(at(Field::Opening, index))),
    };
    let found = match place_of(controllers, name) {
        Some(found) => found,
        None => return Err(TopologyError::Range(at(Field::Opening, index))),
    };
    if has_place(earlier, found) {
        return Err(TopologyError::Duplicate(at(Field::Opening, index)));
    }
    Ok(found)
}

fn opening_from(
    alloc: Global,
    controllers: &[Controller],
    items: &[Value],
) -> Result<Items<Ctrl>, TopologyError>
    requires controllers { length controllers.now ≤ 64 }
    requires few { length items.now ≤ 8 }
    ensures { Reads TopologyError.NoMemory result (each_from (each_opening (map (λ c. c.name) controllers.now) (map view items.now)) 0 (map view items.now)) (places_in (map (λ c. c.name) controllers.now) (map view items.now)) }
{
    let mut found = Vec::new(alloc);
    for (i, item) in items.iter().enumerate() {
        let place = opening_item(controllers, &found, i as u32, item)?;
        found.push(place)?;
    }
    Ok(Items::from_vec(found))
}

/// The opening controllers, in their order.
///
/// # Errors
///
/// `Field` where the field is no list and `Limit` above 8 names; then the first fault of the first name that has one.
#[tactic(auto, unfolding(crate::specs::Opening::opening_checks, crate::specs::Opening::opening_of))]
pub(crate) fn opening_in(
    alloc: Global,
    controllers: &[Controller],
    table: &Table,
) -> Result<Items<Ctrl>, TopologyError>
    requires { length controllers.now ≤ 64 }
    ensures { Reads TopologyError.NoMemory result (opening_checks (map (λ c. c.name) controllers.now) (table_view table.now)) (opening_of (map (λ c. c.name) controllers.now) (table_view table.now)) }
{
    let items = match list_at(table, "opening") {
        Some(items) => items,
        None => return Err(TopologyError::Field(at(Field::Opening, 0))),
    };
    if items.len() > 8 {
        return Err(TopologyError::Limit(at(Field::Opening, 0)));
    }
    opening_from(alloc, controllers, items)
}

/// Whether the controller has a page, or needs none.
fn has_page(controller: &Controller) -> bool
    ensures { result ≡ has_page controller.now }
{
    !(controller.ana && controller.page.is_none())
}

#[tactic(auto, unfolding(crate::specs::Opening::paged_checks))]
fn check_page(controllers: &[Controller], place: Ctrl) -> Result<(), TopologyError>
    ensures { Reads TopologyError.NoMemory result (paged_checks controllers.now place) tt }
{
    match controllers.get(place.get() as usize) {
        Some(controller) => {
            if !has_page(controller) {
                return Err(TopologyError::Field(at(Field::Page, place.get())));
            }
            Ok(())
        }
        None => Ok(()),
    }
}

/// Checks that each opening controller with ANA has a page.
///
/// # Errors
///
/// `Field` at the page of the first that has none.
#[tactic(auto, unfolding(crate::specs::Opening::opening_page_checks))]
pub(crate) fn check_pages(controllers: &[Controller], opening: &[Ctrl]) -> Result<(), TopologyError>
    ensures { Reads TopologyError.NoMemory result (opening_page_checks controllers.now opening.now) tt }
{
    for place in opening {
        check_page(controllers, *place)?;
    }
    Ok(())
}
