//! The reader of topologies.

ghost use Rattle.std.specs.Prelude.{◌≡◌, ◌≤◌, length, OnOk, IfOk, Err};
ghost use Rattle.mp_checks.specs.Checks.{Reads, Answers};
ghost use Rattle.toml.specs.View.{table_view};
ghost use Rattle.toml.specs.Data.{Members};
ghost use Rattle.mp_topology.specs.Topology.{nsid_checks, nsid_of, anagrpmax_checks, anagrpmax_of, group_checks, group_of, nodes_checks, nodes_of, policy_checks, policy_of};
ghost use Rattle.mp_topology.specs.Topology.{checks, topology_of, topology_in, IsTable};
ghost use Rattle.mp_topology.specs.Facts.{IsTopology};

use crate::controllers::controllers_in;
use crate::distance::distance_in;
use crate::errors::{Field, TopologyError};
use crate::fields::{at, number_in, optional_in, text_at};
use crate::near::homes_of;
use crate::opening::{check_pages, opening_in};
use crate::topology::Topology;
use mp_words::names::policy_named;
use mp_words::near::Near;
use mp_words::row::Policy;
use std::alloc::Global;
use toml::Table;

#[tactic(auto, unfolding(crate::specs::Topology::nsid_checks, crate::specs::Topology::nsid_of))]
fn nsid_in(table: &Table) -> Result<u32, TopologyError>
    ensures { Reads TopologyError.NoMemory result (nsid_checks (table_view table.now)) (nsid_of (table_view table.now)) }
{
    number_in(table, "nsid", 1, 4_294_967_294, at(Field::Nsid, 0))
}

#[tactic(auto, unfolding(crate::specs::Topology::anagrpmax_checks, crate::specs::Topology::anagrpmax_of))]
fn anagrpmax_in(table: &Table) -> Result<u32, TopologyError>
    ensures { Reads TopologyError.NoMemory result (anagrpmax_checks (table_view table.now)) (anagrpmax_of (table_view table.now)) }
{
    number_in(
        table,
        "anagrpmax",
        1,
        4_294_967_295,
        at(Field::Anagrpmax, 0),
    )
}

#[tactic(auto, unfolding(crate::specs::Topology::group_checks, crate::specs::Topology::group_of))]
fn group_in(table: &Table, anagrpmax: u32) -> Result<u32, TopologyError>
    ensures { Reads TopologyError.NoMemory result (group_checks anagrpmax (table_view table.now)) (group_of (table_view table.now)) }
{
    let group = optional_in(table, "group", 1, anagrpmax, at(Field::Group, 0))?;
    Ok(group.unwrap_or(1))
}

#[tactic(auto, unfolding(crate::specs::Topology::nodes_checks, crate::specs::Topology::nodes_of))]
fn nodes_in(table: &Table) -> Result<u32, TopologyError>
    ensures read { Reads TopologyError.NoMemory result (nodes_checks (table_view table.now)) (nodes_of (table_view table.now)) }
    ensures least { OnOk result (1 ≤ nodes_of (table_view table.now)) }
    ensures most { OnOk result (nodes_of (table_view table.now) ≤ 8) }
{
    number_in(table, "nodes", 1, 8, at(Field::Nodes, 0))
}

#[tactic(auto, unfolding(crate::specs::Topology::policy_checks, crate::specs::Topology::policy_of))]
fn policy_in(table: &Table) -> Result<Policy, TopologyError>
    ensures { Reads TopologyError.NoMemory result (policy_checks (table_view table.now)) (policy_of (table_view table.now)) }
{
    let name = match text_at(table, "policy") {
        Some(name) => name,
        None => return Err(TopologyError::Field(at(Field::Policy, 0))),
    };
    match policy_named(name.as_bytes()) {
        Some(policy) => Ok(policy),
        None => Err(TopologyError::Range(at(Field::Policy, 0))),
    }
}

/// The topology of a table.
#[tactic(auto, using(mp_checks::proofs::CheckLaws::fault_append))]
fn topology_of(alloc: Global, table: &Table) -> Result<Topology, TopologyError>
    ensures { Reads TopologyError.NoMemory result (checks (table_view table.now)) (topology_of (table_view table.now)) }
{
    let nsid = nsid_in(table)?;
    let anagrpmax = anagrpmax_in(table)?;
    let group = group_in(table, anagrpmax)?;
    let policy = policy_in(table)?;
    let nodes = nodes_in(table)?;
    let distance = distance_in(nodes, table)?;
    let controllers = controllers_in(alloc, nodes, table)?;
    let opening = opening_in(alloc, controllers.as_slice(), table)?;
    check_pages(controllers.as_slice(), opening.as_slice())?;
    let near = Near {
        nodes: nodes as u8,
        distance,
        home: homes_of(controllers.as_slice()),
    };
    Ok(Topology {
        nsid,
        anagrpmax,
        group,
        policy,
        near,
        controllers,
        opening,
    })
}

/// Reads a topology, from a text in TOML.
///
/// # Errors
///
/// `NotToml` where the bytes are no text of a table. Of a table, the first of its checks that fails: `Field` where a
/// needed field is missing or one has another type, `Range` where its value is none of those allowed, `Duplicate` at a
/// name's second place, `Limit` at an overlong list. `NoMemory` where memory runs out.
pub fn read_topology(alloc: Global, bytes: &[u8]) -> Result<Topology, TopologyError>
    // Of a table: the topology where no check fails, else the refusal of the first check that does.
    ensures table { (t : Members) → IsTable bytes.now t → Reads TopologyError.NoMemory result (checks t) (topology_of t) }
    // Where there is no table.
    ensures not_toml { ((t : Members) → IsTable bytes.now t → ⊥) → Answers TopologyError.NoMemory result (Err TopologyError.NotToml) }
    // Of any bytes: what they say.
    ensures gives { Answers TopologyError.NoMemory result (topology_in bytes.now) }
    // What holds of each topology that is read.
    ensures read { IfOk result IsTopology }
{
    match toml::table_from_slice(alloc, bytes) {
        Ok(table) => topology_of(alloc, &table),
        Err(e) => {
            if e.is_memory() {
                return Err(TopologyError::NoMemory);
            }
            Err(TopologyError::NotToml)
        }
    }
}
