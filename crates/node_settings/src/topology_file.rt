ghost use Rattle.std.specs.Prelude.{◌≡◌, ◌⊎◌, Some};
ghost use Rattle.serde_json.specs.Errors.{IsMemory};
ghost use Rattle.serde_json.specs.View.{view};
ghost use Rattle.node_settings.specs.declared.topology_refusal.TopologyRefusal.TheVariants.{BadJson as NoJson, OutOfMemory as NoMemory};
ghost use Rattle.node_settings.specs.Topology.{topology_in, topology_of_document, topology_of, IsTopologyOr, IsPartOr};

use crate::members::array_or_empty;
use crate::roots::{read_local_roots, read_public_roots, sum};
use crate::{Topology, TopologyRefusal};
use net_base::Field;
use serde_json::Value;
use std::alloc::Global;

/// Reads a topology file: a JSON object with the members that a Cardano node reads under the same names. All others are
/// ignored. The first member that is missing, of another type or out of its range is named, in the order of the local
/// roots and then the public roots. Names are not resolved, `localhost` apart, and counted.
pub fn read_topology(alloc: Global, bytes: &[u8]) -> Result<Topology, TopologyRefusal>
    ensures { IsTopologyOr (topology_of bytes.now) result }
{
    match Value::from_slice(alloc, bytes) {
        Ok(document) => read_document(alloc, &document),
        Err(error) => Err(refusal_of(&error)),
    }
}

fn refusal_of(error: &serde_json::Error) -> TopologyRefusal
    ensures { ((result ≡ NoMemory) × IsMemory error.now) ⊎ ((result ≡ NoJson) × ¬ IsMemory error.now) }
{
    if error.is_memory() {
        TopologyRefusal::OutOfMemory
    } else {
        TopologyRefusal::BadJson
    }
}

fn read_document(alloc: Global, document: &Value) -> Result<Topology, TopologyRefusal>
    ensures { IsTopologyOr (topology_of_document (Some (view document.now))) result }
{
    if !document.is_object() {
        return Err(TopologyRefusal::BadJson);
    }
    read_members(alloc, document)
}

fn read_members(alloc: Global, document: &Value) -> Result<Topology, TopologyRefusal>
    ensures { IsPartOr (topology_in (view document.now)) result }
{
    let locals = array_or_empty(document, "localRoots", Field::LocalRoots)?;
    let (groups, local_unresolved) = read_local_roots(alloc, locals)?;
    let publics = array_or_empty(document, "publicRoots", Field::PublicRoots)?;
    let (publics, public_unresolved) = read_public_roots(alloc, publics)?;
    Ok(Topology {
        groups,
        publics,
        unresolved: sum(local_unresolved, public_unresolved)?,
    })
}
