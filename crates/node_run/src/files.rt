//! The two files of a node, read from a shelf and judged.

ghost use Rattle.std.specs.Prelude.{◌≡◌, ℕ, List, All, IfOk};
ghost use Rattle.net_base.specs.Limits.{HasValencies};
ghost use Rattle.node_run.specs.Asked.{asked_by};
ghost use Rattle.node_run.specs.Files.{config_judged, topology_judged, status_of_config, status_of_topology, status_unread, shelf_told, IsFileRead, AreJudged, CanRun, CanBeServed, IsVerdict};
ghost use Rattle.tool_status.specs.declared.status.Which.TheVariants.{Conf, Topo};

use crate::node_words::NodeWords;
use io_edge::{Shelf, ShelfRefusal};
use node_settings::{Config, ConfigRefusal, Topology, TopologyRefusal, read_config, read_topology};
use std::alloc::Global;
use tool_status::{Status, What, Which};

// How many bytes a file may have.
const BYTES_MOST: usize = 1_048_576;

// Reads and judges both files, the settings first.
pub(crate) fn read_files<H: Shelf>(
    alloc: Global,
    asked: NodeWords,
    shelf: &mut H,
) -> Result<(Config, Topology), Status>
    ensures judged { AreJudged (asked_by asked.entry) (shelf_told (H.file shelf.old) (H.readings shelf.old)) (H.readings shelf.new) result }
    ensures served { IfOk result CanBeServed }
{
    let config = read_conf(alloc, asked.conf, shelf)?;
    let topology = read_topo(alloc, asked.topo, shelf)?;
    Ok((config, topology))
}

fn read_conf<H: Shelf>(alloc: Global, name: &str, shelf: &mut H) -> Result<Config, Status>
    ensures read { IsFileRead Conf config_judged (H.file shelf.old name.now) name.now (H.readings shelf.old) (H.readings shelf.new) result }
    ensures kept { (other : List ℕ) → H.file shelf.new other ≡ H.file shelf.old other }
    ensures can_run { IfOk result CanRun }
{
    match shelf.read(name, BYTES_MOST) {
        Ok(bytes) => judge_config(alloc, bytes.as_slice()),
        Err(refusal) => Err(unread(Which::Conf, refusal)),
    }
}

fn read_topo<H: Shelf>(alloc: Global, name: &str, shelf: &mut H) -> Result<Topology, Status>
    ensures read { IsFileRead Topo topology_judged (H.file shelf.old name.now) name.now (H.readings shelf.old) (H.readings shelf.new) result }
    ensures valencies { IfOk result (λ topology. All HasValencies topology.groups) }
{
    match shelf.read(name, BYTES_MOST) {
        Ok(bytes) => judge_topology(alloc, bytes.as_slice()),
        Err(refusal) => Err(unread(Which::Topo, refusal)),
    }
}

// What is told of a file that was not read.
fn unread(which: Which, refusal: ShelfRefusal) -> Status
    ensures { result ≡ status_unread which refusal }
{
    match refusal {
        ShelfRefusal::Failed => Status::FileFault { which },
        ShelfRefusal::TooLarge(size) => Status::FileTooLarge {
            which,
            size: size as u64,
        },
        ShelfRefusal::OutOfMemory => Status::OutOfMemory,
    }
}

fn judge_config(alloc: Global, bytes: &[u8]) -> Result<Config, Status>
    ensures judged { IsVerdict (config_judged bytes.now) result }
    ensures can_run { IfOk result CanRun }
{
    match read_config(alloc, bytes) {
        Ok(config) => Ok(config),
        Err(refusal) => Err(config_refused(refusal)),
    }
}

// What is told of settings that are not accepted. Want of memory alone is told as such.
fn config_refused(refusal: ConfigRefusal) -> Status
    ensures { result ≡ status_of_config refusal }
{
    match refusal {
        ConfigRefusal::BadToml => refused(What::Toml),
        ConfigRefusal::BadSetting(field) => refused(What::Named(field)),
        ConfigRefusal::OutOfMemory => Status::OutOfMemory,
    }
}

fn judge_topology(alloc: Global, bytes: &[u8]) -> Result<Topology, Status>
    ensures judged { IsVerdict (topology_judged bytes.now) result }
    ensures valencies { IfOk result (λ topology. All HasValencies topology.groups) }
{
    match read_topology(alloc, bytes) {
        Ok(topology) => Ok(topology),
        Err(refusal) => Err(topology_refused(refusal)),
    }
}

// The same of a topology.
fn topology_refused(refusal: TopologyRefusal) -> Status
    ensures { result ≡ status_of_topology refusal }
{
    match refusal {
        TopologyRefusal::BadJson => refused(What::Json),
        TopologyRefusal::BadSetting(field) => refused(What::Named(field)),
        TopologyRefusal::OutOfMemory => Status::OutOfMemory,
    }
}

fn refused(what: What) -> Status
    ensures { result ≡ Status.BadSettings what }
{
    Status::BadSettings { what }
}
