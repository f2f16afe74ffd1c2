ghost use Rattle.std.specs.Prelude.{◌≡◌, ◌+◌, codes, IfOk};
ghost use Rattle.serde_json.specs.Find.{get};
ghost use Rattle.serde_json.specs.View.{view, items_view};
ghost use Rattle.net_base.specs.declared.settings.Field.TheVariants.{WarmValency};
ghost use Rattle.node_settings.specs.Reading.{optional};
ghost use Rattle.node_settings.specs.Topology.{small_number, most_valency, hot_valency, local_root, local_roots, public_root, public_roots, IsPartOr};

use crate::TopologyRefusal;
use crate::members::{check_object, flag_or, small_number};
use crate::points::{PointList, addresses_of, read_points, unresolved_of};
use net_base::{AddrList, Field, Group, GroupList, OutOfMemory};
use serde_json::Value;
use std::alloc::Global;

const VALENCY_MOST: u64 = 10_000;

/// Reads local roots. Answers their groups in file order, and how many access points are unresolved.
pub(crate) fn read_local_roots(
    alloc: Global,
    roots: &[Value],
) -> Result<(GroupList, u64), TopologyRefusal>
    ensures { IsPartOr (local_roots (items_view roots.now)) result }
{
    let mut groups = GroupList::new(alloc);
    let mut unresolved = 0;
    for root in roots {
        let (group, here) = read_local_root(alloc, root)?;
        groups.push(group)?;
        unresolved = sum(unresolved, here)?;
    }
    Ok((groups, unresolved))
}

fn read_local_root(alloc: Global, root: &Value) -> Result<(Group, u64), TopologyRefusal>
    ensures { IsPartOr (local_root (view root.now)) result }
{
    check_object(root, Field::LocalRoots)?;
    let points = read_points(alloc, root)?;
    let advertise = flag_or(root, "advertise", false, Field::Advertise)?;
    let hot = hot_valency(points.as_slice().len() as u64, root)?;
    let warm = warm_valency(hot, root)?;
    let members = addresses_of(alloc, points.as_slice())?;
    let group = Group {
        hot,
        warm,
        advertise,
        members,
    };
    Ok((group, unresolved_of(points.as_slice())))
}

fn hot_valency(count: u64, root: &Value) -> Result<u64, Field>
    ensures { result ≡ hot_valency count (view root.now) }
{
    if let Some(value) = root.get("hotValency") {
        return small_number(value, VALENCY_MOST).ok_or(Field::HotValency);
    }
    if let Some(value) = root.get("valency") {
        return small_number(value, VALENCY_MOST).ok_or(Field::Valency);
    }
    if count <= VALENCY_MOST {
        Ok(count)
    } else {
        Err(Field::HotValency)
    }
}

fn warm_valency(hot: u64, root: &Value) -> Result<u64, Field>
    ensures { result ≡ optional WarmValency (small_number most_valency) hot (get (codes "warmValency") (view root.now)) }
{
    match root.get("warmValency") {
        None => Ok(hot),
        Some(value) => small_number(value, VALENCY_MOST).ok_or(Field::WarmValency),
    }
}

/// Reads public roots. Answers their addresses in file order, and how many access points are unresolved.
pub(crate) fn read_public_roots(
    alloc: Global,
    roots: &[Value],
) -> Result<(AddrList, u64), TopologyRefusal>
    ensures { IsPartOr (public_roots (items_view roots.now)) result }
{
    let mut addresses = AddrList::new(alloc);
    let mut unresolved = 0;
    for root in roots {
        let points = read_public_root(alloc, root)?;
        addresses.extend_from_slice(addresses_of(alloc, points.as_slice())?.as_slice())?;
        unresolved = sum(unresolved, unresolved_of(points.as_slice()))?;
    }
    Ok((addresses, unresolved))
}

fn read_public_root(alloc: Global, root: &Value) -> Result<PointList, TopologyRefusal>
    ensures { IsPartOr (public_root (view root.now)) result }
{
    check_object(root, Field::PublicRoots)?;
    read_points(alloc, root)
}

/// The sum of two numbers of access points. More than memory holds are answered so.
pub(crate) fn sum(here: u64, behind: u64) -> Result<u64, OutOfMemory>
    ensures { IfOk result (λ all. all ≡ here + behind) }
{
    here.checked_add(behind).ok_or(OutOfMemory)
}
