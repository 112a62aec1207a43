//! What the items so far leave to those behind them.

ghost use Rattle.std.specs.Prelude.{◌≡◌, [], map, Some, None};
ghost use Rattle.ei_replay.specs.Asked.{asked_of};
ghost use Rattle.ei_filter.specs.Steps.{group_for, time_for};

use crate::begun::Begun;
use crate::kind::frame_ahead;
use ei_request::EisRequest;
use std::alloc::Global;

/// A group of inputs of a device, while it goes on.
#[derive(Clone, Copy)]
pub(crate) struct Group {
    pub(crate) device: u64,
    // The time of its frame, if one comes.
    pub(crate) frame: Option<u64>,
    // The new time, once an input of it passed.
    pub(crate) time: Option<u64>,
}

/// What the items so far leave to those behind them.
#[derive(Drop)]
pub(crate) struct Past {
    // That of the last item, where it is an input.
    pub(crate) group: Option<Group>,
    pub(crate) begun: Begun,
}

impl Past {
    /// No items.
    pub(crate) fn new(alloc: Global) -> Past
        ensures group { result.group ≡ None }
        ensures begun { result.begun.devices.items ≡ [] }
    {
        Past {
            group: None,
            begun: Begun::new(alloc),
        }
    }
}

/// The group of an input of the device, behind such a one, with these items behind it.
pub(crate) fn group_for(group: Option<Group>, device: u64, later: &[EisRequest]) -> Group
    ensures { result ≡ group_for device (map asked_of later.now) group }
{
    match group {
        Some(group) if group.device == device => group,
        _ => Group {
            device,
            frame: frame_ahead(later, device),
            time: None,
        },
    }
}

/// The new time of a frame of the device behind such a group, where an input of it passed.
pub(crate) fn time_for(group: Option<Group>, device: u64) -> Option<u64>
    ensures { result ≡ time_for device group }
{
    match group {
        Some(group) if group.device == device => group.time,
        _ => None,
    }
}
