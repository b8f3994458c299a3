//! The lanes of engines: in each an engine has at most one entry at a time.

ghost use Rattle.std.specs.Prelude.{◌≡◌, OnOk, position, set};
ghost use Rattle.dsa_chrome.specs.Lanes.{empty_lane, filled_lane, has_entry, is_free_for, lanes_with, put_at};

use dsa_store::Entry;
use std::alloc::AllocError;

/// An entry that an engine has, and the step that brought it to the engine.
#[derive(Clone, Copy)]
pub struct Work {
    pub begin: usize,
    /// The client that submitted it; of a member none.
    pub client: Option<u16>,
    pub entry: Entry,
}

/// A lane of an engine, and the entry in it.
#[derive(Clone, Copy)]
pub struct Lane {
    pub engine: u16,
    pub work: Option<Work>,
}

impl Lane {
    /// A lane of this engine without an entry.
    pub fn empty(engine: u16) -> Lane
        ensures { result ≡ empty_lane engine }
    {
        Lane { engine, work: None }
    }

    fn filled(engine: u16, work: Work) -> Lane
        ensures { result ≡ filled_lane engine work }
    {
        Lane {
            engine,
            work: Some(work),
        }
    }

    fn is_free_for(&self, engine: u16) -> bool
        ensures { result ≡ is_free_for engine self.now }
    {
        self.engine == engine && self.work.is_none()
    }

    fn has_entry(&self, name: u32) -> bool
        ensures { result ≡ has_entry name self.now }
    {
        match self.work {
            Some(work) => work.entry.name == name,
            None => false,
        }
    }
}

// The first lane of the engine that has no entry.
fn free_lane(lanes: &[Lane], engine: u16) -> Option<usize>
    ensures { result ≡ position (is_free_for engine) lanes.now }
{
    lanes.iter().position(|lane| lane.is_free_for(engine))
}

/// The lane with the entry of this name.
pub fn lane_of(lanes: &[Lane], name: u32) -> Option<usize>
    ensures { result ≡ position (has_entry name) lanes.now }
{
    lanes.iter().position(|lane| lane.has_entry(name))
}

/// Puts another lane in the place of one.
pub fn set_lane(lanes: &mut Vec<Lane>, place: usize, lane: Lane)
    ensures { lanes.new.items ≡ set lanes.old.items place lane }
{
    if place < lanes.len() {
        lanes[place] = lane;
    }
}

// Puts a lane in the place of one, or behind all.
fn put_at(lanes: &mut Vec<Lane>, place: Option<usize>, lane: Lane) -> Result<(), AllocError>
    ensures { OnOk result (lanes.new.items ≡ put_at place lane lanes.old.items) }
{
    match place {
        Some(place) => set_lane(lanes, place, lane),
        None => lanes.push(lane)?,
    }
    Ok(())
}

/// Puts an entry into the first lane of the engine that has none, or into a new one.
pub fn take(lanes: &mut Vec<Lane>, engine: u16, work: Work) -> Result<(), AllocError>
    ensures { OnOk result (lanes.new.items ≡ lanes_with engine work lanes.old.items) }
{
    let place = free_lane(lanes, engine);
    put_at(lanes, place, Lane::filled(engine, work))
}
