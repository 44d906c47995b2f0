//! A frame that is read once for all stations of a bus, and taken by the first of them.
ghost use Rattle.std.specs.Prelude.{◌≡◌, ◌≤◌, ◌<◌, [], length, vec_len, vec_capacity};
ghost use Rattle.std.specs.Bool.{OnTrue, OnFalse};
ghost use Rattle.segment_law.specs.Segment.{counted};
ghost use Rattle.drive_course.specs.Taken.{Takes, Notes, FirstTell};

use crate::counting::count_events;
use crate::course::Course;
use bus_frame::Frame;
use pgn_ids::{Address, IdMeaning, read_id};
use segment_law::Counts;
use station_core::{Events, Station};
use std::marker::Model;
use std::mem;
use tp_wire::{Wire, is_transport, read_in_place};

/// A frame that was read once for all stations: what its identifier says, and what it means, if it is a row of the frame table.
#[derive(Drop)]
struct Seen<'a> {
    frame: &'a Frame,
    meaning: IdMeaning,
    heard: Option<(Wire<'a>, Address, Address)>,
}

impl<'a> Model for Seen<'a> {
    ghost use Rattle.bus_frame.specs.Frames.{CanFrame};
    ghost use Rattle.drive_course.specs.SeenFields.{seen_value, IsSeen};

    ghost Value = { CanFrame };

    ghost view = { seen_value };

    ghost invariant = { IsSeen };
}

impl<'a> Seen<'a> {
    // A station takes it with room, and its events are put into a place without one. If it is refused, malformed, or finds no memory,
    // nothing changes.
    #[inline(always)]
    fn taken_by(&self, station: &mut Station, now: u64, told: &mut Events) -> bool
        requires { told.old ≡ [] }
        ensures step { OnTrue result (Takes station.old self.now now station.new told.new) }
        ensures other { OnFalse result (station.new ≡ station.old) }
        ensures silent { OnFalse result (told.new ≡ []) }
    {
        if let Some(_cause) = station.take_refusal() {
            return false;
        }
        if !station.is_meant(&self.meaning) {
            return true;
        }
        match &self.heard {
            Some((wire, from, to)) => station.hear(wire, *from, *to, true, now, told).is_ok(),
            None => !is_transport(self.frame),
        }
    }

    // The first of the stations take it, up to one that doesn't or that finds no room to note its events. Returns how many. The events are
    // counted.
    #[inline(always)]
    fn taken_by_first(
        &self,
        stations: &mut [Station],
        now: u64,
        course: &mut Course,
        counts: &mut Counts,
    ) -> usize
        ensures few { result ≤ length stations.old }
        ensures steps { FirstTell result self.now now stations.old stations.new course.old course.new counts.old counts.new }
    {
        if !course.has_part() {
            return 0;
        }
        let count = stations.len();
        let mut told = Events::none(course.alloc);
        for place in 0..count {
            if !self.taken_by(&mut stations[place], now, &mut told) {
                return place;
            }
            if !note(&mut told, course, counts) {
                return place + 1;
            }
        }
        count
    }
}

// Counts and notes the events of a station, and removes them. Returns whether there is room to note those of one more.
#[inline(always)]
fn note(told: &mut Events, course: &mut Course, counts: &mut Counts) -> bool
    requires room { vec_len course.old.parts < vec_capacity course.old.parts }
    ensures notes { Notes course.old course.new told.old }
    ensures sums { counts.new ≡ counted counts.old told.old }
    ensures told { told.new ≡ [] }
    ensures room { OnTrue result (vec_len course.new.parts < vec_capacity course.new.parts) }
{
    if told.is_empty() {
        return true;
    }
    note_events(told, course, counts);
    course.has_part()
}

// `note`, if there are events, as for few frames.
#[inline(never)]
fn note_events(told: &mut Events, course: &mut Course, counts: &mut Counts)
    requires room { vec_len course.old.parts < vec_capacity course.old.parts }
    ensures notes { Notes course.old course.new told.old }
    ensures sums { counts.new ≡ counted counts.old told.old }
    ensures told { told.new ≡ [] }
{
    count_events(counts, told);
    let alloc = course.alloc;
    course.note(mem::replace(told, Events::none(alloc)));
}

/// The first of the stations take a frame with room, up to one that is refused or finds no memory, or no room to note its events. Returns
/// how many do. Their events are noted and counted.
///
/// Most frames are packets: a packet has a path of its own, so that each station needn't match on its kind again.
#[inline(always)]
pub fn take_first(
    stations: &mut [Station],
    frame: &Frame,
    now: u64,
    course: &mut Course,
    counts: &mut Counts,
) -> usize
    ensures few { result ≤ length stations.old }
    ensures steps { FirstTell result frame.now now stations.old stations.new course.old course.new counts.old counts.new }
{
    let meaning = read_id(frame.id());
    let Some(heard) = read_in_place(frame, &meaning) else {
        let seen = Seen {
            frame,
            meaning,
            heard: None,
        };
        return seen.taken_by_first(stations, now, course, counts);
    };
    let (wire, from, to) = heard;
    match wire {
        Wire::Packet {
            kind,
            sequence,
            bytes,
        } => {
            let packet = Wire::Packet {
                kind,
                sequence,
                bytes,
            };
            let seen = Seen {
                frame,
                meaning,
                heard: Some((packet, from, to)),
            };
            seen.taken_by_first(stations, now, course, counts)
        }
        wire => {
            let seen = Seen {
                frame,
                meaning,
                heard: Some((wire, from, to)),
            };
            seen.taken_by_first(stations, now, course, counts)
        }
    }
}
