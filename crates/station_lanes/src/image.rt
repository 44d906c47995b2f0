//! The lanes of a station as plain data.
ghost use Rattle.std.specs.Prelude.{◌≡◌, ◌↔◌, IfOk, IsTrue};

use crate::lanes::{Lanes, Slot};
use lane_core::LaneImage;
use std::alloc::{AllocError, Global};
use std::marker::Model;

/// What the lanes of a station were, with a place for each destination.
pub struct LanesImage {
    places: Vec<Option<LaneImage>>,
}

impl Model for LanesImage {
    ghost use Rattle.station_lanes.specs.Lanes.{Lanes, lanes_code};

    ghost Value = { Lanes };

    ghost coded = { lanes_code };

    ghost use Rattle.station_lanes.specs.ImageFields.{lanes_image_value, ArePlaces};

    ghost view = { lanes_image_value };

    ghost invariant = { ArePlaces };
}

impl Drop for LanesImage {
    fn drop(self) {
        let LanesImage { places: _ } = self;
    }
}

impl Lanes {
    /// The lanes as plain data. It takes memory for the places of all and for what each lane holds.
    pub fn image(&self, alloc: Global) -> Result<LanesImage, AllocError>
        ensures { IfOk result (λ image. image ≡ self.now) }
    {
        Ok(LanesImage {
            places: images(alloc, &self.slots)?,
        })
    }
}

impl LanesImage {
    /// Whether it is that of lanes. It takes no memory.
    pub fn is_of(&self, lanes: &Lanes) -> bool
        ensures { IsTrue result ↔ (self.now ≡ lanes.now) }
    {
        are_of(&self.places, &lanes.slots)
    }
}

// What is kept in a place, as plain data.
fn lane_image(alloc: Global, slot: &Slot) -> Result<Option<LaneImage>, AllocError>
    ensures { IfOk result (λ image. image ≡ slot.now) }
{
    match slot.get() {
        None => Ok(None),
        Some(lane) => Ok(Some(lane.image(alloc)?)),
    }
}

// What is kept in each place.
fn images(alloc: Global, slots: &[Slot]) -> Result<Vec<Option<LaneImage>>, AllocError>
    ensures { IfOk result (λ images. images.items ≡ slots.now) }
{
    let mut images = Vec::with_capacity(alloc, slots.len())?;
    for i in 0..slots.len() {
        images.push(lane_image(alloc, &slots[i])?)?;
    }
    Ok(images)
}

// Whether it is that of what is kept in a place.
fn is_of_slot(image: &Option<LaneImage>, slot: &Slot) -> bool
    ensures { IsTrue result ↔ (image.now ≡ slot.now) }
{
    match image {
        None => slot.get().is_none(),
        Some(image) => match slot.get() {
            None => false,
            Some(lane) => image.is_of(lane),
        },
    }
}

// Whether they are those of what is kept in the places.
fn are_of(images: &[Option<LaneImage>], slots: &[Slot]) -> bool
    ensures { IsTrue result ↔ (images.now ≡ slots.now) }
{
    if images.len() != slots.len() {
        return false;
    }
    for i in 0..images.len() {
        if !is_of_slot(&images[i], &slots[i]) {
            return false;
        }
    }
    true
}
