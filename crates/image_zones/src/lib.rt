//! The zone lists of an image's routers as zone tables.
#![tactic(auto)]

mod zone_maps;

pub use zone_maps::zones_of;
