//! The routing table and the zone table of a router.

use crate::routes::Routes;
use crate::zones::Zones;
use crate::{learned, zone_answers};
use at_base::Error;
use case_words::{Answer, Stop, Words};
use rtmp::RouteTable;
use std::alloc::Global;

/// A router's tables.
#[derive(Drop)]
pub(crate) struct Tables<T: RouteTable> {
    alloc: Global,
    routes: Routes<T>,
    zones: Zones,
}

impl<T: RouteTable> Tables<T> {
    /// Empty tables.
    pub(crate) fn new(alloc: Global) -> Result<Tables<T>, Error> {
        Ok(Tables {
            alloc,
            routes: Routes::new(alloc)?,
            zones: Zones::new(alloc)?,
        })
    }

    /// Carries out a command about zones.
    fn act_on_zones(&mut self, words: Words<'_>, text: &mut String) -> Answer {
        let alloc = self.alloc;
        if self.zones.read(alloc, &self.routes.table, words, text)? {
            return Ok(());
        }
        if zone_answers::act(alloc, &self.zones.table, words, text)? {
            return Ok(());
        }
        self.zones.change(alloc, words)
    }

    /// Carries out a command.
    pub(crate) fn act(&mut self, mut words: Words<'_>, text: &mut String) -> Answer {
        let alloc = self.alloc;
        match words.word() {
            "route" => self.routes.act(alloc, words, text),
            "zone" => self.act_on_zones(words, text),
            "learn" => {
                let (routes, zones) = (&mut self.routes.table, &mut self.zones.table);
                learned::act(alloc, routes, zones, words, text)
            }
            _ => Err(Stop::Unclear),
        }
    }
}
