//! The local time, by the zone of the system.

use crate::files::open_input;
use jiff::Timestamp;
use jiff::tz::{SystemTimeZone, TimeZone, TimeZoneDatabase};
use std::alloc::{AllocError, Global};
use std::env;
use std::io::Read;

/// How a local time is spelled: with its offset from UTC.
const FORMAT: &str = "%Y-%m-%d %H:%M:%S %:z";

/// Where the zones are that the variable TZ may name.
const ZONES: &str = "/usr/share/zoneinfo";

/// The length of the longest zone, in octets.
const LONGEST_ZONE: u64 = 1_048_576;

/// The local time: that of the zone which the variable TZ says, or else /etc/localtime. Without either it is UTC.
#[derive(Drop)]
pub struct LocalTime {
    alloc: Global,
    zones: TimeZoneDatabase,
    system: Option<SystemTimeZone>,
}

impl LocalTime {
    /// Reads the zone.
    pub fn read(rt: &HostRuntime) -> LocalTime {
        let mut zones = TimeZoneDatabase::new(rt.alloc());
        if let Ok(name) = env::var(rt, "TZ") {
            add_zone(rt, name.as_str(), &mut zones);
        }
        LocalTime {
            alloc: rt.alloc(),
            zones,
            system: SystemTimeZone::read(rt).ok(),
        }
    }

    /// A time by RFC 3339 as the local one. A text that is no time stays as it is.
    ///
    /// # Errors
    /// Out of memory.
    pub fn spell(&self, at: &str) -> Result<String, AllocError> {
        match self.spelled(at) {
            Some(text) => Ok(text),
            None => String::from_str(self.alloc, at),
        }
    }

    /// A time by RFC 3339 as the local one, if it is one.
    fn spelled(&self, at: &str) -> Option<String> {
        let time = at.parse::<Timestamp>().ok()?;
        let local = time.to_zoned(self.zone());
        local.strftime(self.alloc, FORMAT).ok()
    }

    /// The zone.
    fn zone(&self) -> TimeZone<'_> {
        match &self.system {
            Some(system) => system.time_zone(&self.zones).unwrap_or(TimeZone::UTC),
            None => TimeZone::UTC,
        }
    }
}

/// Adds the zone with a name, if there is one.
fn add_zone(rt: &HostRuntime, name: &str, zones: &mut TimeZoneDatabase) {
    if let Some(octets) = zone_octets(rt, name) {
        let _ = zones.insert(name, octets.as_slice());
    }
}

/// The octets of the zone with a name, if there is one.
fn zone_octets(rt: &HostRuntime, name: &str) -> Option<Vec<u8>> {
    let path = format!(in rt.alloc(); "{}/{name}", ZONES).ok()?;
    let file = open_input(rt, path.as_str()).ok()?;
    let mut octets = Vec::new(rt.alloc());
    let mut beginning = Read::take(file, LONGEST_ZONE);
    beginning.read_to_end(&mut octets).ok()?;
    Some(octets)
}
