// Whether a run breaks a rule (document 01, "Profile and table"; "Night sheet").
ghost use Rattle.instances.specs.Run.{Ordered, RunGood};

use crate::instance::{PROCEDURES, key_of, place_good};
use crate::places::stored;
use crate::run::{ROOM, Run};
use lists::INSTANCESMOST;
use numbers::address_good;
use profile::{Profile, SERVICES};

impl Run {
    // Whether a run breaks no rule of the profile: its instances ascend, each is good, and there are at most 8 of each procedure.
    pub fn good(self, p: Profile) -> bool
        ensures { RunGood p self result }
    {
        if ROOM < self.count as usize {
            return false;
        }
        let held = self.instances();
        // What the loop asks of the profile is read before it: a profile that it had to keep would be copied whole.
        let subscribed = p.subscribed;
        let numbers = p.numbercount;
        let services = p.services;
        let services = &services[..stored(p.servicecount, SERVICES)];
        // Where instances ascend those of a procedure stand together: they begin at `from`, and `beyond` is the next procedure.
        let mut beyond: usize = 0;
        let mut from: usize = 0;
        let mut below: usize = 0;
        for i in 0..held.len() {
            let x = &held[i];
            let key = x.key();
            let rank = key_of(key);
            if rank <= below {
                return false;
            }
            let procedure = x.procedure as usize;
            if beyond <= procedure {
                if PROCEDURES <= procedure {
                    return false;
                }
                if subscribed[procedure] != 1 {
                    return false;
                }
                if from + INSTANCESMOST < i {
                    return false;
                }
                beyond = procedure + 1;
                from = i;
            }
            if !place_good(numbers, services, key) {
                return false;
            }
            if !address_good(x.address) {
                return false;
            }
            below = rank;
        }
        held.len() <= from + INSTANCESMOST
    }

    // Whether the instances ascend, and there are at most so many of each procedure.
    pub fn ordered(self, most: u8) -> bool
        ensures { Ordered most self result }
    {
        let mut counts = [0usize; PROCEDURES];
        let mut under: usize = 0;
        for x in self.instances() {
            let key = key_of(x.key());
            if key <= under {
                return false;
            }
            let procedure = x.procedure as usize;
            if procedure < PROCEDURES {
                counts[procedure] += 1;
            }
            under = key;
        }
        let most = most as usize;
        counts.iter().all(|count| *count <= most)
    }
}
