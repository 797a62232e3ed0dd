// Searches of shortest paths for persons one by one.
use super::super::forecast::Forecast;
use super::super::path::End;
use super::{Run, RunEnd};
use search_base::ArcScans;
use std::alloc::AllocError;

// How a run of searches ended.
#[derive(Drop)]
pub enum Assigned {
    All,
    Hall(Vec<u32>),
    // The arc scans are spent.
    Spent,
    // They would take too long.
    Slow,
}

// The end of searches that are stopped.
pub fn end_if_blocked(assigned: Assigned) -> Option<RunEnd> {
    match assigned {
        Assigned::Hall(persons) => Some(RunEnd::Hall(persons)),
        Assigned::All | Assigned::Spent | Assigned::Slow => None,
    }
}

// Whether searches would take too long, after one more.
fn is_slow(forecast: &mut Option<Forecast>, arc_scans: ArcScans, left: usize) -> bool {
    match forecast {
        None => false,
        Some(forecast) => !forecast.goes_on(arc_scans, left),
    }
}

impl<'a> Run<'a> {
    // Searches for these persons one by one, up to a limit of arc scans, or while the forecast is good. At
    // least one ends, so that calls of any budget get on.
    pub fn augment_all(
        &mut self,
        persons: &[u32],
        limit: ArcScans,
        forecast: &mut Option<Forecast>,
    ) -> Result<Assigned, AllocError> {
        let scaled = self.scaled();
        for (k, person) in persons.iter().enumerate() {
            if let End::Blocked = self
                .search
                .augment(scaled, &mut self.market, *person, &mut self.arc_scans)?
            {
                let blocked = self
                    .search
                    .blocked_persons(self.alloc, &self.market, *person)?;
                return Ok(Assigned::Hall(blocked));
            }
            let left = persons.len().saturating_sub(k);
            if is_slow(forecast, self.arc_scans, left) {
                return Ok(Assigned::Slow);
            }
            if self.arc_scans.done >= limit.limit {
                return Ok(Assigned::Spent);
            }
        }
        Ok(Assigned::All)
    }

    pub fn first_paths(&mut self) -> Result<Option<RunEnd>, AllocError> {
        let left = self.market.unassigned(self.alloc)?;
        self.record.arc_scans = self.arc_scans.done;
        let pairs = self.problem.pairs.len();
        let mut forecast = Some(Forecast::of(&self.record, left.len(), pairs, self.is_second));
        let assigned = self.augment_all(left.as_slice(), self.arc_scans, &mut forecast)?;
        if let Some(forecast) = forecast {
            forecast.write(&mut self.record);
        }
        match assigned {
            Assigned::All => Ok(self.after_all()),
            Assigned::Hall(persons) => Ok(Some(RunEnd::Hall(persons))),
            Assigned::Spent => Ok(None),
            Assigned::Slow => {
                self.begin_auction();
                Ok(None)
            }
        }
    }

    pub fn last_paths(&mut self) -> Result<Option<RunEnd>, AllocError> {
        let left = self.market.unassigned(self.alloc)?;
        match self.augment_all(left.as_slice(), self.arc_scans, &mut None)? {
            Assigned::All => Ok(self.after_all()),
            Assigned::Hall(persons) => Ok(Some(RunEnd::Hall(persons))),
            Assigned::Spent | Assigned::Slow => Ok(None),
        }
    }
}
