// The result of checking a report, and its line.
ghost use Rattle.std.specs.Prelude.{◌≡◌};
ghost use Rattle.auction_command.specs.Findings.{HaveOneFinding, verdict_of};

use crate::verify::Verified;
use assign_core::{Cost, Person, Sense};
use dual_checker::{HallVerdict, Verdict};
use std::fmt;

/// The result of checking a report against a problem: the first of these that applies; for a report
/// on an assignment those up to `Best`. `Display` writes the line for standard output.
#[derive(Clone, Copy, PartialEq, Eq)]
pub enum Finding {
    /// The report's sense isn't the requested one.
    OtherSense,
    /// The report has no prices, so that nothing is proved.
    NoPrices,
    /// The fault that `check` finds in the objects and the prices, never its `Yes`: after that the
    /// costs are compared. No report that was read has a price out of range.
    Unproved(Verdict),
    /// The lowest person whose cost isn't that of its pair.
    OtherCost(Person),
    /// The cost isn't the sum of the pairs' costs.
    OtherTotal,
    /// The assignment is optimal under this sense, at this cost.
    Best(Sense, Cost),
    /// The verdict of `check_hall` on the lists of a Hall set. No report that was read has lists
    /// that don't rise.
    Hall(HallVerdict),
}

impl Finding {
    /// Whether the report has no fault.
    pub fn verified(&self) -> Verified
        ensures { result ≡ verdict_of self.now }
    {
        match self {
            Finding::Best(_, _) | Finding::Hall(HallVerdict::Yes) => Verified::Yes,
            _ => Verified::No,
        }
    }
}

// The line on an assignment whose prices don't prove it.
#[derive(Drop)]
struct UnprovedLine(Verdict);

impl fmt::Display for UnprovedLine {
    ghost use Rattle.std.specs.Prelude.{Some};
    ghost use Rattle.auction_command.specs.Findings.{unproved_line};

    ghost output = { λ line. Some (unproved_line line.0) };

    fn fmt<W: fmt::Write>(&self, f: &mut fmt::Formatter<W>) -> fmt::Result {
        match self.0 {
            Verdict::Length => write!(f, "not verified: length"),
            Verdict::Unlisted(person) => write!(f, "not verified: person {} unlisted", person.0),
            Verdict::Twice(object) => write!(f, "not verified: object {} twice", object.0),
            Verdict::PriceRange(object) => {
                write!(f, "not verified: price of object {} out of range", object.0)
            }
            Verdict::Slack(person, object) => {
                write!(
                    f,
                    "not verified: slack of person {} at object {}",
                    person.0, object.0
                )
            }
            Verdict::Yes => write!(f, "not verified"),
        }
    }
}

// The line on the lists of a Hall set.
#[derive(Drop)]
struct HallLine(HallVerdict);

impl fmt::Display for HallLine {
    ghost use Rattle.std.specs.Prelude.{Some};
    ghost use Rattle.auction_command.specs.Findings.{hall_line};

    ghost output = { λ line. Some (hall_line line.0) };

    fn fmt<W: fmt::Write>(&self, f: &mut fmt::Formatter<W>) -> fmt::Result {
        match self.0 {
            HallVerdict::Range => write!(f, "not verified: number out of range"),
            HallVerdict::Order => write!(f, "not verified: order"),
            HallVerdict::Missing(person, object) => {
                write!(
                    f,
                    "not verified: object {} missing for person {}",
                    object.0, person.0
                )
            }
            HallVerdict::Extra(object) => write!(f, "not verified: object {} extra", object.0),
            HallVerdict::Count => write!(f, "not verified: not fewer"),
            HallVerdict::Yes => write!(f, "verified infeasible"),
        }
    }
}

impl fmt::Display for Finding {
    ghost use Rattle.std.specs.Prelude.{Some};
    ghost use Rattle.auction_command.specs.Findings.{finding_line};

    ghost output = { λ finding. Some (finding_line finding) };

    fn fmt<W: fmt::Write>(&self, f: &mut fmt::Formatter<W>) -> fmt::Result {
        match self {
            Finding::OtherSense => write!(f, "not verified: sense"),
            Finding::NoPrices => write!(f, "not verified: no prices"),
            Finding::Unproved(verdict) => write!(f, "{}", UnprovedLine(*verdict)),
            Finding::OtherCost(person) => write!(f, "not verified: cost of person {}", person.0),
            Finding::OtherTotal => write!(f, "not verified: total"),
            Finding::Best(Sense::Min, cost) => write!(f, "verified cost {cost}"),
            Finding::Best(Sense::Max, cost) => write!(f, "verified max cost {cost}"),
            Finding::Hall(verdict) => write!(f, "{}", HallLine(*verdict)),
        }
    }
}

/// A problem and a report have only one finding for each requested sense or none: no other finding
/// is the first that applies.
pub fn one_finding()
    ensures { HaveOneFinding }
{}
