ghost use Rattle.roster.specs.Records.{Kept, totals_of};
ghost use Rattle.std.specs.Prelude.{◌≡◌};

use crate::records::{Record, Totals};
use crate::roster::Roster;

impl Roster {
    // The records of the enrolled QSEs, in the order of enrolment.
    pub fn records(&self) -> &[Record]
        ensures value { result.now ≡ self.now }
        ensures kept { Kept result.now }
    {
        &self.records[..self.count]
    }

    // The totals over the roster, each within its limit.
    pub fn totals(&self) -> Totals
        ensures value { result ≡ totals_of self.now }
        ensures kept { Kept self.now }
    {
        self.totals
    }
}
