//! A desk that no job uses any more.
ghost use Rattle.std.specs.Prelude.{◌≡◌, ◌-◌, ◌≤◌};
ghost use Rattle.std.specs.List.{AllByRecursion};
ghost use Rattle.clone_desk.specs.Records.{HasEnds, name_of};
ghost use Rattle.clone_desk.specs.Settling.{IsSettled, paired_by, paired_count};

use crate::desk::Desk;
use crate::record::{DonorEnd, Record};
use clone_outside::{Link, Net};

impl<N: Net> Desk<N>
where
    N::End: Drop,
{
    /// Settles each connection both of whose ends are at the desk, and gives the net back.
    pub fn settle(self) -> N
        ensures settled { AllByRecursion (IsSettled N.End.Link) self.records }
        ensures unsettled { N.unsettled result
            ≡ N.unsettled self.net - paired_count self.records }
        ensures planned { N.planned result ≡ N.planned self.net }
        ensures count { N.failures self.net ≤ N.failures result }
    {
        let (mut net, mut records) = self.into_parts();
        while let Some(connection) = records.pop() {
            settle_one(&mut net, connection);
        }
        net
    }
}

/// Settles the connection, if both its ends are here.
fn settle_one<N: Net>(net: &mut N, connection: Record<N::End>)
where
    N::End: Drop,
    requires made { N.made net.old (name_of N.End.Link connection) }
    requires ends { HasEnds N.End.Link connection }
    ensures settled { IsSettled N.End.Link connection }
    ensures unsettled { N.unsettled net.new ≡ N.unsettled net.old - paired_by connection }
    ensures keeps { (n : N.End.Name) → N.made net.old n → N.made net.new n }
    ensures planned { N.planned net.new ≡ N.planned net.old }
    ensures count { N.failures net.old ≤ N.failures net.new }
{
    let Record {
        task: _,
        about: _,
        donor,
        requester,
    } = connection;
    let donor_end = match donor {
        DonorEnd::Waits(end) => end,
        DonorEnd::Back(end) => end,
        DonorEnd::Out => return,
    };
    if let Some(end) = requester {
        net.settle(donor_end, end);
    }
}
