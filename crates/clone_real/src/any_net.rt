use clone_outside::{Link, LinkRefusal, Net, Received, Refusal};

/// What names a connection of either kind. Only contracts have it.
pub enum AnyName<M, S> {
    /// That of one in memory.
    Memory(M),
    /// That of a real one.
    Real(S),
}

/// An end of a connection of one of two kinds. It is the end that it has, call by call.
#[derive(Drop)]
pub enum AnyEnd<M, S> {
    /// One in memory.
    Memory(M),
    /// A real one.
    Real(S),
}

/// A net of one of two kinds, whose ends are of its kind.
#[derive(Drop)]
pub enum AnyNet<M, S> {
    /// One in memory.
    Memory(M),
    /// A real one.
    Real(S),
}

impl<M: Link, S: Link> Link for AnyEnd<M, S> {
    ghost use Rattle.clone_real.specs.Kinds.{of_end, end_name};

    type Name = AnyName<M::Name, S::Name>;

    ghost name = { end_name M.name S.name };

    ghost side = { of_end M.side S.side };

    ghost is_open = { of_end M.is_open S.is_open };

    ghost sent = { of_end M.sent S.sent };

    ghost received = { of_end M.received S.received };

    ghost failures = { of_end M.failures S.failures };

    fn faults(&self) -> u64 {
        match self {
            AnyEnd::Memory(end) => end.faults(),
            AnyEnd::Real(end) => end.faults(),
        }
    }

    fn send(&mut self, from: &[u8]) -> Result<(), LinkRefusal> {
        match self {
            AnyEnd::Memory(end) => end.send(from),
            AnyEnd::Real(end) => end.send(from),
        }
    }

    fn receive(&mut self, into: &mut [u8]) -> Result<Received, LinkRefusal> {
        match self {
            AnyEnd::Memory(end) => end.receive(into),
            AnyEnd::Real(end) => end.receive(into),
        }
    }

    fn close(&mut self) {
        match self {
            AnyEnd::Memory(end) => end.close(),
            AnyEnd::Real(end) => end.close(),
        }
    }
}

impl<M: Net, S: Net> Net for AnyNet<M, S>
where
    M::End: Drop,
    S::End: Drop,
{
    ghost use Rattle.clone_real.specs.Kinds.{of_net, IsMade};

    type End = AnyEnd<M::End, S::End>;

    ghost made = { IsMade M.made S.made };

    ghost unsettled = { of_net M.unsettled S.unsettled };

    ghost planned = { of_net M.planned S.planned };

    ghost failures = { of_net M.failures S.failures };

    fn faults(&self) -> u64 {
        match self {
            AnyNet::Memory(net) => net.faults(),
            AnyNet::Real(net) => net.faults(),
        }
    }

    fn pair(&mut self) -> Result<(Self::End, Self::End), Refusal> {
        match self {
            AnyNet::Memory(net) => {
                let (donor, requester) = net.pair()?;
                Ok((AnyEnd::Memory(donor), AnyEnd::Memory(requester)))
            }
            AnyNet::Real(net) => {
                let (donor, requester) = net.pair()?;
                Ok((AnyEnd::Real(donor), AnyEnd::Real(requester)))
            }
        }
    }

    /// The ends are of the net's kind, since it made their connection.
    fn settle(&mut self, donor_end: Self::End, requester_end: Self::End) {
        match (self, donor_end, requester_end) {
            (AnyNet::Memory(net), AnyEnd::Memory(donor), AnyEnd::Memory(requester)) => {
                net.settle(donor, requester);
            }
            (AnyNet::Real(net), AnyEnd::Real(donor), AnyEnd::Real(requester)) => {
                net.settle(donor, requester);
            }
            _ => unreachable!(),
        }
    }

    fn plan_cuts(&mut self, connections: u32) {
        match self {
            AnyNet::Memory(net) => net.plan_cuts(connections),
            AnyNet::Real(net) => net.plan_cuts(connections),
        }
    }
}
