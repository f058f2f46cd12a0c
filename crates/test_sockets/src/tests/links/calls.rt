//! Calls of links while a stand-in does its part, and what is to come of them.

use super::stand_in::{Does, stand_in};
use crate::tests::START;
use ilp_accounts::Config;
use ilp_link_traits::{EngineLink, EngineReply, LinkFault, Uplink};
use ilp_notices::Notices;
use ilp_oer::Octets;
use std::alloc::Global;
use std::io;
use std::net::{SocketAddr, TcpListener};
use std::process::Abort;
use std::thread::{Threads, join};
use std::time::{Clock, Duration, Instant};

/// Where a stand-in listens, and the configuration that names that place.
#[derive(Clone, Copy)]
pub(super) struct Scene<'a, R> {
    pub(super) rt: &'a R,
    pub(super) alloc: Global,
    pub(super) listener: &'a TcpListener,
    pub(super) place: SocketAddr,
    pub(super) config: &'a Config,
    pub(super) notices: &'a Notices,
}

impl<R: Threads + Clock + Abort + Sync> Scene<'_, R> {
    /// Alice is sent a packet while the stand-in does its part. Gives what it heard, and what she
    /// replied, if anything.
    fn sent<U: Uplink>(
        &self,
        link: &mut U,
        wait: i64,
        does: Does<'_>,
    ) -> (io::Result<Vec<u8>>, Option<Octets>) {
        let Scene {
            rt,
            alloc,
            listener,
            ..
        } = *self;
        join(
            rt,
            move || stand_in(rt, alloc, listener, does),
            || reply_of(link, alloc, 0, START.saturating_add(wait)),
        )
    }

    /// A packet to alice goes out as this request, and this reply comes back.
    pub(super) fn replies<U: Uplink>(
        &self,
        link: &mut U,
        request: &[u8],
        response: &[u8],
        want: &[u8],
    ) -> io::Result<()> {
        let does = Does::Answers(request.len(), response);
        let (heard, reply) = self.sent(link, 10_000, does);
        let heard = heard?;
        assert!(self.rt; heard.as_slice() == request);
        assert!(self.rt; has_come(reply, want));
        Ok(())
    }

    /// A packet to alice is a fault where the stand-in does so.
    pub(super) fn fails<U: Uplink>(&self, link: &mut U, does: Does<'_>) -> io::Result<()> {
        let (_, reply) = self.sent(link, 10_000, does);
        assert!(self.rt; reply.is_none());
        Ok(())
    }

    /// A packet to alice with 300 milliseconds left is a fault after about that time.
    pub(super) fn runs_out<U: Uplink>(&self, link: &mut U, does: Does<'_>) -> io::Result<()> {
        let begun = Instant::now(self.rt)?;
        let (_, reply) = self.sent(link, 300, does);
        let took = begun.elapsed(self.rt)?;
        assert!(self.rt; reply.is_none());
        assert!(self.rt; took >= Duration::from_millis(290));
        assert!(self.rt; took < Duration::from_secs(5));
        Ok(())
    }

    /// Whether bob's engine has an account of him, after this request and this response.
    pub(super) fn account<E: EngineLink>(
        &self,
        link: &mut E,
        request: &[u8],
        response: &[u8],
    ) -> io::Result<bool> {
        let Scene {
            rt,
            alloc,
            listener,
            ..
        } = *self;
        let does = Does::Answers(request.len(), response);
        let (heard, has) = join(
            rt,
            move || stand_in(rt, alloc, listener, does),
            || link.account(1),
        );
        let heard = heard?;
        assert!(rt; heard.as_slice() == request);
        Ok(has)
    }

    /// Whether bob's engine has an account of him, where it does not answer. Gives what the stand-in heard, too.
    pub(super) fn asked_in_vain<E: EngineLink>(&self, link: &mut E) -> (io::Result<Vec<u8>>, bool) {
        let Scene {
            rt,
            alloc,
            listener,
            ..
        } = *self;
        join(
            rt,
            move || stand_in(rt, alloc, listener, Does::Waits),
            || link.account(1),
        )
    }

    /// What bob's engine says of a settlement, after this request and this response.
    pub(super) fn settle<E: EngineLink>(
        &self,
        link: &mut E,
        request: &[u8],
        response: &[u8],
    ) -> io::Result<EngineReply> {
        let Scene {
            rt,
            alloc,
            listener,
            ..
        } = *self;
        let does = Does::Answers(request.len(), response);
        let (heard, said) = join(
            rt,
            move || stand_in(rt, alloc, listener, does),
            || link.settle(1, b"r1-7", 250, 2),
        );
        let heard = heard?;
        assert!(rt; heard.as_slice() == request);
        Ok(said)
    }

    /// A message to bob's engine goes out as this request, and this answer comes back.
    pub(super) fn answers<E: EngineLink>(
        &self,
        link: &mut E,
        request: &[u8],
        response: &[u8],
        want: &[u8],
    ) -> io::Result<()> {
        let Scene {
            rt,
            alloc,
            listener,
            ..
        } = *self;
        let does = Does::Answers(request.len(), response);
        let (heard, answer) = join(
            rt,
            move || stand_in(rt, alloc, listener, does),
            || answer_of(link, alloc, 1),
        );
        let heard = heard?;
        assert!(rt; heard.as_slice() == request);
        assert!(rt; has_come(answer, want));
        Ok(())
    }
}

/// What a peer replies to a packet by this moment, if anything.
pub(super) fn reply_of<U: Uplink>(
    link: &mut U,
    alloc: Global,
    to: u32,
    deadline: i64,
) -> Option<Octets> {
    let mut reply = Octets::new(alloc);
    match link.send(to, b"packet", deadline, &mut reply) {
        Ok(()) => Some(reply),
        Err(LinkFault) => None,
    }
}

/// What a peer's engine answers to a message, if anything.
pub(super) fn answer_of<E: EngineLink>(link: &mut E, alloc: Global, peer: u32) -> Option<Octets> {
    let mut answer = Octets::new(alloc);
    match link.message(peer, b"message", &mut answer) {
        Ok(()) => Some(answer),
        Err(LinkFault) => None,
    }
}

// Whether these octets came.
fn has_come(came: Option<Octets>, want: &[u8]) -> bool {
    match came {
        Some(octets) => octets.as_slice() == want,
        None => false,
    }
}
