//! A subscription.

ghost use Rattle.std.specs.Prelude.{◌≡◌, ◌==◌, IfOk, Some};
ghost use Rattle.std.specs.Option.{option_copied};
ghost use Rattle.js_model.specs.Router.{new_subscription, is_sub, is_plain, is_match, is_in_group, is_spent, limited, counted};
ghost use Rattle.route_core.specs.Subscriptions.{hears};

use js_base::{Blob, NoMemory};
use std::alloc::Global;
use std::marker::Model;
use subject_match::matches;

/// A session's subscription to a pattern, under an identifier that is its own in the session.
#[derive(Drop)]
pub(crate) struct Subscription {
    session: u64,
    sid: Blob,
    pattern: Blob,
    /// Its queue group, if it is in one.
    queue: Option<Blob>,
    /// How many messages were sent to it. The count stands still at its end.
    sent: u64,
    /// With how many it ends.
    max: Option<u64>,
}

impl Model for Subscription {
    ghost use Rattle.js_model.specs.Router.{Subscription as Machine};

    ghost Value = { Machine };

    ghost view = { λ sub. record { session = sub.session; sid = sub.sid; pattern = sub.pattern; queue = sub.queue; sent = sub.sent; max = sub.max } };
}

/// A copy of the text, if there is one.
fn copied(alloc: Global, text: Option<&[u8]>) -> Result<Option<Blob>, NoMemory>
    ensures value { IfOk result (λ copy. copy ≡ option_copied text.entry) }
{
    match text {
        Some(text) => Ok(Some(Blob::of(alloc, text)?)),
        None => Ok(None),
    }
}

impl Subscription {
    /// A new subscription, with copies of the texts.
    pub(crate) fn new(
        alloc: Global,
        session: u64,
        pattern: &[u8],
        queue: Option<&[u8]>,
        sid: &[u8],
    ) -> Result<Subscription, NoMemory>
        ensures value { IfOk result (λ sub. sub ≡ new_subscription session pattern.now (option_copied queue.entry) sid.now) }
    {
        Ok(Subscription {
            session,
            sid: Blob::of(alloc, sid)?,
            pattern: Blob::of(alloc, pattern)?,
            queue: copied(alloc, queue)?,
            sent: 0,
            max: None,
        })
    }

    /// Its session's number.
    pub(crate) fn session(&self) -> u64
        ensures value { result ≡ self.now.session }
    {
        self.session
    }

    /// Its identifier.
    pub(crate) fn sid(&self) -> &Blob
        ensures value { result.now ≡ self.now.sid }
    {
        &self.sid
    }

    /// Its pattern.
    pub(crate) fn pattern(&self) -> &Blob
        ensures value { result.now ≡ self.now.pattern }
    {
        &self.pattern
    }

    /// Whether it is this session's.
    pub(crate) fn is_of(&self, session: u64) -> bool
        ensures value { result ≡ (self.now.session == session) }
    {
        self.session == session
    }

    /// Whether it is the session's under this identifier.
    pub(crate) fn is_under(&self, session: u64, sid: &[u8]) -> bool
        ensures value { result ≡ is_sub session sid.now self.now }
    {
        self.session == session && self.sid.as_slice() == sid
    }

    /// Its queue group, if it is in one.
    pub(crate) fn queue(&self) -> Option<&[u8]>
        ensures value { option_copied result ≡ self.now.queue }
    {
        match &self.queue {
            Some(queue) => Some(queue.as_slice()),
            None => None,
        }
    }

    /// How many messages were sent to it.
    pub(crate) fn sent(&self) -> u64
        ensures value { result ≡ self.now.sent }
    {
        self.sent
    }

    /// Whether it is in no queue group.
    pub(crate) fn is_plain(&self) -> bool
        ensures value { result ≡ is_plain self.now }
    {
        self.queue.is_none()
    }

    /// Whether its pattern matches the subject.
    pub(crate) fn is_match(&self, subject: &[u8]) -> bool
        ensures value { result ≡ is_match subject.now self.now }
    {
        matches(self.pattern.as_slice(), subject)
    }

    /// Whether it may be sent a message to the subject: its pattern matches, and it is none of the deaf publisher's own.
    pub(crate) fn hears(&self, subject: &[u8], deaf: Option<u64>) -> bool
        ensures value { result ≡ hears subject.now deaf self.now }
    {
        self.is_match(subject) && deaf != Some(self.session)
    }

    /// Whether it is in this queue group; true if no group is named.
    pub(crate) fn is_in_group(&self, group: Option<&[u8]>) -> bool
        ensures value { result ≡ is_in_group (option_copied group.entry) self.now }
    {
        match (group, &self.queue) {
            (None, _) => true,
            (Some(_), None) => false,
            (Some(group), Some(queue)) => queue.as_slice() == group,
        }
    }

    /// Whether it was sent as many messages as it may get.
    pub(crate) fn is_spent(&self) -> bool
        ensures value { result ≡ is_spent self.now }
    {
        match self.max {
            Some(max) => self.sent >= max,
            None => false,
        }
    }

    /// Counts a message that was sent to it, if it is the session's under this identifier.
    pub(crate) fn count(&mut self, session: u64, sid: &[u8])
        ensures value { self.new ≡ counted session sid.now self.old }
    {
        if self.is_under(session, sid) {
            self.sent = self.sent.saturating_add(1);
        }
    }

    /// Has it end with so many messages, if it is the session's under this identifier.
    pub(crate) fn limit(&mut self, session: u64, sid: &[u8], max: u64)
        ensures value { self.new ≡ limited session sid.now max self.old }
    {
        if self.is_under(session, sid) {
            self.max = Some(max);
        }
    }
}
