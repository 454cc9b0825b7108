//! The calls of the router, each with what it is given.

ghost use Rattle.std.specs.Option.{option_copied};
ghost use Rattle.js_model.specs.Router as router;
ghost use Rattle.js_model.specs.Router.{IsRoute, RouteCall, RouteTold};
ghost use Rattle.js_model.specs.Routing.{collected_told, done_told, open_told, publish_told};

use js_base::Out;
use js_model::{Collected, RouteFault};
use route_core::Router;

/// A call of the router, with what it is given.
pub trait RouterCall {
    /// What the router answers.
    type Answer;

    /// The call as the router's histories have it.
    ghost call: { Self → RouteCall };

    /// What the answer tells there.
    ghost told: { Self.Answer → RouteTold };

    /// Makes it.
    fn make(&self, router: &mut Router) -> Self::Answer
        ensures routes { IsRoute router.old (call self.now) (told result) router.new };
}

/// A session is opened.
#[derive(Drop)]
pub struct OpenCall;

impl RouterCall for OpenCall {
    type Answer = Result<u64, RouteFault>;

    ghost call = { λ c. router.Open };

    ghost told = { open_told };

    fn make(&self, router: &mut Router) -> Result<u64, RouteFault> {
        router.open()
    }
}

/// A session is closed.
#[derive(Drop)]
pub struct CloseCall {
    pub session: u64,
}

impl RouterCall for CloseCall {
    type Answer = ();

    ghost call = { λ c. router.Close c.session };

    ghost told = { λ answer. router.Done };

    fn make(&self, router: &mut Router) {
        router.close(self.session);
    }
}

/// A session's options are set.
#[derive(Drop)]
pub struct OptionsCall {
    pub session: u64,
    pub echo: bool,
    pub headers: bool,
}

impl RouterCall for OptionsCall {
    type Answer = ();

    ghost call = { λ c. router.Options c.session c.echo c.headers };

    ghost told = { λ answer. router.Done };

    fn make(&self, router: &mut Router) {
        router.options(self.session, self.echo, self.headers);
    }
}

/// A session subscribes.
#[derive(Drop)]
pub struct SubCall<'a> {
    pub session: u64,
    pub subject: &'a [u8],
    pub queue: Option<&'a [u8]>,
    pub sid: &'a [u8],
}

impl<'a> RouterCall for SubCall<'a> {
    type Answer = Result<(), RouteFault>;

    ghost call = { λ c. router.Sub c.session c.subject.now (option_copied c.queue) c.sid.now };

    ghost told = { done_told };

    fn make(&self, router: &mut Router) -> Result<(), RouteFault> {
        router.sub(self.session, self.subject, self.queue, self.sid)
    }
}

/// A subscription of a session ends.
#[derive(Drop)]
pub struct UnsubCall<'a> {
    pub session: u64,
    pub sid: &'a [u8],
    pub max: Option<u64>,
}

impl<'a> RouterCall for UnsubCall<'a> {
    type Answer = Result<(), RouteFault>;

    ghost call = { λ c. router.Unsub c.session c.sid.now c.max };

    ghost told = { done_told };

    fn make(&self, router: &mut Router) -> Result<(), RouteFault> {
        router.unsub(self.session, self.sid, self.max)
    }
}

/// A message is handed to the subscriptions, of a session or of the server itself.
#[derive(Drop)]
pub struct PublishCall<'a> {
    pub message: &'a Out,
    pub from: Option<u64>,
}

impl<'a> RouterCall for PublishCall<'a> {
    type Answer = Result<u64, RouteFault>;

    ghost call = { λ c. router.Publish c.message.now c.from };

    ghost told = { publish_told };

    fn make(&self, router: &mut Router) -> Result<u64, RouteFault> {
        router.publish(self.message, self.from)
    }
}

/// It is asked whether somebody listens.
#[derive(Drop)]
pub struct InterestCall<'a> {
    pub subject: &'a [u8],
    pub group: Option<&'a [u8]>,
}

impl<'a> RouterCall for InterestCall<'a> {
    type Answer = bool;

    ghost call = { λ c. router.Interest c.subject.now (option_copied c.group) };

    ghost told = { λ heard. router.Listens heard };

    fn make(&self, router: &mut Router) -> bool {
        router.interest(self.subject, self.group)
    }
}

/// Frames that wait for a session are taken.
#[derive(Drop)]
pub struct CollectCall {
    pub session: u64,
    pub max: usize,
}

impl RouterCall for CollectCall {
    type Answer = Result<Collected, RouteFault>;

    ghost call = { λ c. router.Collect c.session c.max };

    ghost told = { collected_told };

    fn make(&self, router: &mut Router) -> Result<Collected, RouteFault> {
        router.collect(self.session, self.max)
    }
}
