//! What is told of the consumers of a stream.

ghost use Rattle.std.specs.Prelude.{◌≡◌, ◌≤◌, ◌++◌, filter, length, map, option_map, slice_get, IfOk, IfSome, OnErr, OnOk};
ghost use Rattle.std.specs.List.{flat_map};
ghost use Rattle.std.specs.Option.{option_copied};
ghost use Rattle.js_model.specs.Counts.{consumer_info, info_of};
ghost use Rattle.js_model.specs.Events.{farewells, page_of};
ghost use Rattle.js_model.specs.Streams.{by_name, is_push};
ghost use Rattle.followed_stream.specs.Followers.{IsCounted};

use crate::listing::{infos, names, page};
use crate::state::StreamState;
use crate::telling::tell_all_dropped;
use followed_stream::Follower;
use js_base::{Blob, List, NoMemory, Outs};
use js_model::{ConsumerConfig, ConsumerInfo, Info};
use stream_view::View;

/// How many names of consumers a page has at most.
const NAMES_PAGE: u64 = 1024;

/// How many informations of consumers a page has at most.
const INFOS_PAGE: u64 = 256;

impl StreamState {
    /// How many consumers there are, at most 256.
    pub fn consumer_count(&self) -> u64
        ensures value { result ≡ length self.now.consumers }
        ensures few { result ≤ 256 }
    {
        self.stream.followers().len() as u64
    }

    /// The name of the consumer at a place in the order of names.
    pub fn name_at(&self, place: usize) -> Option<&Blob>
        ensures value { option_copied result ≡ option_map (λ c. c.name) (slice_get self.now.consumers place) }
    {
        self.stream.name_at(place)
    }

    /// The configuration of the consumer of a name.
    pub fn consumer_config(&self, name: &Blob) -> Option<&ConsumerConfig>
        ensures value { option_copied result ≡ option_map (λ c. c.config) (by_name self.now.consumers name.now) }
    {
        let follower = self.follower(name)?;
        Some(follower.config())
    }

    /// The information of the consumer of a name, as the stream stands.
    pub fn consumer_info(&self, name: &Blob) -> Result<Option<ConsumerInfo>, NoMemory>
        ensures value { IfOk result (λ info. info ≡ option_map (consumer_info self.now) (by_name self.now.consumers name.now)) }
    {
        match self.stream.place(name) {
            Some(place) => self.stream.info_at(place),
            None => Ok(None),
        }
    }

    /// The numbers of its information. It takes no memory.
    pub(crate) fn numbers(&self, name: &Blob) -> Option<Info>
        ensures value { result ≡ option_map (info_of self.now) (by_name self.now.consumers name.now) }
    {
        let follower = self.follower(name)?;
        Some(follower.numbers())
    }

    /// The consumer of a name.
    fn follower(&self, name: &Blob) -> Option<&Follower>
        ensures found { option_map (λ f. f.consumer) (option_copied result) ≡ by_name self.now.consumers name.now }
        ensures counted { IfSome result (λ f. IsCounted self.now.messages f.now) }
    {
        let place = self.stream.place(name)?;
        self.stream.followers().get(place)
    }

    /// The names of the consumers from a place on in their order, at most 1,024.
    pub fn consumer_names(&self, offset: u64) -> Result<List<Blob>, NoMemory>
        ensures value { IfOk result (λ names. names ≡ page_of 1024 offset (map (λ c. c.name) self.now.consumers)) }
    {
        names(
            self.alloc,
            page(self.stream.followers(), NAMES_PAGE, offset),
        )
    }

    /// The information of the consumers from a place on in their order, at most 256.
    pub fn consumer_infos(&self, offset: u64) -> Result<List<ConsumerInfo>, NoMemory>
        ensures value { IfOk result (λ infos. infos ≡ page_of 256 offset (map (consumer_info self.now) self.now.consumers)) }
    {
        let followers = page(self.stream.followers(), INFOS_PAGE, offset);
        infos(self.alloc, followers, &self.stream.config().name)
    }

    /// Adds what is sent to all waiting pulls as the stream goes. An `Err` adds nothing.
    pub fn tell_dropped(&self, outs: &mut Outs) -> Result<(), NoMemory>
        ensures ok { OnOk result (outs.new ≡ outs.old ++ flat_map farewells self.now.consumers) }
        ensures err { OnErr result (outs.new ≡ outs.old) }
    {
        tell_all_dropped(self.alloc, self.stream.followers(), outs)
    }

    /// The push consumer at a place in the order of names, counted from 0 among the push consumers. `None` exactly from their number on.
    pub fn push(&self, at: usize) -> Option<&Follower>
        ensures value { option_map (λ f. f.consumer) (option_copied result) ≡ slice_get (filter is_push self.now.consumers) at }
    {
        push_among(self.stream.followers(), at)
    }
}

fn push_among(followers: &[Follower], at: usize) -> Option<&Follower>
    ensures value { option_copied result ≡ slice_get (filter (λ f. is_push f.consumer) followers.now) at }
{
    followers
        .iter()
        .filter(|follower| is_push(follower))
        .nth(at)
}

/// Whether its messages go to a subject of its own.
pub(crate) fn is_push(follower: &Follower) -> bool
    ensures value { result ≡ is_push follower.now.consumer }
{
    !follower.config().deliver_subject.is_empty()
}
