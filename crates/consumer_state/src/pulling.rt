//! The pulls of a consumer.

ghost use Rattle.std.specs.Prelude.{◌≡◌, ◌<◌, ◌++◌, ◌∷◌, [], false, length, map, IfOk, OnOk, OnErr};
ghost use Rattle.std.specs.Option.{option_copied, option_to_list};
ghost use Rattle.js_model.specs.Events.{farewells};
ghost use Rattle.js_model.specs.Streams.{is_push};
ghost use Rattle.consumer_texts.specs.Parting.{farewell_of};
ghost use Rattle.js_model.specs.Pulls.{pull_of, pull_refusal, pulled, pull_outs};

use crate::consumer::Consumer;
use consumer_texts::{append, bad_request, exceeded_waiting, farewell, push_based, status_out};
use js_base::{Blob, Moment, NoMemory, Out, Outs};
use js_model::{Ask, Pull};
use pull_queue::PullFault;
use std::alloc::Global;

impl Consumer {
    /// Lets a pull wait from a moment on, if it has a subject for its messages; a pull that is refused is sent why. `ask` is `None` for a body of no form.
    /// An `Err` changes nothing and adds nothing.
    pub fn pull(
        &mut self,
        reply: Option<&Blob>,
        ask: Option<Ask>,
        now: Moment,
        outs: &mut Outs,
    ) -> Result<(), NoMemory>
        ensures ok { OnOk result (self.new ≡ pulled now (option_copied reply.entry) ask self.old) }
        ensures outs { OnOk result (outs.new ≡ outs.old ++ pull_outs (option_copied reply.entry) ask self.old) }
        ensures err { OnErr result (self.new ≡ self.old) }
        ensures err_outs { OnErr result (outs.new ≡ outs.old) }
    {
        let Some(reply) = reply else {
            return Ok(());
        };
        match (self.refusal(ask)?, ask) {
            (Some(block), _) => outs.push(status_out(reply, block)?),
            (None, Some(ask)) => self.put_pull(pull_of(now, reply.clone()?, ask)),
            (None, None) => Ok(()),
        }
    }

    /// Tells each waiting pull that the consumer is gone. An `Err` adds nothing. What it costs grows with how many pulls wait.
    pub fn tell_dropped(&self, outs: &mut Outs) -> Result<(), NoMemory>
        ensures ok { OnOk result (outs.new ≡ outs.old ++ farewells self.now) }
        ensures err { OnErr result (outs.new ≡ outs.old) }
    {
        let farewells = self.farewells()?;
        append(self.alloc, outs, farewells)
    }

    fn farewells(&self) -> Result<Vec<Out>, NoMemory>
        ensures value { IfOk result (λ outs. outs.items ≡ farewells self.now) }
    {
        let mut outs = Vec::new(self.alloc);
        for place in 0..self.pulls.len() {
            put_farewell(self.alloc, &mut outs, self.pulls.at(place))?;
        }
        Ok(outs)
    }

    /// The status block that refuses a pull, if it is refused.
    fn refusal(&self, ask: Option<Ask>) -> Result<Option<Blob>, NoMemory>
        ensures value { IfOk result (λ refusal. refusal ≡ pull_refusal self.now ask) }
    {
        if self.is_push() {
            return Ok(Some(push_based(self.alloc)?));
        }
        if ask.is_none() {
            return Ok(Some(bad_request(self.alloc)?));
        }
        if self.config.max_waiting <= self.pulls.len() {
            return Ok(Some(exceeded_waiting(self.alloc)?));
        }
        Ok(None)
    }

    /// Adds a pull behind all others.
    fn put_pull(&mut self, pull: Pull) -> Result<(), NoMemory>
        requires room { length self.old.waiting < self.old.config.max_waiting }
        requires pulled { is_push self.old ≡ false }
        ensures ok { OnOk result (self.new ≡ record self.old { waiting = self.old.waiting ++ pull ∷ [] }) }
        ensures err { OnErr result (self.new ≡ self.old) }
    {
        self.pulls.ask(pull).map_err(refused_memory)
    }
}

/// Why a pull is not added to a queue that has room for it.
pub(crate) fn refused_memory(fault: PullFault) -> NoMemory {
    match fault {
        PullFault::Full | PullFault::NoMemory => NoMemory,
    }
}

/// Adds what a pull is told, if there is one.
fn put_farewell(alloc: Global, outs: &mut Vec<Out>, pull: Option<&Pull>) -> Result<(), NoMemory>
    ensures ok { OnOk result (outs.new.items ≡ outs.old.items ++ map farewell_of (option_to_list (option_copied pull.entry))) }
{
    let Some(pull) = pull else {
        return Ok(());
    };
    outs.push(farewell(alloc, pull)?)?;
    Ok(())
}

/// The pull that waits from a moment on, for what is asked. One that does not wait for messages, or gives no time, has no end.
fn pull_of(now: Moment, reply: Blob, ask: Ask) -> Pull
    ensures value { result ≡ pull_of now reply ask }
{
    let ends = !ask.no_wait && ask.expires != 0;
    Pull {
        reply,
        batch: ask.batch,
        bytes: ask.max_bytes,
        end: if ends {
            Some(now.plus(ask.expires))
        } else {
            None
        },
        no_wait: ask.no_wait,
        heartbeat: ask.heartbeat,
        mark: now,
    }
}
