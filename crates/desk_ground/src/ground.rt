//! What a desk stands on.

ghost use Rattle.std.specs.Prelude.{◌≡◌, ◌<◌, ℕ, Bool, true, List, [], ◌∷◌, ◌++◌, IfErr, IfOk, IfSome, IsTrue, OnOk, Ok, option_map};
ghost use Rattle.js_base.specs.Subjects.{is_pattern_text};
ghost use Rattle.js_model.specs.Catalog as catalog;
ghost use Rattle.js_model.specs.Catalog.{Catalog};
ghost use Rattle.js_model.specs.Cataloging.{HasPlace, IsUsed, MayKeep, MayRemove, add_told, change_told};
ghost use Rattle.js_model.specs.Router as router;
ghost use Rattle.js_api.specs.Answering.{done, gave, opened};
ghost use Rattle.js_api.specs.Calls.{Resumes, Routes, Turns};
ghost use Rattle.js_api.specs.Collecting.{LeavesLess};
ghost use Rattle.js_api.specs.Entries.{DeskEntry, Looked};
ghost use Rattle.js_api.specs.Holding.{Holds};
ghost use Rattle.js_api.specs.Leading.{Makes};
ghost use Rattle.js_api.specs.Publishing.{Offers};
ghost use Rattle.js_api.specs.Stages.{LooksUp, SendsOne};
ghost use Rattle.desk_answers.specs.Asking.{MayAsk};
ghost use Rattle.desk_ground.specs.Callers.{client_of};
ghost use Rattle.desk_ground.specs.Grounds.{Between, IsBetween, IsTold, IsWithin, Knows, MayStop, Outside, Phase, Setting, Within, before_freeing, begun, changed_to};
ghost use Rattle.desk_answers.specs.Became.{CanBeShown, IsExplained, NumbersDropped};
ghost use Rattle.desk_ground.specs.Outcomes.{IsThere, MayHold, phase_after};

use crate::caller::Caller;
use js_api::{DeskFault, Outcome};
use js_base::{Blob, Moment, Name, Out};
use js_model::{CatalogFault, Collected, PlaceAt, What};
use std::alloc::Global;

/// A router, a catalog and places, as one caller has them. Each call tells by which entries of the caller's own it leads from the one state to
/// the other. Where the caller shares them with others, these may come in between, but for the calls of one turn of the catalog.
///
/// The calls of a turn of the catalog are made from `begin` on, which enters it, up to `end`. Every other call of the catalog has a turn of its own,
/// and is made outside.
pub trait Ground {
    /// These entries of the caller's own lead from the one ground to the other.
    ghost made: { Self → List DeskEntry → Self → Type 0 };

    /// Which sessions of the caller are open, and how many places there are.
    ghost setting: { Self → Setting };

    /// Whether the caller is in a turn of the catalog.
    ghost phase: { Self → Phase };

    /// The catalog as it is within the turn.
    ghost kept: { Self → Catalog };

    /// How many more collects of a session may leave something to collect.
    ghost left: { Self → ℕ → ℕ };

    /// Whether the caller has the places for itself, so that what the catalog knows within its turn is there.
    ghost alone: { Bool };

    /// The allocator of which the calls take their memory.
    fn alloc(&self) -> Global;

    // ---- calls of the router

    /// Opens a session, and answers its number. An `Err` opens none.
    fn open(&mut self) -> Result<u64, DeskFault>
        ensures made { Makes made (Routes router.Open (opened result)) self.old self.new }
        ensures opens { IfOk result (λ session. (setting self.new).opened session ≡ true) }
        ensures places { (setting self.new).places ≡ (setting self.old).places }
        ensures phase { phase self.new ≡ phase self.old };

    /// Sets whether a session hears its own messages, and whether it takes header blocks.
    fn options(&mut self, session: u64, echo: bool, headers: bool) -> Result<(), DeskFault>
        requires open { (setting self.old).opened session ≡ true }
        ensures made { Makes made (Routes (router.Options session echo headers) (done result)) self.old self.new }
        ensures setting { setting self.new ≡ setting self.old }
        ensures phase { phase self.new ≡ phase self.old };

    /// Subscribes a session.
    fn sub(
        &mut self,
        session: u64,
        subject: &[u8],
        queue: Option<&[u8]>,
        sid: &[u8],
    ) -> Result<(), DeskFault>
        requires open { (setting self.old).opened session ≡ true }
        requires pattern { IsTrue (is_pattern_text subject.now) }
        ensures made { Makes made
            (Routes (router.Sub session subject.now (option_map (λ text. text.now) queue.entry) sid.now) (done result)) self.old self.new }
        ensures setting { setting self.new ≡ setting self.old }
        ensures phase { phase self.new ≡ phase self.old };

    /// Ends a subscription of a session.
    fn unsub(&mut self, session: u64, sid: &[u8], max: Option<u64>) -> Result<(), DeskFault>
        requires open { (setting self.old).opened session ≡ true }
        ensures made { Makes made (Routes (router.Unsub session sid.now max) (done result)) self.old self.new }
        ensures setting { setting self.new ≡ setting self.old }
        ensures phase { phase self.new ≡ phase self.old };

    /// Hands a message of the caller's session to the subscriptions, and answers how many took it.
    fn publish(&mut self, message: &Out, caller: Caller) -> Result<u64, DeskFault>
        requires open { (setting self.old).opened caller.session ≡ true }
        ensures made { Makes made (Offers (client_of caller) message.now result) self.old self.new }
        ensures setting { setting self.new ≡ setting self.old }
        ensures phase { phase self.new ≡ phase self.old };

    /// Hands a message of the server itself to the subscriptions.
    fn send(&mut self, out: &Out) -> Result<(), DeskFault>
        ensures made { Makes made (SendsOne out.now result) self.old self.new }
        ensures setting { setting self.new ≡ setting self.old }
        ensures phase { phase self.new ≡ phase self.old };

    /// Takes frames that wait for a session, or tells how long they would be together if that is too long.
    fn collect(&mut self, session: u64, max: usize) -> Result<Collected, DeskFault>
        requires open { (setting self.old).opened session ≡ true }
        ensures made { Makes made (Routes (router.Collect session max) (gave result)) self.old self.new }
        ensures left { LeavesLess result (left self.old session) (left self.new session) }
        ensures setting { setting self.new ≡ setting self.old }
        ensures phase { phase self.new ≡ phase self.old };

    /// Closes a session.
    fn close(&mut self, session: u64) -> Result<(), DeskFault>
        requires open { (setting self.old).opened session ≡ true }
        ensures made { Makes made (Routes (router.Close session) (done result)) self.old self.new }
        ensures places { (setting self.new).places ≡ (setting self.old).places }
        ensures phase { phase self.new ≡ phase self.old };

    // ---- look-ups, each in a turn of its own

    /// The place of the stream that takes the subject.
    fn find(&mut self, subject: &[u8]) -> Result<Option<PlaceAt>, DeskFault>
        requires outside { phase self.old ≡ Outside }
        ensures made { Makes made (LooksUp (catalog.Find subject.now) result) self.old self.new }
        ensures within { IfOk result (λ found. IfSome found (IsWithin (setting self.new))) }
        ensures setting { setting self.new ≡ setting self.old }
        ensures phase { phase self.new ≡ phase self.old };

    /// The place of the stream of this name.
    fn by_name(&mut self, name: &Name) -> Result<Option<PlaceAt>, DeskFault>
        requires outside { phase self.old ≡ Outside }
        ensures made { Makes made (LooksUp (catalog.ByName name.now) result) self.old self.new }
        ensures within { IfOk result (λ found. IfSome found (IsWithin (setting self.new))) }
        ensures setting { setting self.new ≡ setting self.old }
        ensures phase { phase self.new ≡ phase self.old };

    /// The next used place after a number, in cyclic order.
    fn next_used(&mut self, after: u32) -> Result<Option<PlaceAt>, DeskFault>
        requires outside { phase self.old ≡ Outside }
        ensures made { Makes made (LooksUp (catalog.NextUsed after) result) self.old self.new }
        ensures within { IfOk result (λ found. IfSome found (IsWithin (setting self.new))) }
        ensures few { IfOk result (λ found. IfSome found (λ at. at.place < 32)) }
        ensures setting { setting self.new ≡ setting self.old }
        ensures phase { phase self.new ≡ phase self.old };

    /// The next used place after that of the caller's last tick. The tick is there then.
    fn turn(&mut self) -> Result<Option<PlaceAt>, DeskFault>
        requires outside { phase self.old ≡ Outside }
        ensures made { Makes made (Turns result) self.old self.new }
        ensures within { IfOk result (λ found. IfSome found (IsWithin (setting self.new))) }
        ensures setting { setting self.new ≡ setting self.old }
        ensures phase { phase self.new ≡ phase self.old };

    // ---- one turn of the catalog

    /// Enters a turn, and answers the place of the stream of this name. An `Err` enters none.
    fn begin(&mut self, name: &Name) -> Result<Option<PlaceAt>, DeskFault>
        requires outside { phase self.old ≡ Outside }
        ensures made { Makes made (LooksUp (catalog.ByName name.now) result) self.old self.new }
        ensures within { IfOk result (λ found. IfSome found (IsWithin (setting self.new))) }
        ensures known { IfOk result (λ found. IfSome found (Knows (kept self.new))) }
        ensures setting { setting self.new ≡ setting self.old }
        ensures phase { phase self.new ≡ begun result };

    /// Takes a place for a stream of this name and these subjects. An `Err` takes none, and the text of a refusal is UTF-8.
    fn add(&mut self, name: &Name, subjects: &[Blob]) -> Result<PlaceAt, CatalogFault>
        requires turn { phase self.old ≡ Within }
        ensures made { made self.old (Looked true (catalog.Add name.now subjects.now) (add_told result) ∷ []) self.new }
        ensures within { IfOk result (IsWithin (setting self.new)) }
        ensures known { IfOk result (Knows (kept self.new)) }
        ensures text { IfErr result IsTold }
        ensures setting { setting self.new ≡ setting self.old }
        ensures phase { phase self.new ≡ Within };

    /// Puts the new subjects of a stream beside its old ones. An `Err` puts none, and the text of a refusal is UTF-8.
    fn change(&mut self, at: PlaceAt, subjects: &[Blob]) -> Result<(), CatalogFault>
        requires turn { phase self.old ≡ Within }
        requires known { Knows (kept self.old) at }
        ensures made { made self.old (Looked true (catalog.Change at.place subjects.now) (change_told result) ∷ []) self.new }
        ensures between { OnOk result (HasPlace (kept self.new) at.place (IsBetween at)) }
        ensures text { IfErr result IsTold }
        ensures setting { setting self.new ≡ setting self.old }
        ensures phase { phase self.new ≡ changed_to at.place result };

    /// Drops the old subjects of a stream if `new` is true, and else the new ones.
    fn keep(&mut self, place: u32, new: bool)
        requires turn { phase self.old ≡ Between place }
        requires both { HasPlace (kept self.old) place MayKeep }
        ensures made { made self.old (Looked true (catalog.Keep place new) catalog.Done ∷ []) self.new }
        ensures setting { setting self.new ≡ setting self.old }
        ensures phase { phase self.new ≡ Within };

    /// Frees a place. If its stream was dropped, the next one there has the next incarnation.
    fn remove(&mut self, place: u32, dropped: bool)
        requires turn { phase self.old ≡ before_freeing dropped place }
        requires used { HasPlace (kept self.old) place (MayRemove dropped) }
        ensures made { made self.old (Looked true (catalog.Remove place dropped) catalog.Done ∷ []) self.new }
        ensures setting { setting self.new ≡ setting self.old }
        ensures phase { phase self.new ≡ Within };

    /// Marks a place stopped.
    fn stop(&mut self, place: u32)
        requires turn { MayStop place (phase self.old) }
        requires used { HasPlace (kept self.old) place IsUsed }
        ensures made { made self.old (Looked true (catalog.Stop place) catalog.Done ∷ []) self.new }
        ensures setting { setting self.new ≡ setting self.old }
        ensures phase { phase self.new ≡ Within };

    /// Ends the turn.
    fn end(&mut self)
        requires turn { phase self.old ≡ Within }
        ensures made { made self.old [] self.new }
        ensures setting { setting self.new ≡ setting self.old }
        ensures phase { phase self.new ≡ Outside };

    // ---- holds

    /// The place of the caller's last hold, with the incarnation that was asked for there.
    fn resume(&mut self) -> Option<PlaceAt>
        ensures made { Makes made (Resumes (Ok result)) self.old self.new }
        ensures within { IfSome result (IsWithin (setting self.new)) }
        ensures setting { setting self.new ≡ setting self.old }
        ensures phase { phase self.new ≡ phase self.old };

    /// Asks this of the stream of a place, lets it deliver, and routes all that this sends. A stream is dropped within a turn of the catalog, which is
    /// told of it next.
    fn hold(&mut self, at: PlaceAt, what: What, now: Moment) -> Outcome
        requires within { IsWithin (setting self.old) at }
        requires asked { MayAsk what }
        requires turn { MayHold what (phase self.old) }
        ensures made { Makes made (Holds at what now result) self.old self.new }
        ensures explained { IsExplained result.fault result.became }
        ensures shown { CanBeShown result.became }
        ensures number { NumbersDropped what result.became at }
        ensures there { alone ≡ true → phase self.old ≡ Within → Knows (kept self.old) at → IsThere result.became }
        ensures kept { kept self.new ≡ kept self.old }
        ensures setting { setting self.new ≡ setting self.old }
        ensures phase { phase self.new ≡ phase_after what at result.became (phase self.old) };

    /// No entries lead to the same ground.
    ghost made_nothing: { (a : Self) → made a [] a };

    /// Entries, and then entries.
    ghost made_more: { (a b c : Self) (first more : List DeskEntry) → made a first b → made b more c → made a (first ++ more) c };
}
