//! The calls on the consumers of a stream.

ghost use Rattle.std.specs.Prelude.{◌≡◌, IsTrue};
ghost use Rattle.api_requests.specs.Read.{IsCreation, IsStream};
ghost use Rattle.js_base.specs.Subjects.{is_subject_text};
ghost use Rattle.js_model.specs.Configs.{is_number};
ghost use Rattle.js_model.specs.Proper.{if_given};
ghost use Rattle.js_api.specs.Leading.{Makes};
ghost use Rattle.js_api.specs.OneConsumer.{IsDroppingConsumer, IsListingConsumers, IsMakingConsumer, IsNamingConsumers, IsShowingConsumer};
ghost use Rattle.desk_ground.specs.Grounds.{Outside};

use crate::asking::{Asking, ask_stream};
use desk_ground::Ground;
use js_api::DeskFault;
use js_base::{Blob, Moment, Name};
use js_model::ConsumerConfig;

/// Makes a consumer of the stream of this name, or shows the one of its name that has this configuration already. With `update` it has to be there.
pub fn make_consumer<G: Ground>(
    ground: &mut G,
    stream: &Name,
    consumer: &Name,
    config: &ConsumerConfig,
    update: bool,
    to: &Option<Blob>,
    now: Moment,
) -> Result<bool, DeskFault>
    requires outside { G.phase ground.old ≡ Outside }
    requires to { IsTrue (if_given is_subject_text to.now) }
    requires creation { IsCreation stream.now consumer.now config.now }
    ensures made { Makes G.made (IsMakingConsumer stream.now consumer.now config.now update to.now now result) ground.old ground.new }
    ensures setting { G.setting ground.new ≡ G.setting ground.old }
    ensures phase { G.phase ground.new ≡ Outside }
{
    let asking = Asking::MakeConsumer {
        name: consumer,
        config,
        update,
    };
    ask_stream(ground, stream, asking, to, now)
}

/// Shows a consumer of the stream of this name.
pub fn show_consumer<G: Ground>(
    ground: &mut G,
    stream: &Name,
    consumer: &Name,
    to: &Option<Blob>,
    now: Moment,
) -> Result<bool, DeskFault>
    requires outside { G.phase ground.old ≡ Outside }
    requires to { IsTrue (if_given is_subject_text to.now) }
    requires name { IsStream consumer.now }
    ensures made { Makes G.made (IsShowingConsumer stream.now consumer.now to.now now result) ground.old ground.new }
    ensures setting { G.setting ground.new ≡ G.setting ground.old }
    ensures phase { G.phase ground.new ≡ Outside }
{
    ask_stream(ground, stream, Asking::ConsumerInfo(consumer), to, now)
}

/// Drops a consumer of the stream of this name.
pub fn drop_consumer<G: Ground>(
    ground: &mut G,
    stream: &Name,
    consumer: &Name,
    to: &Option<Blob>,
    now: Moment,
) -> Result<bool, DeskFault>
    requires outside { G.phase ground.old ≡ Outside }
    requires to { IsTrue (if_given is_subject_text to.now) }
    requires name { IsStream consumer.now }
    ensures made { Makes G.made (IsDroppingConsumer stream.now consumer.now to.now now result) ground.old ground.new }
    ensures setting { G.setting ground.new ≡ G.setting ground.old }
    ensures phase { G.phase ground.new ≡ Outside }
{
    ask_stream(ground, stream, Asking::DropConsumer(consumer), to, now)
}

/// Tells the names of the consumers of the stream of this name, from this place on.
pub fn name_consumers<G: Ground>(
    ground: &mut G,
    stream: &Name,
    offset: u64,
    to: &Option<Blob>,
    now: Moment,
) -> Result<bool, DeskFault>
    requires outside { G.phase ground.old ≡ Outside }
    requires to { IsTrue (if_given is_subject_text to.now) }
    requires offset { IsTrue (is_number offset) }
    ensures made { Makes G.made (IsNamingConsumers stream.now offset to.now now result) ground.old ground.new }
    ensures setting { G.setting ground.new ≡ G.setting ground.old }
    ensures phase { G.phase ground.new ≡ Outside }
{
    ask_stream(ground, stream, Asking::ConsumerNames(offset), to, now)
}

/// Tells their informations.
pub fn list_consumers<G: Ground>(
    ground: &mut G,
    stream: &Name,
    offset: u64,
    to: &Option<Blob>,
    now: Moment,
) -> Result<bool, DeskFault>
    requires outside { G.phase ground.old ≡ Outside }
    requires to { IsTrue (if_given is_subject_text to.now) }
    requires offset { IsTrue (is_number offset) }
    ensures made { Makes G.made (IsListingConsumers stream.now offset to.now now result) ground.old ground.new }
    ensures setting { G.setting ground.new ≡ G.setting ground.old }
    ensures phase { G.phase ground.new ≡ Outside }
{
    ask_stream(ground, stream, Asking::ConsumerList(offset), to, now)
}
