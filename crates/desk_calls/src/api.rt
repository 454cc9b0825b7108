//! One call of the API.

ghost use Rattle.std.specs.Prelude.{◌≡◌, IsTrue};
ghost use Rattle.api_requests.specs.Read.{IsRead};
ghost use Rattle.js_api.specs.Api.{Performs};
ghost use Rattle.js_api.specs.Leading.{Makes};
ghost use Rattle.js_base.specs.Subjects.{is_subject_text};
ghost use Rattle.js_model.specs.Proper.{if_given};
ghost use Rattle.desk_ground.specs.Grounds.{Outside};

use desk_ground::Ground;
use desk_messaging::pull;
use desk_streams::{
    create_stream, delete_stream, drop_consumer, erase_message, list_consumers, list_names,
    list_streams, make_consumer, name_consumers, purge_stream, read_message, show_account,
    show_consumer, show_stream, update_stream,
};
use js_api::{ApiRequest, DeskFault};
use js_base::{Blob, Moment};

/// Carries out the call, answers it to the reply subject, and tells whether somebody took it.
pub fn carry_out<G: Ground>(
    ground: &mut G,
    request: ApiRequest,
    to: &Option<Blob>,
    now: Moment,
) -> Result<bool, DeskFault>
    requires outside { G.phase ground.old ≡ Outside }
    requires to { IsTrue (if_given is_subject_text to.now) }
    requires read { IsRead request }
    ensures made { Makes G.made (Performs request to.now now result) ground.old ground.new }
    ensures setting { G.setting ground.new ≡ G.setting ground.old }
    ensures phase { G.phase ground.new ≡ Outside }
{
    match request {
        ApiRequest::AccountInfo => show_account(ground, to, now),
        ApiRequest::StreamCreate { stream, config } => {
            create_stream(ground, &stream, config, to, now)
        }
        ApiRequest::StreamUpdate { stream, config } => {
            update_stream(ground, &stream, config, to, now)
        }
        ApiRequest::StreamInfo { stream } => show_stream(ground, &stream, to, now),
        ApiRequest::StreamDelete { stream } => delete_stream(ground, &stream, to, now),
        ApiRequest::StreamNames { offset, subject } => {
            list_names(ground, offset, &subject, to, now)
        }
        ApiRequest::StreamList { offset, subject } => {
            list_streams(ground, offset, &subject, to, now)
        }
        ApiRequest::StreamPurge {
            stream,
            filter,
            seq,
            keep,
        } => purge_stream(ground, &stream, &filter, seq, keep, to, now),
        ApiRequest::StreamMsgGet { stream, by } => read_message(ground, &stream, &by, to, now),
        ApiRequest::StreamMsgDelete { stream, seq } => {
            erase_message(ground, &stream, seq, to, now)
        }
        ApiRequest::ConsumerCreate {
            stream,
            consumer,
            config,
            update,
        } => make_consumer(ground, &stream, &consumer, &config, update, to, now),
        ApiRequest::ConsumerDurableCreate {
            stream,
            consumer,
            config,
            update,
        } => make_consumer(ground, &stream, &consumer, &config, update, to, now),
        ApiRequest::ConsumerInfo { stream, consumer } => {
            show_consumer(ground, &stream, &consumer, to, now)
        }
        ApiRequest::ConsumerDelete { stream, consumer } => {
            drop_consumer(ground, &stream, &consumer, to, now)
        }
        ApiRequest::ConsumerNames { stream, offset } => {
            name_consumers(ground, &stream, offset, to, now)
        }
        ApiRequest::ConsumerList { stream, offset } => {
            list_consumers(ground, &stream, offset, to, now)
        }
        ApiRequest::ConsumerMsgNext {
            stream,
            consumer,
            ask,
        } => pull(ground, &stream, &consumer, ask, to, now),
    }
}
