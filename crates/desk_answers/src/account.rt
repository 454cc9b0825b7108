//! The account: how many streams and consumers there are, and what they hold.

ghost use Rattle.std.specs.Prelude.{◌≡◌, ◌<◌, ◌^◌, length, sum_by};
ghost use Rattle.api_replies.specs.Printed.{IsText};
ghost use Rattle.api_replies.specs.declared.reply.ApiReply.TheVariants as replies;
ghost use Rattle.js_model.specs.declared.reply.StreamInfo.{StreamInfo};
ghost use Rattle.desk_answers.specs.StreamInfos.{AreSound};

use js_api::ApiReply;
use js_model::StreamInfo;

/// How many consumers there are in all.
fn all_consumers(infos: &[StreamInfo]) -> u64
    requires fits { sum_by (λ (i : StreamInfo). i.consumers) infos.now < 2 ^ 64 }
    ensures value { result ≡ sum_by (λ (i : StreamInfo). i.consumers) infos.now }
{
    infos.iter().map(|info| info.consumers).sum()
}

/// The sizes of all stored messages together.
fn all_bytes(infos: &[StreamInfo]) -> u64
    requires fits { sum_by (λ (i : StreamInfo). i.bytes) infos.now < 2 ^ 64 }
    ensures value { result ≡ sum_by (λ (i : StreamInfo). i.bytes) infos.now }
{
    infos.iter().map(|info| info.bytes).sum()
}

/// The answer that shows the account of these streams: their number, and the sums of their consumers and of the bytes that they store.
pub fn account_reply(infos: &[StreamInfo]) -> ApiReply
    requires sound { AreSound infos.now }
    ensures value { result ≡ replies.AccountInfo (sum_by (λ (i : StreamInfo). i.consumers) infos.now) (sum_by (λ (i : StreamInfo). i.bytes) infos.now) (length infos.now) }
    ensures texts { IsText result }
{
    ApiReply::AccountInfo {
        consumers: all_consumers(infos),
        storage: all_bytes(infos),
        streams: infos.len() as u64,
    }
}
