//! The fields of a consumer's configuration, and what each may hold.

ghost use Rattle.std.specs.Prelude.{◌≡◌, map};
ghost use Rattle.consumer_config.specs.Table.{line, table};

use crate::rule::{MOST, Rule, TextRule};

/// The name of a field, and what it may hold.
pub(crate) type Row = (&'static str, Rule);

const ROWS: [Row; 29] = [
    ("ack_policy", Rule::Text(TextRule::AckPolicy)),
    ("ack_wait", Rule::Number(0, MOST)),
    ("backoff", Rule::Nothing),
    ("deliver_group", Rule::Group),
    ("deliver_policy", Rule::Text(TextRule::DeliverPolicy)),
    ("deliver_subject", Rule::Text(TextRule::DeliverSubject)),
    ("description", Rule::Text(TextRule::Description)),
    ("durable_name", Rule::Text(TextRule::Name)),
    ("filter_subject", Rule::Text(TextRule::Filter)),
    ("filter_subjects", Rule::Nothing),
    ("flow_control", Rule::Flag),
    ("headers_only", Rule::Flag),
    ("idle_heartbeat", Rule::Heartbeat),
    ("inactive_threshold", Rule::Count(0)),
    ("max_ack_pending", Rule::Number(-1, 65_536)),
    ("max_batch", Rule::Count(0)),
    ("max_bytes", Rule::Count(0)),
    ("max_deliver", Rule::Number(-1, MOST)),
    ("max_expires", Rule::Count(0)),
    ("max_waiting", Rule::Number(0, 65_536)),
    ("mem_storage", Rule::Flag),
    ("name", Rule::Text(TextRule::Name)),
    ("num_replicas", Rule::Count(1)),
    ("opt_start_seq", Rule::StartSequence),
    ("opt_start_time", Rule::StartTime),
    ("pause_until", Rule::Nothing),
    ("rate_limit_bps", Rule::Count(0)),
    ("replay_policy", Rule::Text(TextRule::ReplayPolicy)),
    ("sample_freq", Rule::Nothing),
];

/// The fields, in ascending order of their names.
#[tactic(auto, unfolding(crate::specs::Table::table))]
pub(crate) fn rows() -> &'static [Row]
    ensures table { map line result.now ≡ table }
{
    &ROWS
}
