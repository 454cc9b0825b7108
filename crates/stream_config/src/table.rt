//! The fields of a stream's configuration, and what each may hold.

ghost use Rattle.std.specs.Prelude.{◌≡◌, map};
ghost use Rattle.stream_config.specs.Table.{line, table};

use crate::rule::{NumberRule, Rule, TextRule};

/// The name of a field, and what it may hold.
pub(crate) type Row = (&'static str, Rule);

/// The greatest limit.
const MOST: u64 = (1 << 62) - 1;

/// The greatest number of consumers.
const MOST_CONSUMERS: u64 = 256;

const ROWS: [Row; 32] = [
    ("allow_direct", Rule::Flag),
    ("allow_msg_ttl", Rule::Flag),
    ("allow_rollup_hdrs", Rule::Flag),
    ("compression", Rule::Text(TextRule::Compression)),
    ("consumer_limits", Rule::NoParts),
    ("deny_delete", Rule::Flag),
    ("deny_purge", Rule::Flag),
    ("description", Rule::Text(TextRule::Description)),
    ("discard", Rule::Text(TextRule::Discard)),
    ("discard_new_per_subject", Rule::Flag),
    ("duplicate_window", Rule::Number(NumberRule::Window)),
    ("first_seq", Rule::Count(0)),
    ("max_age", Rule::Number(NumberRule::Nanos)),
    ("max_bytes", Rule::Number(NumberRule::Limit(MOST))),
    (
        "max_consumers",
        Rule::Number(NumberRule::Limit(MOST_CONSUMERS)),
    ),
    ("max_msg_size", Rule::Number(NumberRule::Limit(MOST))),
    ("max_msgs", Rule::Number(NumberRule::Limit(MOST))),
    (
        "max_msgs_per_subject",
        Rule::Number(NumberRule::Limit(MOST)),
    ),
    ("mirror", Rule::Nothing),
    ("mirror_direct", Rule::Flag),
    ("name", Rule::Text(TextRule::Name)),
    ("no_ack", Rule::Flag),
    ("num_replicas", Rule::Count(1)),
    ("placement", Rule::Nothing),
    ("republish", Rule::Nothing),
    ("retention", Rule::Text(TextRule::Retention)),
    ("sealed", Rule::Flag),
    ("sources", Rule::Nothing),
    ("storage", Rule::Text(TextRule::Storage)),
    ("subject_transform", Rule::Nothing),
    ("subjects", Rule::Subjects),
    ("template_owner", Rule::Nothing),
];

/// The fields, in ascending order of their names.
#[tactic(auto, unfolding(crate::specs::Table::table))]
pub(crate) fn rows() -> &'static [Row]
    ensures table { map line result.now ≡ table }
{
    &ROWS
}
