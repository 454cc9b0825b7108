//! Whether the fields of a consumer's configuration hold what they may hold.

ghost use Rattle.std.specs.Prelude.{◌≡◌, [], ◌∷◌, map, IfOk, if◌then◌else◌};
ghost use Rattle.js_json.specs.Members.{members};
ghost use Rattle.js_json.specs.Fields.{flag_in, number_in, text_in, is_number, is_given};
ghost use Rattle.js_model.specs.Refusals.{first_refusal};
ghost use Rattle.consumer_config.specs.declared.rule.Standing.TheVariants.{Held, LeftOut};
ghost use Rattle.consumer_config.specs.declared.rule.Rule.TheVariants.{Group, Heartbeat, StartSequence, StartTime};
ghost use Rattle.consumer_config.specs.Standings.{flag_standing, number_standing, text_standing};
ghost use Rattle.consumer_config.specs.Table.{line, table};
ghost use Rattle.consumer_config.specs.Reading.{judged, counted, word_in, standing, judgement, checks, start_checks, name_checks, is_other, names_another};
ghost use Rattle.consumer_config.specs.Answers.{Passes};

use crate::fault::ConfigFault;
use crate::lookup::{lacks_subject, moment, natural, starts, word};
use crate::refusals::{durable_name_required, start_missing};
use crate::rule::{
    MOST, Rule, Standing, TextRule, count_standing, flag_standing, group_standing,
    heartbeat_standing, number_standing,
};
use crate::table::{Row, rows};
use js_base::NoMemory;
use js_json::{Fields, JsonFault};
use js_model::refusals::{invalid_value, name_mismatch, not_supported};
use std::alloc::Global;

/// The standing of a field with a flag.
fn flag_field(fields: &Fields, name: &str) -> Standing
    ensures value { result ≡ judged flag_standing (flag_in name.now (members fields.now)) }
{
    match fields.flag(name) {
        Ok(Some(flag)) => flag_standing(flag),
        Ok(None) => Standing::Held,
        Err(_) => Standing::Invalid,
    }
}

/// The standing of a field with a number.
fn number_field(low: i128, high: i128, fields: &Fields, name: &str) -> Standing
    ensures value { result ≡ judged (number_standing low high) (number_in name.now (members fields.now)) }
{
    match fields.number(name) {
        Ok(Some(number)) => number_standing(low, high, number),
        Ok(None) => Standing::Held,
        Err(_) => Standing::Invalid,
    }
}

/// The standing of a field with a text.
fn text_field(rule: TextRule, fields: &Fields, name: &str) -> Result<Standing, NoMemory>
    ensures value { IfOk result (λ is. is ≡ judged (text_standing rule) (text_in name.now (members fields.now))) }
{
    match fields.text(name) {
        Ok(Some(text)) => Ok(rule.standing(text.as_slice())),
        Ok(None) => Ok(Standing::Held),
        Err(JsonFault::NoMemory) => Err(NoMemory),
        Err(_) => Ok(Standing::Invalid),
    }
}

/// The standing of a field with a number that may be left out.
fn count_field(greatest: u64, fields: &Fields, name: &str) -> Standing
    ensures value { result ≡ counted greatest (is_number name.now (members fields.now)) (number_in name.now (members fields.now)) }
{
    match fields.number(name) {
        Ok(Some(number)) => count_standing(greatest, number),
        Ok(None) => Standing::Held,
        Err(_) if fields.is_number(name) => Standing::LeftOut,
        Err(_) => Standing::Invalid,
    }
}

/// The standing of a field that should say nothing.
fn given_field(fields: &Fields, name: &str) -> Standing
    ensures value { result ≡ (if is_given name.now (members fields.now) then LeftOut else Held) }
{
    if fields.given(name) {
        Standing::LeftOut
    } else {
        Standing::Held
    }
}

/// The standing of the queue name.
#[tactic(auto, unfolding(crate::specs::Reading::standing))]
fn group_field(fields: &Fields, name: &str) -> Result<Standing, NoMemory>
    ensures value { IfOk result (λ is. is ≡ standing Group name.now (members fields.now)) }
{
    let lacks = lacks_subject(fields)?;
    match fields.text(name) {
        Ok(Some(text)) => Ok(group_standing(lacks, text.as_slice())),
        Ok(None) => Ok(Standing::Held),
        Err(JsonFault::NoMemory) => Err(NoMemory),
        Err(_) => Ok(Standing::Invalid),
    }
}

/// The standing of the heartbeat.
#[tactic(auto, unfolding(crate::specs::Reading::standing))]
fn heartbeat_field(fields: &Fields, name: &str) -> Result<Standing, NoMemory>
    ensures value { IfOk result (λ is. is ≡ standing Heartbeat name.now (members fields.now)) }
{
    let lacks = lacks_subject(fields)?;
    match fields.number(name) {
        Ok(Some(number)) => Ok(heartbeat_standing(lacks, number)),
        Ok(None) => Ok(Standing::Held),
        Err(_) => Ok(Standing::Invalid),
    }
}

/// The standing of the sequence by which a consumer starts.
#[tactic(auto, unfolding(crate::specs::Reading::standing))]
fn sequence_field(fields: &Fields, name: &str) -> Result<Standing, NoMemory>
    ensures value { IfOk result (λ is. is ≡ standing StartSequence name.now (members fields.now)) }
{
    if starts(b"by_start_sequence", fields)? {
        Ok(number_field(0, MOST, fields, name))
    } else {
        Ok(Standing::Held)
    }
}

/// The standing of the time by which a consumer starts.
#[tactic(auto, unfolding(crate::specs::Reading::standing))]
fn time_field(fields: &Fields, name: &str) -> Result<Standing, NoMemory>
    ensures value { IfOk result (λ is. is ≡ standing StartTime name.now (members fields.now)) }
{
    if starts(b"by_start_time", fields)? && fields.time(name).is_err() {
        Ok(Standing::Invalid)
    } else {
        Ok(Standing::Held)
    }
}

impl Rule {
    /// What the field is by the rule.
    #[tactic(auto, unfolding(crate::specs::Reading::standing))]
    fn field(self, fields: &Fields, name: &str) -> Result<Standing, NoMemory>
        ensures value { IfOk result (λ is. is ≡ standing self name.now (members fields.now)) }
    {
        match self {
            Rule::Flag => Ok(flag_field(fields, name)),
            Rule::Text(rule) => text_field(rule, fields, name),
            Rule::Number(low, high) => Ok(number_field(low, high, fields, name)),
            Rule::Count(greatest) => Ok(count_field(greatest, fields, name)),
            Rule::Nothing => Ok(given_field(fields, name)),
            Rule::Group => group_field(fields, name),
            Rule::Heartbeat => heartbeat_field(fields, name),
            Rule::StartSequence => sequence_field(fields, name),
            Rule::StartTime => time_field(fields, name),
        }
    }
}

/// Refuses the field if it stands so.
fn judge(alloc: Global, name: &str, standing: Standing) -> Result<(), ConfigFault>
    ensures passes { Passes result (first_refusal (judgement name.now standing ∷ [])) }
{
    match standing {
        Standing::Held => Ok(()),
        Standing::Invalid => Err(ConfigFault::Refused(invalid_value(alloc, name.as_bytes())?)),
        Standing::LeftOut => Err(ConfigFault::Refused(not_supported(alloc, name.as_bytes())?)),
    }
}

/// Refuses the field if it holds what it may not hold.
fn check_field(alloc: Global, fields: &Fields, name: &str, rule: Rule) -> Result<(), ConfigFault>
    ensures passes { Passes result (first_refusal (judgement name.now (standing rule name.now (members fields.now)) ∷ [])) }
{
    let standing = rule.field(fields, name)?;
    judge(alloc, name, standing)
}

/// Refuses the first field of these that holds what it may not hold.
fn check_rows(alloc: Global, fields: &Fields, rows: &[Row]) -> Result<(), ConfigFault>
    ensures passes { Passes result (first_refusal (checks (members fields.now) (map line rows.now))) }
{
    for (name, rule) in rows {
        match check_field(alloc, fields, name, *rule) {
            Ok(()) => {}
            Err(fault) => return Err(fault),
        }
    }
    Ok(())
}

/// Refuses the first field that holds what it may not hold, in ascending order of their names: with 20001 one that has a wrong type or is out of its
/// range, and with 20002 one that asks for what the server leaves out. `read` begins so; what is missing, and names, are looked at after that.
pub fn check_fields(alloc: Global, fields: &Fields) -> Result<(), ConfigFault>
    ensures passes { Passes result (first_refusal (checks (members fields.now) table)) }
{
    check_rows(alloc, fields, rows())
}

/// Refuses a policy of delivery without the field that it needs.
pub(crate) fn check_start(alloc: Global, fields: &Fields) -> Result<(), ConfigFault>
    ensures passes { Passes result (first_refusal (start_checks (members fields.now))) }
{
    if starts(b"by_start_sequence", fields)? && natural(fields, "opt_start_seq") == 0 {
        return Err(ConfigFault::Refused(start_missing(alloc, b"opt_start_seq")?));
    }
    if starts(b"by_start_time", fields)? && moment(fields, "opt_start_time").is_none() {
        return Err(ConfigFault::Refused(start_missing(alloc, b"opt_start_time")?));
    }
    Ok(())
}

/// Whether the text is another name than the consumer's. An empty one counts as absent.
fn is_other(name: &[u8], text: &[u8]) -> bool
    ensures value { result ≡ is_other name.now text.now }
{
    !text.is_empty() && text != name
}

/// Whether the field holds another name than the consumer's.
fn holds_another(fields: &Fields, field: &str, name: &[u8]) -> Result<bool, NoMemory>
    ensures value { IfOk result (λ other. other ≡ is_other name.now (word_in field.now (members fields.now))) }
{
    let text = word(fields, field)?;
    Ok(is_other(name, text.as_slice()))
}

/// Whether a name is given that is another one than the consumer's.
fn names_another(fields: &Fields, name: &[u8]) -> Result<bool, NoMemory>
    ensures value { IfOk result (λ other. other ≡ names_another name.now (members fields.now)) }
{
    let durable = holds_another(fields, "durable_name", name)?;
    let short = holds_another(fields, "name", name)?;
    Ok(durable || short)
}

/// Refuses a configuration without a durable name, or with another name than the consumer's.
pub(crate) fn check_names(alloc: Global, fields: &Fields, name: &[u8]) -> Result<(), ConfigFault>
    ensures passes { Passes result (first_refusal (name_checks name.now (members fields.now))) }
{
    let durable = word(fields, "durable_name")?;
    if durable.is_empty() {
        return Err(ConfigFault::Refused(durable_name_required(alloc)?));
    }
    if names_another(fields, name)? {
        return Err(ConfigFault::Refused(name_mismatch(alloc)?));
    }
    Ok(())
}
