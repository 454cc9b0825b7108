//! Whether the fields of a stream's configuration hold what they may hold.

ghost use Rattle.std.specs.Prelude.{◌≡◌, [], ◌∷◌, map, IfOk, if◌then◌else◌};
ghost use Rattle.js_json.specs.Members.{members};
ghost use Rattle.js_json.specs.Fields.{flag_in, number_in, text_in, texts_in, part_in, is_number, is_given};
ghost use Rattle.js_model.specs.Refusals.{first_refusal, name_mismatch};
ghost use Rattle.stream_config.specs.declared.rule.Standing.TheVariants.{Held, LeftOut};
ghost use Rattle.stream_config.specs.Standings.{flag_standing, number_standing, text_standing, subjects_standing};
ghost use Rattle.stream_config.specs.Table.{line, table};
ghost use Rattle.stream_config.specs.Reading.{judged, counted, age_in, parts_standing, standing, judgement, checks, names_another};
ghost use Rattle.stream_config.specs.Answers.{Passes};

use crate::fault::ConfigFault;
use crate::lookup::{age, text};
use crate::rule::{
    NumberRule, Rule, Standing, TextRule, count_standing, flag_standing, subjects_standing,
};
use crate::table::{Row, rows};
use js_base::NoMemory;
use js_json::{Fields, JsonFault};
use js_model::refusals::{invalid_value, name_mismatch, not_supported};
use std::alloc::Global;

/// The standing of a field with a flag.
fn flag_field(fields: &Fields, name: &str) -> Standing
    ensures value { result ≡ judged flag_standing (flag_in name.now (members fields.now)) }
{
    match fields.flag(name) {
        Ok(Some(flag)) => flag_standing(flag),
        Ok(None) => Standing::Held,
        Err(_) => Standing::Invalid,
    }
}

/// The standing of a field with a number.
fn number_field(rule: NumberRule, fields: &Fields, name: &str) -> Standing
    ensures value { result ≡ judged (number_standing rule (age_in (members fields.now))) (number_in name.now (members fields.now)) }
{
    match fields.number(name) {
        Ok(Some(number)) => rule.standing(age(fields), number),
        Ok(None) => Standing::Held,
        Err(_) => Standing::Invalid,
    }
}

/// The standing of a field with a text.
fn text_field(rule: TextRule, fields: &Fields, name: &str) -> Result<Standing, NoMemory>
    ensures value { IfOk result (λ is. is ≡ judged (text_standing rule) (text_in name.now (members fields.now))) }
{
    match fields.text(name) {
        Ok(Some(text)) => Ok(rule.standing(text.as_slice())),
        Ok(None) => Ok(Standing::Held),
        Err(JsonFault::NoMemory) => Err(NoMemory),
        Err(_) => Ok(Standing::Invalid),
    }
}

/// The standing of a field with a number that may be left out.
fn count_field(greatest: u64, fields: &Fields, name: &str) -> Standing
    ensures value { result ≡ counted greatest (is_number name.now (members fields.now)) (number_in name.now (members fields.now)) }
{
    match fields.number(name) {
        Ok(Some(number)) => count_standing(greatest, number),
        Ok(None) => Standing::Held,
        Err(_) if fields.is_number(name) => Standing::LeftOut,
        Err(_) => Standing::Invalid,
    }
}

/// The standing of an object.
fn parts_standing(part: &Fields) -> Standing
    ensures value { result ≡ parts_standing (members part.now) }
{
    if part.is_empty() {
        Standing::Held
    } else {
        Standing::LeftOut
    }
}

/// The standing of a field with an object.
fn part_field(fields: &Fields, name: &str) -> Result<Standing, NoMemory>
    ensures value { IfOk result (λ is. is ≡ judged parts_standing (part_in name.now (members fields.now))) }
{
    match fields.part(name) {
        Ok(Some(part)) => Ok(parts_standing(&part)),
        Ok(None) => Ok(Standing::Held),
        Err(JsonFault::NoMemory) => Err(NoMemory),
        Err(_) => Ok(Standing::Invalid),
    }
}

/// The standing of a field with subjects.
fn subjects_field(fields: &Fields, name: &str) -> Result<Standing, NoMemory>
    ensures value { IfOk result (λ is. is ≡ judged subjects_standing (texts_in name.now (members fields.now))) }
{
    match fields.texts(name) {
        Ok(Some(subjects)) => Ok(subjects_standing(subjects.as_slice())),
        Ok(None) => Ok(Standing::Held),
        Err(JsonFault::NoMemory) => Err(NoMemory),
        Err(_) => Ok(Standing::Invalid),
    }
}

/// The standing of a field that should say nothing.
fn given_field(fields: &Fields, name: &str) -> Standing
    ensures value { result ≡ (if is_given name.now (members fields.now) then LeftOut else Held) }
{
    if fields.given(name) {
        Standing::LeftOut
    } else {
        Standing::Held
    }
}

impl Rule {
    /// What the field is by the rule.
    #[tactic(auto, unfolding(crate::specs::Reading::standing))]
    fn field(self, fields: &Fields, name: &str) -> Result<Standing, NoMemory>
        ensures value { IfOk result (λ is. is ≡ standing self name.now (members fields.now)) }
    {
        match self {
            Rule::Flag => Ok(flag_field(fields, name)),
            Rule::Text(rule) => text_field(rule, fields, name),
            Rule::Number(rule) => Ok(number_field(rule, fields, name)),
            Rule::Count(greatest) => Ok(count_field(greatest, fields, name)),
            Rule::NoParts => part_field(fields, name),
            Rule::Nothing => Ok(given_field(fields, name)),
            Rule::Subjects => subjects_field(fields, name),
        }
    }
}

/// Refuses the field if it stands so.
fn judge(alloc: Global, name: &str, standing: Standing) -> Result<(), ConfigFault>
    ensures passes { Passes result (first_refusal (judgement name.now standing ∷ [])) }
{
    match standing {
        Standing::Held => Ok(()),
        Standing::Invalid => Err(ConfigFault::Refused(invalid_value(alloc, name.as_bytes())?)),
        Standing::LeftOut => Err(ConfigFault::Refused(not_supported(alloc, name.as_bytes())?)),
    }
}

/// Refuses the field if it holds what it may not hold.
fn check_field(alloc: Global, fields: &Fields, name: &str, rule: Rule) -> Result<(), ConfigFault>
    ensures passes { Passes result (first_refusal (judgement name.now (standing rule name.now (members fields.now)) ∷ [])) }
{
    let standing = rule.field(fields, name)?;
    judge(alloc, name, standing)
}

/// Refuses the first field of these that holds what it may not hold.
fn check_rows(alloc: Global, fields: &Fields, rows: &[Row]) -> Result<(), ConfigFault>
    ensures passes { Passes result (first_refusal (checks (members fields.now) (map line rows.now))) }
{
    for (name, rule) in rows {
        match check_field(alloc, fields, name, *rule) {
            Ok(()) => {}
            Err(fault) => return Err(fault),
        }
    }
    Ok(())
}

/// Refuses the first field that holds what it may not hold, in ascending order of their names.
pub(crate) fn check_fields(alloc: Global, fields: &Fields) -> Result<(), ConfigFault>
    ensures passes { Passes result (first_refusal (checks (members fields.now) table)) }
{
    check_rows(alloc, fields, rows())
}

/// Refuses another name than the stream's.
pub(crate) fn check_name(alloc: Global, fields: &Fields, name: &[u8]) -> Result<(), ConfigFault>
    ensures passes { Passes result (first_refusal ((names_another name.now (members fields.now), name_mismatch) ∷ [])) }
{
    match text(fields, "name")? {
        Some(text) if text.as_slice() != name => Err(ConfigFault::Refused(name_mismatch(alloc)?)),
        _ => Ok(()),
    }
}
