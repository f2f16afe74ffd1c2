ghost use Rattle.std.specs.Prelude.{◌≡◌, ◌≤◌, IfOk, IfSome};
ghost use Rattle.std.specs.Option.{option_map};
ghost use Rattle.serde_json.specs.Data.{no_items};
ghost use Rattle.serde_json.specs.Find.{get, as_str, as_bool, as_array};
ghost use Rattle.serde_json.specs.View.{view, items_view};
ghost use Rattle.node_settings.specs.Reading.{required, optional, viewed};
ghost use Rattle.node_settings.specs.Topology.{small_number, an_object};

use net_base::Field;
use serde_json::Value;

/// A value that is no object is named by the array that holds it.
pub(crate) fn check_object(value: &Value, holder: Field) -> Result<(), Field>
    ensures { result ≡ an_object holder (view value.now) }
{
    match value.as_object() {
        Some(_) => Ok(()),
        None => Err(holder),
    }
}

pub(crate) fn required_array<'a>(
    object: &'a Value,
    name: &str,
    field: Field,
) -> Result<&'a [Value], Field>
    ensures { viewed (λ values. items_view values.now) result ≡ required field as_array (get name.now (view object.now)) }
{
    let value = object.get(name).ok_or(field)?;
    let values = value.as_array().ok_or(field)?;
    Ok(values.as_slice())
}

pub(crate) fn required_text<'a>(
    object: &'a Value,
    name: &str,
    field: Field,
) -> Result<&'a str, Field>
    ensures { viewed (λ text. text.now) result ≡ required field as_str (get name.now (view object.now)) }
{
    let value = object.get(name).ok_or(field)?;
    value.as_str().ok_or(field)
}

pub(crate) fn required_number(
    object: &Value,
    name: &str,
    most: u64,
    field: Field,
) -> Result<u64, Field>
    ensures value { result ≡ required field (small_number most) (get name.now (view object.now)) }
    ensures within { IfOk result (λ number. number ≤ most) }
{
    let value = object.get(name).ok_or(field)?;
    small_number(value, most).ok_or(field)
}

pub(crate) fn array_or_empty<'a>(
    object: &'a Value,
    name: &str,
    field: Field,
) -> Result<&'a [Value], Field>
    ensures { viewed (λ values. items_view values.now) result ≡ optional field as_array no_items (get name.now (view object.now)) }
{
    match object.get(name) {
        None => Ok(&[]),
        Some(value) => {
            let values = value.as_array().ok_or(field)?;
            Ok(values.as_slice())
        }
    }
}

pub(crate) fn flag_or(
    object: &Value,
    name: &str,
    default: bool,
    field: Field,
) -> Result<bool, Field>
    ensures { result ≡ optional field as_bool default (get name.now (view object.now)) }
{
    match object.get(name) {
        None => Ok(default),
        Some(value) => value.as_bool().ok_or(field),
    }
}

/// A whole number of at most `most`, without a sign, a point and an exponent.
pub(crate) fn small_number(value: &Value, most: u64) -> Option<u64>
    ensures value { result ≡ small_number most (view value.now) }
    ensures within { IfSome result (λ number. number ≤ most) }
{
    let number = value.as_u64()?;
    if number <= most { Some(number) } else { None }
}
