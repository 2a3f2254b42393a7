//! Pieces of a JSON text, each added behind what is written of it.
ghost use Rattle.std.specs.Prelude.{◌≡◌, ◌++◌, ℕ, List, codes, false, map, OnOk, string_bytes};
ghost use Rattle.serde_json.specs.Data.{array, string};
ghost use Rattle.serde_json.specs.View.{view, items_of};
ghost use Rattle.serde_json.specs.Written.{compact_text, has_float, items_have_float};
ghost use Rattle.asl_lists.specs.Places.{count};
ghost use Rattle.asl_lists.specs.Written.{key_text, member_text};

use serde_json::Value;
use std::alloc::{AllocError, Global};

/// Adds a value that has no float.
pub fn push_value(alloc: Global, text: &mut String, value: &Value) -> Result<(), AllocError>
    requires { has_float (view value.now) ≡ false }
    ensures { OnOk result (string_bytes text.new ≡ string_bytes text.old ++ compact_text (view value.now)) }
{
    let written = value.to_string(alloc)?;
    Ok(text.push_str(written.as_str())?)
}

/// Adds the name of a member, behind these bytes and before a colon.
pub fn push_key(
    alloc: Global,
    text: &mut String,
    before: &str,
    name: &str,
) -> Result<(), AllocError>
    ensures { OnOk result (string_bytes text.new ≡ string_bytes text.old ++ key_text before.now name.now) }
{
    let name = Value::try_from_str(alloc, name)?;
    text.push_str(before)?;
    push_value(alloc, text, &name)?;
    Ok(text.push_str(":")?)
}

/// Adds a member whose value has no float, behind these bytes.
fn push_member(
    alloc: Global,
    text: &mut String,
    before: &str,
    name: &str,
    value: &Value,
) -> Result<(), AllocError>
    requires { has_float (view value.now) ≡ false }
    ensures { OnOk result (string_bytes text.new ≡ string_bytes text.old ++ member_text before.now name.now (view value.now)) }
{
    push_key(alloc, text, before, name)?;
    push_value(alloc, text, value)
}

/// Adds a member that is a list of values of which none has a float, behind these bytes.
pub fn push_list(
    alloc: Global,
    text: &mut String,
    before: &str,
    name: &str,
    values: Vec<Value>,
) -> Result<(), AllocError>
    requires { items_have_float (items_of (map view values.items)) ≡ false }
    ensures { OnOk result (string_bytes text.new ≡ string_bytes text.old ++ member_text before.now name.now (array (items_of (map view values.items)))) }
{
    let value = Value::Array(values);
    push_member(alloc, text, before, name, &value)
}

/// Adds a member that is a text, behind these bytes.
pub fn push_words(
    alloc: Global,
    text: &mut String,
    before: &str,
    name: &str,
    words: &str,
) -> Result<(), AllocError>
    ensures { OnOk result (string_bytes text.new ≡ string_bytes text.old ++ member_text before.now name.now (string words.now)) }
{
    let value = Value::try_from_str(alloc, words)?;
    push_member(alloc, text, before, name, &value)
}

/// Adds a member that is a number, behind these bytes.
pub fn push_number(
    alloc: Global,
    text: &mut String,
    before: &str,
    name: &str,
    number: u32,
) -> Result<(), AllocError>
    ensures { OnOk result (string_bytes text.new ≡ string_bytes text.old ++ member_text before.now name.now (count number)) }
{
    let value = Value::from(number);
    push_member(alloc, text, before, name, &value)
}
