//! Lists of data.
ghost use Rattle.std.specs.Prelude.{◌≡◌, ◌++◌, ◌∷◌, [], map, OnOk};
ghost use Rattle.serde_json.specs.View.{view};

use serde_json::Value;
use std::alloc::AllocError;

/// Adds a value.
pub fn add(values: &mut Vec<Value>, value: Value) -> Result<(), AllocError>
    ensures { OnOk result (map view values.new.items ≡ map view values.old.items ++ view value ∷ []) }
{
    Ok(values.push(value)?)
}
