//! From a text to its data.
ghost use Rattle.json_members.specs.JsonText.{TextAnswers};

use serde_json::Value;
use std::alloc::Global;

/// Why no data came of a text.
#[derive(Clone, Copy, Debug, Drop, PartialEq, Eq)]
pub enum JsonFault {
    /// The text is no JSON in UTF-8.
    NotJson,
    /// No memory was left.
    NoMemory,
}

/// The data that a text stands for. Of members of one object with the same key the last counts.
pub fn read_json(alloc: Global, bytes: &[u8]) -> Result<Value, JsonFault>
    ensures { TextAnswers bytes.now result }
{
    match Value::from_slice(alloc, bytes) {
        Ok(value) => Ok(value),
        Err(error) if error.is_memory() => Err(JsonFault::NoMemory),
        Err(_) => Err(JsonFault::NotJson),
    }
}
