//! Numbers, texts, lists and members of objects.
ghost use Rattle.std.specs.Prelude.{◌≡◌, ◌≤◌, IfSome, length, option_map};
ghost use Rattle.serde_json.specs.View.{view, items_view};
ghost use Rattle.json_members.specs.Members.{array_member, array_of, number_member, number_of, text_member, word_member};

use serde_json::Value;

/// The number that a value is: whole, without sign, point or exponent, and at most `most`.
pub fn number_of(value: &Value, most: u64) -> Option<u64>
    ensures value { result ≡ number_of most (view value.now) }
    ensures within { IfSome result (λ number. number ≤ most) }
{
    value.as_u64().filter(|number| *number <= most)
}

/// The number that is an object's member under `key`.
pub fn number_member(value: &Value, key: &str, most: u64) -> Option<u64>
    ensures value { result ≡ number_member key.now most (view value.now) }
    ensures within { IfSome result (λ number. number ≤ most) }
{
    let member = value.get(key)?;
    number_of(member, most)
}

/// The number of 32 bits that a value is.
pub fn word_of(value: &Value) -> Option<u32>
    ensures { result ≡ number_of 4294967295 (view value.now) }
{
    let number = number_of(value, 4_294_967_295)?;
    Some(number as u32)
}

/// The number of 32 bits that is an object's member under `key`.
pub fn word_member(value: &Value, key: &str) -> Option<u32>
    ensures { result ≡ word_member key.now (view value.now) }
{
    let number = number_member(value, key, 4_294_967_295)?;
    Some(number as u32)
}

/// The text that is an object's member under `key`.
pub fn text_member<'v>(value: &'v Value, key: &str) -> Option<&'v str>
    ensures { option_map (λ text. text.now) result ≡ text_member key.now (view value.now) }
{
    let member = value.get(key)?;
    member.as_str()
}

/// The list that a value is. A list of more than 4,294,967,295 items is none here, so that each item
/// of a list has a number of 32 bits.
pub fn array_of(value: &Value) -> Option<&[Value]>
    ensures value { option_map (λ items. items_view items.now) result ≡ array_of (view value.now) }
    ensures within { IfSome result (λ items. length items.now ≤ 4294967295) }
{
    let items = value.as_array()?;
    if items.len() as u64 > u64::from(u32::MAX) {
        return None;
    }
    Some(items.as_slice())
}

/// The list that is an object's member under `key`.
pub fn array_member<'v>(value: &'v Value, key: &str) -> Option<&'v [Value]>
    ensures value { option_map (λ items. items_view items.now) result
        ≡ array_member key.now (view value.now) }
    ensures within { IfSome result (λ items. length items.now ≤ 4294967295) }
{
    let member = value.get(key)?;
    array_of(member)
}
