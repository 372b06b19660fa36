//! The members of arrays of just so many: lent, or taken out.
ghost use Rattle.std.specs.Prelude.{◌≡◌, option_map};
ghost use Rattle.serde_json.specs.View.{view, items_view};
ghost use Rattle.link_lines.specs.Taken.{lent_three, lent_four, lent_five, lent_six, taken_six};
ghost use Rattle.link_lines.specs.Arrays.{three_items, three_in, four_items, four_in, five_items, five_in, six_items, six_in};

use serde_json::Value;

fn three_of_items(items: &[Value]) -> Option<(&Value, &Value, &Value)>
    ensures { option_map lent_three result ≡ three_items (items_view items.now) }
{
    if items.len() != 3 {
        return None;
    }
    Some((&items[0], &items[1], &items[2]))
}

pub fn three_of(value: &Value) -> Option<(&Value, &Value, &Value)>
    ensures { option_map lent_three result ≡ three_in (view value.now) }
{
    match value {
        Value::Array(items) => three_of_items(items),
        _ => None,
    }
}

fn four_of_items(items: &[Value]) -> Option<(&Value, &Value, &Value, &Value)>
    ensures { option_map lent_four result ≡ four_items (items_view items.now) }
{
    if items.len() != 4 {
        return None;
    }
    Some((&items[0], &items[1], &items[2], &items[3]))
}

pub fn four_of(value: &Value) -> Option<(&Value, &Value, &Value, &Value)>
    ensures { option_map lent_four result ≡ four_in (view value.now) }
{
    match value {
        Value::Array(items) => four_of_items(items),
        _ => None,
    }
}

fn five_of_items(items: &[Value]) -> Option<(&Value, &Value, &Value, &Value, &Value)>
    ensures { option_map lent_five result ≡ five_items (items_view items.now) }
{
    if items.len() != 5 {
        return None;
    }
    Some((&items[0], &items[1], &items[2], &items[3], &items[4]))
}

pub fn five_of(value: &Value) -> Option<(&Value, &Value, &Value, &Value, &Value)>
    ensures { option_map lent_five result ≡ five_in (view value.now) }
{
    match value {
        Value::Array(items) => five_of_items(items),
        _ => None,
    }
}

fn six_of_items(items: &[Value]) -> Option<(&Value, &Value, &Value, &Value, &Value, &Value)>
    ensures { option_map lent_six result ≡ six_items (items_view items.now) }
{
    if items.len() != 6 {
        return None;
    }
    Some((
        &items[0], &items[1], &items[2], &items[3], &items[4], &items[5],
    ))
}

pub fn six_of(value: &Value) -> Option<(&Value, &Value, &Value, &Value, &Value, &Value)>
    ensures { option_map lent_six result ≡ six_in (view value.now) }
{
    match value {
        Value::Array(items) => six_of_items(items),
        _ => None,
    }
}

pub(crate) fn take_six_items(
    mut items: Vec<Value>,
) -> Option<(Value, Value, Value, Value, Value, Value)>
    ensures { option_map taken_six result ≡ six_items (items_view items.items) }
{
    if items.len() != 6 {
        return None;
    }
    let sixth = items.pop().unwrap();
    let fifth = items.pop().unwrap();
    let fourth = items.pop().unwrap();
    let third = items.pop().unwrap();
    let second = items.pop().unwrap();
    let first = items.pop().unwrap();
    Some((first, second, third, fourth, fifth, sixth))
}
