// What is answered, as JSON.
use presence_base::{Dot, Row, ref_text};
use serde_json::{Value, json};
use std::alloc::{AllocError, Global};

fn prev_value(alloc: Global, prev: &Option<Dot>) -> Result<Value, AllocError> {
    match prev {
        Some(dot) => {
            let text = ref_text(alloc, dot)?;
            Ok(Value::String(text))
        }
        None => Ok(Value::Null),
    }
}

fn row_value(alloc: Global, dot: &Dot, row: &Row) -> Result<Value, AllocError> {
    let reference = ref_text(alloc, dot)?;
    let key = row.key.as_str();
    let pid = row.pid;
    let meta = row.meta.to_value(alloc)?;
    let prev = prev_value(alloc, &row.prev)?;
    json!(in alloc; [reference, key, pid, meta, prev])
}

/// The rows, one array each, in their order.
pub(crate) fn rows_text(alloc: Global, rows: &[(Dot, Row)]) -> Result<String, AllocError> {
    let mut values = Vec::new(alloc);
    for row in rows {
        values.push(row_value(alloc, &row.0, &row.1)?)?;
    }
    Value::Array(values).to_string(alloc)
}

pub(crate) fn number_text(alloc: Global, number: usize) -> Result<String, AllocError> {
    format!(in alloc; "{number}")
}

pub(crate) fn yes_or_no(alloc: Global, yes: bool) -> Result<String, AllocError> {
    String::from_str(alloc, if yes { "true" } else { "false" })
}
