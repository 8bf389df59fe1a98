//! What the questions about the JSON form are given, and how errors are answered.

use super::parts::PartFault;
use rangemap::{Form, ReadError, WriteError};
use rows_text::{Fault, Question, first_word};
use serde_json::Value;
use std::alloc::Global;

/// The form that a question names, and the value behind it.
pub fn form_and_value(alloc: Global, question: &Question<'_>) -> Result<(Form, Value), Fault> {
    let (form, text) = first_word(question.operand);
    let form = match form {
        "any" => Form::Any,
        "canonical" => Form::Canonical,
        _ => return Err(Fault::NoOperand),
    };
    match Value::from_str(alloc, text) {
        Ok(value) => Ok((form, value)),
        Err(_) => Err(Fault::NoOperand),
    }
}

/// Appends the text of what was written, or of why nothing was.
pub fn write_written(
    written: Result<Value, WriteError<PartFault>>,
    out: &mut String,
) -> Result<(), Fault> {
    match written {
        Ok(value) => write_value(&value, out),
        Err(error) => Ok(write!(out, "{error:?}")?),
    }
}

/// Appends the text of a value.
pub fn write_value(value: &Value, out: &mut String) -> Result<(), Fault> {
    let text = value.to_string(*out.allocator())?;
    Ok(out.push_str(text.as_str())?)
}

/// Appends why nothing was read, unless it is that memory was refused.
pub fn write_unread(error: ReadError<PartFault>, out: &mut String) -> Result<(), Fault> {
    match error {
        ReadError::OutOfMemory => Err(Fault::Refused),
        _ => Ok(write!(out, "{error:?}")?),
    }
}

/// Why what was written was not read again.
pub fn fault_of(error: WriteError<PartFault>) -> Fault {
    match error {
        WriteError::OutOfMemory => Fault::Refused,
        WriteError::Caller(_) => Fault::Differs,
    }
}
