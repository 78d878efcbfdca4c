//! Readers of fields, by kind: what stands at a name of a table, or the fault of the field.
ghost use Rattle.std.specs.Prelude.{◌≡◌, ◌≤◌, ◌<◌, ◌%◌, ◌^◌, ◌↔◌, [], ◌∷◌, length, IfOk, IsTrue, Some, is_some, string_bytes};
ghost use Rattle.std.specs.List.{list_all, list_any};
ghost use Rattle.std.specs.Str.{bytes_eq};
ghost use Rattle.std.specs.BTreeMap.{keys};
ghost use Rattle.toml.specs.View.{table_view, items_view, view};
ghost use Rattle.toml.specs.Data.{get_member, as_integer};
ghost use Rattle.xif_job.specs.Outcome.{ReadsAs, where_absent};
ghost use Rattle.xif_job.specs.Readers.{◌to◌, IsIn, HasDefaultIn, is_in, demand as demanded, integer_in, number_in, word_in, optional_in, port_width_in, flag_in, text_in, any_text_in, choice_in, meaning, numbers_in, integers_in, list_in, are_integers as all_integers, count, each, array_in, are_known, table_in};
ghost use Rattle.xif_job.specs.Tables.{members, data_of, texts_of, words_of};

use crate::{Field, JobFault};
use std::alloc::Global;
use toml::{Table, Value};
use xif_base::Name;
use xif_drive::Delays;

/// What a field is where nothing stands at its name.
#[derive(Debug, Drop)]
pub(crate) enum Absent<T> {
    /// It has this value.
    Default(T),
    /// It is missing: the file must have it.
    Missing,
}

/// The integers from `low` to `high`.
#[derive(Clone, Copy, Debug, PartialEq, Eq)]
pub(crate) struct Range {
    pub low: u64,
    pub high: u64,
}

/// The delays that a list may have.
const DELAYS: Range = Range {
    low: 0,
    high: 65_535,
};

impl<T: Drop> Absent<T> {
    fn value(self, field: Field) -> Result<T, JobFault>
        ensures { result ≡ where_absent field self }
    {
        match self {
            Absent::Default(value) => Ok(value),
            Absent::Missing => Err(JobFault::MissingField(field)),
        }
    }
}

impl Range {
    fn contains(self, number: u64) -> bool
        ensures { result ≡ is_in self number }
    {
        self.low <= number && number <= self.high
    }
}

/// What a table has at a name. A table that is absent has nothing.
pub(crate) fn find<'a>(table: Option<&'a Table>, name: &str) -> Option<&'a Value>
    ensures { data_of result ≡ get_member name.now (members table.entry) }
{
    match table {
        None => None,
        Some(table) => found(table, name),
    }
}

fn found<'a>(table: &'a Table, name: &str) -> Option<&'a Value>
    ensures { data_of result ≡ get_member name.now (table_view table.now) }
{
    table.get(name)
}

/// Requires a test of a value, which is out of its field's range where the test fails.
pub(crate) fn demand(field: Field, test: bool) -> Result<(), JobFault>
    ensures { result ≡ demanded field test }
{
    if test {
        Ok(())
    } else {
        Err(JobFault::OutOfRange(field))
    }
}

/// An integer in a range.
pub(crate) fn integer(field: Field, range: Range, value: &Value) -> Result<u64, JobFault>
    ensures value { result ≡ integer_in field range (view value.now) }
    ensures within { IfOk result (λ n. IsIn range n) }
{
    let Some(number) = value.as_integer() else {
        return Err(JobFault::WrongKind(field));
    };
    if number >= 0 && range.contains(number as u64) {
        Ok(number as u64)
    } else {
        Err(JobFault::OutOfRange(field))
    }
}

/// An integer in a range, or what the field is where it is absent.
pub(crate) fn number(
    field: Field,
    range: Range,
    absent: Absent<u64>,
    value: Option<&Value>,
) -> Result<u64, JobFault>
    requires { HasDefaultIn range absent }
    ensures value { result ≡ number_in field range absent (data_of value.entry) }
    ensures within { IfOk result (λ n. IsIn range n) }
{
    match value {
        None => absent.value(field),
        Some(value) => integer(field, range, value),
    }
}

/// The same, of at most 32 bits.
pub(crate) fn number_u32(
    field: Field,
    range: Range,
    absent: Absent<u64>,
    value: Option<&Value>,
) -> Result<u32, JobFault>
    requires default { HasDefaultIn range absent }
    requires bits { range.high < 2 ^ 32 }
    ensures value { result ≡ number_in field range absent (data_of value.entry) }
    ensures within { IfOk result (λ n. IsIn range n) }
{
    Ok(number(field, range, absent, value)? as u32)
}

/// The same, of at most 8 bits.
pub(crate) fn number_u8(
    field: Field,
    range: Range,
    absent: Absent<u64>,
    value: Option<&Value>,
) -> Result<u8, JobFault>
    requires default { HasDefaultIn range absent }
    requires bits { range.high < 2 ^ 8 }
    ensures value { result ≡ number_in field range absent (data_of value.entry) }
    ensures within { IfOk result (λ n. IsIn range n) }
{
    Ok(number(field, range, absent, value)? as u8)
}

/// An integer of at most 32 bits that is a multiple of 4.
pub(crate) fn word(
    field: Field,
    range: Range,
    absent: Absent<u64>,
    value: Option<&Value>,
) -> Result<u32, JobFault>
    requires default { HasDefaultIn range absent }
    requires bits { range.high < 2 ^ 32 }
    ensures value { result ≡ word_in field range absent (data_of value.entry) }
    ensures within { IfOk result (λ n. IsIn range n) }
    ensures aligned { IfOk result (λ n. n % 4 ≡ 0) }
{
    let word = number_u32(field, range, absent, value)?;
    demand(field, word % 4 == 0)?;
    Ok(word)
}

/// An integer of at most 32 bits, or none where the field is absent.
pub(crate) fn optional(
    field: Field,
    range: Range,
    value: Option<&Value>,
) -> Result<Option<u32>, JobFault>
    requires { range.high < 2 ^ 32 }
    ensures { result ≡ optional_in field range (data_of value.entry) }
{
    let Some(value) = value else {
        return Ok(None);
    };
    let number = integer(field, range, value)?;
    Ok(Some(number as u32))
}

/// The bits of a port, 32 or 64.
pub(crate) fn port_width(
    field: Field,
    absent: Absent<u64>,
    value: Option<&Value>,
) -> Result<u8, JobFault>
    requires { HasDefaultIn (32 to 64) absent }
    ensures { result ≡ port_width_in field absent (data_of value.entry) }
{
    let width = number_u8(field, Range { low: 32, high: 64 }, absent, value)?;
    demand(field, width == 32 || width == 64)?;
    Ok(width)
}

/// A flag, which is 0 or 1 in the file.
pub(crate) fn flag(
    field: Field,
    absent: Absent<u64>,
    value: Option<&Value>,
) -> Result<bool, JobFault>
    requires { HasDefaultIn (0 to 1) absent }
    ensures { result ≡ flag_in field absent (data_of value.entry) }
{
    Ok(number(field, Range { low: 0, high: 1 }, absent, value)? == 1)
}

/// A text that isn't empty and must be there.
pub(crate) fn text(alloc: Global, field: Field, value: Option<&Value>) -> Result<Name, JobFault>
    ensures { ReadsAs (λ n. n) result (text_in field Absent.Missing (data_of value.entry)) }
{
    let Some(value) = value else {
        return Err(JobFault::MissingField(field));
    };
    Ok(Name::of(alloc, text_of(field, value)?)?)
}

/// A text that isn't empty, or another one where the field is absent.
pub(crate) fn text_or(
    alloc: Global,
    field: Field,
    default: &str,
    value: Option<&Value>,
) -> Result<Name, JobFault>
    ensures { ReadsAs (λ n. n) result
        (text_in field (Absent.Default default.now) (data_of value.entry)) }
{
    let Some(value) = value else {
        return Ok(Name::of(alloc, default)?);
    };
    Ok(Name::of(alloc, text_of(field, value)?)?)
}

fn text_of<'a>(field: Field, value: &'a Value) -> Result<&'a str, JobFault>
    ensures { ReadsAs (λ t. t.now) result (text_in field Absent.Missing (Some (view value.now))) }
{
    let Some(text) = value.as_str() else {
        return Err(JobFault::WrongKind(field));
    };
    demand(field, !text.is_empty())?;
    Ok(text)
}

/// A text that must be there, and may be empty.
pub(crate) fn any_text(alloc: Global, field: Field, value: Option<&Value>) -> Result<Name, JobFault>
    ensures { ReadsAs (λ n. n) result (any_text_in field (data_of value.entry)) }
{
    let Some(value) = value else {
        return Err(JobFault::MissingField(field));
    };
    let Some(text) = value.as_str() else {
        return Err(JobFault::WrongKind(field));
    };
    Ok(Name::of(alloc, text)?)
}

/// A text that is one of some words, each with its meaning.
pub(crate) fn choice<T: Copy + Drop>(
    field: Field,
    words: &[(&str, T)],
    absent: Absent<T>,
    value: Option<&Value>,
) -> Result<T, JobFault>
    ensures { result ≡ choice_in field (words_of words.now) absent (data_of value.entry) }
{
    let Some(value) = value else {
        return absent.value(field);
    };
    let Some(text) = value.as_str() else {
        return Err(JobFault::WrongKind(field));
    };
    meaning_of(words, text).ok_or(JobFault::OutOfRange(field))
}

fn meaning_of<T: Copy + Drop>(words: &[(&str, T)], text: &str) -> Option<T>
    ensures { result ≡ meaning (words_of words.now) text.now }
{
    for word in words {
        if word.0 == text {
            return Some(word.1);
        }
    }
    None
}

/// An array with so many integers in a range, of at most 32 bits each. An absent one is a single 0.
pub(crate) fn numbers(
    alloc: Global,
    field: Field,
    counts: Range,
    range: Range,
    value: Option<&Value>,
) -> Result<Vec<u32>, JobFault>
    requires default { IsIn counts 1 }
    requires bits { range.high < 2 ^ 32 }
    ensures value { ReadsAs (λ v. v.items) result
        (numbers_in field counts range (Absent.Default (0 ∷ [])) (data_of value.entry)) }
    ensures many { IfOk result (λ v. IsIn counts (length v.items)) }
{
    let Some(value) = value else {
        return Ok(vec![in alloc; 0]?);
    };
    let Some(array) = value.as_array() else {
        return Err(JobFault::WrongKind(field));
    };
    integers(alloc, field, counts, range, array)
}

fn integers(
    alloc: Global,
    field: Field,
    counts: Range,
    range: Range,
    values: &[Value],
) -> Result<Vec<u32>, JobFault>
    requires { range.high < 2 ^ 32 }
    ensures value { ReadsAs (λ v. v.items) result
        (integers_in field counts range (items_view values.now)) }
    ensures many { IfOk result (λ v. IsIn counts (length v.items)) }
{
    if !are_integers(values) {
        return Err(JobFault::WrongKind(field));
    }
    demand(field, has_length(values, counts))?;
    each_integer(alloc, field, range, values)
}

fn has_length(values: &[Value], counts: Range) -> bool
    ensures value { result ≡ is_in counts (count (items_view values.now)) }
    ensures length { IsTrue result ↔ IsIn counts (length values.now) }
{
    counts.contains(values.len() as u64)
}

fn are_integers(values: &[Value]) -> bool
    ensures { result ≡ all_integers (items_view values.now) }
{
    have_integers(values)
}

fn have_integers(values: &[Value]) -> bool
    ensures { result ≡ list_all (λ v. is_some (as_integer (view v))) values.now }
{
    values.iter().all(|value| value.is_integer())
}

fn each_integer(
    alloc: Global,
    field: Field,
    range: Range,
    values: &[Value],
) -> Result<Vec<u32>, JobFault>
    requires { range.high < 2 ^ 32 }
    ensures value { ReadsAs (λ v. v.items) result
        (each (integer_in field range) (items_view values.now)) }
    ensures all { IfOk result (λ v. length v.items ≡ length values.now) }
{
    let mut numbers = Vec::new(alloc);
    for value in values {
        numbers.push(integer(field, range, value)? as u32)?;
    }
    Ok(numbers)
}

/// An array of any number of delays, in cycles. An absent one is a single 0.
pub(crate) fn delays(alloc: Global, field: Field, value: Option<&Value>) -> Result<Delays, JobFault>
    ensures { ReadsAs (λ d. d) result
        (list_in field (0 to 65535) (Absent.Default (0 ∷ [])) (data_of value.entry)) }
{
    let Some(value) = value else {
        return Ok(Delays::from_slice(alloc, &[0])?);
    };
    let Some(array) = value.as_array() else {
        return Err(JobFault::WrongKind(field));
    };
    if are_integers(array) {
        each_delay(alloc, field, array)
    } else {
        Err(JobFault::WrongKind(field))
    }
}

fn each_delay(alloc: Global, field: Field, values: &[Value]) -> Result<Delays, JobFault>
    ensures { ReadsAs (λ d. d) result
        (each (integer_in field (0 to 65535)) (items_view values.now)) }
{
    let mut delays = Delays::new(alloc);
    for value in values {
        delays.push(integer(field, DELAYS, value)? as u16)?;
    }
    Ok(delays)
}

/// The items of an array: none where it is absent.
pub(crate) fn array<'a>(field: Field, value: Option<&'a Value>) -> Result<&'a [Value], JobFault>
    ensures { ReadsAs (λ a. items_view a.now) result (array_in field (data_of value.entry)) }
{
    let Some(value) = value else {
        return Ok(&[]);
    };
    let Some(array) = value.as_array() else {
        return Err(JobFault::WrongKind(field));
    };
    Ok(array)
}

/// A table with no other names than these. Another kind of value is reported at `field`.
pub(crate) fn table<'a>(
    field: Field,
    names: &[&str],
    value: Option<&'a Value>,
) -> Result<Option<&'a Table>, JobFault>
    ensures { ReadsAs members result (table_in field (texts_of names.now) (data_of value.entry)) }
{
    let Some(value) = value else {
        return Ok(None);
    };
    let Some(table) = value.as_table() else {
        return Err(JobFault::WrongKind(field));
    };
    if has_only(table, names) {
        Ok(Some(table))
    } else {
        Err(JobFault::UnknownField)
    }
}

/// Each name in a table is one of these.
pub(crate) fn has_only(table: &Table, names: &[&str]) -> bool
    ensures { result ≡ are_known (texts_of names.now) (table_view table.now) }
{
    has_keys_among(table, names)
}

fn has_keys_among(table: &Table, names: &[&str]) -> bool
    ensures { result ≡
        list_all (λ k. list_any (λ n. bytes_eq n.now (string_bytes k)) names.now) (keys table.now) }
{
    table.keys().all(|key| is_among(key.as_str(), names))
}

/// A name is one of these.
fn is_among(name: &str, names: &[&str]) -> bool
    ensures { result ≡ list_any (λ n. bytes_eq n.now name.now) names.now }
{
    names.iter().any(|known| *known == name)
}
