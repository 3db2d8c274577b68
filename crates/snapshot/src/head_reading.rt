// Which head a JSON value is.

ghost use Rattle.std.specs.Prelude.{◌≡◌, codes};
ghost use Rattle.serde_json.specs.View.{view};
ghost use Rattle.snapshot.specs.LineReading.{nat_in, int_in, if_there, or_null, at_key, format_in, lines_taken_in, counts_in, head_in};

use crate::counts::Counts;
use crate::line::Head;
use crate::reading::{number_at, or_null};
use crate::words::version_numbered;
use serde_json::Value;

// The head that an object says, with the number of its format.
pub(crate) fn head(object: &Value, format: &Value) -> Option<Head>
    ensures { result ≡ head_in (view object.now) (view format.now) }
{
    let format = format_number(format)?;
    let mark = mark(object)?;
    let horizon = horizon(object)?;
    let mapping = version_numbered(number_at(object, "mapping")?)?;
    let counts = counts(object, format)?;
    Some(Head {
        mark,
        horizon,
        mapping,
        counts,
    })
}

// The number of a format that is read.
fn format_number(value: &Value) -> Option<u64>
    ensures { result ≡ format_in (view value.now) }
{
    let number = value.as_u64()?;
    if matches!(number, 1 | 2 | 3) {
        Some(number)
    } else {
        None
    }
}

// The mark, or none where it is null.
fn mark(object: &Value) -> Option<Option<i64>>
    ensures { result ≡ at_key (if_there int_in) (codes "mark") (view object.now) }
{
    let value = object.get("mark")?;
    or_null(value, value.as_i64())
}

// The horizon, or none where it is null.
fn horizon(object: &Value) -> Option<Option<u64>>
    ensures { result ≡ at_key (if_there nat_in) (codes "horizon") (view object.now) }
{
    let value = object.get("horizon")?;
    or_null(value, value.as_u64())
}

// The counts of a head in a file of this format.
fn counts(object: &Value, format: u64) -> Option<Counts>
    ensures { result ≡ counts_in (view object.now) format }
{
    let asks = number_at(object, "asks")?;
    let matches = number_at(object, "matches")?;
    let patches = number_at(object, "patches")?;
    let lines = lines_taken(object, format)?;
    Some(Counts {
        asks,
        matches,
        patches,
        lines,
    })
}

// How many lines were taken; files of the formats before the third don't say it.
fn lines_taken(object: &Value, format: u64) -> Option<u64>
    ensures { result ≡ lines_taken_in (view object.now) format }
{
    if format == 3 {
        number_at(object, "lines")
    } else {
        Some(0)
    }
}
