// Lines of a snapshot as they stand in a file, and lines that are none.

use crate::tester::{Subject, Tester, write_text};
use snapshot::{Line, read, write};
use std::alloc::Global;

// One line of each kind, with the greatest and the least numbers, a word for each cause and mode, a page with a line feed, and one that
// stands as it is behind a TAB, for which `~` stands here.
const LINES: &str =
    r#"{"asks":0,"horizon":null,"lines":0,"mapping":1,"mark":null,"matches":0,"patches":18446744073709551615,"snapshot":3}
{"asks":3,"horizon":18446744073709551615,"lines":9,"mapping":2,"mark":-9223372036854775808,"matches":5,"patches":7,"snapshot":3}
{"entity":"Q42","kind":"edit","micros":9223372036854775807,"rev":18446744073709551615}
{"entity":"P1","kind":"delete","micros":-5,"rev":1}
{"entity":"P1","kind":"undelete","micros":0,"rev":1}
{"entry":"late","event":{"entity":"Q1","kind":"reconcile-kept","micros":5,"rev":2}}
{"entry":"missing","event":{"entity":"Q1","kind":"reconcile-deleted","micros":5,"rev":2},"rev":3}
{"entry":"failed","event":{"entity":"Q1","kind":"edit","micros":5,"rev":3},"rev":3}
{"entry":"unfit-large","event":{"entity":"Q1","kind":"edit","micros":5,"rev":3},"rev":3}
{"entry":"unfit-deep","event":{"entity":"Q1","kind":"edit","micros":5,"rev":3},"rev":3}
{"entry":"unfit-notjson","event":{"entity":"Q1","kind":"edit","micros":5,"rev":3},"rev":3}
{"entry":"unfit-shape","event":{"entity":"Q1","kind":"edit","micros":5,"rev":3},"rev":3}
{"entry":"unfit-foreign","event":{"entity":"Q1","kind":"edit","micros":5,"rev":3},"rev":3}
{"entity":"P31","held":{"page":"{\"id\":\"P31\"}\n","rev":7},"reconciled":{"entity":"P31","kind":"reconcile-kept","micros":5,"rev":7},"rev":7,"state":"kept"}
{"entity":"P32","held":{"rev":7},"reconciled":null,"rev":7,"state":"kept",~"page":{"id":"P32",~"page":"}"}}
{"entity":"Q7","held":null,"reconciled":null,"rev":9,"state":"deleted"}
{"entity":"Q8","held":null,"reconciled":null,"rev":0,"state":"unknown"}
{"end":17}"#;

// Heads of the formats before, and the head that is written of each: no line was counted.
const OLDER: &str =
    r#"{"asks":1,"horizon":null,"mapping":1,"mark":null,"matches":2,"patches":3,"snapshot":1} => {"asks":1,"horizon":null,"lines":0,"mapping":1,"mark":null,"matches":2,"patches":3,"snapshot":3}
{"asks":1,"horizon":null,"lines":9,"mapping":1,"mark":null,"matches":2,"patches":3,"snapshot":2} => {"asks":1,"horizon":null,"lines":0,"mapping":1,"mark":null,"matches":2,"patches":3,"snapshot":3}"#;

// A float, two kinds of line at once, a line that was cut off, another format, no number of lines, a version that isn't there, no number of
// matches, an id that is none, a number with a minus, a state without its page, no object, and pages behind what isn't a record that holds
// one.
const OTHERS: &str = r#"{"end":4.0} => no line
{"end":4,"kind":null} => no line
{"end":4 => no line
{"asks":0,"horizon":null,"lines":0,"mapping":1,"mark":null,"matches":0,"patches":0,"snapshot":4} => no line
{"asks":0,"horizon":null,"mapping":1,"mark":null,"matches":0,"patches":0,"snapshot":3} => no line
{"asks":0,"horizon":null,"mapping":3,"mark":null,"matches":0,"patches":0,"snapshot":1} => no line
{"horizon":null,"mapping":1,"mark":null,"matches":0,"patches":0,"snapshot":1} => no line
{"entity":"Q042","kind":"edit","micros":5,"rev":1} => no line
{"entity":"Q42","kind":"edit","micros":5,"rev":-1} => no line
{"entity":"Q42","reconciled":null,"rev":7,"state":"kept"} => no line
4 => no line
{"end":4,~"page":{}} => no line
{"entity":"Q42","held":null,"reconciled":null,"rev":7,"state":"kept",~"page":{}} => no line
{"entity":"Q42","held":{"page":"{}","rev":7},"reconciled":null,"rev":7,"state":"kept",~"page":{}} => no line"#;

#[derive(Drop)]
struct Lines;

impl Subject for Lines {
    // Writes again the line that a text is read as.
    fn answer(&mut self, alloc: Global, given: &str, found: &mut Vec<u8>) -> Option<()> {
        let text = given.replace(alloc, '~', "\t").ok()?;
        let line = read(alloc, text.as_str());
        drop(text);
        match line.ok()? {
            Some(line) => write_line(alloc, line, found),
            None => write_text("no line", found),
        }
    }
}

// Writes a line.
fn write_line(alloc: Global, line: Line, found: &mut Vec<u8>) -> Option<()> {
    let text = write(alloc, &line);
    drop(line);
    let text = text.ok()?;
    let shown = text.replace(alloc, '\t', "~");
    drop(text);
    write_text(shown.ok()?.as_str(), found)
}

pub(crate) fn try_snapshots(tester: &mut Tester<'_>) {
    tester.try_rows(
        "each line of a snapshot is written as it was read",
        LINES,
        &mut Lines,
    );
    tester.try_rows(
        "a head of an older format counts no lines",
        OLDER,
        &mut Lines,
    );
    tester.try_rows("other texts are no line of a snapshot", OTHERS, &mut Lines);
}
