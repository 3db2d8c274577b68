// The record of a step is printed.

ghost use Rattle.std.specs.Prelude.{◌≡◌, ◌≢◌, ◌⊎◌, ◌≤◌, ◌<◌, ◌+◌, ◌^◌, ℕ, true, false, List, ◌++◌, ◌∷◌, ◌==◌, ◌||◌, nat_lt, flat_map, [], length, position, string_bytes, IfOk, IfSome, IsTrue, MatchOption};
ghost use Rattle.rdf_term.specs.{declared.triple.Triple.Triple, Text.triple_text};
ghost use Rattle.replica.specs.Head.{head_line};
ghost use Rattle.replica.specs.Record.{record_text};
ghost use Rattle.text_output.specs.Printing.{Prints, Puts, output};
ghost use Rattle.triple_store.specs.{declared.telling.Telling.Telling as TheTelling, Telling.is_changed};
ghost use Rattle.triple_store.specs.declared.telling.Telling.TheVariants.{Change as TheChange, Nothing as TellNothing};
ghost use Rattle.holders.specs.Changing.{Tells};
ghost use Rattle.parts_exchange.specs.Merging.{AreOrderedLines};
ghost use Rattle.lean_holdings.specs.Changing.{IsChangeOf};
ghost use Rattle.world.specs.Held.{TellsChange};
ghost use Rattle.patch_stream.specs.Stream.{TellsStep, change_text, is_change, merged_text, record_of_step, step};

use parts_exchange::{PartsChange, next_line};
use rdf_term::OutOfMemory;
use replica::Head;
use std::alloc::Global;
use text_output::{Unwritten, flush, write_all};
use triple_store::{Change, Told, TripleLines};
use world::StepChange;
use wq_io::Sink;

/// Prints the record of a step whose change is told, if it changed what is stored: a line `# patch NUMBER +ADDS -REMOVES`, the lines of the
/// triples that came, and those of the triples that are gone. Each line with its line feed is handed to the sink by itself, and the whole
/// record on to the outside. The arguments say how many records were written before; the answer says how many are written now. None is
/// written for a step that left the store alone. A change that is told in two parts gives the same record, and takes no memory for it.
///
/// # Errors
/// The output could not be written, or memory was refused: then a prefix of the record was written, and nothing else. If the next number
/// doesn't fit 64 bits, the answer is OutOfMemory, and nothing is written.
pub fn print_step<K: Sink>(
    alloc: Global,
    told: u64,
    change: StepChange,
    out: &mut K,
) -> Result<u64, Unwritten>
    ensures tells { (before after : List Triple) → TellsChange TheChange before after change → TellsStep told (step before after) (output K.Sink out.old) (output K.Sink out.new) result }
    ensures last { 2 ^ 64 ≤ told + 1 → output K.Sink out.new ≡ output K.Sink out.old }
    ensures later { K.faults out.old ≤ K.faults out.new }
    ensures most { K.most_faults out.new ≡ K.most_faults out.old }
{
    if !changes_something(&change) {
        return Ok(told);
    }
    let Some(number) = told.checked_add(1) else {
        return Err(Unwritten::OutOfMemory);
    };
    match print_record(alloc, number, &change, out) {
        Ok(()) => Ok(number),
        Err(why) => Err(why),
    }
}

/// Whether a step of which something is told changed what is stored.
pub fn changes_something(change: &StepChange) -> bool
    ensures { (telling : TheTelling) (before after : List Triple) → TellsChange telling before after change.now → telling ≢ TellNothing → result ≡ is_changed before after }
{
    match change {
        StepChange::Told(told) => told.is_change(),
        StepChange::Parts(parts) => {
            has_lines(&parts.own.came, &parts.stored.came)
                || has_lines(&parts.own.gone, &parts.stored.gone)
        }
    }
}

// Whether one of both has a line.
fn has_lines(first: &TripleLines, second: &TripleLines) -> bool
    ensures { result ≡ (nat_lt 0 first.now.count || nat_lt 0 second.now.count) }
{
    first.count > 0 || second.count > 0
}

// Prints the record with this number of a step that changed something.
fn print_record<K: Sink>(
    alloc: Global,
    number: u64,
    change: &StepChange,
    out: &mut K,
) -> Result<(), Unwritten>
    ensures prints { (before after : List Triple) → TellsChange TheChange before after change.now → is_change (step before after) ≡ true →
        Prints (record_text (record_of_step number (step before after))) (output K.Sink out.old) (output K.Sink out.new) result }
    ensures later { K.faults out.old ≤ K.faults out.new }
    ensures most { K.most_faults out.new ≡ K.most_faults out.old }
{
    match change {
        StepChange::Told(told) => print_told(alloc, number, told, out),
        StepChange::Parts(parts) => print_parts(alloc, number, parts, out),
    }
}

// The same of a step whose change is told as a whole.
fn print_told<K: Sink>(
    alloc: Global,
    number: u64,
    told: &Told,
    out: &mut K,
) -> Result<(), Unwritten>
    ensures prints { (before after : List Triple) → Tells TheChange before after told.now → is_change (step before after) ≡ true →
        Prints (record_text (record_of_step number (step before after))) (output K.Sink out.old) (output K.Sink out.new) result }
    ensures later { K.faults out.old ≤ K.faults out.new }
    ensures most { K.most_faults out.new ≡ K.most_faults out.old }
{
    match told {
        Told::Change(change) => print_change(alloc, number, change, out),
        Told::Whether(_) => Ok(()),
        Told::Nothing => Ok(()),
    }
}

// Prints the record with this number that tells the change, and hands it on to the outside.
fn print_change<K: Sink>(
    alloc: Global,
    number: u64,
    change: &Change,
    out: &mut K,
) -> Result<(), Unwritten>
    ensures { Prints (change_text number change.now) (output K.Sink out.old) (output K.Sink out.new) result }
{
    let head = Head {
        number,
        adds: change.came.count as u64,
        removes: change.gone.count as u64,
    };
    print_head(alloc, &head, out)?;
    print_text(change.came.text.as_slice(), out)?;
    print_text(change.gone.text.as_slice(), out)?;
    flush(true, out)
}

// Prints the record with this number that tells the change of both parts, and hands it on to the outside.
fn print_parts<K: Sink>(
    alloc: Global,
    number: u64,
    change: &PartsChange,
    out: &mut K,
) -> Result<(), Unwritten>
    ensures prints { (before after : List Triple) → IsChangeOf before after change.now →
        Prints (record_text (record_of_step number (step before after))) (output K.Sink out.old) (output K.Sink out.new) result }
    ensures later { K.faults out.old ≤ K.faults out.new }
    ensures most { K.most_faults out.new ≡ K.most_faults out.old }
{
    let Some(head) = head_of(number, change) else {
        return Err(Unwritten::OutOfMemory);
    };
    print_head(alloc, &head, out)?;
    print_merged(
        change.own.came.text.as_slice(),
        change.stored.came.text.as_slice(),
        out,
    )?;
    print_merged(
        change.own.gone.text.as_slice(),
        change.stored.gone.text.as_slice(),
        out,
    )?;
    flush(true, out)
}

// What the first line of the record says; none where the lines of both parts are more than a number counts.
fn head_of(number: u64, change: &PartsChange) -> Option<Head>
    ensures number { IfSome result (λ head. head.number ≡ number) }
    ensures adds { IfSome result (λ head. head.adds ≡ change.now.own.came.count + change.now.stored.came.count) }
    ensures removes { IfSome result (λ head. head.removes ≡ change.now.own.gone.count + change.now.stored.gone.count) }
{
    let adds = change.own.came.count.checked_add(change.stored.came.count)?;
    let removes = change.own.gone.count.checked_add(change.stored.gone.count)?;
    Some(Head {
        number,
        adds: adds as u64,
        removes: removes as u64,
    })
}

// Writes the first line of a record.
fn print_head<K: Sink>(alloc: Global, head: &Head, out: &mut K) -> Result<(), Unwritten>
    ensures { Puts (head_line head.now ++ 10 ∷ []) (output K.Sink out.old) (output K.Sink out.new) result }
{
    let line = head_line(alloc, head)?;
    write_all(line.as_bytes(), out)
}

// The first line of a record, its line feed included.
fn head_line(alloc: Global, head: &Head) -> Result<String, OutOfMemory>
    ensures { IfOk result (λ line. string_bytes line ≡ head_line head.now ++ 10 ∷ []) }
{
    let line = head.line(alloc)?;
    Ok(format!(in alloc; "{line}\n")?)
}

// Writes a text, line by line.
fn print_text<K: Sink>(text: &[u8], out: &mut K) -> Result<(), Unwritten>
    ensures { Puts text.now (output K.Sink out.old) (output K.Sink out.new) result }
{
    let mut rest = text;
    while !rest.is_empty() {
        let (line, after) = rest.split_at(line_end(rest));
        write_all(line, out)?;
        rest = after;
    }
    Ok(())
}

// Writes the lines of two texts, each in order, merged.
fn print_merged<K: Sink>(first: &[u8], second: &[u8], out: &mut K) -> Result<(), Unwritten>
    ensures merged { (some others : List Triple) → first.now ≡ flat_map triple_text some → second.now ≡ flat_map triple_text others →
        AreOrderedLines some → AreOrderedLines others → Puts (merged_text some others) (output K.Sink out.old) (output K.Sink out.new) result }
    ensures written { (text : List ℕ) × Puts text (output K.Sink out.old) (output K.Sink out.new) result }
{
    let mut left = first;
    let mut right = second;
    while are_both(left, right) {
        let next = next_line(left, right);
        write_all(next.line, out)?;
        left = next.left;
        right = next.right;
    }
    print_both(left, right, out)
}

// Whether neither text is empty.
fn are_both(left: &[u8], right: &[u8]) -> bool
    ensures both { IsTrue result → 0 < length left.now + length right.now }
    ensures either { result ≡ false → (length left.now ≡ 0) ⊎ (length right.now ≡ 0) }
{
    !left.is_empty() && !right.is_empty()
}

// Writes one text and then the other.
fn print_both<K: Sink>(left: &[u8], right: &[u8], out: &mut K) -> Result<(), Unwritten>
    ensures { Puts (left.now ++ right.now) (output K.Sink out.old) (output K.Sink out.new) result }
{
    write_all(left, out)?;
    write_all(right, out)
}

// Where the first line of a text ends, its line feed included; that of a text without a line feed ends where the text does.
fn line_end(text: &[u8]) -> usize
    requires { 0 < length text.now }
    ensures first { MatchOption (position (λ b. b == 10) text.now) (result ≡ length text.now) (λ index. result ≡ index + 1) }
    ensures some { 0 < result }
    ensures within { result ≤ length text.now }
{
    match line_feed(text) {
        Some(index) => index + 1,
        None => text.len(),
    }
}

// The place of the first line feed.
fn line_feed(text: &[u8]) -> Option<usize>
    ensures { result ≡ position (λ b. b == 10) text.now }
{
    text.iter().position(|byte| *byte == b'\n')
}
