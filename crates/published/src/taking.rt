// A published text taken in: two passes over it, the first for the labels, the second for the lines.
ghost use Rattle.std.specs.Prelude.{◌≡◌, cond, not, ◌&&◌, ◌+◌, ◌*◌, ◌%◌, ◌≤◌, ◌<◌, ltb, eqb, length};
ghost use Rattle.model.specs.Answers.{number_or_0};
ghost use Rattle.model.specs.Limits.{line_width, max_accepted};
ghost use Rattle.published.specs.Published.{bit};
ghost use Rattle.published.specs.Passes.{target_number, meaning, NamedAt, Collected, fault_by, kept_of, Kept, Converts};

use crate::instructions::{Instruction, parse};
use crate::labels::Labels;
use crate::lines::{body, label_size, line_at};
use crate::parts::part;
use model::{Condition, MAX_ACCEPTED, Refusal};
use text::{Stored, keep_at};

// Keeps the label of w bytes that a line begins with, if it has one.
fn named(labels: &mut Labels, start: usize, w: usize, n: usize)
    ensures text { labels.new.text.now ≡ labels.old.text.now }
    ensures named { NamedAt labels.old.text.now labels.old.table labels.new.heads labels.new.table start labels.old.count labels.new.count w n }
{
    if 0 < w {
        labels.add(start, w - 1, n);
    }
}

// 1 for a line with an instruction, else 0.
fn counts(body: &[u8]) -> usize
    ensures { (result ≡ bit (ltb 0 (length body.now))) × (result ≤ 1) }
{
    usize::from(0 < body.len())
}

// How many lines stand before the first wrong label, after line i.
fn clean_after(clean: usize, i: usize, wrong: bool) -> usize
    requires { i < 18446744073709551615 }
    ensures { result ≡ cond (eqb clean i && not wrong) (i + 1) clean }
{
    if clean == i && !wrong { i + 1 } else { clean }
}

// The first pass: keeps every label within the limits, and finds how many lines stand before the first label that is double or beyond them.
pub(crate) fn collect(labels: &mut Labels) -> usize
    requires { labels.old.count ≡ 0 }
    ensures text { labels.new.text.now ≡ labels.old.text.now }
    ensures collected { Collected labels.old.text.now labels.new.heads labels.new.table labels.new.count result }
{
    let text = labels.text;
    let mut at: usize = 0;
    let mut i: usize = 0;
    let mut n: usize = 0;
    let mut clean: usize = 0;
    while at < text.len() {
        let l = line_at(text, at);
        let s = part(text, l.start, l.size);
        let w = label_size(s);
        let m = labels.count;
        named(labels, l.start, w, n);
        n += counts(body(s, w));
        clean = clean_after(clean, i, 0 < w && labels.count == m);
        i += 1;
        at = l.next;
    }
    clean
}

// The condition that a line breaks, where its instruction breaks this one. 24 goes before 25.
fn line_fault(
    wrong: bool,
    counts: bool,
    broken: Option<Condition>,
    n: usize,
    ended: bool,
) -> Option<Condition>
    ensures { number_or_0 result ≡ fault_by wrong counts (number_or_0 broken) n ended }
{
    if wrong || (counts && broken == Some(Condition::WrongLabel)) {
        return Some(Condition::WrongLabel);
    }
    if !ended || (counts && (MAX_ACCEPTED <= n || broken == Some(Condition::NoCounterpart))) {
        return Some(Condition::NoCounterpart);
    }
    None
}

// The stored number of a target, 16 bits of it: there are more only in a text that is refused.
fn target_number(target: Option<usize>) -> u16
    ensures { result ≡ target_number target % 65536 }
{
    match target {
        Some(line) => ((line % 65536 + 1) % 65536) as u16,
        None => 0,
    }
}

// Stores an instruction that was read as line n; how many lines there are then.
fn keep(store: &mut [u16], n: usize, r: Result<Instruction, Condition>) -> usize
    requires { line_width * n + length (kept_of (meaning r)) ≤ length store.old }
    ensures { Kept store.old store.new n result (kept_of (meaning r)) }
{
    let Ok(l) = r else {
        return n;
    };
    keep_at(
        store,
        n,
        Stored {
            mark: l.mark,
            opcode: l.opcode,
            destination: l.destination,
            first: l.first,
            second: l.second,
            target: target_number(l.target),
        },
    );
    n + 1
}

// The second pass: the lowest text line that breaks a condition, with all labels known; else the counted lines stored, and their count.
pub(crate) fn convert(
    labels: &Labels,
    clean: usize,
    store: &mut [u16],
) -> Result<usize, Refusal<usize>>
    requires { Collected labels.now.text.now labels.now.heads labels.now.table labels.now.count clean × (line_width * max_accepted ≤ length store.old) }
    ensures { Converts labels.now.text.now store.old store.new result }
{
    let text = labels.text;
    let mut at: usize = 0;
    let mut i: usize = 0;
    let mut n: usize = 0;
    while at < text.len() {
        let l = line_at(text, at);
        let s = part(text, l.start, l.size);
        let b = body(s, label_size(s));
        let r = parse(labels, b);
        if let Some(condition) = line_fault(i == clean, 0 < b.len(), r.err(), n, l.ended) {
            return Err(Refusal { condition, line: i });
        }
        n = keep(store, n, r);
        at = l.next;
        i += 1;
    }
    Ok(n)
}
