// A text byte by byte: where its words and lines end.
ghost use Rattle.std.specs.Prelude.{◌≡◌, ◌+◌, ◌<◌, ◌≤◌, List, ℕ, get_or, length};
ghost use Rattle.drafting.specs.Held.{in_comment, scanned, Begun, Between, Drafts, Letters, Scans};
ghost use Rattle.drafting.specs.Scan.{no_scan, word_ended, line_ended, is_blank, step};

use crate::{Draft, Expected, Scan, Within};

// Before the first byte.
pub(crate) fn fresh() -> Scan
    ensures { (text : List ℕ) → (scanned text 0 result ≡ no_scan) × Begun 0 result.within }
{
    Scan {
        line: 1,
        within: Within::Blank,
        draft: Draft::default(),
    }
}

// What was said when a word ends at place i.
#[tactic(auto, using(crate::proofs::Letters::some_word), unfolding(crate::specs::Scan::word_ended, crate::specs::Scan::empty))]
fn word_ended(text: &[u8], s: Scan, i: usize) -> Result<Draft, Expected>
    requires { (i ≤ length text.now) × Begun i s.within }
    ensures { Drafts result (word_ended (scanned text.now i s)) }
{
    match s.within {
        Within::Word(start) => s.draft.took(&text[start..i]),
        Within::Blank | Within::Comment => Ok(s.draft),
    }
}

// What was said when the line ends at place i.
#[tactic(auto, unfolding(crate::specs::Scan::line_ended))]
pub(crate) fn line_ended(text: &[u8], s: Scan, i: usize) -> Result<Draft, Expected>
    requires { (i ≤ length text.now) × Begun i s.within }
    ensures { Drafts result (line_ended (scanned text.now i s)) }
{
    word_ended(text, s, i)?.ended()
}

// Between words of a line; a newline ends the line. A case of the probe has no lines, so what is blank there is another set.
fn is_blank(b: u8) -> bool
    ensures { result ≡ is_blank b }
{
    matches!(b, b' ' | b'\t' | b'\r')
}

// A byte between words, or the one with which a comment begins.
fn between(text: &[u8], s: Scan, i: usize, within: Within) -> Result<Scan, Expected>
    requires { (i ≤ length text.now) × Begun i s.within }
    ensures { Between result s.line within (word_ended (scanned text.now i s)) }
{
    let draft = word_ended(text, s, i)?;
    Ok(Scan { within, draft, ..s })
}

fn in_comment(within: Within) -> bool
    ensures { result ≡ in_comment within }
{
    matches!(within, Within::Comment)
}

// A byte of a word, its first or one more.
#[tactic(auto, using(crate::proofs::Letters::word_more, crate::proofs::Letters::word_new))]
fn in_word(s: Scan, i: usize) -> Scan
    requires { Begun i s.within }
    ensures { Letters i s result }
{
    match s.within {
        Within::Word(_) => s,
        _ => Scan {
            within: Within::Word(i),
            ..s
        },
    }
}

// A byte more: the one at place i. The text, the scan and the place go side by side (tried: a struct of the three with ghost fields;
// Begun goes by cases, and the check found no proof alone that a ghost field of it is a proposition).
#[tactic(auto, using(crate::proofs::Steps::newline_refused, crate::proofs::Steps::in_a_comment, crate::proofs::Steps::by_mark, crate::proofs::Steps::by_blank, crate::proofs::Steps::by_letter))]
pub(crate) fn step(text: &[u8], s: Scan, i: usize) -> Result<Scan, Expected>
    requires { (i < length text.now) × Begun i s.within }
    ensures { Scans text.now (i + 1) s.line result (step (scanned text.now i s) (get_or text.now i 0)) }
{
    if text[i] == b'\n' {
        let draft = line_ended(text, s, i)?;
        let line = s.line.saturating_add(1);
        return Ok(Scan {
            line,
            within: Within::Blank,
            draft,
        });
    }
    if in_comment(s.within) {
        return Ok(s);
    }
    if text[i] == b'#' {
        return between(text, s, i, Within::Comment);
    }
    if is_blank(text[i]) {
        return between(text, s, i, Within::Blank);
    }
    Ok(in_word(s, i))
}
