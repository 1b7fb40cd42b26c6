//! A certificate, read from its text.
ghost use Rattle.std.specs.Prelude.{◌≡◌, ◌≢◌, ◌<◌, ◌≤◌, ◌^◌, ◌+◌, ◌⊎◌, ◌++◌, ℕ, List, [], ◌∷◌, All, Option, None, IfOk, IfErr, IfSome, IsTrue, MatchResult, length, drop, flat_map};
ghost use Rattle.certificate.specs.declared.tree.Head.{Head};
ghost use Rattle.certificate.specs.declared.tree.Record.{Record};
ghost use Rattle.certificate.specs.declared.tree.Outcome.{Outcome};
ghost use Rattle.certificate.specs.declared.faults.CertFault.{CertFault};
ghost use Rattle.certificate.specs.declared.lines.Line.TheVariants as line;
ghost use Rattle.certificate.specs.declared.faults.CertFault.TheVariants.{BadLine, NoEnd, NoMemory};
ghost use Rattle.certificate.specs.Text.{text_of, whole, head_lines, record_lines};
ghost use Rattle.certificate.specs.FirstFault.{HasFault};
ghost use Rattle.certificate.specs.Grammar.{IsRecord, IsHead, IsOutcome, IsCert};
ghost use Rattle.certificate.specs.Reading.{IsLine, Fails, body_lines};
ghost use Rattle.certificate.specs.Reading.Place.{InSteps, Between};

use crate::faults::CertFault;
use crate::kept_rows::{KeptRaise, KeptRaiseList, KeptRow, KeptRowList};
use crate::line_reader::read_line;
use crate::lines::Line;
use crate::tree::{Head, Outcome, Record, Tree};
use std::alloc::Global;

/// Reads a certificate of at most 2^29 bytes, the greatest that is written. The text is not copied.
///
/// A text that is a certificate gives its head and its tree. Any other gives its first line at fault:
/// `NotCert` where that is the first line, `BadHead` where it is one of the lines 2 to 5, which may be missing,
/// `BadLine` where it is a later one, also one that lacks its line feed or stands behind the line `end`.
/// `NoEnd` comes where no line is at fault and the text ends before the line `end`,
/// and `NoMemory`, for any text, where memory is wanting.
pub fn read_cert(alloc: Global, bytes: &[u8]) -> Result<(Head, Tree), CertFault>
    requires { length bytes.now ≤ 2 ^ 29 }
    ensures certificate { IfOk result (λ x. IsCert bytes.now x.0 x.1) }
    ensures fault { IfErr result (λ e. (e ≡ NoMemory) ⊎ HasFault bytes.now e) }
    ensures reads { (head : Head) (tree : List Record) → IsCert bytes.now head tree → MatchResult result (λ x. (x.0 ≡ head) × (x.1 ≡ tree)) (λ e. e ≡ NoMemory) }
    ensures refuses { (fault : CertFault) → HasFault bytes.now fault → MatchResult result (λ _. ⊥) (λ e. (e ≡ fault) ⊎ (e ≡ NoMemory)) }
{
    let (head, at) = read_head(bytes)?;
    let tree = read_records(alloc, bytes, at)?;
    Ok((head, tree))
}

/// The five lines of a head, and the place behind them.
fn read_head(bytes: &[u8]) -> Result<(Head, usize), CertFault>
    ensures text { IfOk result (λ x. bytes.now ≡ text_of (head_lines x.0) ++ drop x.1 bytes.now) }
    ensures head { IfOk result (λ x. IsHead x.0) }
    ensures next { IfOk result (λ x. (5 ≤ x.1) × (x.1 ≤ length bytes.now)) }
    ensures fault { IfErr result (λ e. HasFault bytes.now e) }
{
    let Some(second) = read_title(bytes) else {
        return Err(CertFault::NotCert);
    };
    let Some((outcome, third)) = read_outcome(bytes, second) else {
        return Err(CertFault::BadHead { line: 2 });
    };
    let Some((rehandles, fourth)) = read_rehandles(bytes, third, outcome) else {
        return Err(CertFault::BadHead { line: 3 });
    };
    let Some((bound, fifth)) = read_bound(bytes, fourth) else {
        return Err(CertFault::BadHead { line: 4 });
    };
    let Some((nodes, at)) = read_nodes(bytes, fifth) else {
        return Err(CertFault::BadHead { line: 5 });
    };
    let head = Head {
        outcome,
        rehandles,
        bound,
        nodes,
    };
    Ok((head, at))
}

/// The place behind the first line.
fn read_title(bytes: &[u8]) -> Option<usize>
    ensures text { IfSome result (λ at. drop 0 bytes.now ≡ whole line.Title ++ drop at bytes.now) }
    ensures next { IfSome result (λ at. (0 < at) × (at ≤ length bytes.now)) }
    ensures none { result ≡ None → (more : List ℕ) → bytes.now ≢ whole line.Title ++ more }
{
    let Some((line, at)) = read_line(bytes, 0) else {
        return None;
    };
    match line {
        Line::Title => Some(at),
        _ => None,
    }
}

/// The outcome, and the place behind its line.
fn read_outcome(bytes: &[u8], from: usize) -> Option<(Outcome, usize)>
    requires { from ≤ length bytes.now }
    ensures text { IfSome result (λ x. drop from bytes.now ≡ whole (line.Outcome x.0) ++ drop x.1 bytes.now) }
    ensures next { IfSome result (λ x. (from < x.1) × (x.1 ≤ length bytes.now)) }
    ensures none { result ≡ None → (o : Outcome) (more : List ℕ) → drop from bytes.now ≢ whole (line.Outcome o) ++ more }
{
    let Some((line, at)) = read_line(bytes, from) else {
        return None;
    };
    match line {
        Line::Outcome(outcome) => Some((outcome, at)),
        _ => None,
    }
}

/// The rehandles that fit the outcome, and the place behind their line.
fn read_rehandles(bytes: &[u8], from: usize, outcome: Outcome) -> Option<(Option<u64>, usize)>
    requires { from ≤ length bytes.now }
    ensures text { IfSome result (λ x. drop from bytes.now ≡ whole (line.Rehandles x.0) ++ drop x.1 bytes.now) }
    ensures next { IfSome result (λ x. (from < x.1) × (x.1 ≤ length bytes.now)) }
    ensures fits { IfSome result (λ x. IsOutcome outcome x.0) }
    ensures none { result ≡ None → (r : Option ℕ) (more : List ℕ) → IsOutcome outcome r → drop from bytes.now ≢ whole (line.Rehandles r) ++ more }
{
    let Some((line, at)) = read_line(bytes, from) else {
        return None;
    };
    match line {
        Line::Rehandles(rehandles) => {
            if fits(outcome, rehandles) {
                Some((rehandles, at))
            } else {
                None
            }
        }
        _ => None,
    }
}

/// A number of rehandles stands exactly with the outcomes optimal and gap.
fn fits(outcome: Outcome, rehandles: Option<u64>) -> bool
    ensures fits { IsTrue result → IsLine (line.Rehandles rehandles) → IsOutcome outcome rehandles }
    ensures all { IsOutcome outcome rehandles → IsTrue result }
{
    match outcome {
        Outcome::Optimal | Outcome::Gap => rehandles.is_some(),
        Outcome::NoPlan | Outcome::Undecided => rehandles.is_none(),
    }
}

/// The bound, and the place behind its line.
fn read_bound(bytes: &[u8], from: usize) -> Option<(u64, usize)>
    requires { from ≤ length bytes.now }
    ensures text { IfSome result (λ x. drop from bytes.now ≡ whole (line.Bound x.0) ++ drop x.1 bytes.now) }
    ensures next { IfSome result (λ x. (from < x.1) × (x.1 ≤ length bytes.now)) }
    ensures small { IfSome result (λ x. x.0 < 2 ^ 63) }
    ensures none { result ≡ None → (n : ℕ) (more : List ℕ) → n < 2 ^ 63 → drop from bytes.now ≢ whole (line.Bound n) ++ more }
{
    let Some((line, at)) = read_line(bytes, from) else {
        return None;
    };
    match line {
        Line::Bound(bound) => Some((bound, at)),
        _ => None,
    }
}

/// The nodes, and the place behind their line.
fn read_nodes(bytes: &[u8], from: usize) -> Option<(u64, usize)>
    requires { from ≤ length bytes.now }
    ensures text { IfSome result (λ x. drop from bytes.now ≡ whole (line.Nodes x.0) ++ drop x.1 bytes.now) }
    ensures next { IfSome result (λ x. (from < x.1) × (x.1 ≤ length bytes.now)) }
    ensures small { IfSome result (λ x. x.0 < 2 ^ 63) }
    ensures none { result ≡ None → (n : ℕ) (more : List ℕ) → n < 2 ^ 63 → drop from bytes.now ≢ whole (line.Nodes n) ++ more }
{
    let Some((line, at)) = read_line(bytes, from) else {
        return None;
    };
    match line {
        Line::Nodes(nodes) => Some((nodes, at)),
        _ => None,
    }
}

/// The fault where no line stands at a place, behind so many lines.
fn fault_at(bytes: &[u8], at: usize, lines: u32) -> CertFault
    requires within { at ≤ length bytes.now }
    requires few { lines < 2 ^ 30 }
    ensures end { at ≡ length bytes.now → result ≡ NoEnd }
    ensures bad { at < length bytes.now → result ≡ BadLine (lines + 1) }
{
    if at == bytes.len() {
        CertFault::NoEnd
    } else {
        CertFault::BadLine { line: lines + 1 }
    }
}

/// The records behind the head, up to the end of the text.
fn read_records(alloc: Global, bytes: &[u8], from: usize) -> Result<Tree, CertFault>
    requires within { from ≤ length bytes.now }
    requires few { 5 ≤ from }
    requires small { length bytes.now ≤ 2 ^ 29 }
    ensures records { IfOk result (λ tree. All IsRecord tree) }
    ensures text { IfOk result (λ tree. drop from bytes.now ≡ text_of (flat_map record_lines tree ++ line.Close ∷ [])) }
    ensures fault { IfErr result (λ e. Fails (drop from bytes.now) Between 5 e) }
{
    let mut tree = Tree::new(alloc);
    let mut at = from;
    let mut lines: u32 = 5;
    loop {
        let Some((line, next)) = read_line(bytes, at) else {
            return Err(fault_at(bytes, at, lines));
        };
        match line {
            Line::Node(from_zero) => {
                let (item, behind, count) = read_record(alloc, bytes, next, lines + 1, from_zero)?;
                tree.push(item)?;
                at = behind;
                lines = count;
            }
            Line::Close if next == bytes.len() => return Ok(tree),
            Line::Close => return Err(CertFault::BadLine { line: lines + 2 }),
            _ => return Err(CertFault::BadLine { line: lines + 1 }),
        }
    }
}

/// The record whose first line ends at a place, behind so many lines; the place behind it, and the lines up to there.
fn read_record(
    alloc: Global,
    bytes: &[u8],
    from: usize,
    before: u32,
    from_zero: bool,
) -> Result<(Record, usize, u32), CertFault>
    requires within { from ≤ length bytes.now }
    requires few { before ≤ from }
    requires small { length bytes.now ≤ 2 ^ 29 }
    ensures zero { IfOk result (λ x. x.0.from_zero ≡ from_zero) }
    ensures record_is { IfOk result (λ x. IsRecord x.0) }
    ensures text { IfOk result (λ x. drop from bytes.now ≡ text_of (body_lines x.0) ++ drop x.1 bytes.now) }
    ensures next { IfOk result (λ x. (from < x.1) × (x.1 ≤ length bytes.now)) }
    ensures count { IfOk result (λ x. (x.2 ≡ before + length (body_lines x.0)) × (x.2 ≤ x.1)) }
    ensures fault { IfErr result (λ e. Fails (drop from bytes.now) InSteps before e) }
{
    let mut steps = KeptRowList::new(alloc);
    let mut raises = KeptRaiseList::new(alloc);
    let mut at = from;
    let mut lines = before;
    loop {
        let Some((line, next)) = read_line(bytes, at) else {
            return Err(fault_at(bytes, at, lines));
        };
        lines += 1;
        at = next;
        match line {
            Line::Step(row) if raises.is_empty() => steps.push(KeptRow::of(alloc, &row)?)?,
            Line::Change(raise) => raises.push(KeptRaise::of(alloc, &raise)?)?,
            Line::Ends(end) => {
                let item = Record::kept(alloc, from_zero, steps, raises, end)?;
                return Ok((item, at, lines));
            }
            _ => return Err(CertFault::BadLine { line: lines }),
        }
    }
}
