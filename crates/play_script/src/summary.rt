//! The summary of a drill.

ghost use Rattle.std.specs.Prelude.{◌≡◌, ◌++◌, codes, decimal, IfOk, OnOk};
ghost use Rattle.play_script.specs.Summary.{count_line, denied_line, kind_lines, kinds_of, rule_lines, rules_of, summary_of};
ghost use Rattle.play_script.specs.Tally.{tally_of};

use crate::tally::Tally;
use frame_codec::kind;
use plain_text::decimals::push_decimal;
use std::alloc::{AllocError, Global};

/// Adds a name, a count and LF.
fn push_count(alloc: Global, text: &mut Vec<u8>, name: &[u8], count: u64) -> Result<(), AllocError>
    ensures { OnOk result (text.new.items ≡ text.old.items ++ count_line name.now count) }
{
    text.extend_from_slice(name)?;
    text.push(b' ')?;
    push_decimal(alloc, text, count)?;
    text.push(b'\n')?;
    Ok(())
}

/// Adds the lines of the counts by kind.
fn push_kinds(alloc: Global, text: &mut Vec<u8>, tally: &Tally) -> Result<(), AllocError>
    ensures { OnOk result (text.new.items ≡ text.old.items ++ kind_lines (kinds_of (tally_of tally.now))) }
{
    push_count(alloc, text, b"boots", tally.kind(kind::BOOT))?;
    push_count(alloc, text, b"requests", tally.kind(kind::REQUEST))?;
    push_count(alloc, text, b"pushes", tally.kind(kind::PUSH))?;
    push_count(alloc, text, b"opened", tally.kind(kind::OPENED))?;
    push_count(alloc, text, b"rows", tally.kind(kind::ROWS))?;
    push_count(alloc, text, b"changed", tally.kind(kind::CHANGED))?;
    push_count(alloc, text, b"duplicates", tally.kind(kind::DUPLICATE))?;
    push_count(alloc, text, b"templates", tally.kind(kind::TEMPLATE))?;
    push_count(alloc, text, b"logged", tally.kind(kind::LOGGED))?;
    push_count(alloc, text, b"failed", tally.kind(kind::FAILED))?;
    push_count(alloc, text, b"nomemory", tally.kind(kind::NO_MEMORY))?;
    Ok(())
}

/// Adds the line of a rule by which frames were denied, and nothing for another rule.
fn push_rule(alloc: Global, text: &mut Vec<u8>, tally: &Tally, rule: u8) -> Result<(), AllocError>
    ensures { OnOk result (text.new.items ≡ text.old.items ++ denied_line (rules_of (tally_of tally.now)) rule) }
{
    let count = tally.rule(rule);
    if count == 0 {
        return Ok(());
    }
    let mut name = Vec::new(alloc);
    name.extend_from_slice(b"denied ")?;
    push_decimal(alloc, &mut name, u64::from(rule))?;
    push_count(alloc, text, &name, count)
}

/// Adds the lines of the counts by rule.
fn push_rules(alloc: Global, text: &mut Vec<u8>, tally: &Tally) -> Result<(), AllocError>
    ensures { OnOk result (text.new.items ≡ text.old.items ++ rule_lines (rules_of (tally_of tally.now))) }
{
    for rule in 0..256u32 {
        push_rule(alloc, text, tally, rule as u8)?;
    }
    Ok(())
}

/// The summary of what was tallied: `boots`, `requests`, `pushes`, `opened`, `rows`, `changed`,
/// `duplicates`, `templates`, `logged`, `failed` and `nomemory`, each with its count, and then
/// `denied RULE COUNT` for each rule that came, ascending; a line each.
pub fn summary(alloc: Global, tally: &Tally) -> Result<Vec<u8>, AllocError>
    ensures { IfOk result (λ v. v.items ≡ summary_of (kinds_of (tally_of tally.now)) (rules_of (tally_of tally.now))) }
{
    let mut text = Vec::new(alloc);
    push_kinds(alloc, &mut text, tally)?;
    push_rules(alloc, &mut text, tally)?;
    Ok(text)
}
