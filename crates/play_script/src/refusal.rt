//! The last line that is printed where a file is refused.

ghost use Rattle.std.specs.Prelude.{◌≡◌, ◌++◌, ◌∷◌, [], codes, decimal, IfOk, OnOk};
ghost use Rattle.play_script.specs.Refusal.{config_refused, script_refused};

use plain_text::decimals::push_decimal;
use std::alloc::{AllocError, Global};

fn push_place(alloc: Global, text: &mut Vec<u8>, line: usize, rule: u8) -> Result<(), AllocError>
    ensures { OnOk result (text.new.items ≡ text.old.items ++ decimal line ++ codes " rule " ++ decimal rule ++ 10 ∷ []) }
{
    push_decimal(alloc, text, line as u64)?;
    text.extend_from_slice(b" rule ")?;
    push_decimal(alloc, text, u64::from(rule))?;
    text.push(b'\n')?;
    Ok(())
}

/// `refused: config line L rule R` and LF: the configuration breaks the rule at the line. Lines count
/// from 1; line 0 stands for the file as a whole.
///
/// Fails only where memory is refused.
pub fn config_refused(alloc: Global, line: usize, rule: u8) -> Result<Vec<u8>, AllocError>
    ensures { IfOk result (λ v. v.items ≡ config_refused line rule) }
{
    let mut text = Vec::new(alloc);
    text.extend_from_slice(b"refused: config line ")?;
    push_place(alloc, &mut text, line, rule)?;
    Ok(text)
}

/// `refused: script line L rule R` and LF: the script breaks the rule at the line. Lines count from
/// 1; line 0 stands for the file as a whole.
///
/// Fails only where memory is refused.
pub fn script_refused(alloc: Global, line: usize, rule: u8) -> Result<Vec<u8>, AllocError>
    ensures { IfOk result (λ v. v.items ≡ script_refused line rule) }
{
    let mut text = Vec::new(alloc);
    text.extend_from_slice(b"refused: script line ")?;
    push_place(alloc, &mut text, line, rule)?;
    Ok(text)
}
