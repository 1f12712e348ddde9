//! The parts of the words behind a command's name.

ghost use Rattle.std.specs.Prelude.{◌≡◌, ◌≤◌, [], ◌∷◌, ◌++◌, map, length, string_bytes, Some, None, IfOk, IfSome, OnOk, Option, option_map, if◌then◌else◌};
ghost use Rattle.command_line.specs.Parts.{Parts as Whole, parts_of, parts_from, with_own, with_option, is_flag};
ghost use Rattle.command_line.specs.Meant.{parts_meant, joined, goes_on};

use crate::looks::{Sort, is_flag, is_own, sort_of};
use std::alloc::{AllocError, Global};

/// The words of their own, and the options with their values, each in order.
#[derive(Drop)]
pub(crate) struct Parts<'w> {
    pub(crate) own: Vec<&'w str>,
    pub(crate) options: Vec<(&'w str, &'w str)>,
}

impl<'w> Parts<'w> {
    #[tactic(auto, using(crate::proofs::Joining::own_joined))]
    /// Takes a word of its own.
    fn take_own(&mut self, word: &'w str) -> Result<(), AllocError>
        ensures { OnOk result ((others : Option Whole) → joined (parts_meant self.old) (option_map (with_own word.now) others) ≡ joined (parts_meant self.new) others) }
    {
        self.own.push(word)?;
        Ok(())
    }

    #[tactic(auto, using(crate::proofs::Joining::option_joined))]
    /// Takes an option and its value.
    fn take_option(&mut self, name: &'w str, value: &'w str) -> Result<(), AllocError>
        ensures { OnOk result ((others : Option Whole) → joined (parts_meant self.old) (option_map (with_option name.now value.now) others) ≡ joined (parts_meant self.new) others) }
    {
        self.options.push((name, value))?;
        Ok(())
    }

    /// Takes all of these as words of their own.
    fn take_all(&mut self, words: &'w [String]) -> Result<(), AllocError>
        ensures own { OnOk result (map (λ s. s.now) self.new.own.items ≡ map (λ s. s.now) self.old.own.items ++ map string_bytes words.now) }
        ensures options { OnOk result (self.new.options.items ≡ self.old.options.items) }
    {
        for word in words {
            self.own.push(word.as_str())?;
        }
        Ok(())
    }

    #[tactic(auto, using(crate::proofs::Joining::joined_none))]
    /// Takes the part whose first word this is, and gives the words behind it; None where there is no
    /// such part.
    fn take(
        &mut self,
        word: &'w String,
        behind: &'w [String],
    ) -> Result<Option<&'w [String]>, AllocError>
        ensures left { IfOk result (λ left. joined (parts_meant self.old) (parts_of (string_bytes word.now ∷ map string_bytes behind.now)) ≡ goes_on (parts_meant self.new) (option_map (λ s. map string_bytes s.now) left)) }
        ensures fewer { IfOk result (λ left. IfSome left (λ s. length s.now ≤ length behind.now)) }
    {
        match sort_of(word.as_str()) {
            Sort::Own => {
                self.take_own(word.as_str())?;
                Ok(Some(behind))
            }
            Sort::Ending => {
                self.take_all(behind)?;
                Ok(Some(&[]))
            }
            Sort::Short => Ok(None),
            Sort::Long(name, Some(value)) => self.take_given(name, value, behind),
            Sort::Long(name, None) => self.take_named(name, behind),
        }
    }

    /// Takes an option with the value that its word gives it, and gives the words behind it.
    fn take_given(
        &mut self,
        name: &'w str,
        value: &'w str,
        behind: &'w [String],
    ) -> Result<Option<&'w [String]>, AllocError>
        ensures left { IfOk result (λ left. joined (parts_meant self.old) (if is_flag name.now then None else option_map (with_option name.now value.now) (parts_of (map string_bytes behind.now))) ≡ goes_on (parts_meant self.new) (option_map (λ s. map string_bytes s.now) left)) }
        ensures fewer { IfOk result (λ left. IfSome left (λ s. length s.now ≤ length behind.now)) }
    {
        if is_flag(name) {
            return Ok(None);
        }
        self.take_option(name, value)?;
        Ok(Some(behind))
    }

    /// Takes an option whose word gives it no value, and gives the words behind it, or behind its value.
    fn take_named(
        &mut self,
        name: &'w str,
        behind: &'w [String],
    ) -> Result<Option<&'w [String]>, AllocError>
        ensures left { IfOk result (λ left. joined (parts_meant self.old) (if is_flag name.now then option_map (with_option name.now []) (parts_of (map string_bytes behind.now)) else parts_from (Some name.now) (map string_bytes behind.now)) ≡ goes_on (parts_meant self.new) (option_map (λ s. map string_bytes s.now) left)) }
        ensures fewer { IfOk result (λ left. IfSome left (λ s. length s.now ≤ length behind.now)) }
    {
        if !is_flag(name) {
            return self.take_value(name, behind);
        }
        self.take_option(name, "")?;
        Ok(Some(behind))
    }

    /// Takes the first word as the value of an option, and gives the words behind it.
    fn take_value(
        &mut self,
        name: &'w str,
        words: &'w [String],
    ) -> Result<Option<&'w [String]>, AllocError>
        ensures left { IfOk result (λ left. joined (parts_meant self.old) (parts_from (Some name.now) (map string_bytes words.now)) ≡ goes_on (parts_meant self.new) (option_map (λ s. map string_bytes s.now) left)) }
        ensures fewer { IfOk result (λ left. IfSome left (λ s. length s.now ≤ length words.now)) }
    {
        match words.split_first() {
            Some((value, behind)) if is_own(value.as_str()) => {
                self.take_option(name, value.as_str())?;
                Ok(Some(behind))
            }
            _ => Ok(None),
        }
    }
}

#[tactic(auto, using(crate::proofs::Joining::none_joined, crate::proofs::Joining::joined_none))]
/// The parts of words, unless there is a word that is none.
pub(crate) fn parts_of<'w>(
    alloc: Global,
    words: &'w [String],
) -> Result<Option<Parts<'w>>, AllocError>
    ensures { IfOk result (λ parts. option_map parts_meant parts ≡ parts_of (map string_bytes words.now)) }
{
    let mut parts = Parts {
        own: Vec::new(alloc),
        options: Vec::new(alloc),
    };
    let mut rest = words;
    while let Some((word, behind)) = rest.split_first() {
        match parts.take(word, behind)? {
            Some(left) => rest = left,
            None => return Ok(None),
        }
    }
    Ok(Some(parts))
}
