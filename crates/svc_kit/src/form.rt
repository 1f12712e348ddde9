//! The forms that requests carry, `application/x-www-form-urlencoded` after the URL Standard, section
//! 5.

ghost use Rattle.std.specs.Prelude.{◌≡◌, IfOk, option_map, string_bytes};
ghost use Rattle.svc_kit.specs.Form.{form_value};

use form_urlencoded::{decode, raw_pairs};
use std::alloc::{AllocError, Global};

/// The value of the first pair of the form with that name, where there is one. Names and values are
/// decoded; bytes of them that aren't UTF-8 stand as U+FFFD.
#[tactic(auto, unfolding(crate::specs::Form::form_value))]
pub fn value_of(alloc: Global, form: &[u8], name: &str) -> Result<Option<String>, AllocError>
    ensures { IfOk result (λ value. option_map string_bytes value ≡ form_value form.now name.now) }
{
    for (key, value) in raw_pairs(form) {
        let key = decode(alloc, key)?;
        if &*key == name {
            return Ok(Some(decode(alloc, value)?.into_owned(alloc)?));
        }
    }
    Ok(None)
}
