//! What holds of values that are escaped for HTML: `&`, `<`, `>`, `"` and `'` stand as references in them.

ghost use Rattle.svc_kit.specs.Escape.{EscapedHasNoMarkup, EscapedHasOnlyReferences, EscapedIsReadAgain};

/// An escaped value has no `<`, `>`, `"` or `'`.
pub fn escaped_has_no_markup()
    ensures { EscapedHasNoMarkup }
{}

/// Each `&` in an escaped value begins one of the five references.
pub fn escaped_has_only_references()
    ensures { EscapedHasOnlyReferences }
{}

/// An escaped value is read as the value.
pub fn escaped_is_read_again()
    ensures { EscapedIsReadAgain }
{}
