//! The options among the parts.

ghost use Rattle.std.specs.Prelude.{◌≡◌, option_map};
ghost use Rattle.command_line.specs.Parts.{value_of, has_option};
ghost use Rattle.command_line.specs.Asked.{is_server_option, are_server_options};
ghost use Rattle.command_line.specs.Meant.{options_meant};

use crate::looks::is_same;

/// The value of the first option of a name.
pub(crate) fn value_of<'w>(name: &str, options: &[(&'w str, &'w str)]) -> Option<&'w str>
    ensures { option_map (λ s. s.now) result ≡ value_of name.now (options_meant options.now) }
{
    for (other, value) in options {
        if is_same(other, name) {
            return Some(value);
        }
    }
    None
}

/// Whether an option of a name is among these.
pub(crate) fn has_option(name: &str, options: &[(&str, &str)]) -> bool
    ensures { result ≡ has_option name.now (options_meant options.now) }
{
    for (other, _) in options {
        if is_same(other, name) {
            return true;
        }
    }
    false
}

fn is_server_option(name: &str) -> bool
    ensures { result ≡ is_server_option name.now }
{
    is_same(name, "port")
        || is_same(name, "doors")
        || is_same(name, "serve")
        || is_same(name, "always")
        || is_same(name, "patience")
        || is_same(name, "store")
        || is_same(name, "log")
        || is_same(name, "audit")
}

/// Whether each is an option of a server, and none stands twice.
pub(crate) fn are_server_options(options: &[(&str, &str)]) -> bool
    ensures { result ≡ are_server_options (options_meant options.now) }
{
    let mut rest = options;
    while let [(name, _), behind @ ..] = rest {
        if !is_server_option(name) || has_option(name, behind) {
            return false;
        }
        rest = behind;
    }
    true
}
