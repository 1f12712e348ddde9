//! Who owns a path.

ghost use Rattle.std.specs.Prelude.{◌≡◌, option_map, option_copied, nat_eq, length, drop};
ghost use Rattle.okws_plan.specs.Configuration.{owns_path, best_owner, better};

use okws_plan::configuration::Owned;

/// Whether the configured path P owns the path Q: they are equal, or Q goes on after P where P ends in
/// `/`, or Q goes on after P with a `/`.
pub fn owns(p: &[u8], q: &[u8]) -> bool
    ensures { result ≡ owns_path p.now q.now }
{
    if p == q {
        return true;
    }
    q.starts_with(p) && (p.ends_with(b"/") || q[p.len()..].starts_with(b"/"))
}

/// The longest of the paths that own this one; of two that are as long, the first.
pub fn longest_owner<'a>(paths: &'a [Owned], path: &[u8]) -> Option<&'a Owned>
    ensures { option_copied result ≡ best_owner paths.now path.now }
{
    let mut best = None;
    for owned in paths {
        best = better_of(best, owned, path);
    }
    best
}

fn better_of<'a>(best: Option<&'a Owned>, one: &'a Owned, path: &[u8]) -> Option<&'a Owned>
    ensures { option_copied result ≡ better path.now (option_copied best.entry) one.now }
{
    if !owns(one.path.as_slice(), path) {
        return best;
    }
    match best {
        None => Some(one),
        Some(other) => {
            if other.path.as_slice().len() < one.path.as_slice().len() {
                Some(one)
            } else {
                Some(other)
            }
        }
    }
}
