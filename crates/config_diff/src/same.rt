//! Whether two lists, or two things that may not be there, are the same.

ghost use Rattle.std.specs.Prelude.{◌≡◌, Bool, nat_eq, option_copied};
ghost use Rattle.std.specs.Cmp.Lexicographic.{pointwise};
ghost use Rattle.okws_base.specs.Value.{same_bytes, same_kind};
ghost use Rattle.config_diff.specs.Sameness.{same_flag, same_option};

use okws_base::name::Name;
use okws_base::value::Kind;

/// What is compared with others of its type.
pub(crate) trait Same {
    /// Whether two of them are the same.
    ghost same: { Self → Self → Bool };

    /// Whether it is the same as the other one.
    fn same(&self, other: &Self) -> bool
        ensures { result ≡ same self.now other.now };
}

impl Same for u8 {
    ghost same = { nat_eq };

    fn same(&self, other: &u8) -> bool {
        *self == *other
    }
}

impl Same for u32 {
    ghost same = { nat_eq };

    fn same(&self, other: &u32) -> bool {
        *self == *other
    }
}

impl Same for bool {
    ghost same = { same_flag };

    fn same(&self, other: &bool) -> bool {
        if *self { *other } else { !*other }
    }
}

impl Same for Kind {
    ghost same = { same_kind };

    fn same(&self, other: &Kind) -> bool {
        *self == *other
    }
}

impl Same for Name {
    ghost same = { same_bytes };

    fn same(&self, other: &Name) -> bool {
        self.as_slice() == other.as_slice()
    }
}

/// Whether two lists are as long, and the same at each place.
#[tactic(auto, using(crate::proofs::Lists::unequal_lengths))]
pub(crate) fn all_same<T: Same>(a: &[T], b: &[T]) -> bool
    ensures { result ≡ pointwise T.same a.now b.now }
{
    if a.len() != b.len() {
        return false;
    }
    for i in 0..a.len() {
        if !a[i].same(&b[i]) {
            return false;
        }
    }
    true
}

/// Whether two things that may not be there are the same.
pub(crate) fn same_option<T: Same>(a: &Option<T>, b: &Option<T>) -> bool
    ensures { result ≡ same_option T.same a.now b.now }
{
    match (a, b) {
        (None, None) => true,
        (Some(one), Some(other)) => one.same(other),
        _ => false,
    }
}

/// Whether two things that were looked for are the same, or neither was found.
pub(crate) fn same_found<T: Same>(a: Option<&T>, b: Option<&T>) -> bool
    ensures { result ≡ same_option T.same (option_copied a.entry) (option_copied b.entry) }
{
    match (a, b) {
        (None, None) => true,
        (Some(one), Some(other)) => one.same(other),
        _ => false,
    }
}
