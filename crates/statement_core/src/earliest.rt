//! Which of two broken rules comes first: the one to the left, or at one place the lower one.

ghost use Rattle.std.specs.Prelude.{◌≡◌};
ghost use Rattle.statement_core.specs.Resolving.{is_before, earlier, earlier_of, sooner};

use query_syntax::error::Refusal;

fn comes_before(one: Refusal, other: Refusal) -> bool
    ensures { result ≡ is_before one other }
{
    one.at < other.at || (one.at == other.at && one.rule.number() < other.rule.number())
}

/// The earlier of two refusals; the one found before where they are the same.
pub fn earlier_refusal(best: Refusal, found: Refusal) -> Refusal
    ensures { result ≡ earlier_of best found }
{
    if comes_before(found, best) {
        found
    } else {
        best
    }
}

/// The earlier of what was found so far, if anything, and one more.
pub fn earlier_found(best: Option<Refusal>, found: Refusal) -> Option<Refusal>
    ensures { result ≡ earlier best found }
{
    match best {
        None => Some(found),
        Some(best) => Some(earlier_refusal(best, found)),
    }
}

/// The earlier of two refusals, each of which may not be there.
pub fn earlier_of_both(best: Option<Refusal>, found: Option<Refusal>) -> Option<Refusal>
    ensures { result ≡ sooner best found }
{
    match found {
        None => best,
        Some(found) => earlier_found(best, found),
    }
}
