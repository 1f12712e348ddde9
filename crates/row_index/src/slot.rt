//! The slots of an index, and the groups that they are kept by.

ghost use Rattle.std.specs.Prelude.{◌≡◌, IfOk};
ghost use Rattle.okws_base.specs.Value.{value_cmp};
ghost use Rattle.row_index.specs.Groups.{group_cmp};

use okws_base::items::Exact;
use okws_base::value::Value;
use std::alloc::{AllocError, Global};
use std::cmp::Ordering;

/// A value in a column: what the slots of the rows that have it there have in common.
#[derive(Drop)]
pub struct Group {
    pub column: u8,
    pub value: Value,
}

/// A value in a column, and the place of a row that has it there.
#[derive(Drop)]
pub struct Slot {
    pub group: Group,
    pub place: u64,
}

// How two values are ordered; two INTs are told apart first.
#[inline(always)]
fn ordered(a: &Value, b: &Value) -> Ordering
    ensures { result ≡ value_cmp a.now b.now }
{
    match a {
        Value::Int(x) => match b {
            Value::Int(y) => x.cmp(y),
            _ => a.compare(b),
        },
        _ => a.compare(b),
    }
}

impl Group {
    // By value, then by column.
    #[inline(always)]
    fn compare(&self, other: &Group) -> Ordering
        ensures { result ≡ group_cmp self.now other.now }
    {
        match ordered(&self.value, &other.value) {
            Ordering::Equal => self.column.cmp(&other.column),
            by_value => by_value,
        }
    }
}

impl Exact for Group {
    fn copy(&self, alloc: Global) -> Result<Group, AllocError> {
        Ok(Group {
            column: self.column,
            value: self.value.copy(alloc)?,
        })
    }
}

impl Ord for Group {
    ghost use Rattle.row_index.specs.Groups.{group_cmp};
    ghost use Rattle.row_index.specs.Order.{groups_total};
    ghost use Rattle.std.proofs.Common.{refl};

    ghost cmp = { group_cmp };

    ghost total = { groups_total };

    ghost matches_partial_cmp = { λ _ _. refl };

    ghost matches_eq = { λ _ _. refl };

    // Two INTs that differ are told apart at once, since most comparisons are of such.
    #[inline(always)]
    fn cmp(&self, other: &Group) -> Ordering {
        if let Value::Int(x) = &self.value {
            if let Value::Int(y) = &other.value {
                if *x != *y {
                    return x.cmp(y);
                }
            }
        }
        self.compare(other)
    }
}

impl PartialOrd for Group {
    ghost use Rattle.row_index.specs.Groups.{group_cmp};
    ghost use Rattle.row_index.specs.Order.{groups_total};
    ghost use Rattle.std.specs.Ordering.{as_partial_cmp};
    ghost use Rattle.std.specs.Cmp.{partial_order_from_total};

    ghost partial_cmp = { as_partial_cmp group_cmp };

    ghost laws = { partial_order_from_total groups_total };

    fn partial_cmp(&self, other: &Group) -> Option<Ordering> {
        Some(self.cmp(other))
    }
}

impl PartialEq for Group {
    ghost use Rattle.row_index.specs.Groups.{group_cmp};
    ghost use Rattle.row_index.specs.Order.{groups_total};
    ghost use Rattle.std.specs.Ordering.{eq_by_cmp};
    ghost use Rattle.std.specs.Cmp.{eq_by_cmp_equiv, partial_equiv_from_equiv};

    ghost eq = { eq_by_cmp group_cmp };

    ghost laws = { partial_equiv_from_equiv (eq_by_cmp_equiv groups_total) };

    fn eq(&self, other: &Group) -> bool {
        self.cmp(other) == Ordering::Equal
    }
}

impl Eq for Group {
    ghost use Rattle.row_index.specs.Order.{groups_total};
    ghost use Rattle.std.specs.Cmp.{eq_by_cmp_equiv};

    ghost laws = { eq_by_cmp_equiv groups_total };
}
