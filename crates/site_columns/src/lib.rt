//! The columns of a site as one worker at a time has them: okd, the proxies, pubd, oklogd, the
//! launcher's journal, and the worker's own list. Each call enters at most one event, under the
//! worker's number, and notes it in the own list.
#![tactic(auto)]

// A call of a column in the worker's turn: there is room for its own item, new entries of the column
// name the worker, and the item is noted once its event is entered. Where memory is refused, nothing
// is entered and nothing is noted.
macro_rules! in_turn {
    ($site:ident.$column:ident, $item:expr, $call:expr) => {{
        $site.own.make_room(1)?;
        let item = $item;
        $site.$column.hold($site.worker);
        let answer = $call;
        $site.own.enter(item);
        Ok(answer)
    }};
}

mod asking;
pub mod columns;
mod discard;
mod granting;
mod launches;
pub mod opening;
mod proxies;
