//! What stands behind some lines, and what they count.

use crate::plain::{At, Deed, Line};
use monitor_model::record::End;
use okws_plan::configuration::Config;

/// Whether a service may call a query there.
pub fn is_granted(site: &Config, service: u16, proxy: u16, query: u16) -> bool {
    for grant in site.grants.as_slice() {
        if grant.service == service && grant.proxy == proxy && grant.query == query {
            return true;
        }
    }
    false
}

/// Whether a service may call any query there.
pub fn is_admitted(site: &Config, service: u16, proxy: u16) -> bool {
    for grant in site.grants.as_slice() {
        if grant.service == service && grant.proxy == proxy {
            return true;
        }
    }
    false
}

/// The incarnation of a service that these lines leave standing there.
pub fn standing(lines: &[Line<'_>], at: At, service: u16) -> Option<u32> {
    let mut stands = None;
    for line in lines {
        if line.at == at && line.service == service {
            match line.deed {
                Deed::Up | Deed::Install => stands = Some(line.incarnation),
                Deed::Down | Deed::Revoke => stands = None,
                _ => {}
            }
        }
    }
    stands
}

/// The greatest incarnation of a service of which this was done, 0 for none.
pub fn greatest(lines: &[Line<'_>], deed: Deed, service: u16) -> u32 {
    let mut greatest = 0;
    for line in lines {
        if line.does(deed, service) {
            greatest = line.incarnation.max(greatest);
        }
    }
    greatest
}

/// The greatest incarnation of a service that was begun.
pub fn begun(lines: &[Line<'_>], service: u16) -> u32 {
    greatest(lines, Deed::Begun, service)
}

/// How many editions a template has.
pub fn editions(lines: &[Line<'_>], template: u32) -> u32 {
    let mut count = 0u32;
    for line in lines {
        if line.deed == Deed::Publish && line.number == template {
            count = count.saturating_add(1);
        }
    }
    count
}

/// Whether a dialog ended its incarnation.
pub fn is_crash(line: &Line<'_>) -> bool {
    !matches!(line.end, None | Some(End::Reply | End::Superseded(_)))
}

/// The incarnation that a cell has behind these lines, 0 for none.
pub fn incarnation(lines: &[Line<'_>]) -> u32 {
    let mut now = 0;
    for line in lines {
        if line.deed == Deed::Boot {
            now = line.incarnation;
        } else if line.deed == Deed::Retired || is_crash(line) {
            now = 0;
        }
    }
    now
}
