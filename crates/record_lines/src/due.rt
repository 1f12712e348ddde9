//! The editions that a service is told at the beginning of a dialog.

use crate::answers::{is_live, last_text, reads};
use crate::case::Case;
use crate::plain::{Deed, Line, has};
use crate::standing::editions;
use frame_codec::frame::ServerFrame;
use monitor_model::record::Item;
use okws_plan::configuration::Config;
use std::alloc::AllocError;

/// An edition of a template.
#[derive(Clone, Copy)]
pub struct Due<'a> {
    template: u32,
    edition: u32,
    text: &'a [u8],
}

/// The last edition of each template that a service may read.
fn current<'a>(
    case: &Case<'_, 'a>,
    before: &[Line<'a>],
    service: u16,
) -> Result<Vec<Due<'a>>, AllocError> {
    let mut all = Vec::new(case.alloc);
    let mut template = 0u32;
    for _ in case.site.templates.as_slice() {
        let edition = editions(before, template);
        if let Some(text) = last_text(before, template)
            && reads(case.site, service, template)
        {
            all.push(Due {
                template,
                edition,
                text,
            })?;
        }
        template = template.saturating_add(1);
    }
    Ok(all)
}

/// Each edition since the last drain of an incarnation of a template that the service may read.
fn since<'a>(
    case: &Case<'_, 'a>,
    before: &[Line<'a>],
    drain: &Line<'a>,
) -> Result<Vec<Due<'a>>, AllocError> {
    let mut all = Vec::new(case.alloc);
    for (place, line) in before.iter().enumerate() {
        let (template, text) = (line.number, line.bytes);
        if line.is(Deed::Drain, drain.service, drain.incarnation) {
            all = Vec::new(case.alloc);
        } else if line.deed == Deed::Publish && reads(case.site, drain.service, template) {
            let earlier = before.get(..place).unwrap_or(&[]);
            let edition = editions(earlier, template).saturating_add(1);
            all.push(Due {
                template,
                edition,
                text,
            })?;
        }
    }
    Ok(all)
}

/// The editions that are due to who drains behind these lines.
pub fn drained<'a>(
    case: &Case<'_, 'a>,
    before: &[Line<'a>],
    drain: &Line<'a>,
) -> Result<Vec<Due<'a>>, AllocError> {
    if !is_live(before, drain) {
        Ok(Vec::new(case.alloc))
    } else if has(before, Deed::Drain, drain.service, drain.incarnation) {
        since(case, before, drain)
    } else {
        current(case, before, drain.service)
    }
}

/// Whether a dialog heard this edition.
pub fn is_push(site: &Config, item: &Item, due: &Due<'_>) -> bool {
    let Item::Heard(
        ServerFrame::Push {
            template,
            edition,
            content,
        },
    ) = item
    else {
        return false;
    };
    let Some(name) = site.templates.as_slice().get(due.template as usize) else {
        return false;
    };
    name.as_slice() == template.as_slice()
        && *edition == due.edition
        && content.as_slice() == due.text
}
