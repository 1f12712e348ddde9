//! The templates that came to a service: of each the last edition that it heard.

ghost use Rattle.std.specs.Prelude.{◌≡◌, ◌<◌, ◌++◌, ◌∷◌, [], length, map, option_map, OnOk, OnErr, MatchOption, Some, None};
ghost use Rattle.svc_kit.specs.Pages.{page_in, page_of, told, Keeps, IsPlace};

use frame_codec::frame::ServerFrame;
use okws_base::items::{Exact, Items};
use std::alloc::{AllocError, Global};

/// The last edition of a template that came.
#[derive(Drop)]
pub struct Page {
    name: Items<u8>,
    edition: u32,
    content: Items<u8>,
}

/// Of each template the last edition that came.
#[derive(Drop)]
pub struct Pages {
    pages: Vec<Page>,
    asked: Option<Items<u8>>,
}

/// The place of the page of a template.
fn place_of(pages: &[Page], name: &[u8]) -> Option<usize>
    ensures { MatchOption result (page_in pages.now name.now ≡ None) (λ i. IsPlace pages.now name.now i) }
{
    for (i, page) in pages.iter().enumerate() {
        if page.name.as_slice() == name {
            return Some(i);
        }
    }
    None
}

/// Keeps this edition of the template in the place of the one before it.
fn keep(
    alloc: Global,
    pages: &mut Vec<Page>,
    name: &[u8],
    edition: u32,
    content: &[u8],
) -> Result<(), AllocError>
    ensures kept { OnOk result (Keeps (Some (name.now, (edition, content.now))) (page_in pages.old.items) (page_in pages.new.items)) }
    ensures refused { OnErr result (pages.new.items ≡ pages.old.items) }
{
    let content = Items::of(Vec::from_slice(alloc, content)?);
    match place_of(pages, name) {
        Some(i) => {
            let page = &mut pages[i];
            page.edition = edition;
            page.content = content;
        }
        None => {
            let name = Items::of(Vec::from_slice(alloc, name)?);
            pages.push(Page {
                name,
                edition,
                content,
            })?;
        }
    }
    Ok(())
}

impl Pages {
    /// No template came; takes no memory.
    pub fn new(alloc: Global) -> Pages
        ensures pages { page_of result ≡ (λ name. None) }
        ensures asked { result.asked ≡ None }
    {
        Pages {
            pages: Vec::new(alloc),
            asked: None,
        }
    }

    /// A Get of the template was said: the Template that is heard next is of this name, which it doesn't tell itself.
    pub fn said(&mut self, alloc: Global, name: &[u8]) -> Result<(), AllocError>
        ensures pages { page_of self.new ≡ page_of self.old }
        ensures asked { OnOk result (self.new.asked ≡ Some name.now) }
        ensures refused { OnErr result (self.new.asked ≡ self.old.asked) }
    {
        self.asked = Some(Items::of(Vec::from_slice(alloc, name)?));
        Ok(())
    }

    /// Keeps the edition that a Push or a Template tells; any other frame tells none. Where memory is refused all is as
    /// before.
    pub fn heard(&mut self, alloc: Global, frame: &ServerFrame) -> Result<(), AllocError>
        ensures kept { OnOk result (Keeps (told self.old.asked frame.now) (page_of self.old) (page_of self.new)) }
        ensures refused { OnErr result (page_of self.new ≡ page_of self.old) }
        ensures asked { self.new.asked ≡ self.old.asked }
    {
        match frame {
            ServerFrame::Push {
                template,
                edition,
                content,
            } => keep(
                alloc,
                &mut self.pages,
                template.as_slice(),
                *edition,
                content.as_slice(),
            ),
            ServerFrame::Template { edition, content } => match &self.asked {
                Some(name) => keep(
                    alloc,
                    &mut self.pages,
                    name.as_slice(),
                    *edition,
                    content.as_slice(),
                ),
                None => Ok(()),
            },
            _ => Ok(()),
        }
    }

    /// The last edition of the template that came, and its text.
    pub fn page(&self, name: &[u8]) -> Option<(u32, &[u8])>
        ensures { option_map (λ page. (page.0, page.1.now)) result ≡ page_of self.now name.now }
    {
        let place = place_of(&self.pages, name)?;
        let page = &self.pages[place];
        Some((page.edition, page.content.as_slice()))
    }
}
