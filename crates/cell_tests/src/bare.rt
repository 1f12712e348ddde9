//! Columns of a site with one service, one proxy and no grants, where one Drain may be entered.

ghost use Rattle.std.specs.Prelude.{◌≡◌, [], ◌∷◌, false};

use monitor_model::record::Own;
use monitor_model::verdict::{Got, Noted, Push, Verdict};
use okws_base::items::Items;
use okws_base::journal::{Entry, Journal};
use okws_base::value::Token;
use okws_outer::pinned::Listed;
use okws_outer::stream::Link;
use okws_plan::event::{Call, PubdEvent};
use service_cell::columns::{Columns, Hears};
use started_call::Started;
use std::alloc::{AllocError, Global};

/// The entries and the items of number 0, what the board shows, and how many incarnations are begun while
/// a dialog that `dialog` began waits behind its Request.
#[derive(Drop)]
pub(crate) struct Bare {
    alloc: Global,
    pub(crate) shown: u32,
    pub(crate) meanwhile: u32,
    drained: Journal<Entry<PubdEvent>>,
    own: Journal<Own>,
}

impl Bare {
    pub(crate) fn new(alloc: Global) -> Self {
        Bare {
            alloc,
            shown: 1,
            meanwhile: 0,
            drained: Journal::new(alloc, true),
            own: Journal::new(alloc, true),
        }
    }
}

impl Columns for Bare {
    ghost use Rattle.std.specs.Prelude.{[], ◌∷◌, false};

    type Pin = Listed;

    ghost asker = { λ b. record {
      config = record { proxies = record { name = []; tables = []; queries = [] } ∷ []; services = record { name = []; words = [] } ∷ []; templates = []; retry = 0; paths = []; grants = []; readables = []; loggers = [] };
      worker = 0;
      alone = false;
    } };

    ghost token_seed = { λ b. [] };

    ghost spare = { λ b. 0 };

    ghost seen = { λ b. record { okd = []; proxies = []; pubd = b.drained.past; oklogd = []; launcher = []; own = b.own.past } };

    ghost shows = { λ b s k. Unit {0} };

    ghost may_ask = { λ b s k. Unit {0} };

    fn worker(&self) -> u16 {
        0
    }

    fn proxies(&self) -> usize {
        1
    }

    fn current(&mut self, _service: u16) -> u32 {
        self.shown
    }

    fn requested(&mut self, _service: u16) {
        self.shown = self.shown.saturating_add(self.meanwhile);
    }

    fn note(&mut self, item: Own) -> Result<(), AllocError> {
        self.own.make_room(1)?;
        self.own.enter(item);
        Ok(())
    }

    fn drain(&mut self, service: u16, incarnation: u32) -> Result<Vec<Push>, AllocError> {
        match self.drained.as_slice() {
            Some(items) if items.is_empty() => {}
            _ => return Err(AllocError),
        }
        self.drained.make_room(1)?;
        self.own.make_room(2)?;
        self.own.enter(Own::Dialog(service));
        self.own.enter(Own::Pubd(PubdEvent::Drain {
            service,
            incarnation,
        }));
        self.drained.enter(Entry {
            worker: 0,
            event: PubdEvent::Drain {
                service,
                incarnation,
            },
        });
        Ok(Vec::new(self.alloc))
    }

    fn open_session(
        &mut self,
        _proxy: u16,
        _service: u16,
        _incarnation: u32,
        _shown: Token,
    ) -> Result<Verdict, AllocError> {
        Err(AllocError)
    }

    fn call(&mut self, _proxy: u16, _call: Call) -> Result<Started<Listed>, AllocError> {
        Err(AllocError)
    }

    fn get(
        &mut self,
        _service: u16,
        _incarnation: u32,
        _name: Items<u8>,
    ) -> Result<Got, AllocError> {
        Err(AllocError)
    }

    fn log(
        &mut self,
        _service: u16,
        _incarnation: u32,
        _text: Items<u8>,
    ) -> Result<Noted, AllocError> {
        Err(AllocError)
    }
}

impl<L: Link> Hears<L> for Bare {
    fn hear(&mut self, _link: &mut L) {}
}
