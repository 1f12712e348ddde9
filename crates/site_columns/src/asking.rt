//! A site's columns as dialogs ask them: nobody else enters anything while a worker has them.

ghost use Rattle.std.specs.Prelude.{◌≡◌, IfOk, true};
ghost use Rattle.monitor_model.specs.Launcher.{begun};

use crate::columns::SiteColumns;
use index_keeper::IndexPin;
use monitor_model::record::Own;
use monitor_model::verdict::{Got, Noted, Push, Verdict};
use okws_base::items::{Exact, Items};
use okws_base::value::Token;
use okws_plan::event::{Call, LogEvent, Mark, ProxyEvent, PubdEvent};
use service_cell::columns::Columns;
use started_call::Started;
use std::alloc::{AllocError, Global};
use turn_lock::Journaled;

// A call that says the same.
fn copy_of_call(alloc: Global, call: &Call) -> Result<Call, AllocError>
    ensures { IfOk result (λ c. c ≡ call.now) }
{
    Ok(Call {
        service: call.service,
        incarnation: call.incarnation,
        session: call.session,
        query: call.query,
        args: call.args.copy(alloc)?,
    })
}

impl Columns for SiteColumns {
    type Pin = IndexPin;

    ghost asker = { λ a. record { config = a.config; worker = a.worker; alone = true } };

    ghost token_seed = { λ a. a.seed };

    ghost spare = { λ a. 0 };

    ghost seen = { λ a. a.seen };

    ghost shows = { λ a s k. k ≡ begun a.seen.launcher s };

    ghost may_ask = { λ a s k. Unit {0} };

    fn worker(&self) -> u16 {
        self.worker
    }

    fn proxies(&self) -> usize {
        self.config.proxies.as_slice().len()
    }

    fn current(&mut self, service: u16) -> u32 {
        self.greatest(service)
    }

    fn requested(&mut self, _service: u16) {}

    fn note(&mut self, item: Own) -> Result<(), AllocError> {
        self.own.make_room(1)?;
        self.own.enter(item);
        Ok(())
    }

    fn drain(&mut self, service: u16, incarnation: u32) -> Result<Vec<Push>, AllocError> {
        self.own.make_room(2)?;
        self.pubd.hold(self.worker);
        let pushes = self.pubd.drain(service, incarnation)?;
        self.own.enter(Own::Dialog(service));
        self.own.enter(Own::Pubd(PubdEvent::Drain {
            service,
            incarnation,
        }));
        Ok(pushes)
    }

    fn open_session(
        &mut self,
        proxy: u16,
        service: u16,
        incarnation: u32,
        shown: Token,
    ) -> Result<Verdict, AllocError> {
        let open = ProxyEvent::Open {
            service,
            incarnation,
            shown,
        };
        in_turn!(
            self.proxies,
            Own::Proxy(proxy, open),
            self.proxies
                .open_session(proxy, service, incarnation, shown)?
        )
    }

    fn call(&mut self, proxy: u16, call: Call) -> Result<Started<IndexPin>, AllocError> {
        let called = ProxyEvent::Call(copy_of_call(self.alloc, &call)?, Mark::Done);
        in_turn!(
            self.proxies,
            Own::Proxy(proxy, called),
            self.proxies.start(proxy, call)?
        )
    }

    fn get(&mut self, service: u16, incarnation: u32, name: Items<u8>) -> Result<Got, AllocError> {
        let get = PubdEvent::Get {
            service,
            incarnation,
            name: name.copy(self.alloc)?,
        };
        in_turn!(
            self.pubd,
            Own::Pubd(get),
            self.pubd.get(service, incarnation, name)?
        )
    }

    fn log(
        &mut self,
        service: u16,
        incarnation: u32,
        text: Items<u8>,
    ) -> Result<Noted, AllocError> {
        let log = LogEvent::Log {
            service,
            incarnation,
            text: text.copy(self.alloc)?,
        };
        in_turn!(
            self.oklogd,
            Own::Oklogd(log),
            self.oklogd.log(service, incarnation, text)?
        )
    }
}
