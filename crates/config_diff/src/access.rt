//! What services may do, apart from the site that they do it in.

use okws_base::items::Items;
use okws_plan::configuration::{Granted, Readable};

/// Which queries services may call, which templates they may read, and which of them may write to
/// the log. Services, proxies and templates stand by the numbers of a configuration.
pub struct Access {
    pub grants: Items<Granted>,
    pub readables: Items<Readable>,
    pub loggers: Items<u16>,
}

impl Drop for Access {
    fn drop(self) {
        let Access {
            grants,
            readables,
            loggers,
        } = self;
        drop(grants);
        drop(readables);
        drop(loggers);
    }
}
