//! The site of the storms, and the keeper of its rows.

ghost use Rattle.std.specs.Prelude.{◌≡◌, IfOk, length, map, vec_len};
ghost use Rattle.std.specs.Arc.{arc_value};
ghost use Rattle.okws_plan.specs.Sound.{IsSound};
ghost use Rattle.config_reader.specs.Ruled.{AreRuled};
ghost use Rattle.site_making.specs.Keepers.{AreKeepers, IsKeeper, keeper_of};
ghost use Rattle.site_making.specs.Making.{IsServable};

use config_reader::read;
use index_keeper::IndexKeeper;
use okws_outer::keeper::Keeper;
use okws_plan::configuration::Config;
use outer_memory::keeper::FailingKeeper;
use site_columns::opening::{queries_at, read_names, tables_at};
use std::alloc::{AllocError, Global};
use std::process::Abort;
use std::sync::Arc;
use token_core::Seed;

/// Two services, of which one has a path, sessions, a template and the log, and the other a path and the log.
pub const SITE: &[u8] = b"okws 1\n\
    proxy main\n\
    table main msgs id INT KEY who TEXT\n\
    row main msgs 1 'ann'\n\
    row main msgs 2 'bob'\n\
    query main 1 SELECT id, who FROM msgs ORDER BY id\n\
    query main 2 SELECT id FROM msgs\n\
    query main 3 INSERT INTO msgs (id, who) VALUES (?1, ?2)\n\
    query main 4 DELETE FROM msgs WHERE id = ?1\n\
    service guest ./svc_guest\n\
    service other ./svc_probe\n\
    uri /guest guest\n\
    uri /other other\n\
    grant guest main 1 3 4\n\
    template page\n\
    template secret\n\
    read guest page\n\
    log guest\n";

/// The seed of its tokens.
pub const SEED: Seed = [7; 32];

/// The site, and the keepers of its rows.
#[derive(Drop)]
pub struct Ground<'a> {
    pub site: Arc<Config, Global>,
    pub keepers: Vec<FailingKeeper<'a, IndexKeeper>>,
}

/// The keeper of the rows of the first proxy, of which the calls of the numbers in `failing` fail.
fn keeper<'a>(
    alloc: Global,
    config: &Config,
    failing: &'a [u64],
) -> Result<FailingKeeper<'a, IndexKeeper>, AllocError>
    ensures { IfOk result (λ k. IsKeeper config.now 0 (keeper_of ⟦<FailingKeeper<'a, IndexKeeper> as Keeper>⟧.tables ⟦<FailingKeeper<'a, IndexKeeper> as Keeper>⟧.told ⟦<FailingKeeper<'a, IndexKeeper> as Keeper>⟧.faults ⟦<FailingKeeper<'a, IndexKeeper> as Keeper>⟧.steady k)) }
{
    let rows = IndexKeeper::new(alloc, tables_at(config, 0), queries_at(config, 0))?;
    Ok(FailingKeeper::new(rows, failing))
}

/// The site that was read, which has one proxy.
fn ground_of<'a>(
    alloc: Global,
    config: Config,
    failing: &'a [u64],
) -> Result<Ground<'a>, AllocError>
    requires sound { IsSound config }
    requires rules { AreRuled config }
    requires one { length config.proxies ≡ 1 }
    ensures servable { IfOk result (λ g. IsServable (arc_value g.site)) }
    ensures declared { IfOk result (λ g. vec_len g.keepers ≡ length (arc_value g.site).proxies) }
    ensures keepers { IfOk result (λ g. AreKeepers (arc_value g.site) 0 (map (keeper_of ⟦<FailingKeeper<'a, IndexKeeper> as Keeper>⟧.tables ⟦<FailingKeeper<'a, IndexKeeper> as Keeper>⟧.told ⟦<FailingKeeper<'a, IndexKeeper> as Keeper>⟧.faults ⟦<FailingKeeper<'a, IndexKeeper> as Keeper>⟧.steady) g.keepers.items)) }
{
    read_names(&config);
    let keeper = keeper(alloc, &config, failing)?;
    let mut keepers = Vec::new(alloc);
    keepers.push(keeper)?;
    let site = Arc::new(alloc, config)?;
    Ok(Ground { site, keepers })
}

/// A site that was read, which has one proxy, and the keeper of its rows, of which the calls of the numbers in `failing` fail.
pub fn read_ground<'a>(
    rt: &impl Abort,
    alloc: Global,
    site: &[u8],
    failing: &'a [u64],
) -> Ground<'a>
    ensures servable { IsServable (arc_value result.site) }
    ensures declared { vec_len result.keepers ≡ length (arc_value result.site).proxies }
    ensures keepers { AreKeepers (arc_value result.site) 0 (map (keeper_of ⟦<FailingKeeper<'a, IndexKeeper> as Keeper>⟧.tables ⟦<FailingKeeper<'a, IndexKeeper> as Keeper>⟧.told ⟦<FailingKeeper<'a, IndexKeeper> as Keeper>⟧.faults ⟦<FailingKeeper<'a, IndexKeeper> as Keeper>⟧.steady) result.keepers.items) }
{
    let config = match read(alloc, site) {
        Ok(config) => config,
        Err(_) => panic!(rt; "no lawful configuration"),
    };
    assert!(rt; config.proxies.as_slice().len() == 1);
    match ground_of(alloc, config, failing) {
        Ok(ground) => ground,
        Err(_) => panic!(rt; "memory was refused"),
    }
}
