//! Worked worlds, computed by the definitions alone.

ghost use Rattle.std.specs.Prelude.{◌≡◌, ◌∷◌, [], List, Some, None, map, is_some, true, false, codes, option_map};
ghost use Rattle.okws_base.specs.declared.value.Value.TheVariants as value;
ghost use Rattle.monitor_model.specs.Example.{A, int};
ghost use Rattle.two_worlds.specs.Agreement.{first_view, readable_names, right};
ghost use Rattle.two_worlds.specs.PubdSight.{Pushes, pubd_sight, pubd_verdicts};
ghost use Rattle.two_worlds.specs.Sight.{Noticed, proxy_sight, proxy_verdicts};
ghost use Rattle.two_worlds.specs.View.{TableView};
ghost use Rattle.two_worlds.specs.Worlds.{alone, beside_other, by_another, with_notes, with_third, beside_third, with_more, drains, drains_beside};

/// What guest and other see of the proxy's one table when a run begins: guest all columns, and its keys,
/// since it may insert; other the two columns that its one query lists. Where other may only select the notes
/// `hi`, it sees the rows with that note alone, in the column that is listed and in the one that is compared.
pub fn first_views()
    ensures guest { first_view A 0 0 ≡ record {
      table = codes "msgs";
      rows = (int 1 ∷ value.Text (codes "ann") ∷ value.Text (codes "hi") ∷ []) ∷ (int 2 ∷ value.Text (codes "bob") ∷ value.Text (codes "yo") ∷ []) ∷ [];
      keys = int 1 ∷ int 2 ∷ [];
    } ∷ [] }
    ensures other { first_view A 1 0 ≡ record {
      table = codes "msgs";
      rows = (int 1 ∷ value.Text (codes "ann") ∷ []) ∷ (int 2 ∷ value.Text (codes "bob") ∷ []) ∷ [];
      keys = [];
    } ∷ [] }
    ensures notes { first_view with_notes 1 0 ≡ record {
      table = codes "msgs";
      rows = (int 1 ∷ value.Text (codes "hi") ∷ []) ∷ [];
      keys = [];
    } ∷ [] }
    ensures added { first_view with_third 0 0 ≡ first_view A 0 0 }
{}

/// Where only others do more, guest's sights and verdicts are the same, whichever worker entered for it. A row
/// that another writes and guest sees is carried by its next Call.
pub fn sights()
    ensures same { proxy_sight A 0 0 alone ≡ proxy_sight A 0 0 beside_other }
    ensures answered { proxy_verdicts A 0 0 alone ≡ proxy_verdicts A 0 0 beside_other }
    ensures workers { proxy_sight A 0 0 (by_another alone) ≡ proxy_sight A 0 0 alone }
    ensures nothing_carried { map (λ (n : Noticed). is_some n.view) (proxy_sight A 0 0 beside_other) ≡ false ∷ false ∷ false ∷ false ∷ false ∷ [] }
    ensures one_carried { map (λ (n : Noticed). is_some n.view) (proxy_sight with_third 0 0 beside_third) ≡ false ∷ true ∷ false ∷ false ∷ false ∷ [] }
{}

/// A table that nobody is granted, another order of the queries and a query more change nothing for guest.
pub fn added_unseen()
    ensures first { first_view with_more 0 0 ≡ first_view A 0 0 }
    ensures reads { right with_more 0 0 1 ≡ right A 0 0 1 }
    ensures inserts { right with_more 0 0 2 ≡ right A 0 0 2 }
    ensures none { right with_more 0 0 9 ≡ right A 0 0 9 }
    ensures sights { proxy_sight with_more 0 0 beside_other ≡ proxy_sight A 0 0 alone }
    ensures verdicts { proxy_verdicts with_more 0 0 beside_other ≡ proxy_verdicts A 0 0 alone }
{}

/// A publication that guest doesn't read, and what another does, is not seen at pubd.
pub fn pubd_sights()
    ensures same { pubd_sight A 0 drains ≡ pubd_sight A 0 drains_beside }
    ensures answered { pubd_verdicts A 0 drains ≡ pubd_verdicts A 0 drains_beside }
    ensures pushed { pubd_verdicts A 0 drains_beside ≡ Some (Pushes (record { template = codes "page"; edition = 1; content = codes "a" } ∷ [])) ∷ None ∷ None ∷ [] }
    ensures workers { pubd_sight A 0 (by_another drains) ≡ pubd_sight A 0 drains }
    ensures names { readable_names A 0 ≡ codes "page" ∷ [] }
{}
